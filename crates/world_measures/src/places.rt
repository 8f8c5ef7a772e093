//! Where the entries of a topic stand.
ghost use Rattle.std.specs.Prelude.{◌≡◌, List, ℕ, IfOk, OnErr, OnOk};
ghost use Rattle.geo_base.specs.declared.entry.Entry.{Entry};
ghost use Rattle.indexmap.specs.IndexMap.{insert_entry};
ghost use Rattle.loss_laws.specs.Lost.{place_of, stands};
ghost use Rattle.world_measures.specs.Places.{Row, Tells, identity_of, is_identity, place_in};

use crate::identity::Identity;
use geo_base::{EntryStore, Ident, Memory};
use indexmap::IndexMap;
use std::alloc::Global;
use std::marker::Model;
use topic_store::TopicLedger;

/// Of each identity the first index at which an entry of it stands.
#[derive(Drop)]
pub(crate) struct PlaceTable {
    first: IndexMap<Identity, usize>,
}

impl Model for PlaceTable {
    ghost use Rattle.std.specs.Prelude.{List};
    ghost use Rattle.world_measures.specs.Places.{Row};

    ghost Value = { List Row };

    ghost view = { λ t. t.first.entries };
}

impl PlaceTable {
    /// The table of a topic's entries: the last ones are noted first, so that of two of one identity the first one stays.
    pub(crate) fn of(alloc: Global, store: &TopicLedger) -> Result<PlaceTable, Memory>
        ensures { IfOk result (λ t. Tells t store.now.entries) }
    {
        let mut first = IndexMap::new(alloc);
        let mut index = store.len();
        while index > 0 {
            index -= 1;
            if let Some(entry) = store.get(index) {
                note(alloc, &mut first, &entry.ident, index)?;
            }
        }
        Ok(PlaceTable { first })
    }

    /// Where the first entry of an identity stands.
    pub(crate) fn place_of(&self, alloc: Global, ident: &Ident) -> Result<Option<usize>, Memory>
        ensures { IfOk result (λ o. (es : List Entry) → Tells self.now es → o ≡ place_of es ident.now) }
    {
        let identity = Identity::of(alloc, ident)?;
        let place = self.place_in(&identity);
        drop(identity);
        Ok(place)
    }

    /// Whether an entry of an identity stands.
    pub(crate) fn has(&self, alloc: Global, ident: &Ident) -> Result<bool, Memory>
        ensures { IfOk result (λ b. (es : List Entry) → Tells self.now es → b ≡ stands es ident.now) }
    {
        match self.place_of(alloc, ident)? {
            Some(_) => Ok(true),
            None => Ok(false),
        }
    }

    fn place_in(&self, identity: &Identity) -> Option<usize>
        ensures { result ≡ place_in self.now identity.now }
    {
        self.first.get(identity).copied()
    }
}

/// The table says that an entry of an identity stands at an index. It stays where memory is wanting.
fn note(
    alloc: Global,
    first: &mut IndexMap<Identity, usize>,
    ident: &Ident,
    index: usize,
) -> Result<(), Memory>
    ensures ok { OnOk result (first.new.entries ≡ insert_entry is_identity first.old.entries (identity_of ident.now) index) }
    ensures err { OnErr result (first.new.entries ≡ first.old.entries) }
{
    let identity = Identity::of(alloc, ident)?;
    first.insert(identity, index)?;
    Ok(())
}
