//! The entries of a topic, and where the first of each identity stands.
ghost use Rattle.std.specs.Prelude.{◌≡◌, ◌<◌, [], ◌∷◌, ◌++◌, Some, length, slice_get, IfSome, OnOk, OnErr};
ghost use Rattle.audit.specs.Stored.{identity_of, place_in};
ghost use Rattle.observation.specs.Observed.{first_from, stands_at};
ghost use Rattle.observe.specs.Kept.{EntryAt, IdentOf, with_first};

use audit::{Identity, is_same_entry};
use geo_base::{Entry, Ident, Memory};
use indexmap::IndexMap;
use std::alloc::Global;
use std::marker::Model;

/// Entries with their identities, and a table that tells where the first of an identity stands.
#[derive(Drop)]
pub(crate) struct KeptEntries {
    entries: Vec<Entry>,
    identities: Vec<Identity>,
    firsts: IndexMap<Identity, usize>,
}

impl Model for KeptEntries {
    ghost use Rattle.std.specs.Prelude.{List};
    ghost use Rattle.geo_base.specs.declared.entry.Entry.{Entry};
    ghost use Rattle.observe.specs.Kept.{AreKept};

    ghost Value = { List Entry };

    ghost view = { λ k. k.entries.items };

    ghost invariant = { λ k. AreKept k.entries.items k.identities.items k.firsts.entries };
}

impl KeptEntries {
    /// None; takes no memory.
    #[tactic(auto, using(crate::proofs::Firsts::kept_none))]
    pub(crate) fn new(alloc: Global) -> KeptEntries
        ensures { result ≡ [] }
    {
        KeptEntries {
            entries: Vec::new(alloc),
            identities: Vec::new(alloc),
            firsts: IndexMap::new(alloc),
        }
    }

    /// The entries.
    pub(crate) fn entries(&self) -> &[Entry]
        ensures { result.now ≡ self.now }
    {
        self.entries.as_slice()
    }

    /// The identity of the entry at an index.
    #[tactic(auto, using(crate::proofs::Firsts::identity_is))]
    pub(crate) fn identity_at(&self, index: usize) -> &Identity
        requires { index < length self.now }
        ensures { (e : EntryAt) → slice_get self.now index ≡ Some e → result.now ≡ identity_of e.ident }
    {
        &self.identities[index]
    }

    /// The index of the first entry of an identity; None where none is of it.
    #[tactic(auto, using(crate::proofs::Firsts::found_first))]
    pub(crate) fn first_of(&self, identity: &Identity) -> Option<usize>
        ensures { (g : IdentOf) → identity.now ≡ identity_of g → result ≡ first_from 0 self.now g }
    {
        place_told(&self.firsts, identity)
    }

    /// Where an entry of an identity stands: at the index of the first one of it, where that is the same entry.
    #[tactic(auto, unfolding(observation::specs::Observed::stands_at), using(crate::proofs::Firsts::found_first))]
    pub(crate) fn place_of(&self, entry: &Entry, identity: &Identity) -> Option<usize>
        requires { identity.now ≡ identity_of entry.now.ident }
        ensures place { result ≡ stands_at entry.now self.now }
        ensures within { IfSome result (λ place. place < length self.now) }
    {
        let at = self.first_of(identity)?;
        let first = self.entries.get(at)?;
        if is_same_entry(entry, first) {
            Some(at)
        } else {
            None
        }
    }

    /// One more entry after the others; unchanged where memory is wanting.
    #[tactic(auto, using(crate::proofs::Firsts::kept_more))]
    pub(crate) fn push(&mut self, alloc: Global, entry: Entry) -> Result<(), Memory>
        ensures ok { OnOk result (self.new ≡ self.old ++ entry ∷ []) }
        ensures err { OnErr result (self.new ≡ self.old) }
    {
        self.entries.reserve(1)?;
        self.identities.reserve(1)?;
        let identity = Identity::of(alloc, &entry.ident)?;
        tell_first(alloc, &mut self.firsts, &entry.ident, self.entries.len())?;
        self.identities.push_reserved(identity);
        self.entries.push_reserved(entry);
        Ok(())
    }
}

/// Where the table says that the first entry of an identity stands.
fn place_told(firsts: &IndexMap<Identity, usize>, identity: &Identity) -> Option<usize>
    ensures { result ≡ place_in firsts.now.entries identity.now }
{
    firsts.get(identity).copied()
}

/// The table tells that the first entry of an identity stands at a place, where it does not tell of one yet. It stays where memory is wanting.
fn tell_first(
    alloc: Global,
    firsts: &mut IndexMap<Identity, usize>,
    ident: &Ident,
    place: usize,
) -> Result<(), Memory>
    ensures ok { OnOk result (firsts.new.entries ≡ with_first firsts.old.entries (identity_of ident.now) place) }
    ensures err { OnErr result (firsts.new.entries ≡ firsts.old.entries) }
{
    let identity = Identity::of(alloc, ident)?;
    if place_told(firsts, &identity).is_some() {
        return Ok(());
    }
    firsts.insert(identity, place)?;
    Ok(())
}
