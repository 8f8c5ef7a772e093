//! A topic at one cluster, as far as it was read.
ghost use Rattle.std.specs.Prelude.{◌≡◌, ◌<◌, true, false, [], ◌∷◌, ◌++◌, Some, length, replicate, slice_get, slice_index_or, slice_set, IfOk, IfSome, OnOk, OnErr};
ghost use Rattle.geo_base.specs.Cursor.{has};
ghost use Rattle.geo_base.specs.Mirror.{index_at};
ghost use Rattle.audit.specs.Stored.{identity_of};
ghost use Rattle.observation.specs.Observed.{first_from, is_above_all, stands_at};
ghost use Rattle.observe.specs.Kept.{EntryAt, IdentOf};
ghost use Rattle.observe.specs.Reads.{has_cursor};

use crate::cursors::{Received, SubCursor};
use crate::kept::KeptEntries;
use audit::{Identity, index_at};
use cursor_acks::Cursor;
use geo_base::{Entry, Memory, Position, Text};
use std::alloc::Global;
use std::marker::Model;

/// The entries of a topic at a cluster with their positions, which ascend; the cursors of subscriptions, and by cluster what the cursor of
/// the replicator to it has. Where the topic was not read, there is nothing of it.
#[derive(Drop)]
pub struct SeenTopic {
    is_read: bool,
    kept: KeptEntries,
    positions: Vec<Position>,
    subs: Vec<SubCursor>,
    received: Vec<Received>,
}

impl Model for SeenTopic {
    ghost use Rattle.observation.specs.Observed.{Seen};
    ghost use Rattle.observe.specs.Kept.{ArePlaced};

    ghost Value = { Seen };

    ghost view = { λ s. record { is_read = s.is_read; topic = record { entries = s.kept; positions = s.positions.items; subs = s.subs.items }; received = s.received.items } };

    ghost invariant = { λ s. ArePlaced s.kept s.positions.items };
}

impl SeenTopic {
    /// Nothing of it so far, beside so many clusters. An `Err` is want of memory.
    #[tactic(auto, using(crate::proofs::Above::placed_none))]
    pub(crate) fn new(alloc: Global, clusters: usize) -> Result<SeenTopic, Memory>
        ensures { IfOk result (λ seen. seen ≡ record { is_read = true; topic = record { entries = []; positions = []; subs = [] }; received = replicate clusters [] }) }
    {
        let mut received = Vec::new(alloc);
        for _cluster in 0..clusters {
            received.push(Received::none(alloc))?;
        }
        Ok(SeenTopic {
            is_read: true,
            kept: KeptEntries::new(alloc),
            positions: Vec::new(alloc),
            subs: Vec::new(alloc),
            received,
        })
    }

    /// Whether it was read.
    pub fn is_read(&self) -> bool
        ensures { result ≡ self.now.is_read }
    {
        self.is_read
    }

    /// It was not read.
    pub fn set_unread(&mut self)
        ensures { self.new ≡ record { is_read = false; topic = self.old.topic; received = self.old.received } }
    {
        self.is_read = false;
    }

    /// The entries.
    pub fn entries(&self) -> &[Entry]
        ensures { result.now ≡ self.now.topic.entries }
    {
        self.kept.entries()
    }

    /// The identity of the entry at an index.
    pub(crate) fn identity_at(&self, index: usize) -> &Identity
        requires { index < length self.now.topic.entries }
        ensures { (e : EntryAt) → slice_get self.now.topic.entries index ≡ Some e → result.now ≡ identity_of e.ident }
    {
        self.kept.identity_at(index)
    }

    /// The cursors, in the order in which they were read.
    pub fn subs(&self) -> &[SubCursor]
        ensures { result.now ≡ self.now.topic.subs }
    {
        self.subs.as_slice()
    }

    /// Whether a position is above all that was read.
    #[tactic(auto, using(crate::proofs::Above::above_none, crate::proofs::Above::above_last))]
    pub fn is_above_all(&self, position: &Position) -> bool
        ensures { result ≡ is_above_all position.now self.now.topic.positions }
    {
        if self.positions.is_empty() {
            return true;
        }
        self.positions[self.positions.len() - 1].is_before(position)
    }

    /// The index of a position; None where nothing stands there.
    #[tactic(auto, using(crate::proofs::Above::index_within))]
    pub(crate) fn index_at(&self, position: &Position) -> Option<usize>
        ensures index { result ≡ index_at self.now.topic position.now }
        ensures within { IfSome result (λ index. index < length self.now.topic.entries) }
    {
        index_at(self.positions.as_slice(), position)
    }

    /// The index of the first entry of an identity.
    pub(crate) fn first_of(&self, identity: &Identity) -> Option<usize>
        ensures { (g : IdentOf) → identity.now ≡ identity_of g → result ≡ first_from 0 self.now.topic.entries g }
    {
        self.kept.first_of(identity)
    }

    /// Where an entry of an identity stands.
    pub(crate) fn place_of(&self, entry: &Entry, identity: &Identity) -> Option<usize>
        requires { identity.now ≡ identity_of entry.now.ident }
        ensures place { result ≡ stands_at entry.now self.now.topic.entries }
        ensures within { IfSome result (λ place. place < length self.now.topic.entries) }
    {
        self.kept.place_of(entry, identity)
    }

    /// One more entry after the others, at a position above theirs; unchanged where memory is wanting.
    #[tactic(auto, using(crate::proofs::Above::placed_more))]
    pub fn push_entry(
        &mut self,
        alloc: Global,
        position: Position,
        entry: Entry,
    ) -> Result<(), Memory>
        requires { is_above_all position self.old.topic.positions ≡ true }
        ensures read { self.new.is_read ≡ self.old.is_read }
        ensures received { self.new.received ≡ self.old.received }
        ensures ok { OnOk result (self.new.topic ≡ record { entries = self.old.topic.entries ++ entry ∷ []; positions = self.old.topic.positions ++ position ∷ []; subs = self.old.topic.subs }) }
        ensures err { OnErr result (self.new.topic ≡ self.old.topic) }
    {
        self.positions.reserve(1)?;
        self.kept.push(alloc, entry)?;
        self.positions.push_reserved(position);
        Ok(())
    }

    /// Whether the cursor of a subscription was read.
    pub fn has_cursor(&self, name: &Text) -> bool
        ensures { result ≡ has_cursor self.now.topic.subs name.now }
    {
        self.subs
            .iter()
            .any(|sub| sub.name().as_bytes() == name.as_bytes())
    }

    /// A subscription's cursor. An `Err` is want of memory, with no change.
    pub fn push_cursor(&mut self, name: Text, cursor: Cursor) -> Result<(), Memory>
        ensures read { self.new.is_read ≡ self.old.is_read }
        ensures received { self.new.received ≡ self.old.received }
        ensures ok { OnOk result (self.new.topic ≡ record { entries = self.old.topic.entries; positions = self.old.topic.positions; subs = self.old.topic.subs ++ record { name = name; cursor = cursor.indexes } ∷ [] }) }
        ensures err { OnErr result (self.new.topic ≡ self.old.topic) }
    {
        self.subs.push(SubCursor::new(name, cursor))?;
        Ok(())
    }

    /// The cursor of the replicator to a cluster.
    pub fn set_received(&mut self, cluster: u32, cursor: Cursor)
        requires { cluster < length self.old.received }
        ensures { self.new ≡ record { is_read = self.old.is_read; topic = self.old.topic; received = slice_set self.old.received cluster cursor.indexes } }
    {
        self.received[cluster as usize] = Received::of(cursor);
    }

    /// Whether the cursor of the replicator to a cluster has an index.
    pub(crate) fn is_received(&self, cluster: u32, index: usize) -> bool
        ensures { result ≡ has (slice_index_or self.now.received cluster []) index }
    {
        match self.received.get(cluster as usize) {
            Some(received) => received.has(index),
            None => false,
        }
    }
}
