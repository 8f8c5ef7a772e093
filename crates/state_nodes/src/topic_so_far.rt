//! The entries of a topic so far, with what tells whether one more may stand after them.
ghost use Rattle.std.specs.Prelude.{◌≡◌, ◌==◌, ◌&&◌, ◌<◌, ◌∷◌, [], ◌++◌, true, vec_capacity, vec_len, IfOk, OnOk};
ghost use Rattle.std.specs.Str.{bytes_eq};
ghost use Rattle.geo_base.specs.Entry.{marker_producer};
ghost use Rattle.state_nodes.specs.Entries.{is_in_turn, is_next};
ghost use Rattle.state_nodes.specs.TopicSoFar.{is_new, is_turn, last_with};

use durable_parts::is_own_marker;
use geo_base::{Entry, Ident, Memory};
use std::alloc::Global;
use std::marker::Model;
use topic_store::{DedupTable, Stream, Verdict};

/// Entries of the topic of the cluster `own`, each of which was in turn. `last` is the sequence id of its last own marker.
#[derive(Drop)]
pub(crate) struct TopicSoFar {
    own: u32,
    entries: Vec<Entry>,
    dedup: DedupTable,
    last: Option<u64>,
}

impl Model for TopicSoFar {
    ghost use Rattle.topic_store.specs.Table.{Tells};
    ghost use Rattle.state_nodes.specs.TopicSoFar.{EntryList, TellsLast};

    ghost Value = { EntryList };

    ghost view = { λ b. record { own = b.own; entries = b.entries.items } };

    ghost invariant = { λ b. Tells b.dedup.rows b.entries.items × TellsLast b.own b.entries.items b.last };
}

impl TopicSoFar {
    /// No entry; takes no memory.
    #[tactic(auto, using(topic_store::proofs::Tells::tells_none))]
    pub(crate) fn new(alloc: Global, own: u32) -> TopicSoFar
        ensures { result ≡ record { own = own; entries = [] } }
    {
        TopicSoFar {
            own,
            entries: Vec::new(alloc),
            dedup: DedupTable::new(alloc),
            last: None,
        }
    }

    /// The cluster whose topic it is.
    pub(crate) fn own(&self) -> u32
        ensures { result ≡ self.now.own }
    {
        self.own
    }

    /// The entries; takes no memory.
    pub(crate) fn into_entries(self) -> Vec<Entry>
        ensures { result.items ≡ self.entries }
    {
        self.entries
    }

    /// Whether an entry may stand next: it is no duplicate, and an own marker has the next number.
    #[tactic(auto, using(crate::proofs::Turns::next_is))]
    pub(crate) fn is_next(&self, alloc: Global, ident: &Ident) -> Result<bool, Memory>
        ensures { IfOk result (λ b. b ≡ is_next self.now.own self.now.entries ident.now) }
    {
        let stream = Stream::of(alloc, ident)?;
        let is_new = is_new(self.dedup.check(&stream, ident.seq));
        let is_in_turn = self.is_in_turn(ident);
        Ok(is_new && is_in_turn)
    }

    /// Whether an identity is not that of an own marker, or that of the next one.
    #[tactic(auto, using(crate::proofs::Turns::turn_is, crate::proofs::Turns::other_turn))]
    fn is_in_turn(&self, ident: &Ident) -> bool
        ensures { result ≡ is_in_turn self.now.own self.now.entries ident.now }
    {
        if !is_own_marker(self.own, ident) {
            return true;
        }
        is_turn(self.last, ident.seq)
    }

    /// One more entry, which is next.
    #[tactic(auto, using(crate::proofs::Turns::new_is))]
    pub(crate) fn push(&mut self, alloc: Global, entry: Entry) -> Result<(), Memory>
        requires { is_next self.old.own self.old.entries entry.ident ≡ true }
        ensures { OnOk result (self.new ≡ record { own = self.old.own; entries = self.old.entries ++ entry ∷ [] }) }
    {
        let Ok(stream) = Stream::of(alloc, &entry.ident) else {
            drop(entry);
            return Err(Memory);
        };
        let Ok(()) = room_for_one(&mut self.dedup, &mut self.entries) else {
            drop(stream);
            drop(entry);
            return Err(Memory);
        };
        let last = last_with(
            is_own_marker(self.own, &entry.ident),
            entry.ident.seq,
            self.last,
        );
        self.dedup.note(stream, entry.ident.seq);
        self.entries.push_reserved(entry);
        self.last = last;
        Ok(())
    }
}

/// Room for one row and one entry more, which change in nothing else.
fn room_for_one(dedup: &mut DedupTable, entries: &mut Vec<Entry>) -> Result<(), Memory>
    ensures rows { dedup.new.rows ≡ dedup.old.rows }
    ensures room { OnOk result (0 < dedup.new.room) }
    ensures items { entries.new.items ≡ entries.old.items }
    ensures spare { OnOk result (vec_len entries.new < vec_capacity entries.new) }
{
    dedup.reserve(1)?;
    entries.reserve(1)?;
    Ok(())
}

/// Whether a sequence id is no duplicate.
fn is_new(verdict: Verdict) -> bool
    ensures { result ≡ is_new verdict }
{
    matches!(verdict, Verdict::New)
}

/// The last own marker's number after one more entry.
fn last_with(is_marker: bool, seq: u64, last: Option<u64>) -> Option<u64>
    ensures { result ≡ last_with is_marker seq last }
{
    if is_marker { Some(seq) } else { last }
}

/// Whether a number comes next after the last one.
fn is_turn(last: Option<u64>, seq: u64) -> bool
    ensures { result ≡ is_turn last seq }
{
    match last {
        None => seq == 0,
        Some(last) => seq > 0 && seq - 1 == last,
    }
}
