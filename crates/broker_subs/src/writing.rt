//! What a durable write does to a subscription.
ghost use Rattle.std.specs.Prelude.{◌≡◌, ◌≤◌, ◌<◌, ◌+◌, ◌^◌, length};
ghost use Rattle.std.specs.List.{All};
ghost use Rattle.geo_base.specs.Cursor.{below, with_indexes};
ghost use Rattle.geo_base.specs.Subscription.{sought, with_acks};
ghost use Rattle.geo_base.specs.Updating.{updated_indexes};
ghost use Rattle.replicated_subs.specs.Alone.{alone};
ghost use Rattle.broker_subs.specs.Steps.{SubWriteFits, acks_after, acks_needed, sub_written};

use crate::fresh::{Fresh, note};
use crate::sub::Sub;
use cursor_acks::Cursor;
use geo_base::{EntryStore, Sequence, SubKind};

/// A durable write of a subscription that is here, with all the memory that it takes.
#[derive(Drop)]
pub enum SubWrite {
    /// The cursor gains some indexes.
    Acks(Sequence<u64>),
    /// The cursor gains all indexes up to one.
    AckTo(u64),
    /// The cursor gains what an update of a cluster passes over up to an index, which stand alone at most so often.
    UpdateTo { index: u64, from: u32, runs: usize },
    /// The cursor becomes all below an index.
    Seek(u64),
    /// The kind is another, or it is marked replicated.
    Alter { kind: SubKind, replicated: bool },
}

impl Sub {
    /// Does a write, in the topic of a store. It takes no memory.
    pub fn write<S: EntryStore>(&mut self, write: SubWrite, store: &S)
        requires acks { acks_needed write ≤ self.old.acks }
        requires fits { SubWriteFits (S.entries store.now) self.old.sub write }
        ensures sub { self.new.sub ≡ sub_written (S.entries store.now) write self.old.sub }
        ensures room { self.new.room ≡ self.old.room }
        ensures acks { acks_after self.old.acks write ≤ self.new.acks }
    {
        let len = store.len() as u64;
        match write {
            SubWrite::Acks(indexes) => self.acknowledge(indexes, len),
            SubWrite::AckTo(index) => self.acknowledge_to(index, len),
            SubWrite::UpdateTo { index, from, .. } => self.update_to(store, index, from),
            SubWrite::Seek(index) => self.seek(index, len),
            SubWrite::Alter { kind, replicated } => self.alter(kind, replicated),
        }
    }

    #[tactic(auto, using(crate::proofs::Told::holds_each))]
    fn acknowledge(&mut self, indexes: Sequence<u64>, len: u64)
        requires acks { length indexes ≤ self.old.acks }
        requires within { All (λ i. i < len) indexes }
        ensures sub { self.new.sub ≡ with_acks indexes self.old.sub }
        ensures room { self.new.room ≡ self.old.room }
        ensures acks { self.old.acks ≤ self.new.acks + length indexes }
    {
        acknowledge(&mut self.durable.cursor, indexes.as_slice(), len);
        note(&mut self.fresh, Fresh::Each(indexes));
    }

    #[tactic(auto, using(crate::proofs::Told::holds_to))]
    pub(crate) fn acknowledge_to(&mut self, index: u64, len: u64)
        requires acks { 0 < self.old.acks }
        requires within { index < len }
        ensures sub { self.new.sub ≡ with_acks (below (index + 1)) self.old.sub }
        ensures room { self.new.room ≡ self.old.room }
        ensures acks { self.old.acks ≤ self.new.acks + 1 }
    {
        match self.durable.cursor.ack_to(index, len) {
            Ok(()) => {}
            Err(_) => unreachable!(),
        }
        note(&mut self.fresh, Fresh::To(index));
    }

    #[tactic(auto, using(crate::proofs::Told::holds_any))]
    fn update_to<S: EntryStore>(&mut self, store: &S, index: u64, from: u32)
        requires acks { alone self.old.sub.cursor (updated_indexes from 0 (index + 1) (S.entries store.now)) ≤ self.old.acks }
        requires within { index < length (S.entries store.now) }
        ensures sub { self.new.sub ≡ with_acks (updated_indexes from 0 (index + 1) (S.entries store.now)) self.old.sub }
        ensures room { self.new.room ≡ self.old.room }
    {
        match replicated_subs::apply(&mut self.durable.cursor, store, index, from) {
            Ok(()) => {}
            Err(_) => unreachable!(),
        }
        self.fresh = Fresh::Any;
    }

    #[tactic(auto, using(crate::proofs::Told::holds_any))]
    fn seek(&mut self, index: u64, len: u64)
        requires acks { 0 < self.old.acks }
        requires within { index ≤ len }
        requires fits { self.old.sub.seeks + 1 < 2 ^ 64 }
        ensures sub { self.new.sub ≡ sought index self.old.sub }
        ensures room { self.new.room ≡ self.old.room }
        ensures acks { self.old.acks ≤ self.new.acks + 1 }
    {
        match self.durable.cursor.seek_to(index, len) {
            Ok(()) => {}
            Err(_) => unreachable!(),
        }
        self.durable.seeks += 1;
        self.fresh = Fresh::Any;
    }

    #[tactic(auto, using(crate::proofs::Told::holds_kind))]
    fn alter(&mut self, kind: SubKind, replicated: bool)
        requires { 0 < length self.old.sub.consumers → kind ≡ self.old.sub.kind }
        ensures { self.new ≡ record self.old { sub = record self.old.sub { kind = kind; replicated = replicated } } }
    {
        self.durable.alter(kind, replicated);
    }
}

/// Acknowledges some indexes of a topic of so many entries.
fn acknowledge(cursor: &mut Cursor, indexes: &[u64], len: u64)
    requires room { length indexes.now ≤ cursor.old.spare }
    requires within { All (λ i. i < len) indexes.now }
    ensures indexes { cursor.new.indexes ≡ with_indexes cursor.old.indexes indexes.now }
    ensures spare { cursor.old.spare ≤ cursor.new.spare + length indexes.now }
{
    for index in indexes {
        match cursor.ack_one(*index, len) {
            Ok(()) => {}
            Err(_) => unreachable!(),
        }
    }
}
