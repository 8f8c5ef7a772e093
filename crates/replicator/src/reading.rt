//! What a replicator reads.
ghost use Rattle.std.specs.Prelude.{◌≡◌, ◌≤◌, ◌<◌, ◌+◌, ◌^◌, ◌==◌, ◌&&◌, [], Some, length, IfSome};
ghost use Rattle.geo_base.specs.Replicator.{index_to_read};
ghost use Rattle.replicator.specs.Reading.{ReadFits, after_read, read_out, read_out_entry, read_out_other, room_after};
ghost use Rattle.replicator.specs.Sending.{replicator_with, sending_of};

use crate::replicator::Replicator;
use cursor_acks::Cursor;
use geo_base::{Content, Entry, EntryStore, ReplicatorState};

/// What a replicator does with the entry that it reads next.
#[derive(Clone, Copy, Drop, PartialEq, Eq)]
pub enum ReadOut {
    /// There is nothing to read, or the session is not open.
    Idle,
    /// The entry at an index does not go to the other cluster: its index is to be acknowledged on the cursor.
    Skip(u64),
    /// The entry at an index is a marker of the other cluster, to be acted on before its index is acknowledged on the cursor.
    Mark(u64),
    /// The entry at an index is sent under a number of the session.
    Send(u64, u64),
}

impl Replicator {
    /// The index to read next: the least one from where reading goes on that the cursor lacks; `None` exactly where there is
    /// none, or the session is not open.
    pub fn index_to_read<S: EntryStore>(&self, store: &S, cursor: &Cursor) -> Option<u64>
        ensures index { result ≡ index_to_read self.now.sending.state (replicator_with cursor.now.indexes self.now.sending) (length (S.entries store.now)) }
        ensures within { IfSome result (λ i. i < length (S.entries store.now)) }
        ensures next { IfSome result (λ i. self.now.sending.next ≤ i) }
        ensures fits { IfSome result (λ i. i + 1 < 2 ^ 64) }
    {
        match self.state() {
            ReplicatorState::Open => {
                let index = cursor.next_open(self.read_index());
                if index < store.len() as u64 {
                    Some(index)
                } else {
                    None
                }
            }
            ReplicatorState::Opening | ReplicatorState::Closed => None,
        }
    }

    /// What `read` would answer.
    pub fn next_read<S: EntryStore>(&self, store: &S, cursor: &Cursor) -> ReadOut
        ensures read { result ≡ read_out self.now.own self.now.remote (replicator_with cursor.now.indexes self.now.sending) (S.entries store.now) }
        ensures fits { ReadFits self.now.remote self.now.sending.next (S.entries store.now) result }
    {
        let Some(index) = self.index_to_read(store, cursor) else {
            return ReadOut::Idle;
        };
        match store.get(index as usize) {
            None => ReadOut::Idle,
            Some(entry) => self.read_entry(index, entry),
        }
    }

    /// Reads on: the entry at the least index that the cursor lacks, from where reading goes on. What the own cluster stored first
    /// and is meant for the other one is to be sent and awaits a receipt from now on; nothing else is sent, so no message is
    /// replicated twice. It needs one of room, and takes it where an entry is to be sent.
    pub fn read<S: EntryStore>(&mut self, store: &S, cursor: &Cursor) -> ReadOut
        requires { 0 < self.old.room }
        ensures read { result ≡ read_out self.old.own self.old.remote (replicator_with cursor.now.indexes self.old.sending) (S.entries store.now) }
        ensures after { self.new ≡ record self.old { sending = sending_of (after_read result (replicator_with [] self.old.sending)); room = room_after result self.old.room } }
    {
        let read = self.next_read(store, cursor);
        match read {
            ReadOut::Idle => {}
            ReadOut::Skip(index) | ReadOut::Mark(index) => self.read_to(index + 1),
            ReadOut::Send(index, _) => self.pend(index),
        }
        read
    }

    /// What is done with an entry.
    fn read_entry(&self, index: u64, entry: &Entry) -> ReadOut
        ensures { result ≡ read_out_entry self.now.own self.now.remote self.now.sending.next index (Some entry.now) }
    {
        if entry.ident.origin == self.own() && entry.to.contains(self.remote()) {
            return ReadOut::Send(index, self.next());
        }
        if entry.ident.origin == self.remote() {
            return read_other(index, &entry.content);
        }
        ReadOut::Skip(index)
    }
}

/// What is done with an entry that the other cluster stored first.
fn read_other(index: u64, content: &Content) -> ReadOut
    ensures { result ≡ read_out_other index content.now }
{
    match content {
        Content::Marked(_) => ReadOut::Mark(index),
        Content::Data | Content::Unread(_) => ReadOut::Skip(index),
    }
}
