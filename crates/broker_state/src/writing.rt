//! Durable writes, done. None takes memory or can fail.
ghost use Rattle.std.specs.Prelude.{◌≡◌, ◌<◌, ◌≤◌, ◌+◌, ◌-◌, ◌^◌, ◌++◌, ◌∷◌, [], None, true, length, max, min, if◌then◌else◌};
ghost use Rattle.topic_store.specs.Table.{stream_of};
ghost use Rattle.geo_base.specs.Broker.{sub_named, written};
ghost use Rattle.geo_base.specs.Topic.{accepts};
ghost use Rattle.geo_base.specs.declared.write.Write.TheVariants as write;
ghost use Rattle.broker_subs.specs.Steps as sub;
ghost use Rattle.broker_subs.specs.Table.{is_new, names_of, room_at, sub_at};
ghost use Rattle.broker_state.specs.Fits.{PlaceFits, SameShape, WriteFits, names_after};
ghost use Rattle.broker_state.specs.Room.{AcksFit, WriteLeaves, entries_of, places_of, replicators_of, streams_of};
ghost use Rattle.broker_state.specs.Writes.{machine_write};

use crate::replicator_row::ReplicatorStep;
use crate::state::BrokerState;
use crate::write::StateWrite;
use broker_subs::{Sub, SubWrite};
use durable_parts::marker_after;
use geo_base::{Entry, EntryStore};
use topic_store::Stream;

impl BrokerState {
    /// Does one durable write of an event about the subscription at a place.
    pub(crate) fn write(&mut self, sub_index: usize, write: StateWrite)
        requires sub_index { PlaceFits sub_index (length self.old.broker.subs) write }
        requires fits { WriteFits self.old.broker.entries sub_index self.old.broker write }
        requires entries { entries_of write ≤ self.old.room.entries }
        requires streams { streams_of write ≤ self.old.room.streams }
        requires places { places_of write ≤ self.old.room.places }
        requires acks { AcksFit (room_at self.old.room.subs sub_index).acks write }
        requires replicators { replicators_of write ≤ self.old.room.replicators }
        ensures broker { self.new.broker ≡ written self.old.site.per_ledger self.old.broker (machine_write (sub_at self.old.broker.subs sub_index).name self.old.broker.entries write) }
        ensures names { names_of self.new.broker.subs ≡ names_after sub_index (names_of self.old.broker.subs) write }
        ensures site { self.new.site ≡ self.old.site }
        ensures shape { SameShape self.old.broker self.new.broker }
        ensures room { WriteLeaves sub_index write self.old.room self.new.room }
    {
        match write {
            StateWrite::Append { entry, stream } => self.append(entry, stream),
            StateWrite::Create { sub, latest } => self.create(sub, latest),
            StateWrite::Delete => self.subs.delete(sub_index),
            StateWrite::Sub(write) => self.write_sub(sub_index, write),
            StateWrite::ReplicatorAck { remote, index } => {
                self.replicators
                    .step(remote, ReplicatorStep::Acknowledge(index));
            }
            StateWrite::SessionNumber { remote, session } => {
                self.replicators
                    .step(remote, ReplicatorStep::Session(session));
            }
            StateWrite::Ledger => {
                self.store.open_ledger();
            }
        }
    }

    /// An entry is stored.
    #[tactic(auto, using(topic_store::proofs::Tells::tells_more, crate::proofs::Markers::marker_more))]
    fn append(&mut self, entry: Entry, stream: Stream)
        requires accepted { accepts self.old.broker.entries entry.ident ≡ true }
        requires stream { stream ≡ stream_of entry.ident }
        requires entries { 0 < self.old.room.entries }
        requires streams { 0 < self.old.room.streams }
        ensures broker { self.new.broker ≡ written self.old.site.per_ledger self.old.broker (write.Append entry) }
        ensures site { self.new.site ≡ self.old.site }
        ensures entries { self.old.room.entries ≤ self.new.room.entries + 1 }
        ensures streams { self.old.room.streams ≤ self.new.room.streams + 1 }
        ensures rest { self.new.room ≡ record self.old.room { entries = self.new.room.entries; streams = self.new.room.streams } }
    {
        self.dedup.note(stream, entry.ident.seq);
        self.next_marker = marker_after(self.site.own(), self.next_marker, &entry);
        self.store.append(entry);
    }

    /// A subscription is created, last in order.
    fn create(&mut self, sub: Sub, latest: bool)
        requires new { is_new sub }
        requires acks { 0 < sub.acks }
        requires absent { sub_named self.old.broker.subs sub.sub.name ≡ None }
        requires places { 0 < self.old.room.places }
        ensures broker { self.new.broker ≡ written self.old.site.per_ledger self.old.broker (write.Create sub.sub.name sub.sub.kind sub.sub.replicated latest) }
        ensures names { names_of self.new.broker.subs ≡ names_of self.old.broker.subs ++ sub.sub.name ∷ [] }
        ensures site { self.new.site ≡ self.old.site }
        ensures places { self.old.room.places ≤ self.new.room.places + 1 }
        ensures room { (room_at self.new.room.subs (length self.old.broker.subs)).room ≡ sub.room }
        ensures acks { sub.acks ≤ (room_at self.new.room.subs (length self.old.broker.subs)).acks + 1 }
        ensures rest { self.new.room ≡ record self.old.room { places = self.new.room.places; subs = self.new.room.subs } }
    {
        let len = self.store.len() as u64;
        self.subs.create(sub, latest, len);
    }

    /// The cursor, kind or mark of the subscription at a place is written.
    fn write_sub(&mut self, sub_index: usize, write: SubWrite)
        requires sub_index { sub_index < length self.old.broker.subs }
        requires acks { sub.acks_needed write ≤ (room_at self.old.room.subs sub_index).acks }
        requires fits { sub.SubWriteFits self.old.broker.entries (sub_at self.old.broker.subs sub_index) write }
        ensures broker { self.new.broker ≡ written self.old.site.per_ledger self.old.broker (sub.machine_sub_write (sub_at self.old.broker.subs sub_index).name self.old.broker.entries write) }
        ensures names { names_of self.new.broker.subs ≡ names_of self.old.broker.subs }
        ensures site { self.new.site ≡ self.old.site }
        ensures room { (room_at self.new.room.subs sub_index).room ≡ (room_at self.old.room.subs sub_index).room }
        ensures acks { sub.acks_after (room_at self.old.room.subs sub_index).acks write ≤ (room_at self.new.room.subs sub_index).acks }
        ensures rest { self.new.room ≡ record self.old.room { subs = self.new.room.subs } }
    {
        self.subs.write(sub_index, write, &self.store);
    }
}
