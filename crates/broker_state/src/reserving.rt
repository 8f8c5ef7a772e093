//! Room for the steps of an event, in the tables that it touches. These are the calls of a broker's state that take memory.
ghost use Rattle.std.specs.Prelude.{◌≡◌, ◌<◌, ◌≤◌, length, OnErr, OnOk};
ghost use Rattle.broker_subs.specs.Table.{room_at};

use crate::state::BrokerState;
use geo_base::{EntryStore, Memory};

impl BrokerState {
    /// Makes room for `n` more entries, each of a new stream, or ledgers. There is no less room than before, and for as many streams
    /// where memory is wanting.
    pub fn reserve_entries(&mut self, n: usize) -> Result<(), Memory>
        ensures broker { self.new.broker ≡ self.old.broker }
        ensures site { self.new.site ≡ self.old.site }
        ensures entries { OnOk result (n ≤ self.new.room.entries) }
        ensures streams { OnOk result (n ≤ self.new.room.streams) }
        ensures more { self.old.room.entries ≤ self.new.room.entries }
        ensures err { OnErr result (self.new.room.streams ≡ self.old.room.streams) }
        ensures rest { self.new.room ≡ record self.old.room { entries = self.new.room.entries; streams = self.new.room.streams } }
    {
        self.store.reserve(n)?;
        self.dedup.reserve(n)
    }

    /// Makes room for `n` more subscriptions; for none where memory is wanting.
    pub fn reserve_places(&mut self, n: usize) -> Result<(), Memory>
        ensures broker { self.new.broker ≡ self.old.broker }
        ensures site { self.new.site ≡ self.old.site }
        ensures places { OnOk result (self.new.room.places ≡ n) }
        ensures err { OnErr result (self.new.room.places ≡ 0) }
        ensures rest { self.new.room ≡ record self.old.room { places = self.new.room.places } }
    {
        self.subs.reserve(n)
    }

    /// Makes room at the subscription at a place: for so many consumers that join and indexes that are given, and for so many
    /// acknowledged indexes. Where memory is wanting there is room for as many of the former as before, and for no fewer of the latter.
    pub fn reserve_sub(&mut self, sub_index: usize, room: usize, acks: usize) -> Result<(), Memory>
        requires { sub_index < length self.old.broker.subs }
        ensures broker { self.new.broker ≡ self.old.broker }
        ensures site { self.new.site ≡ self.old.site }
        ensures room { OnOk result ((room_at self.new.room.subs sub_index).room ≡ room) }
        ensures acks { OnOk result (acks ≤ (room_at self.new.room.subs sub_index).acks) }
        ensures more { (room_at self.old.room.subs sub_index).acks ≤ (room_at self.new.room.subs sub_index).acks }
        ensures err { OnErr result ((room_at self.new.room.subs sub_index).room ≡ (room_at self.old.room.subs sub_index).room) }
        ensures rest { self.new.room ≡ record self.old.room { subs = self.new.room.subs } }
    {
        self.subs.reserve_at(sub_index, room, acks)
    }

    /// Makes room for `n` more indexes that a replicator is acknowledged or sends; for none where memory is wanting.
    pub fn reserve_replicators(&mut self, n: usize) -> Result<(), Memory>
        ensures broker { self.new.broker ≡ self.old.broker }
        ensures site { self.new.site ≡ self.old.site }
        ensures replicators { OnOk result (self.new.room.replicators ≡ n) }
        ensures err { OnErr result (self.new.room.replicators ≡ 0) }
        ensures rest { self.new.room ≡ record self.old.room { replicators = self.new.room.replicators } }
    {
        self.replicators.reserve(n)
    }
}
