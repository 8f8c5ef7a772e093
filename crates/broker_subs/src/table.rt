//! The subscriptions of a topic, in order of creation.
ghost use Rattle.std.specs.Prelude.{◌≡◌, ◌<◌, ◌≤◌, ◌+◌, ◌-◌, ◌++◌, ◌∷◌, [], None, Some, not, length, map, filter, slice_get, slice_index_or, OnErr, OnOk, if◌then◌else◌};
ghost use Rattle.std.specs.List.{remove};
ghost use Rattle.std.specs.Str.{bytes_eq};
ghost use Rattle.geo_base.specs.Broker.{sub_named};
ghost use Rattle.geo_base.specs.Cursor.{below};
ghost use Rattle.geo_base.specs.Subscription.{Subscription, cleared, detached, new_subscription};
ghost use Rattle.broker_subs.specs.Steps.{SubChangeFits, SubWriteFits, acks_after, acks_needed, room_needed, sub_changed, sub_written};
ghost use Rattle.broker_subs.specs.SubView.{sub_of, subs_of};
ghost use Rattle.broker_subs.specs.Table.{at_name, is_new, names_of, room_at, rooms_of, sub_at, with_sub};

use crate::changing::SubChange;
use crate::sub::Sub;
use crate::writing::SubWrite;
use geo_base::{EntryStore, Memory};
use std::alloc::Global;
use std::marker::Model;

/// The subscriptions in order of creation, each with a name of its own, and how many more find memory. They are found by a search,
/// since there are at most 32 of them.
#[derive(Drop)]
pub struct SubTable {
    pub(crate) subs: Vec<Sub>,
    pub(crate) room: usize,
}

impl Model for SubTable {
    ghost use Rattle.std.specs.Prelude.{vec_len, vec_capacity};
    ghost use Rattle.broker_subs.specs.Table.{SubsView, SubTableHolds};

    ghost Value = { SubsView };

    ghost view = { λ t. record { subs = t.subs.items; room = t.room } };

    ghost invariant = { λ t. SubTableHolds t.room (vec_len t.subs) (vec_capacity t.subs) t.subs.items };
}

impl SubTable {
    /// No subscription; takes no memory.
    pub fn new(alloc: Global) -> SubTable
        ensures { result ≡ record { subs = []; room = 0 } }
    {
        SubTable {
            subs: Vec::new(alloc),
            room: 0,
        }
    }

    /// How many subscriptions there are.
    pub fn len(&self) -> usize
        ensures { result ≡ length self.now.subs }
    {
        self.subs.len()
    }

    /// The subscription at a place.
    #[tactic(auto, using(crate::proofs::Places::sub_there, crate::proofs::Places::sub_at_place))]
    pub fn at(&self, sub_index: usize) -> &Sub
        requires { sub_index < length self.now.subs }
        ensures at { result.now.sub ≡ sub_at (subs_of self.now.subs) sub_index }
        ensures sub { slice_get (subs_of self.now.subs) sub_index ≡ Some result.now.sub }
    {
        &self.subs[sub_index]
    }

    /// Makes room for so many more subscriptions; for none where memory is wanting.
    pub fn reserve(&mut self, room: usize) -> Result<(), Memory>
        ensures same { self.new.subs ≡ self.old.subs }
        ensures room { OnOk result (self.new.room ≡ room) }
        ensures err { OnErr result (self.new.room ≡ 0) }
    {
        self.room = 0;
        self.subs.reserve(room)?;
        self.room = room;
        Ok(())
    }

    /// Makes room at a place: for so many consumers that join and indexes that are given, and for at least so many acknowledged
    /// indexes. Where memory is wanting there is room for as many of the former as before, and for no fewer of the latter.
    #[tactic(auto, using(crate::proofs::Places::same_subs, crate::proofs::Places::names_kept, crate::proofs::Places::room_at_place, crate::proofs::Places::room_set))]
    pub fn reserve_at(&mut self, sub_index: usize, room: usize, acks: usize) -> Result<(), Memory>
        requires { sub_index < length self.old.subs }
        ensures same { subs_of self.new.subs ≡ subs_of self.old.subs }
        ensures places { self.new.room ≡ self.old.room }
        ensures room { OnOk result ((room_at (rooms_of self.new.subs) sub_index).room ≡ room) }
        ensures acks { OnOk result (acks ≤ (room_at (rooms_of self.new.subs) sub_index).acks) }
        ensures more { (room_at (rooms_of self.old.subs) sub_index).acks ≤ (room_at (rooms_of self.new.subs) sub_index).acks }
        ensures err { OnErr result ((room_at (rooms_of self.new.subs) sub_index).room ≡ (room_at (rooms_of self.old.subs) sub_index).room) }
    {
        self.subs[sub_index].reserve(room, acks)
    }

    /// One more subscription, last in order; at Latest all of so many entries are acknowledged.
    pub fn create(&mut self, sub: Sub, latest: bool, len: u64)
        requires new { is_new sub }
        requires room { 0 < self.old.room }
        requires acks { 0 < sub.acks }
        requires absent { sub_named (subs_of self.old.subs) sub.sub.name ≡ None }
        ensures subs { subs_of self.new.subs ≡ subs_of self.old.subs ++ new_subscription sub.sub.name sub.sub.kind sub.sub.replicated (if latest then below len else []) ∷ [] }
        ensures names { names_of (subs_of self.new.subs) ≡ names_of (subs_of self.old.subs) ++ sub.sub.name ∷ [] }
        ensures places { self.new.room + 1 ≡ self.old.room }
        ensures room { (room_at (rooms_of self.new.subs) (length self.old.subs)).room ≡ sub.room }
        ensures acks { sub.acks ≤ (room_at (rooms_of self.new.subs) (length self.old.subs)).acks + 1 }
    {
        self.room -= 1;
        self.subs.push_reserved(created(sub, latest, len));
    }

    /// The subscription at a place is no more.
    pub fn delete(&mut self, sub_index: usize)
        requires { sub_index < length self.old.subs }
        ensures subs { subs_of self.new.subs ≡ filter (λ (s : Subscription). not (bytes_eq s.name (sub_at (subs_of self.old.subs) sub_index).name)) (subs_of self.old.subs) }
        ensures names { names_of (subs_of self.new.subs) ≡ remove (names_of (subs_of self.old.subs)) sub_index }
        ensures places { self.new.room ≡ self.old.room }
    {
        drop(self.subs.remove(sub_index));
    }

    /// Does a durable write at a place, in the topic of a store.
    pub fn write<S: EntryStore>(&mut self, sub_index: usize, write: SubWrite, store: &S)
        requires sub_index { sub_index < length self.old.subs }
        requires acks { acks_needed write ≤ (room_at (rooms_of self.old.subs) sub_index).acks }
        requires fits { SubWriteFits (S.entries store.now) (sub_at (subs_of self.old.subs) sub_index) write }
        ensures subs { subs_of self.new.subs ≡ at_name (sub_at (subs_of self.old.subs) sub_index).name (sub_written (S.entries store.now) write) (subs_of self.old.subs) }
        ensures places { self.new.room ≡ self.old.room }
        ensures room { (room_at (rooms_of self.new.subs) sub_index).room ≡ (room_at (rooms_of self.old.subs) sub_index).room }
        ensures acks { acks_after (room_at (rooms_of self.old.subs) sub_index).acks write ≤ (room_at (rooms_of self.new.subs) sub_index).acks }
        ensures names { names_of (subs_of self.new.subs) ≡ names_of (subs_of self.old.subs) }
    {
        self.subs[sub_index].write(write, store);
    }

    /// Makes a change in memory at a place.
    pub fn change(&mut self, sub_index: usize, change: SubChange)
        requires sub_index { sub_index < length self.old.subs }
        requires room { room_needed change ≤ (room_at (rooms_of self.old.subs) sub_index).room }
        requires fits { SubChangeFits (sub_at (subs_of self.old.subs) sub_index) change }
        ensures subs { subs_of self.new.subs ≡ at_name (sub_at (subs_of self.old.subs) sub_index).name (sub_changed change) (subs_of self.old.subs) }
        ensures places { self.new.room ≡ self.old.room }
        ensures room { (room_at (rooms_of self.old.subs) sub_index).room ≡ (room_at (rooms_of self.new.subs) sub_index).room + room_needed change }
        ensures names { names_of (subs_of self.new.subs) ≡ names_of (subs_of self.old.subs) }
    {
        self.subs[sub_index].change(change);
    }

    /// A client's consumers leave, wherever it has any.
    #[tactic(auto, using(crate::proofs::Places::mapped_subs, crate::proofs::Places::mapped_rooms, crate::proofs::Places::detached_names))]
    pub fn leave(&mut self, client: u32)
        ensures subs { subs_of self.new.subs ≡ map (detached client) (subs_of self.old.subs) }
        ensures names { names_of (subs_of self.new.subs) ≡ names_of (subs_of self.old.subs) }
        ensures places { self.new.room ≡ self.old.room }
        ensures rooms { rooms_of self.new.subs ≡ rooms_of self.old.subs }
    {
        leave_each(self.subs.as_mut_slice(), client);
    }

    /// A restart: what is in memory is lost.
    #[tactic(auto, using(crate::proofs::Places::mapped_subs, crate::proofs::Places::mapped_rooms, crate::proofs::Places::cleared_names))]
    pub fn clear(&mut self)
        ensures subs { subs_of self.new.subs ≡ map cleared (subs_of self.old.subs) }
        ensures names { names_of (subs_of self.new.subs) ≡ names_of (subs_of self.old.subs) }
        ensures places { self.new.room ≡ self.old.room }
        ensures rooms { rooms_of self.new.subs ≡ rooms_of self.old.subs }
    {
        clear_each(self.subs.as_mut_slice());
    }
}

/// A new subscription at Latest, where all of so many entries are acknowledged, or at Earliest.
#[tactic(auto, using(crate::proofs::Places::at_latest))]
fn created(sub: Sub, latest: bool, len: u64) -> Sub
    requires new { is_new sub }
    requires acks { 0 < sub.acks }
    ensures sub { result.sub ≡ new_subscription sub.sub.name sub.sub.kind sub.sub.replicated (if latest then below len else []) }
    ensures room { result.room ≡ sub.room }
    ensures acks { sub.acks ≤ result.acks + 1 }
{
    let mut sub = sub;
    if latest && len > 0 {
        sub.acknowledge_to(len - 1, len);
    }
    sub
}

/// A client's consumers leave each subscription.
fn leave_each(subs: &mut [Sub], client: u32)
    ensures { subs.new ≡ map (with_sub (detached client)) subs.old }
{
    for sub in subs {
        sub.leave(client);
    }
}

/// Each subscription loses what is in memory.
fn clear_each(subs: &mut [Sub])
    ensures { subs.new ≡ map (with_sub cleared) subs.old }
{
    for sub in subs {
        sub.clear();
    }
}
