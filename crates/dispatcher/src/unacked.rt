//! The indexes that are out with a consumer.
ghost use Rattle.std.specs.Prelude.{◌≡◌, ◌<◌, ◌≤◌, ◌+◌, ◌==◌, [], None, not, nat_le, drop, length, slice_index_or, slice_set, IfOk, IfErr, OnOk};
ghost use Rattle.std.specs.List.{filter};
ghost use Rattle.geo_base.specs.declared.consumer.Unacked.{Unacked};
ghost use Rattle.geo_base.specs.Cursor.{has};
ghost use Rattle.geo_base.specs.Dispatcher.{with_out};
ghost use Rattle.geo_base.specs.Subscription.{out_with};
ghost use Rattle.geo_base.specs.Ascending.{IsAscending, IsGap, IsHere};
ghost use Rattle.dispatcher.specs.declared.slot.Slot.{Slot};
ghost use Rattle.dispatcher.specs.Slots.{empties, outs_of, slot_index};
ghost use Rattle.dispatcher.specs.Tables.{FewEmpty};

use crate::slot::Slot;
use cursor_acks::Cursor;
use geo_base::Unacked;
use std::alloc::{AllocError, Global};
use std::collections::VecDeque;
use std::marker::Model;

/// So many empty slots, or fewer, stay where they are: they are not worth a walk over all (own).
const FEW: usize = 64;

/// What is out, ascending by index. An index is found by binary search. One that is taken out in the midst leaves its slot empty, so that
/// nothing is moved; once most slots are empty these go in one walk, which is at most two slots for each that was emptied since the last; so after each
/// step no more slots are empty than are out, but for a few.
/// Contracts see what is out, the slots, how many of them are empty, and how many more find room.
#[derive(Drop)]
pub(crate) struct UnackedTable {
    slots: VecDeque<Slot>,
    /// How many slots are empty.
    empty: usize,
}

impl Model for UnackedTable {
    ghost use Rattle.std.specs.Prelude.{◌-◌};
    ghost use Rattle.std.specs.VecDeque.{deque_len, deque_capacity};
    ghost use Rattle.dispatcher.specs.Slots.{SlotsHold, outs_of};
    ghost use Rattle.dispatcher.specs.Tables.{UnackedIndexes};

    ghost Value = { UnackedIndexes };

    ghost view = { λ t. record { items = outs_of t.slots.items; slots = t.slots.items; empty = t.empty; spare = deque_capacity t.slots - deque_len t.slots } };

    ghost invariant = { λ t. SlotsHold t.slots.items t.empty };
}

impl UnackedTable {
    /// Nothing is out; takes no memory.
    pub(crate) fn new(alloc: Global) -> UnackedTable
        ensures items { result.items ≡ [] }
        ensures empty { result.empty ≡ 0 }
    {
        UnackedTable {
            slots: VecDeque::new(alloc),
            empty: 0,
        }
    }

    /// Room for `n` more.
    pub(crate) fn reserve(&mut self, n: usize) -> Result<(), AllocError>
        ensures items { self.new.items ≡ self.old.items }
        ensures ok { OnOk result (n ≤ self.new.spare) }
        ensures more { self.old.spare ≤ self.new.spare }
        ensures empty { self.new.empty ≡ self.old.empty }
    {
        self.slots.reserve(n)
    }

    /// How many are out.
    pub(crate) fn len(&self) -> usize
        ensures { result ≡ length self.now.items }
    {
        self.slots.len() - self.empty
    }

    /// What is out at a place, where no slot is empty.
    pub(crate) fn at(&self, place: usize) -> Unacked
        requires full { self.now.empty ≡ 0 }
        requires within { place < length self.now.items }
        ensures { (d : Unacked) → result ≡ slice_index_or self.now.items place d }
    {
        let slot = self.slots[place];
        match slot.client {
            Some(client) => Unacked {
                index: slot.index,
                client,
            },
            None => unreachable!(),
        }
    }

    /// One more is out; an index that is out goes to another client.
    pub(crate) fn add(&mut self, given: Unacked)
        requires { 0 < self.old.spare }
        ensures items { self.new.items ≡ with_out self.old.items given }
        ensures len { length self.new.items ≤ length self.old.items + 1 }
        ensures spare { self.old.spare ≤ self.new.spare + 1 }
        ensures few { FewEmpty self.old → FewEmpty self.new }
    {
        let slot = Slot {
            index: given.index,
            client: Some(given.client),
        };
        match self.search(given.index) {
            Ok(at) => self.put(at, slot),
            Err(at) => match self.slots.insert(at, slot) {
                Ok(()) => {}
                Err(_) => unreachable!(),
            },
        }
    }

    /// An index is taken out, if it is here.
    pub(crate) fn remove(&mut self, index: u64)
        ensures items { self.new.items ≡ filter (λ (o : Unacked). not (o.index == index)) self.old.items }
        ensures len { length self.new.items ≤ length self.old.items }
        ensures spare { self.old.spare ≤ self.new.spare }
        ensures few { FewEmpty self.old → FewEmpty self.new }
    {
        match self.search(index) {
            Ok(0) => {
                self.pop();
                self.tidy();
            }
            Ok(at) => {
                self.put(
                    at,
                    Slot {
                        index,
                        client: None,
                    },
                );
                self.tidy();
            }
            Err(_) => {}
        }
    }

    /// Those that are acknowledged are taken out.
    pub(crate) fn forget(&mut self, cursor: &Cursor)
        ensures items { self.new.items ≡ filter (λ (o : Unacked). not (has cursor.now.indexes o.index)) self.old.items }
        ensures len { length self.new.items ≤ length self.old.items }
        ensures spare { self.old.spare ≤ self.new.spare }
        ensures empty { self.new.empty ≡ 0 }
    {
        self.slots.retain(|slot| slot.is_open(cursor));
        self.empty = 0;
    }

    /// Those up to an index are taken out.
    pub(crate) fn forget_to(&mut self, index: u64)
        ensures items { self.new.items ≡ filter (λ (o : Unacked). not (nat_le o.index index)) self.old.items }
        ensures len { length self.new.items ≤ length self.old.items }
        ensures spare { self.old.spare ≤ self.new.spare }
        ensures few { FewEmpty self.new }
    {
        let gone = self.slots.partition_point(|slot| slot.index <= index);
        for _place in 0..gone {
            self.pop();
        }
        self.tidy();
    }

    /// Nothing is out with a client.
    pub(crate) fn give_up(&mut self, client: u32)
        ensures items { self.new.items ≡ filter (λ (o : Unacked). not (o.client == client)) self.old.items }
        ensures len { length self.new.items + length (out_with client self.old.items) ≡ length self.old.items }
        ensures spare { self.old.spare ≤ self.new.spare }
        ensures empty { self.new.empty ≡ 0 }
    {
        self.slots.retain(|slot| slot.is_with_other(client));
        self.empty = 0;
    }

    /// Nothing is out.
    pub(crate) fn clear(&mut self)
        ensures items { self.new.items ≡ [] }
        ensures spare { self.old.spare ≤ self.new.spare }
        ensures empty { self.new.empty ≡ 0 }
    {
        self.slots.clear();
        self.empty = 0;
    }

    /// No slot is empty.
    pub(crate) fn settle(&mut self)
        ensures items { self.new.items ≡ self.old.items }
        ensures empty { self.new.empty ≡ 0 }
        ensures spare { self.old.spare ≤ self.new.spare }
    {
        if self.empty == 0 {
            return;
        }
        self.slots.retain(|slot| slot.is_out());
        self.empty = 0;
    }

    /// Empty slots go where most slots are empty.
    fn tidy(&mut self)
        ensures items { self.new.items ≡ self.old.items }
        ensures spare { self.old.spare ≤ self.new.spare }
        ensures few { FewEmpty self.new }
    {
        if self.empty > FEW && self.empty > self.slots.len() / 2 {
            self.settle();
        }
    }

    /// Another slot of the same index at a place.
    fn put(&mut self, at: usize, slot: Slot)
        requires { IsHere Slot slot_index self.old.slots slot.index at }
        ensures items { self.new.items ≡ outs_of (slice_set self.old.slots at slot) }
        ensures empty { self.new.empty ≡ empties (slice_set self.old.slots at slot) }
        ensures spare { self.new.spare ≡ self.old.spare }
    {
        self.empty -= self.slots[at].emptiness();
        self.empty += slot.emptiness();
        self.slots[at] = slot;
    }

    /// The first slot goes.
    fn pop(&mut self)
        requires { 0 < length self.old.slots }
        ensures slots { self.new.slots ≡ drop 1 self.old.slots }
        ensures items { self.new.items ≡ outs_of (drop 1 self.old.slots) }
        ensures spare { self.old.spare + 1 ≡ self.new.spare }
    {
        self.empty -= self.slots[0].emptiness();
        self.slots.pop_front();
    }

    /// The place of an index, or, as `Err`, the place where it would stand.
    fn search(&self, index: u64) -> Result<usize, usize>
        ensures here { IfOk result (λ at. IsHere Slot slot_index self.now.slots index at) }
        ensures gap { IfErr result (λ at. IsGap Slot slot_index self.now.slots index at) }
        ensures items { self.now.items ≡ outs_of self.now.slots }
        ensures empty { self.now.empty ≡ empties self.now.slots }
        ensures ascending { IsAscending slot_index self.now.slots }
    {
        let at = self.slots.partition_point(|slot| slot.index < index);
        if at < self.slots.len() && self.slots[at].index == index {
            return Ok(at);
        }
        Err(at)
    }
}
