//! The slots of a topic's subscriptions.
ghost use Rattle.std.specs.Prelude.{◌≡◌, ◌≤◌, ◌<◌, [], ◌∷◌, ◌++◌, Some, None, true, length, slice_get, slice_set, vec_capacity, vec_len, OnOk, OnErr, IfSome, MatchOption};
ghost use Rattle.std.specs.Option.{option_copied};
ghost use Rattle.cursor_acks.specs.Ranges.{indexes_of};
ghost use Rattle.geo_base.specs.Cursor.{below, with_indexes};
ghost use Rattle.audit.specs.Sub.{may_gain};
ghost use Rattle.audit.specs.Subs.{FindsSlots, IsNamedIn, NoneNamed, is_named_at, slot_at, slot_in, with_cursor_in};

use crate::sub::SubMirror;
use geo_base::{Memory, Text};
use indexmap::IndexMap;
use std::alloc::Global;
use std::marker::Model;
use trace_lines::AckedRanges;

/// Subscriptions in slots, in the order in which they were created; the slot of one that was deleted stays empty. A table finds the
/// slot of a name.
#[derive(Drop)]
pub(crate) struct SubSlots {
    slots: Vec<Option<SubMirror>>,
    places: IndexMap<String, usize>,
}

impl Model for SubSlots {
    ghost use Rattle.std.specs.Prelude.{List};
    ghost use Rattle.audit.specs.Subs.{FindsSlots, Slot};

    ghost Value = { List Slot };

    ghost view = { λ s. s.slots.items };

    ghost invariant = { λ s. FindsSlots s.places.entries s.slots.items };
}

impl SubSlots {
    /// No slot; takes no memory.
    #[tactic(auto, using(crate::proofs::SlotRows::finds_none))]
    pub(crate) fn new(alloc: Global) -> SubSlots
        ensures { result ≡ [] }
    {
        SubSlots {
            slots: Vec::new(alloc),
            places: IndexMap::new(alloc),
        }
    }

    /// The slot of the subscription of a name.
    pub(crate) fn place_of(&self, name: &Text) -> Option<usize>
        ensures { MatchOption result (NoneNamed name.now self.now) (IsNamedIn name.now self.now) }
    {
        place_in(self.slots.as_slice(), &self.places, name)
    }

    /// The subscription in a slot.
    pub(crate) fn at(&self, slot: usize) -> Option<&SubMirror>
        requires { slot < length self.now }
        ensures { option_copied result ≡ slot_at self.now slot }
    {
        self.slots[slot].as_ref()
    }

    /// A subscription in a new slot; unchanged where memory is wanting.
    pub(crate) fn push(&mut self, alloc: Global, sub: SubMirror) -> Result<(), Memory>
        requires { NoneNamed sub.name self.old }
        ensures ok { OnOk result (self.new ≡ self.old ++ Some sub ∷ []) }
        ensures err { OnErr result (self.new ≡ self.old) }
    {
        match make_way(alloc, &mut self.slots, &mut self.places, &sub) {
            Ok(()) => {
                self.slots.push_reserved(Some(sub));
                Ok(())
            }
            Err(memory) => {
                drop(sub);
                Err(memory)
            }
        }
    }

    /// A slot is emptied.
    #[tactic(auto, using(crate::proofs::SlotRows::finds_without))]
    pub(crate) fn empty(&mut self, slot: usize)
        requires { slot < length self.old }
        ensures { self.new ≡ slice_set self.old slot None }
    {
        self.slots[slot] = None;
    }

    /// The subscription in a slot acknowledges all indexes of some ranges. An `Err` is want of memory, and leaves some of them
    /// acknowledged.
    #[tactic(auto, using(crate::proofs::SlotRows::finds_with))]
    pub(crate) fn ack(&mut self, slot: usize, ranges: &AckedRanges, len: u64) -> Result<(), Memory>
        requires slot { slot < length self.old }
        requires gains { IfSome (slot_at self.old slot) (λ sub. may_gain sub.cursor len ranges.now ≡ true) }
        ensures { OnOk result (self.new ≡ with_cursor_in (λ set. with_indexes set (indexes_of ranges.now)) self.old slot) }
    {
        match &mut self.slots[slot] {
            Some(sub) => sub.ack(ranges, len),
            None => Ok(()),
        }
    }

    /// The cursor of the subscription in a slot is set to an index. An `Err` is want of memory.
    #[tactic(auto, using(crate::proofs::SlotRows::finds_with))]
    pub(crate) fn seek(&mut self, slot: usize, index: u64, len: u64) -> Result<(), Memory>
        requires slot { slot < length self.old }
        requires within { index ≤ len }
        ensures { OnOk result (self.new ≡ with_cursor_in (λ set. below index) self.old slot) }
    {
        match &mut self.slots[slot] {
            Some(sub) => sub.seek(index, len),
            None => Ok(()),
        }
    }
}

/// Room for the slot of one more subscription, which the table finds there, after the others; the table stays where memory is
/// wanting.
#[tactic(auto, using(crate::proofs::SlotRows::finds_more))]
fn make_way(
    alloc: Global,
    slots: &mut Vec<Option<SubMirror>>,
    places: &mut IndexMap<String, usize>,
    sub: &SubMirror,
) -> Result<(), Memory>
    requires finds { FindsSlots places.old.entries slots.old.items }
    requires new { NoneNamed sub.now.name slots.old.items }
    ensures slots { slots.new.items ≡ slots.old.items }
    ensures room { OnOk result (vec_len slots.new < vec_capacity slots.new) }
    ensures ok { OnOk result (FindsSlots places.new.entries (slots.old.items ++ Some sub.now ∷ [])) }
    ensures err { OnErr result (FindsSlots places.new.entries slots.old.items) }
{
    let name = String::from_str(alloc, sub.name().as_str())?;
    slots.reserve(1)?;
    places.insert(name, slots.len())?;
    Ok(())
}

/// The slot that the table has of a name.
fn slot_told(places: &IndexMap<String, usize>, name: &Text) -> Option<usize>
    ensures { result ≡ slot_in name.now places.now.entries }
{
    places.get(name.as_str()).copied()
}

/// Whether the subscription of a name stands in a slot.
fn is_named_at(slots: &[Option<SubMirror>], name: &Text, slot: usize) -> bool
    ensures { result ≡ is_named_at name.now (slice_get slots.now slot) }
{
    match slots.get(slot) {
        Some(Some(sub)) => sub.is_named(name),
        Some(None) => false,
        None => false,
    }
}

/// The slot of the subscription of a name.
fn place_in(
    slots: &[Option<SubMirror>],
    places: &IndexMap<String, usize>,
    name: &Text,
) -> Option<usize>
    requires { FindsSlots places.now.entries slots.now }
    ensures { MatchOption result (NoneNamed name.now slots.now) (IsNamedIn name.now slots.now) }
{
    let Some(slot) = slot_told(places, name) else {
        return None;
    };
    if !is_named_at(slots, name, slot) {
        return None;
    }
    Some(slot)
}
