//! The slots in which messages came.
ghost use Rattle.std.specs.Prelude.{ℕ, ◌≡◌, ◌<◌, ◌≤◌, ◌+◌, true, false, [], ◌∷◌, ◌++◌, drop, length, slice_set, slice_index_or, Some, None, OnOk, OnErr, IfSome, IfNone};
ghost use Rattle.geo_base.specs.Entry.{same_ident};
ghost use Rattle.geo_base.specs.Position.{position_le};
ghost use Rattle.std.specs.Option.{option_copied, option_map};
ghost use Rattle.client.specs.HeldSlots.{IsFirstOf, IsIndex, empty_before, held_in, ident_numbers, is_of, is_up_to, key_of, position_numbers, stream_sum};

use crate::held::index::{SlotIndex, SlotKey};
use geo_base::{Held, Ident, Memory, Position};
use std::alloc::Global;
use std::marker::Model;

/// The factor of a stream's checksum: the prime of the 64-bit Fowler-Noll-Vo hash.
const SUM_FACTOR: u64 = 1_099_511_628_211;

/// So many of the last slots are in no index (own): they are looked through, and most messages are acknowledged before they
/// would be in one.
const RECENT: usize = 64;

/// The messages in the slots in which they came, how many there are, where the first one stands, how many slots are indexed, and
/// an index of these by identity and one by position.
#[derive(Drop)]
pub(super) struct HeldSlots {
    slots: Vec<Option<Held>>,
    count: usize,
    front: usize,
    indexed: usize,
    idents: SlotIndex,
    positions: SlotIndex,
}

impl Model for HeldSlots {
    ghost use Rattle.std.specs.Prelude.{List, Option};
    ghost use Rattle.geo_base.specs.declared.client.Held.{Held};
    ghost use Rattle.client.specs.HeldSlots.{IsIndexed};

    ghost Value = { List (Option Held) };

    ghost view = { λ s. s.slots.items };

    ghost invariant = { λ s. IsIndexed s.slots.items s.count s.front s.indexed s.idents s.positions };
}

impl HeldSlots {
    /// No slot; takes no memory.
    pub(super) fn new(alloc: Global) -> HeldSlots
        ensures { result ≡ [] }
    {
        HeldSlots {
            slots: Vec::new(alloc),
            count: 0,
            front: 0,
            indexed: 0,
            idents: SlotIndex::new(alloc),
            positions: SlotIndex::new(alloc),
        }
    }

    /// How many messages there are.
    pub(super) fn count(&self) -> usize
        ensures { result ≡ length (held_in self.now) }
    {
        self.count
    }

    /// Where the first message stands.
    #[tactic(auto, using(crate::proofs::SlotLists::no_message))]
    pub(super) fn first(&self) -> Option<usize>
        ensures some { IfSome result (λ slot. slot ≡ empty_before self.now) }
        ensures within { IfSome result (λ slot. slot < length self.now) }
        ensures none { IfNone result (held_in self.now ≡ []) }
    {
        if self.front < self.slots.len() {
            Some(self.front)
        } else {
            None
        }
    }

    /// The slots from the first message on.
    #[tactic(auto, using(crate::proofs::SlotLists::front_within, crate::proofs::SlotLists::all_from_first))]
    pub(super) fn from_first(&self) -> &[Option<Held>]
        ensures { held_in result.now ≡ held_in self.now }
    {
        &self.slots[self.front..]
    }

    /// The position under which a slot's message came.
    pub(super) fn position_at(&self, slot: usize) -> Option<Position>
        ensures { result ≡ option_map (λ h. h.position) (slice_index_or self.now slot None) }
    {
        match at(self.slots.as_slice(), slot) {
            Some(held) => Some(held.position),
            None => None,
        }
    }

    /// The first slot that has a message of an identity.
    #[tactic(auto, using(crate::proofs::SlotTails::first_taken, crate::proofs::SlotTails::none_taken_of))]
    pub(super) fn find(&self, ident: &Ident) -> Option<usize>
        ensures some { IfSome result (λ slot. IsFirstOf self.now ident.now slot) }
        ensures none { IfNone result ((slot : ℕ) → is_of ident.now (slice_index_or self.now slot None) ≡ false) }
    {
        let slots = self.slots.as_slice();
        match find_indexed(&slots[..self.indexed], &self.idents, ident) {
            Some(slot) => Some(slot),
            None => find_from(slots, self.indexed, ident),
        }
    }

    /// A slot that has a message up to a position.
    #[tactic(auto, using(crate::proofs::SlotTails::came_taken, crate::proofs::SlotTails::none_taken_came))]
    pub(super) fn up_to(&self, position: Position) -> Option<usize>
        ensures some { IfSome result (λ slot. is_up_to position (slice_index_or self.now slot None) ≡ true) }
        ensures none { IfNone result ((slot : ℕ) → is_up_to position (slice_index_or self.now slot None) ≡ false) }
    {
        let slots = self.slots.as_slice();
        match indexed_up_to(&slots[..self.indexed], &self.positions, position) {
            Some(slot) => Some(slot),
            None => up_to_from(slots, self.indexed, position),
        }
    }

    /// One more message, in a slot of its own; unchanged where memory is wanting.
    pub(super) fn push(&mut self, held: Held) -> Result<(), Memory>
        ensures ok { OnOk result (self.new ≡ self.old ++ Some held ∷ []) }
        ensures err { OnErr result (self.new ≡ self.old) }
    {
        if self.slots.len() - self.indexed >= RECENT {
            self.index_next()?;
        }
        self.add(held)
    }

    /// One more message, in a slot that is in no index yet; unchanged where memory is wanting.
    #[tactic(auto, using(crate::proofs::SlotLists::no_more_than_slots))]
    fn add(&mut self, held: Held) -> Result<(), Memory>
        ensures ok { OnOk result (self.new ≡ self.old ++ Some held ∷ []) }
        ensures err { OnErr result (self.new ≡ self.old) }
    {
        self.slots.reserve(1)?;
        self.slots.push_reserved(Some(held));
        self.count += 1;
        Ok(())
    }

    /// The next slot is indexed, where there is one. Where memory is wanting, both indexes are as they were.
    fn index_next(&mut self) -> Result<(), Memory>
        ensures { self.new ≡ self.old }
    {
        let slot = self.indexed;
        if slot >= self.slots.len() {
            return Ok(());
        }
        match at(self.slots.as_slice(), slot) {
            None => {
                self.indexed += 1;
                Ok(())
            }
            Some(held) => {
                let ident = key_of(stream_sum(&held.ident), held.ident.seq, slot);
                let position = key_of(held.position.ledger, held.position.entry, slot);
                self.idents.insert(ident)?;
                match self.positions.insert(position) {
                    Ok(()) => {
                        self.indexed += 1;
                        Ok(())
                    }
                    Err(memory) => {
                        self.idents.remove(ident);
                        Err(memory)
                    }
                }
            }
        }
    }

    /// A slot has no message any more. One that is in no index yet is looked for there in vain.
    pub(super) fn empty(&mut self, slot: usize)
        requires { slot < length self.old }
        ensures { self.new ≡ slice_set self.old slot None }
    {
        if let Some(held) = self.slots[slot].take() {
            self.idents
                .remove(key_of(stream_sum(&held.ident), held.ident.seq, slot));
            self.positions
                .remove(key_of(held.position.ledger, held.position.entry, slot));
            self.count -= 1;
            self.front = skip_empty(self.slots.as_slice(), self.front);
        }
    }

    /// No slot is left.
    pub(super) fn clear(&mut self)
        ensures { self.new ≡ [] }
    {
        self.slots.clear();
        self.count = 0;
        self.front = 0;
        self.indexed = 0;
        self.idents.clear();
        self.positions.clear();
    }
}

/// The first slot that has a message of an identity, by an index of all slots. Slots of another stream with the same checksum are
/// passed over.
fn find_indexed(slots: &[Option<Held>], idents: &SlotIndex, ident: &Ident) -> Option<usize>
    requires { IsIndex (λ h. ident_numbers h.ident) slots.now idents.now }
    ensures some { IfSome result (λ slot. IsFirstOf slots.now ident.now slot) }
    ensures none { IfNone result ((slot : ℕ) → is_of ident.now (slice_index_or slots.now slot None) ≡ false) }
{
    let mut from = key_of(stream_sum(ident), ident.seq, 0);
    while let Some(slot) = idents.slot_from(from) {
        if has(slots, slot, ident) {
            return Some(slot);
        }
        from.slot = slot + 1;
    }
    None
}

/// The first slot that has a message of an identity, where it is not before a place.
fn find_from(slots: &[Option<Held>], from: usize, ident: &Ident) -> Option<usize>
    requires { (j : ℕ) → j < from → is_of ident.now (slice_index_or slots.now j None) ≡ false }
    ensures some { IfSome result (λ slot. IsFirstOf slots.now ident.now slot) }
    ensures none { IfNone result ((slot : ℕ) → is_of ident.now (slice_index_or slots.now slot None) ≡ false) }
{
    let mut slot = from;
    while slot < slots.len() {
        if has(slots, slot, ident) {
            return Some(slot);
        }
        slot += 1;
    }
    None
}

/// A slot that has a message up to a position, by an index of all slots.
fn indexed_up_to(slots: &[Option<Held>], positions: &SlotIndex, position: Position) -> Option<usize>
    requires { IsIndex (λ h. position_numbers h.position) slots.now positions.now }
    ensures some { IfSome result (λ slot. is_up_to position (slice_index_or slots.now slot None) ≡ true) }
    ensures none { IfNone result ((slot : ℕ) → is_up_to position (slice_index_or slots.now slot None) ≡ false) }
{
    let Some(key) = positions.first() else {
        return None;
    };
    if is_at_most(key, position) {
        Some(key.slot)
    } else {
        None
    }
}

/// A slot that has a message up to a position, where none before a place has one.
fn up_to_from(slots: &[Option<Held>], from: usize, position: Position) -> Option<usize>
    requires { (j : ℕ) → j < from → is_up_to position (slice_index_or slots.now j None) ≡ false }
    ensures some { IfSome result (λ slot. is_up_to position (slice_index_or slots.now slot None) ≡ true) }
    ensures none { IfNone result ((slot : ℕ) → is_up_to position (slice_index_or slots.now slot None) ≡ false) }
{
    let mut slot = from;
    while slot < slots.len() {
        if came_up_to(slots, slot, position) {
            return Some(slot);
        }
        slot += 1;
    }
    None
}

/// What a slot has.
fn at(slots: &[Option<Held>], slot: usize) -> Option<&Held>
    ensures { option_copied result ≡ slice_index_or slots.entry.now slot None }
{
    match slots.get(slot) {
        Some(Some(held)) => Some(held),
        _ => None,
    }
}

/// Whether a slot has a message of an identity.
fn has(slots: &[Option<Held>], slot: usize, ident: &Ident) -> bool
    ensures { result ≡ is_of ident.now (slice_index_or slots.now slot None) }
{
    match at(slots, slot) {
        Some(held) => is_same(&held.ident, ident),
        None => false,
    }
}

/// Whether a slot has a message up to a position.
fn came_up_to(slots: &[Option<Held>], slot: usize, position: Position) -> bool
    ensures { result ≡ is_up_to position (slice_index_or slots.now slot None) }
{
    match at(slots, slot) {
        Some(held) => is_not_after(held.position, position),
        None => false,
    }
}

/// A slot under two numbers.
fn key_of(major: u64, minor: u64, slot: usize) -> SlotKey
    ensures { result ≡ key_of (major, minor) slot }
{
    SlotKey { major, minor, slot }
}

/// Whether a key's numbers are those of a position that is not after another one.
fn is_at_most(key: SlotKey, position: Position) -> bool
    ensures { result ≡ position_le (record { ledger = key.major; entry = key.minor }) position }
{
    is_not_after(
        Position {
            ledger: key.major,
            entry: key.minor,
        },
        position,
    )
}

/// Whether a position is not after another one.
fn is_not_after(one: Position, other: Position) -> bool
    ensures { result ≡ position_le one other }
{
    one.ledger < other.ledger || one.ledger == other.ledger && one.entry <= other.entry
}

/// Whether both identities are one.
fn is_same(one: &Ident, other: &Ident) -> bool
    ensures { result ≡ same_ident one.now other.now }
{
    one.is_same_stream(other) && one.seq == other.seq
}

/// The checksum of an identity's origin and producer.
#[tactic(auto, unfolding(crate::specs::HeldSlots::stream_sum))]
fn stream_sum(ident: &Ident) -> u64
    ensures { result ≡ stream_sum ident.now.origin ident.now.producer }
{
    let mut sum = u64::from(ident.origin);
    for byte in ident.producer.as_bytes() {
        sum = sum.wrapping_mul(SUM_FACTOR).wrapping_add(u64::from(*byte));
    }
    sum
}

/// The first slot from a place on that has a message, or the end.
fn skip_empty(slots: &[Option<Held>], from: usize) -> usize
    requires { from ≤ length slots.now }
    ensures { result ≡ from + empty_before (drop from slots.now) }
{
    let mut at = from;
    while at < slots.len() && slots[at].is_none() {
        at += 1;
    }
    at
}
