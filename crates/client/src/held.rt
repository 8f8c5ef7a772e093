//! The messages that a client holds.
//!
//! The first one of an identity, and each one up to a position, is found and given up in time logarithmic in what is held, in
//! whatever order they came. The first so many are found by going over their slots and the emptied ones between, which are then
//! after the front. All slots go when nothing is held any more.
ghost use Rattle.std.specs.Prelude.{◌≡◌, ◌≤◌, ◌==◌, not, [], ◌∷◌, ◌++◌, map, filter, take, drop, length, IfOk, OnOk, OnErr};
ghost use Rattle.geo_base.specs.declared.client.Held.{Held as HeldMessage};
ghost use Rattle.geo_base.specs.Going.{first_held, without_first};
ghost use Rattle.geo_base.specs.Position.{position_le};
ghost use Rattle.client.specs.HeldSlots.{held_in};

mod index;
mod slots;

use crate::held::slots::HeldSlots;
use geo_base::{Held, Ident, Memory, Position, Sequence};
use std::alloc::Global;
use std::marker::Model;

/// Messages in order of receipt. An identity may be held more than once.
#[derive(Drop)]
pub struct HeldTable {
    slots: HeldSlots,
}

impl Model for HeldTable {
    ghost use Rattle.std.specs.Prelude.{List};
    ghost use Rattle.geo_base.specs.declared.client.Held.{Held};
    ghost use Rattle.client.specs.HeldSlots.{held_in};

    ghost Value = { List Held };

    ghost view = { λ t. held_in t.slots };
}

impl HeldTable {
    /// No message; takes no memory.
    pub fn new(alloc: Global) -> HeldTable
        ensures { result ≡ [] }
    {
        HeldTable {
            slots: HeldSlots::new(alloc),
        }
    }

    /// How many messages there are.
    pub fn len(&self) -> usize
        ensures { result ≡ length self.now }
    {
        self.slots.count()
    }

    /// Whether there is none.
    pub fn is_empty(&self) -> bool
        ensures { result ≡ (length self.now == 0) }
    {
        self.slots.count() == 0
    }

    /// One more message came; unchanged where memory is wanting.
    #[tactic(auto, using(crate::proofs::SlotLists::held_in_pushed))]
    pub fn push(&mut self, held: Held) -> Result<(), Memory>
        ensures ok { OnOk result (self.new ≡ self.old ++ held ∷ []) }
        ensures err { OnErr result (self.new ≡ self.old) }
    {
        self.slots.push(held)
    }

    /// The position under which the first message of an identity came.
    pub fn first(&self, ident: &Ident) -> Option<Position>
        ensures { result ≡ first_held self.now ident.now }
    {
        match self.slots.find(ident) {
            Some(slot) => self.slots.position_at(slot),
            None => None,
        }
    }

    /// The positions of the first so many messages, or of all.
    pub fn positions(&self, alloc: Global, most: usize) -> Result<Sequence<Position>, Memory>
        ensures positions { IfOk result (λ ps. ps ≡ map (λ (h : HeldMessage). h.position) (take most self.now)) }
        ensures few { IfOk result (λ ps. length ps ≤ most) }
    {
        let mut positions = Sequence::new(alloc);
        for slot in self.slots.from_first() {
            if positions.len() == most {
                return Ok(positions);
            }
            add_position(&mut positions, slot)?;
        }
        Ok(positions)
    }

    /// Gives up the first message of an identity, if there is one.
    pub fn forget(&mut self, ident: &Ident)
        ensures { self.new ≡ without_first self.old ident.now }
    {
        if let Some(slot) = self.slots.find(ident) {
            self.slots.empty(slot);
            self.trim();
        }
    }

    /// Gives up the first so many messages, or all.
    #[tactic(auto, using(std::proofs::lemmas::List::drop_min))]
    pub fn forget_first(&mut self, most: usize)
        ensures { self.new ≡ drop most self.old }
    {
        for _place in 0..most.min(self.len()) {
            self.forget_one();
        }
        self.trim();
    }

    /// Gives up what came under a position up to another one.
    pub fn forget_to(&mut self, position: Position)
        ensures { self.new ≡ filter (λ (h : HeldMessage). not (position_le h.position position)) self.old }
    {
        while let Some(slot) = self.slots.up_to(position) {
            self.slots.empty(slot);
        }
        self.trim();
    }

    /// Gives up all.
    pub fn clear(&mut self)
        ensures { self.new ≡ [] }
    {
        self.slots.clear();
    }

    /// Gives up the first message, if there is one.
    #[tactic(auto, using(crate::proofs::HeldMessages::first_given_up))]
    fn forget_one(&mut self)
        ensures { self.new ≡ drop 1 self.old }
    {
        if let Some(slot) = self.slots.first() {
            self.slots.empty(slot);
        }
    }

    /// Keeps no slot where there is no message.
    fn trim(&mut self)
        ensures { self.new ≡ self.old }
    {
        if self.is_empty() {
            self.slots.clear();
        }
    }
}

/// One more position, where a slot has a message.
fn add_position(positions: &mut Sequence<Position>, slot: &Option<Held>) -> Result<(), Memory>
    ensures { OnOk result (positions.new ≡ positions.old ++ map (λ (h : HeldMessage). h.position) (held_in (slot.now ∷ []))) }
{
    if let Some(held) = slot {
        positions.push(held.position)?;
    }
    Ok(())
}
