//! The subscriptions of a topic.
ghost use Rattle.std.specs.Prelude.{◌≡◌, ◌≤◌, [], ◌∷◌, ◌++◌, None, true, not, filter, find, IfSome, OnOk, OnErr};
ghost use Rattle.std.specs.Option.{option_copied};
ghost use Rattle.std.specs.Str.{bytes_eq};
ghost use Rattle.cursor_acks.specs.Ranges.{indexes_of};
ghost use Rattle.geo_base.specs.Cursor.{below, with_indexes};
ghost use Rattle.geo_base.specs.Mirror.{MirrorSub, with_cursor};
ghost use Rattle.audit.specs.Sub.{may_gain};

use crate::slots::SubSlots;
use crate::sub::SubMirror;
use geo_base::{Memory, Text};
use std::alloc::Global;
use std::marker::Model;
use trace_lines::AckedRanges;

/// The subscriptions of a topic in the order in which they were created. One of a name is found by a table.
#[derive(Drop)]
pub(crate) struct Subs {
    slots: SubSlots,
}

impl Model for Subs {
    ghost use Rattle.std.specs.Prelude.{List};
    ghost use Rattle.geo_base.specs.Mirror.{MirrorSub};
    ghost use Rattle.audit.specs.Subs.{held_subs};

    ghost Value = { List MirrorSub };

    ghost view = { λ s. held_subs s.slots };
}

impl Subs {
    /// No subscription; takes no memory.
    pub(crate) fn new(alloc: Global) -> Subs
        ensures { result ≡ [] }
    {
        Subs {
            slots: SubSlots::new(alloc),
        }
    }

    /// The subscription of a name.
    #[tactic(auto, using(crate::proofs::HeldSubs::found, crate::proofs::HeldSubs::not_found))]
    pub(crate) fn find(&self, name: &Text) -> Option<&SubMirror>
        ensures { option_copied result ≡ find (λ (v : MirrorSub). bytes_eq v.name name.now) self.now }
    {
        match self.slots.place_of(name) {
            Some(slot) => self.slots.at(slot),
            None => None,
        }
    }

    /// One more subscription; unchanged where memory is wanting.
    #[tactic(auto, using(crate::proofs::HeldSubs::one_more, crate::proofs::HeldSubs::none_named))]
    pub(crate) fn create(&mut self, alloc: Global, sub: SubMirror) -> Result<(), Memory>
        requires { find (λ (v : MirrorSub). bytes_eq v.name sub.name) self.old ≡ None }
        ensures ok { OnOk result (self.new ≡ self.old ++ sub ∷ []) }
        ensures err { OnErr result (self.new ≡ self.old) }
    {
        self.slots.push(alloc, sub)
    }

    /// The subscription of a name is gone, if there was one.
    #[tactic(auto, using(crate::proofs::HeldSubs::one_less, crate::proofs::HeldSubs::none_less))]
    pub(crate) fn delete(&mut self, name: &Text)
        ensures { self.new ≡ filter (λ (v : MirrorSub). not (bytes_eq v.name name.now)) self.old }
    {
        match self.slots.place_of(name) {
            Some(slot) => self.slots.empty(slot),
            None => {}
        }
    }

    /// The subscription of a name, if there is one, acknowledges all indexes of some ranges. An `Err` is want of memory.
    #[tactic(auto, using(crate::proofs::HeldSubs::one_moved, crate::proofs::HeldSubs::none_moved, crate::proofs::HeldSubs::found))]
    pub(crate) fn ack(&mut self, name: &Text, ranges: &AckedRanges, len: u64) -> Result<(), Memory>
        requires { IfSome (find (λ (v : MirrorSub). bytes_eq v.name name.now) self.old) (λ sub. may_gain sub.cursor len ranges.now ≡ true) }
        ensures { OnOk result (self.new ≡ with_cursor name.now (λ set. with_indexes set (indexes_of ranges.now)) self.old) }
    {
        match self.slots.place_of(name) {
            Some(slot) => self.slots.ack(slot, ranges, len),
            None => Ok(()),
        }
    }

    /// The cursor of the subscription of a name, if there is one, is set to an index. An `Err` is want of memory.
    #[tactic(auto, using(crate::proofs::HeldSubs::one_moved, crate::proofs::HeldSubs::none_moved))]
    pub(crate) fn seek(&mut self, name: &Text, index: u64, len: u64) -> Result<(), Memory>
        requires { index ≤ len }
        ensures { OnOk result (self.new ≡ with_cursor name.now (λ set. below index) self.old) }
    {
        match self.slots.place_of(name) {
            Some(slot) => self.slots.seek(slot, index, len),
            None => Ok(()),
        }
    }
}
