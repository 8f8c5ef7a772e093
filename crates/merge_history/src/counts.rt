//! Counts by slot.
ghost use Rattle.std.specs.Prelude.{◌≡◌, ◌<◌, ℕ, ◌+◌, ◌==◌, OnErr, OnOk, if◌then◌else◌, length};
ghost use Rattle.merge_history.specs.Slots.{IsRaised, count_in};

use crate::slot::slot;
use geo_base::{Memory, Peer};
use std::alloc::Global;
use std::marker::Model;

/// A count for each slot, of which all but some are 0.
#[derive(Drop)]
pub struct Counts {
    counts: Vec<usize>,
}

impl Model for Counts {
    ghost use Rattle.std.specs.Prelude.{List, ℕ};

    ghost Value = { List ℕ };

    ghost view = { λ c. c.counts.items };
}

impl Counts {
    /// All 0; takes no memory.
    pub fn new(alloc: Global) -> Counts
        ensures { (k : ℕ) → count_in result k ≡ 0 }
    {
        Counts {
            counts: Vec::new(alloc),
        }
    }

    /// The count of a slot.
    pub fn at(&self, slot: usize) -> usize
        ensures { result ≡ count_in self.now slot }
    {
        if slot < self.counts.len() {
            self.counts[slot]
        } else {
            0
        }
    }

    /// One more in the slot of a peer, if there is one; each count is as before where memory is wanting.
    pub fn raise_for(&mut self, peer: Option<Peer>) -> Result<(), Memory>
        ensures ok { OnOk result (IsRaised peer self.old self.new) }
        ensures err { OnErr result ((k : ℕ) → count_in self.new k ≡ count_in self.old k) }
    {
        match peer {
            Some(peer) => self.raise(slot(peer)),
            None => Ok(()),
        }
    }

    /// One more in a slot. A count past 64 bits is in no memory.
    fn raise(&mut self, slot: usize) -> Result<(), Memory>
        ensures ok { OnOk result ((k : ℕ) → count_in self.new k ≡ (if slot == k then count_in self.old k + 1 else count_in self.old k)) }
        ensures err { OnErr result ((k : ℕ) → count_in self.new k ≡ count_in self.old k) }
    {
        self.reach(slot)?;
        self.counts[slot] = match self.counts[slot].checked_add(1) {
            Some(count) => count,
            None => return Err(Memory),
        };
        Ok(())
    }

    /// Slots up to this one.
    #[tactic(auto, using(crate::proofs::Tables::count_past))]
    fn reach(&mut self, slot: usize) -> Result<(), Memory>
        ensures same { (k : ℕ) → count_in self.new k ≡ count_in self.old k }
        ensures reached { OnOk result (slot < length self.new) }
    {
        while self.counts.len() <= slot {
            self.counts.push(0)?;
        }
        Ok(())
    }
}
