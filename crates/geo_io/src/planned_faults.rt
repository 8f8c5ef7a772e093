//! Calls that fail by plan.
ghost use Rattle.std.specs.Prelude.{◌≡◌, ◌≤◌, IfOk, IsTrue, ◌↔◌, Contains, if◌then◌else◌};
ghost use Rattle.geo_io.specs.Faults.{one_more};

use geo_base::Memory;
use std::alloc::Global;
use std::marker::Model;

/// Which calls of a store in memory fail, and how many were made and failed so far. Both counts stop at `u64::MAX`.
#[derive(Drop)]
pub struct PlannedFaults {
    fails: Vec<u64>,
    calls: u64,
    faults: u64,
}

impl Model for PlannedFaults {
    ghost use Rattle.geo_io.specs.Faults.{FaultPlan};

    ghost Value = { FaultPlan };

    ghost view = { λ p. record { fails = p.fails.items; calls = p.calls; faults = p.faults } };
}

impl PlannedFaults {
    /// The calls that fail are those numbered in `fails`, counted from 1.
    pub fn new(alloc: Global, fails: &[u64]) -> Result<PlannedFaults, Memory>
        ensures { IfOk result (λ plan. plan ≡ record { fails = fails.now; calls = 0; faults = 0 }) }
    {
        Ok(PlannedFaults {
            fails: fails.to_vec(alloc)?,
            calls: 0,
            faults: 0,
        })
    }

    /// Counts a call, and answers whether it is to fail. One that is counts as a fault.
    pub fn next_fails(&mut self) -> bool
        ensures planned { IsTrue result ↔ Contains self.new.fails self.new.calls }
        ensures after { self.new ≡ record self.old {
          calls = one_more self.old.calls;
          faults = if result then one_more self.old.faults else self.old.faults;
        } }
        ensures later { self.old.faults ≤ self.new.faults }
    {
        self.calls = self.calls.saturating_add(1);
        let fails = self.fails.contains(&self.calls);
        if fails {
            self.count_fault();
        }
        fails
    }

    /// Counts one fault more.
    pub fn count_fault(&mut self)
        ensures after { self.new ≡ record self.old { faults = one_more self.old.faults } }
        ensures later { self.old.faults ≤ self.new.faults }
    {
        self.faults = self.faults.saturating_add(1);
    }
}
