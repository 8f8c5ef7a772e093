//! A tier in memory.
ghost use Rattle.std.specs.Prelude.{◌≡◌, ◌≤◌, IfOk, OnOk, OnErr, IsErr, IsErrOf, Contains, ◌↔◌, []};
ghost use Rattle.geo_io.specs.Faults.{Rose, Stood, one_more};
ghost use Rattle.tiered_storage.specs.Kept.{IsRead, KeepsAll, MayPut, Puts, kept_in, kept_of};

use crate::tier::{Failed, Held, Tier, TierGet};
use geo_base::{Blob, Memory};
use geo_io::PlannedFaults;
use std::alloc::Global;
use std::collections::BTreeMap;
use std::marker::Model;

/// A tier in memory, which fails at stated calls, and where it finds no memory for what is put.
#[derive(Drop)]
pub struct MemTier {
    alloc: Global,
    kept: BTreeMap<u64, Blob>,
    plan: PlannedFaults,
}

impl Model for MemTier {
    ghost use Rattle.std.specs.Prelude.{vec_len};
    ghost use Rattle.tiered_storage.specs.Kept.{TierState};

    ghost Value = { TierState };

    ghost view = { λ t. record {
      rows = t.kept.entries;
      fails = t.plan.fails;
      calls = t.plan.calls;
      faults = t.plan.faults;
    } };
}

impl MemTier {
    /// An empty tier that fails at the calls that `fails` numbers, counted from 1.
    pub fn new(alloc: Global, fails: &[u64]) -> Result<MemTier, Memory>
        ensures { IfOk result (λ tier. tier ≡ record {
          rows = [];
          fails = fails.now;
          calls = 0;
          faults = 0;
        }) }
    {
        let plan = PlannedFaults::new(alloc, fails)?;
        Ok(MemTier {
            alloc,
            kept: BTreeMap::new(alloc),
            plan,
        })
    }
}

impl Tier for MemTier {
    ghost kept = { kept_in };

    ghost faults = { λ t. t.faults };

    ghost calls = { λ t. t.calls };

    fn put(&mut self, ledger: u64, bytes: &[u8]) -> Result<(), Failed>
        ensures ok { OnOk result (Puts (kept_in self.old) (kept_in self.new) ledger bytes.now) }
        ensures err { OnErr result (MayPut (kept_in self.old) (kept_in self.new) ledger bytes.now) }
        ensures later { self.old.faults ≤ self.new.faults }
        ensures cause { OnErr result (Rose self.old.faults self.new.faults) }
        ensures steady { OnOk result (Stood self.old.faults self.new.faults) }
        ensures counted { self.new.calls ≡ one_more self.old.calls }

        // It fails at the planned calls, and where memory is wanting.
        ensures planned { Contains self.old.fails self.new.calls → IsErr result }
    {
        if self.plan.next_fails() {
            return Err(Failed);
        }
        match keep(self.alloc, &mut self.kept, ledger, bytes) {
            Ok(()) => Ok(()),
            Err(Memory) => {
                self.plan.count_fault();
                Err(Failed)
            }
        }
    }

    fn get(&mut self, ledger: u64, out: &mut Blob) -> Result<Held, TierGet>
        ensures ok { IfOk result (IsRead (kept_in self.old ledger) out.old out.new) }
        ensures err { OnErr result (out.new ≡ out.old) }
        ensures kept { KeepsAll (kept_in self.old) (kept_in self.new) }
        ensures later { self.old.faults ≤ self.new.faults }
        ensures cause { IsErrOf result TierGet.Failed → Rose self.old.faults self.new.faults }
        ensures steady { OnOk result (Stood self.old.faults self.new.faults) }
        ensures counted { self.new.calls ≡ one_more self.old.calls }

        // It fails exactly at the planned calls; else it answers, or memory is wanting.
        ensures planned { Contains self.old.fails self.new.calls ↔ IsErrOf result TierGet.Failed }
    {
        if self.plan.next_fails() {
            return Err(TierGet::Failed);
        }
        match self.kept.get(&ledger) {
            Some(bytes) => {
                out.append(bytes.as_slice())?;
                Ok(Held::Yes)
            }
            None => Ok(Held::No),
        }
    }
}

/// Keeps a copy of bytes in a map, in place of what it has for a ledger. An `Err` is want of memory.
fn keep(
    alloc: Global,
    kept: &mut BTreeMap<u64, Blob>,
    ledger: u64,
    bytes: &[u8],
) -> Result<(), Memory>
    ensures ok { OnOk result (Puts (kept_of kept.old.entries) (kept_of kept.new.entries) ledger bytes.now) }
    ensures err { OnErr result (MayPut (kept_of kept.old.entries) (kept_of kept.new.entries) ledger bytes.now) }
{
    let copy = Blob::from_slice(alloc, bytes)?;
    match kept.insert(ledger, copy) {
        Ok(_) => Ok(()),
        Err(_) => Err(Memory),
    }
}
