//! A source in memory.
ghost use Rattle.std.specs.Prelude.{◌≡◌, ◌≤◌, ◌<◌, Ok, Some, IfOk, OnOk, OnErr, IsErr, ◌↔◌, Contains, length, min, if◌then◌else◌, is_ok};
ghost use Rattle.std.specs.Io.{ReadsAtMost};
ghost use Rattle.std.specs.Io.KnownBytes.{Consumes, ReadConsumes};
ghost use Rattle.geo_io.specs.Faults.{one_more, Rose, Stood};
ghost use Rattle.geo_io.specs.Source.{Consumes-more, Consumes-none, ReadGives};

use crate::fault::Failed;
use crate::planned_faults::PlannedFaults;
use crate::source::{Source, copy_front};
use geo_base::Memory;
use std::alloc::Global;
use std::marker::Model;

/// A source in memory, which moves a stated number of bytes at most in a call and fails at stated
/// calls. It always tells the bytes that it has left.
#[derive(Drop)]
pub struct MemSource {
    bytes: Vec<u8>,
    taken: usize,
    most: usize,
    plan: PlannedFaults,
}

impl Model for MemSource {
    ghost use Rattle.std.specs.Prelude.{◌≤◌, ◌<◌, drop, vec_len};
    ghost use Rattle.geo_io.specs.Ends.{SourceState};

    ghost Value = { SourceState };

    ghost view = { λ s. record {
      left = drop s.taken s.bytes.items;
      most = s.most;
      fails = s.plan.fails;
      calls = s.plan.calls;
      faults = s.plan.faults;
    } };

    ghost invariant = { λ s. (s.taken ≤ vec_len s.bytes) × (0 < s.most) };
}

impl MemSource {
    /// A source of `bytes` that moves at most `most` bytes in a call, and fails at the calls that
    /// `fails` numbers, counted from 1.
    pub fn new(alloc: Global, bytes: &[u8], most: usize, fails: &[u64]) -> Result<MemSource, Memory>
        requires { 0 < most }
        ensures { IfOk result (λ source. source ≡ record {
          left = bytes.now;
          most = most;
          fails = fails.now;
          calls = 0;
          faults = 0;
        }) }
    {
        let plan = PlannedFaults::new(alloc, fails)?;
        Ok(MemSource {
            bytes: bytes.to_vec(alloc)?,
            taken: 0,
            most,
            plan,
        })
    }
}

impl Source for MemSource {
    ghost left = { λ s. Some s.left };

    ghost given = { λ a b bytes. Consumes (Some a.left) (Some b.left) bytes };

    ghost faults = { λ s. s.faults };

    ghost given_none = { λ a. Consumes-none (Some a.left) };

    ghost given_more = { λ a b c xs ys first second. Consumes-more (Some a.left) (Some b.left) (Some c.left) xs ys first second };

    fn read(&mut self, buf: &mut [u8]) -> Result<usize, Failed>
        ensures within { ReadsAtMost result buf.new }
        ensures bytes { ReadConsumes (Some self.old.left) (Some self.new.left) result buf.new }
        ensures given { ReadGives (λ bytes. Consumes (Some self.old.left) (Some self.new.left) bytes) result buf.new }
        ensures later { self.old.faults ≤ self.new.faults }
        ensures cause { OnErr result (Rose self.old.faults self.new.faults) }
        ensures steady { OnOk result (Stood self.old.faults self.new.faults) }

        // It fails at the planned calls alone, and else moves as much as it can.
        ensures planned { IsErr result ↔ Contains self.old.fails self.new.calls }
        ensures moved { IfOk result (λ n.
            n ≡ min self.old.most (min (length self.old.left) (length buf.old))) }
        ensures after { self.new ≡ record self.old {
          left = self.new.left;
          calls = one_more self.old.calls;
          faults = if is_ok result then self.old.faults else one_more self.old.faults;
        } }
    {
        if self.plan.next_fails() {
            return Err(Failed);
        }
        let left = &self.bytes[self.taken..];
        let n = copy_front(&left[..self.most.min(left.len())], buf);
        self.taken += n;
        Ok(n)
    }
}
