//! A sink in memory.
ghost use Rattle.std.specs.Prelude.{◌≡◌, ◌≤◌, ◌<◌, Ok, Some, IfOk, OnOk, OnErr, IsErr, Contains, length, min, [], if◌then◌else◌, is_ok};
ghost use Rattle.std.specs.Io.{WritesAtMost};
ghost use Rattle.geo_io.specs.Faults.{one_more, Rose, Stood};
ghost use Rattle.geo_io.specs.Sink.{Gains, Gains-more, Gains-none, WriteGains, WriteTakes};

use crate::fault::Failed;
use crate::planned_faults::PlannedFaults;
use crate::sink::Sink;
use geo_base::Memory;
use std::alloc::Global;
use std::marker::Model;

/// A sink in memory, which takes a stated number of bytes at most in a call and fails at stated
/// calls, and where it finds no memory. It always tells the bytes that it holds.
#[derive(Drop)]
pub struct MemSink {
    bytes: Vec<u8>,
    most: usize,
    plan: PlannedFaults,
}

impl Model for MemSink {
    ghost use Rattle.std.specs.Prelude.{◌<◌};
    ghost use Rattle.geo_io.specs.Ends.{SinkState};

    ghost Value = { SinkState };

    ghost view = { λ s. record {
      held = s.bytes.items;
      most = s.most;
      fails = s.plan.fails;
      calls = s.plan.calls;
      faults = s.plan.faults;
    } };

    ghost invariant = { λ s. 0 < s.most };
}

impl MemSink {
    /// An empty sink that takes at most `most` bytes in a call, and fails at the calls that `fails`
    /// numbers, counted from 1.
    pub fn new(alloc: Global, most: usize, fails: &[u64]) -> Result<MemSink, Memory>
        requires { 0 < most }
        ensures { IfOk result (λ sink. sink ≡ record {
          held = [];
          most = most;
          fails = fails.now;
          calls = 0;
          faults = 0;
        }) }
    {
        Ok(MemSink {
            bytes: Vec::new(alloc),
            most,
            plan: PlannedFaults::new(alloc, fails)?,
        })
    }

    /// The bytes that the sink holds.
    pub fn bytes(&self) -> &[u8]
        ensures { result.now ≡ self.now.held }
    {
        self.bytes.as_slice()
    }
}

impl Sink for MemSink {
    ghost held = { λ s. Some s.held };

    ghost taken = { λ a b bytes. Gains (Some a.held) (Some b.held) bytes };

    ghost faults = { λ s. s.faults };

    ghost taken_none = { λ a. Gains-none (Some a.held) };

    ghost taken_more = { λ a b c xs ys first second. Gains-more (Some a.held) (Some b.held) (Some c.held) xs ys first second };

    fn write(&mut self, piece: &[u8]) -> Result<usize, Failed>
        ensures within { WritesAtMost result piece.now }
        ensures bytes { WriteGains (Some self.old.held) (Some self.new.held) result piece.now }
        ensures taken { WriteTakes (λ bytes. Gains (Some self.old.held) (Some self.new.held) bytes) result piece.now }
        ensures later { self.old.faults ≤ self.new.faults }
        ensures cause { OnErr result (Rose self.old.faults self.new.faults) }
        ensures stalled { result ≡ Ok 0 → 0 < length piece.now
            → Rose self.old.faults self.new.faults }
        ensures steady { IfOk result (λ n. 0 < n → Stood self.old.faults self.new.faults) }
        ensures idle { length piece.now ≡ 0 → OnOk result (Stood self.old.faults self.new.faults) }

        // It fails at the planned calls and for want of memory, and else takes as much as it can.
        ensures planned { Contains self.old.fails self.new.calls → IsErr result }
        ensures moved { IfOk result (λ n. n ≡ min self.old.most (length piece.now)) }
        ensures after { self.new ≡ record self.old {
          held = self.new.held;
          calls = one_more self.old.calls;
          faults = if is_ok result then self.old.faults else one_more self.old.faults;
        } }
    {
        if self.plan.next_fails() {
            return Err(Failed);
        }
        let n = self.most.min(piece.len());
        match self.bytes.extend_from_slice(&piece[..n]) {
            Ok(()) => Ok(n),
            Err(_) => {
                self.plan.count_fault();
                Err(Failed)
            }
        }
    }
}
