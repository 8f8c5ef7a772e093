//! What an event will do at a broker.
ghost use Rattle.std.specs.Prelude.{◌≡◌, ℕ, ◌<◌, ◌==◌, ◌++◌, ◌∷◌, [], IfOk, OnErr, OnOk, Some, length, slice_get};
ghost use Rattle.geo_base.specs.Broker.{Broker};
ghost use Rattle.geo_base.specs.Plan.{done, halted};
ghost use Rattle.broker_state.specs.Plan.{IsEmptyPlan, halted_view, plan_in, quiet_view};

use crate::change::StateChange;
use crate::write::StateWrite;
use geo_base::{Memory, WireOut};
use std::alloc::Global;
use std::collections::VecDeque;
use std::marker::Model;

/// An event that is prepared: its writes, changes and packets hold all the memory that it takes. `sub` is the place of the
/// subscription that it is about.
#[derive(Drop)]
pub struct Plan {
    idle: bool,
    pub(crate) sub: usize,
    pub(crate) writes: VecDeque<StateWrite>,
    pub(crate) changes: VecDeque<StateChange>,
    sent: VecDeque<WireOut>,
}

impl Model for Plan {
    ghost use Rattle.broker_state.specs.Plan.{PlanView};

    ghost Value = { PlanView };

    ghost view = { λ p. record { idle = p.idle; sub = p.sub; writes = p.writes.items; changes = p.changes.items; sent = p.sent.items } };
}

impl Plan {
    /// A plan in which no event is prepared yet; takes no memory.
    pub fn new(alloc: Global) -> Plan
        ensures { IsEmptyPlan result }
    {
        Plan {
            idle: true,
            sub: 0,
            writes: VecDeque::new(alloc),
            changes: VecDeque::new(alloc),
            sent: VecDeque::new(alloc),
        }
    }

    /// Empties a plan that was given up; its queues keep their memory.
    pub fn clear(&mut self)
        ensures { IsEmptyPlan self.new }
    {
        self.idle = true;
        self.sub = 0;
        empty(&mut self.writes);
        empty(&mut self.changes);
        empty(&mut self.sent);
    }

    /// An event that is enabled and does nothing yet, about the subscription at a place, if it is about one.
    pub fn begin(&mut self, sub: usize)
        requires { IsEmptyPlan self.old }
        ensures { self.new ≡ quiet_view sub }
    {
        self.idle = false;
        self.sub = sub;
    }

    /// One more durable write; unchanged where memory is wanting.
    pub fn write(&mut self, write: StateWrite) -> Result<(), Memory>
        ensures ok { OnOk result (self.new ≡ record self.old { writes = self.old.writes ++ write ∷ [] }) }
        ensures err { OnErr result (self.new ≡ self.old) }
    {
        Ok(self.writes.push_back(write)?)
    }

    /// One more change in memory; unchanged where memory is wanting.
    pub fn change(&mut self, change: StateChange) -> Result<(), Memory>
        ensures ok { OnOk result (self.new ≡ record self.old { changes = self.old.changes ++ change ∷ [] }) }
        ensures err { OnErr result (self.new ≡ self.old) }
    {
        Ok(self.changes.push_back(change)?)
    }

    /// One more packet to a peer; unchanged where memory is wanting.
    pub fn send(&mut self, packet: WireOut) -> Result<(), Memory>
        ensures ok { OnOk result (self.new ≡ record self.old { sent = self.old.sent ++ packet ∷ [] }) }
        ensures err { OnErr result (self.new ≡ self.old) }
    {
        Ok(self.sent.push_back(packet)?)
    }

    /// Whether the event is not enabled.
    pub fn is_idle(&self) -> bool
        ensures { result ≡ self.now.idle }
    {
        self.idle
    }

    /// Whether it sends no packet.
    pub fn sends_nothing(&self) -> bool
        ensures { result ≡ (length self.now.sent == 0) }
    {
        self.sent.is_empty()
    }

    /// How many durable writes it does.
    pub fn write_count(&self) -> usize
        ensures { result ≡ length self.now.writes }
    {
        self.writes.len()
    }

    /// The place of the subscription that the event is about.
    pub fn sub_index(&self) -> usize
        ensures { result ≡ self.now.sub }
    {
        self.sub
    }

    /// The durable write of a number, in the order in which they are done.
    pub fn write_at(&self, number: usize) -> &StateWrite
        requires { number < length self.now.writes }
        ensures { slice_get self.now.writes number ≡ Some result.now }
    {
        &self.writes[number]
    }

    /// The packets to send, which are taken out.
    pub fn take_sent(&mut self, alloc: Global) -> VecDeque<WireOut>
        ensures sent { result.items ≡ self.old.sent }
        ensures rest { self.new ≡ record self.old { sent = [] } }
    {
        std::mem::replace(&mut self.sent, VecDeque::new(alloc))
    }

    /// Takes back the queue of packets that were sent, for its memory.
    pub fn keep_sent(&mut self, sent: VecDeque<WireOut>)
        requires { sent.items ≡ [] }
        ensures { self.new ≡ record self.old { sent = [] } }
    {
        self.sent = sent;
    }

    /// The event becomes a stop after its first `k` durable writes: a ledger opens, what is in memory is lost, and nothing is sent.
    /// Where memory is wanting, its changes and packets are given up.
    pub fn halt_behind(&mut self, k: usize) -> Result<(), Memory>
        ensures made { OnOk result (self.new ≡ halted_view k self.old) }
        ensures halted { OnOk result ((per : ℕ) (b : Broker) → done per b (plan_in b self.new) ≡ halted per b k (plan_in b self.old)) }
        ensures err { OnErr result ((self.new.changes ≡ []) × (self.new.sent ≡ [])) }
    {
        self.stop_behind(k)
    }

    fn stop_behind(&mut self, k: usize) -> Result<(), Memory>
        ensures ok { OnOk result (self.new ≡ halted_view k self.old) }
        ensures err { OnErr result ((self.new.changes ≡ []) × (self.new.sent ≡ [])) }
    {
        self.idle = false;
        self.writes.truncate(k);
        self.changes.clear();
        self.sent.clear();
        self.write(StateWrite::Ledger)?;
        self.change(StateChange::Forget)
    }
}

/// Empties a queue. Most are empty: each event ends with it.
#[tactic(auto, using(std::proofs::lemmas::List::nil_from_length))]
fn empty<T: Drop>(queue: &mut VecDeque<T>)
    ensures { queue.new.items ≡ [] }
{
    if !queue.is_empty() {
        queue.clear();
    }
}
