//! An event of a broker: prepared there, its packets delivered, committed.
ghost use Rattle.std.specs.Prelude.{◌≡◌, ℕ, ◌<◌, ◌+◌, ◌^◌, [], false, true, length, IfOk, OnErr, OnOk, None, Some, Ok, Err};
ghost use Rattle.broker_state.specs.Plan.{IsEmptyPlan};
ghost use Rattle.geo_base.specs.Happening.{happens};
ghost use Rattle.geo_base.specs.World.{World as Machine};
ghost use Rattle.world.specs.declared.fault.RunFault.TheVariants as fault;
ghost use Rattle.world.specs.Steps.{Acts, IsCommitted, IsFinished, IsLater, IsSetNode, Leads, PreparesAt, Waits, broker_ref_at, done_at, stamp_over};
ghost use Rattle.world.specs.World.{AreNodes, IsAt, IsWithin, SameWorld, kept_of, node_at};
ghost use Rattle.script_text.specs.Scenario.{IsEvent};
ghost use Rattle.broker.specs.Events.{IsOfNode, NumbersRise};
ghost use Rattle.broker.specs.Node.{IsReady};
ghost use Rattle.links.specs.Queues.{bytes_of, delivered, packet_in, stamp_of};
ghost use Rattle.kept_laws.specs.Events.{IsBrokers};
ghost use Rattle.kept_laws.specs.Standing.{Stands, limit_of};
ghost use Rattle.kept_laws.specs.Reached.{Reached};

use crate::broker_ref::BrokerRef;
use crate::fault::RunFault;
use crate::world::World;
use broker_state::Plan;
use geo_base::limits::{EVENTS, SENT_BYTES};
use geo_base::{Event, Memory, Stamp, WireOut};
use links::{Node, Port, frame_bytes};
use script_text::Scenario;
use std::alloc::Global;
use std::boxed::Box;
use std::collections::VecDeque;

/// The limit on events and idle events together.
pub(crate) const EVENT_LIMIT: u64 = 2;

/// The limit on the bytes of all frames.
pub(crate) const BYTE_LIMIT: u64 = 3;

impl World {
    /// An event of a broker, which is counted where it is idle.
    #[tactic(auto, using(crate::proofs::Acting::leads_acted))]
    pub(crate) fn broker_event(
        &mut self,
        alloc: Global,
        scenario: &Scenario,
        event: &Event,
    ) -> Result<(), RunFault>
        requires at { IsAt scenario.now.setup self.old }
        requires broker { IsBrokers event.now }
        requires scripted { IsEvent scenario.now.setup event.now }
        ensures leads { (w : Machine) → Reached scenario.now.setup w → Stands scenario.now.setup (kept_of self.old) w
            → Leads scenario.now.setup self.old self.new (happens scenario.now.setup w event.now) result }
        ensures brokers { AreNodes scenario.now.setup self.new.brokers }
        ensures err { OnErr result (SameWorld self.old self.new) }
    {
        if self.acts(alloc, scenario, event)? {
            return Ok(());
        }
        self.idles()
    }

    /// An event of a broker, which is done where it is enabled; whether it was. Nothing counts one that was not.
    pub(crate) fn acts(
        &mut self,
        alloc: Global,
        scenario: &Scenario,
        event: &Event,
    ) -> Result<bool, RunFault>
        requires at { IsAt scenario.now.setup self.old }
        requires broker { IsBrokers event.now }
        requires scripted { IsEvent scenario.now.setup event.now }
        ensures acts { (w : Machine) → Reached scenario.now.setup w → Stands scenario.now.setup (kept_of self.old) w
            → Acts scenario.now.setup self.old self.new (happens scenario.now.setup w event.now) result }
        ensures at { IsAt scenario.now.setup self.new }
        ensures later { IsLater self.old self.new }
        ensures idle { result ≡ Ok false → SameWorld self.old self.new }
        ensures err { OnErr result (SameWorld self.old self.new) }
    {
        let broker_ref = self.broker_ref(scenario, event);
        if self.is_waiting(broker_ref.takes) {
            return Ok(false);
        }
        let mut plan = self.take_plan(alloc)?;
        let acted = self.acts_in(alloc, scenario, event, broker_ref, &mut plan);
        self.keep_plan(plan);
        acted
    }

    /// The world's plan, taken out to be filled; the first event makes it.
    fn take_plan(&mut self, alloc: Global) -> Result<Box<Plan>, Memory>
        ensures empty { IfOk result (λ p. IsEmptyPlan p.value) }
        ensures same { self.new ≡ self.old }
    {
        match self.plan.take() {
            Some(plan) => Ok(plan),
            None => Ok(Box::new(alloc, Plan::new(alloc))?),
        }
    }

    /// Keeps the plan, which is empty, for the next event.
    fn keep_plan(&mut self, plan: Box<Plan>)
        requires { IsEmptyPlan plan.value }
        ensures { self.new ≡ self.old }
    {
        self.plan = Some(plan);
    }

    /// Whether an event takes a packet and there is none, so that it is not enabled.
    #[tactic(auto, using(crate::proofs::Waiting::waits_there))]
    pub(crate) fn is_waiting(&self, takes: Port) -> bool
        ensures { result ≡ true → Waits self.now takes }
    {
        if takes.link.is_none() {
            return false;
        }
        match self.links.next(takes) {
            None => true,
            Some(_) => false,
        }
    }

    /// The same in a plan that is empty, which it leaves empty.
    fn acts_in(
        &mut self,
        alloc: Global,
        scenario: &Scenario,
        event: &Event,
        broker_ref: BrokerRef,
        plan: &mut Plan,
    ) -> Result<bool, RunFault>
        requires at { IsAt scenario.now.setup self.old }
        requires broker { IsBrokers event.now }
        requires scripted { IsEvent scenario.now.setup event.now }
        requires broker_ref { broker_ref ≡ broker_ref_at scenario.now.setup self.old.links event.now }
        requires empty { IsEmptyPlan plan.old }
        ensures acts { (w : Machine) → Reached scenario.now.setup w → Stands scenario.now.setup (kept_of self.old) w
            → Acts scenario.now.setup self.old self.new (happens scenario.now.setup w event.now) result }
        ensures at { IsAt scenario.now.setup self.new }
        ensures later { IsLater self.old self.new }
        ensures idle { result ≡ Ok false → SameWorld self.old self.new }
        ensures err { OnErr result (SameWorld self.old self.new) }
        ensures empty { IsEmptyPlan plan.new }
    {
        let is_ready = self.prepare_enabled(alloc, scenario, event, broker_ref, plan)?;
        if !is_ready {
            return Ok(false);
        }
        self.finish(alloc, scenario, event, broker_ref, plan)?;
        Ok(true)
    }

    /// What an event will do at a broker, with the packet that it takes.
    #[tactic(auto, using(crate::proofs::Nodes::same_world, crate::proofs::Nodes::ready_there, crate::proofs::Nodes::prepares))]
    pub(crate) fn prepare_at(
        &mut self,
        alloc: Global,
        number: usize,
        event: &Event,
        takes: Port,
        plan: &mut Plan,
    ) -> Result<(), Memory>
        requires node { number < length self.old.brokers }
        requires of { IsOfNode (node_at self.old.brokers number) event.now }
        requires numbers { NumbersRise (node_at self.old.brokers number) event.now }
        requires empty { IsEmptyPlan plan.old }
        ensures prepared { OnOk result (PreparesAt self.old number (packet_in self.old.links takes) event.now plan.new) }
        ensures ready { OnOk result (IsReady (node_at self.new.brokers number) plan.new) }
        ensures same { SameWorld self.old self.new }
        ensures err { OnErr result (IsEmptyPlan plan.new) }
    {
        self.brokers[number].prepare(alloc, event, self.links.next(takes), plan)
    }

    /// An event that is not enabled: it is counted.
    #[tactic(auto, using(crate::proofs::Limits::one_more, crate::proofs::Limits::too_many))]
    pub fn idles(&mut self) -> Result<(), RunFault>
        requires { IsWithin self.old }
        ensures ok { OnOk result (self.new ≡ record self.old { idle = self.old.idle + 1 }) }
        ensures within { OnOk result (limit_of self.old.events (self.old.idle + 1) self.old.frame_bytes ≡ None) }
        ensures large { (n : ℕ) → result ≡ Err (fault.TooLarge n) → limit_of self.old.events (self.old.idle + 1) self.old.frame_bytes ≡ Some n }
        ensures err { OnErr result (self.new ≡ self.old) }
    {
        if self.counts.events + self.counts.idle >= EVENTS {
            return Err(RunFault::TooLarge(EVENT_LIMIT));
        }
        self.counts.idle += 1;
        Ok(())
    }

    /// Sends what was prepared at a broker, takes its packet and does it; nothing of all that where a limit would be passed, or
    /// memory is wanting.
    // Inlined with `World::finish`, as what it is made of, so that the two halves of a plain run's event are one function as before.
    #[inline(always)]
    pub(crate) fn finish_at(
        &mut self,
        alloc: Global,
        broker_ref: BrokerRef,
        number: usize,
        plan: &mut Plan,
    ) -> Result<(), RunFault>
        requires node { number < length self.old.brokers }
        requires clock { number < length self.old.broker_clocks }
        requires ready { IsReady (node_at self.old.brokers number) plan.old }
        requires within { IsWithin self.old }
        requires stamp { stamp_over self.old.broker_clocks number (stamp_of (packet_in self.old.links broker_ref.takes)) < 2 ^ 64 }
        ensures ok { OnOk result (IsFinished broker_ref number plan.old self.old self.new) }
        ensures within { OnOk result (limit_of (self.old.events + 1) self.old.idle (self.old.frame_bytes + bytes_of plan.old.sent) ≡ None) }
        ensures large { (n : ℕ) → result ≡ Err (fault.TooLarge n) → limit_of (self.old.events + 1) self.old.idle (self.old.frame_bytes + bytes_of plan.old.sent) ≡ Some n }
        ensures err { OnErr result (self.new ≡ self.old) }
        ensures empty { OnOk result (IsEmptyPlan plan.new) }
    {
        let stamp = self.stamp_at(number, self.links.stamp(broker_ref.takes));
        self.send_at(alloc, broker_ref.sender(), stamp, plan)?;
        self.commit_at(broker_ref, number, plan, stamp);
        Ok(())
    }

    /// Sends what was prepared at a broker, in an event of this stamp, and counts its bytes; nothing of that where a limit would be
    /// passed, or memory is wanting. Most events send nothing, for which no link is asked.
    #[inline(always)]
    fn send_at(
        &mut self,
        alloc: Global,
        from: Node,
        stamp: u64,
        plan: &mut Plan,
    ) -> Result<(), RunFault>
        requires { IsWithin self.old }
        ensures sent { OnOk result (self.new ≡ record self.old { links = delivered from stamp plan.old.sent self.old.links; frame_bytes = self.old.frame_bytes + bytes_of plan.old.sent }) }
        ensures rest { OnOk result (plan.new ≡ record plan.old { sent = [] }) }
        ensures within { OnOk result (limit_of (self.old.events + 1) self.old.idle (self.old.frame_bytes + bytes_of plan.old.sent) ≡ None) }
        ensures large { (n : ℕ) → result ≡ Err (fault.TooLarge n) → limit_of (self.old.events + 1) self.old.idle (self.old.frame_bytes + bytes_of plan.old.sent) ≡ Some n }
        ensures err { OnErr result (self.new ≡ self.old) }
    {
        if plan.sends_nothing() {
            return self.one_more();
        }
        let mut sent = plan.take_sent(alloc);
        self.deliver(from, stamp, &mut sent)?;
        plan.keep_sent(sent);
        Ok(())
    }

    /// Sends this in an event of this stamp, and counts its bytes; nothing of that where a limit would be passed, or memory is
    /// wanting. All of it is taken out of `sent`, which keeps its memory.
    pub(crate) fn deliver(
        &mut self,
        from: Node,
        stamp: u64,
        sent: &mut VecDeque<WireOut>,
    ) -> Result<(), RunFault>
        requires { IsWithin self.old }
        ensures sent { OnOk result (self.new ≡ record self.old { links = delivered from stamp sent.old.items self.old.links; frame_bytes = self.old.frame_bytes + bytes_of sent.old.items }) }
        ensures taken { OnOk result (sent.new.items ≡ []) }
        ensures within { OnOk result (limit_of (self.old.events + 1) self.old.idle (self.old.frame_bytes + bytes_of sent.old.items) ≡ None) }
        ensures large { (n : ℕ) → result ≡ Err (fault.TooLarge n) → limit_of (self.old.events + 1) self.old.idle (self.old.frame_bytes + bytes_of sent.old.items) ≡ Some n }
        ensures err { OnErr result (self.new ≡ self.old) }
    {
        let bytes = self.bytes_after(sent)?;
        self.links.deliver(from, Stamp::new(stamp), sent)?;
        self.counts.frame_bytes = bytes;
        Ok(())
    }

    /// Takes the packet of an event whose packets were delivered, and does what was prepared.
    #[inline(always)]
    fn commit_at(&mut self, broker_ref: BrokerRef, number: usize, plan: &mut Plan, stamp: u64)
        requires node { number < length self.old.brokers }
        requires clock { number < length self.old.broker_clocks }
        requires ready { IsReady (node_at self.old.brokers number) plan.old }
        requires count { self.old.events + 1 < 2 ^ 64 }
        ensures brokers { IsSetNode self.old.brokers self.new.brokers number (done_at (node_at self.old.brokers number) plan.old) }
        ensures rest { IsCommitted broker_ref number stamp self.old self.new }
        ensures empty { IsEmptyPlan plan.new }
    {
        let _taken = self.links.take(broker_ref.takes);
        self.brokers[number].commit(plan);
        self.broker_clocks[number] = stamp;
        self.counts.events += 1;
    }

    /// The bytes of all frames with these, where one more event is within the limits.
    #[tactic(auto, using(crate::proofs::Limits::more_bytes, crate::proofs::Limits::too_many_events, crate::proofs::Limits::too_many_bytes))]
    pub(crate) fn bytes_after(&self, sent: &VecDeque<WireOut>) -> Result<u64, RunFault>
        requires { IsWithin self.now }
        ensures ok { IfOk result (λ n. n ≡ self.now.frame_bytes + bytes_of sent.now.items) }
        ensures within { OnOk result (limit_of (self.now.events + 1) self.now.idle (self.now.frame_bytes + bytes_of sent.now.items) ≡ None) }
        ensures large { (n : ℕ) → result ≡ Err (fault.TooLarge n) → limit_of (self.now.events + 1) self.now.idle (self.now.frame_bytes + bytes_of sent.now.items) ≡ Some n }
    {
        let more = frame_bytes(sent)?;
        if self.counts.events + self.counts.idle >= EVENTS {
            return Err(RunFault::TooLarge(EVENT_LIMIT));
        }
        if more > SENT_BYTES - self.counts.frame_bytes {
            return Err(RunFault::TooLarge(BYTE_LIMIT));
        }
        Ok(self.counts.frame_bytes + more)
    }

    /// The stamp of an event at a broker: 1 plus the greater of its last one and that of the packet that it takes, 0 where it takes none.
    fn stamp_at(&self, number: usize, taken: u64) -> u64
        requires clock { number < length self.now.broker_clocks }
        requires fits { stamp_over self.now.broker_clocks number taken < 2 ^ 64 }
        ensures { result ≡ stamp_over self.now.broker_clocks number taken }
    {
        1 + self.broker_clocks[number].max(taken)
    }
}
