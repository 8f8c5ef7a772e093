//! How a prepared event becomes of a broker's state: whole, or up to a stop between two of its durable writes.
ghost use Rattle.std.specs.Prelude.{◌≡◌, IfOk, OnErr, OnOk, Option};
ghost use Rattle.std.specs.Option.{option_copied};
ghost use Rattle.geo_base.specs.declared.packet.Packet.{Packet};
ghost use Rattle.geo_base.specs.Plan.{done, halted};
ghost use Rattle.broker_state.specs.Plan.{IsEmptyPlan, plan_in};
ghost use Rattle.broker.specs.Events.{IsOfNode, NumbersRise, plan_at_node};
ghost use Rattle.broker.specs.Input.{StandsForInput};
ghost use Rattle.broker.specs.Node.{IsDone, IsReady, SameNode};

use crate::broker::Broker;
use broker_state::Plan;
use geo_base::{Event, Memory, WireOut};
use std::alloc::Global;
use wire_ends::WirePacket;

/// What an event did: whether it was not enabled, and the packets to send.
#[derive(Drop)]
pub struct Acted {
    pub idle: bool,
    pub sent: Vec<WireOut>,
}

impl Broker {
    /// Does what was prepared: its durable writes in order, and then its changes in memory. It takes no memory and can't fail. The
    /// plan is empty then.
    pub fn commit(&mut self, plan: &mut Plan)
        requires { IsReady self.old plan.old }
        ensures broker { self.new.broker ≡ done self.old.site.per_ledger self.old.broker (plan_in self.old.broker plan.old) }
        ensures node { SameNode self.old self.new }
        ensures empty { IsEmptyPlan plan.new }
    {
        self.state.commit(plan);
    }

    /// Does an event, with the next packet of the link that it takes from. All memory is taken first; an `Err` is want of it, and
    /// then nothing has changed.
    pub fn act(
        &mut self,
        alloc: Global,
        event: &Event,
        input: Option<&WirePacket>,
    ) -> Result<Acted, Memory>
        requires node { IsOfNode self.old event.now }
        requires numbers { NumbersRise self.old event.now }
        ensures done { (v : Option Packet) → StandsForInput self.old.site.clusters (option_copied input.entry) v
            → IfOk result (λ a. IsDone self.old self.new (plan_at_node self.old event.now v) a.idle a.sent.items) }
        ensures err { OnErr result (self.new.broker ≡ self.old.broker) }
        ensures node { SameNode self.old self.new }
    {
        let mut plan = Plan::new(alloc);
        let acted = self.act_by(alloc, event, input, &mut plan);
        // by a call, so that the end of a plan is proved by itself
        drop(plan);
        acted
    }

    /// The same by a plan that is empty.
    #[tactic(auto, using(crate::proofs::Acts::act_done, crate::proofs::Ready::ready_without))]
    fn act_by(
        &mut self,
        alloc: Global,
        event: &Event,
        input: Option<&WirePacket>,
        plan: &mut Plan,
    ) -> Result<Acted, Memory>
        requires node { IsOfNode self.old event.now }
        requires numbers { NumbersRise self.old event.now }
        requires empty { IsEmptyPlan plan.old }
        ensures done { (v : Option Packet) → StandsForInput self.old.site.clusters (option_copied input.entry) v
            → IfOk result (λ a. IsDone self.old self.new (plan_at_node self.old event.now v) a.idle a.sent.items) }
        ensures err { OnErr result (self.new.broker ≡ self.old.broker) }
        ensures node { SameNode self.old self.new }
    {
        self.prepare(alloc, event, input, plan)?;
        let idle = plan.is_idle();
        let sent = plan.take_sent(alloc).into_vec();
        self.commit(plan);
        Ok(Acted { idle, sent })
    }

    /// Stops the broker after the first `writes` durable writes of an event: what they wrote stays, a ledger opens, what is in
    /// memory is lost, and nothing is sent. An `Err` is want of memory, and then nothing has changed.
    pub fn halt(
        &mut self,
        alloc: Global,
        writes: u32,
        event: &Event,
        input: Option<&WirePacket>,
    ) -> Result<(), Memory>
        requires node { IsOfNode self.old event.now }
        requires numbers { NumbersRise self.old event.now }
        ensures halted { (v : Option Packet) → StandsForInput self.old.site.clusters (option_copied input.entry) v
            → OnOk result (self.new.broker ≡ halted self.old.site.per_ledger self.old.broker writes (plan_at_node self.old event.now v)) }
        ensures err { OnErr result (self.new.broker ≡ self.old.broker) }
        ensures node { SameNode self.old self.new }
    {
        let mut plan = Plan::new(alloc);
        self.prepare(alloc, event, input, &mut plan)?;
        self.prepare_stop(writes, &mut plan)?;
        self.commit(&mut plan);
        Ok(())
    }

    /// The stop, as an event of its own. Only room is made, for the writes that stay and the ledger that opens.
    fn prepare_stop(&mut self, writes: u32, plan: &mut Plan) -> Result<(), Memory>
        requires { IsReady self.old plan.old }
        ensures halted { OnOk result (done self.old.site.per_ledger self.old.broker (plan_in self.old.broker plan.new) ≡ halted self.old.site.per_ledger self.old.broker writes (plan_in self.old.broker plan.old)) }
        ensures ready { OnOk result (IsReady self.new plan.new) }
        ensures broker { self.new.broker ≡ self.old.broker }
        ensures node { SameNode self.old self.new }
    {
        let room = plan.write_count().min(writes as usize) + 1;
        self.state.reserve_entries(room)?;
        plan.halt_behind(writes as usize)
    }
}
