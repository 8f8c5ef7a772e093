//! An event of a broker in two halves: it is prepared, and then it is done.
ghost use Rattle.std.specs.Prelude.{◌≡◌, false, true, OnErr, OnOk, Ok};
ghost use Rattle.broker_state.specs.Plan.{IsEmptyPlan};
ghost use Rattle.geo_base.specs.Happening.{happens};
ghost use Rattle.geo_base.specs.World.{World as Machine};
ghost use Rattle.script_text.specs.Scenario.{IsEvent};
ghost use Rattle.world.specs.Foreseen.{IsForeseen, IsHalfDone, enabled};
ghost use Rattle.world.specs.Steps.{Acts, IsLater, broker_ref_at};
ghost use Rattle.world.specs.World.{IsAt, SameWorld, kept_of, node_at};
ghost use Rattle.kept_laws.specs.Events.{IsBrokers, node_of};
ghost use Rattle.kept_laws.specs.Reached.{Reached};
ghost use Rattle.kept_laws.specs.Standing.{Stands};

use crate::broker_ref::BrokerRef;
use crate::fault::RunFault;
use crate::world::{World, node_number};
use broker_state::Plan;
use geo_base::{Event, Memory};
use script_text::Scenario;
use std::alloc::Global;

impl World {
    /// The first half of an event of a broker, at its place: prepares it in a plan that is empty. `true` where it is ready, and then the
    /// second half may follow; `false` where it is idle, and then the plan is empty again. Nothing of the world's state changes; brokers
    /// may have other room. An `Err` is want of memory, and then the plan is empty.
    pub fn prepare(
        &mut self,
        alloc: Global,
        scenario: &Scenario,
        event: &Event,
        broker_ref: BrokerRef,
        plan: &mut Plan,
    ) -> Result<bool, Memory>
        requires at { IsAt scenario.now.setup self.old }
        requires broker { IsBrokers event.now }
        requires scripted { IsEvent scenario.now.setup event.now }
        requires broker_ref { broker_ref ≡ broker_ref_at scenario.now.setup self.old.links event.now }
        requires empty { IsEmptyPlan plan.old }
        ensures ready { result ≡ Ok true → IsHalfDone scenario.now.setup self.new event.now plan.new }
        ensures idle { (w : Machine) → Reached scenario.now.setup w → Stands scenario.now.setup (kept_of self.old) w
            → result ≡ Ok false → Acts scenario.now.setup self.old self.new (happens scenario.now.setup w event.now) (Ok false) }
        ensures empty { result ≡ Ok false → IsEmptyPlan plan.new }
        ensures at { IsAt scenario.now.setup self.new }
        ensures same { SameWorld self.old self.new }
        ensures err { OnErr result (IsEmptyPlan plan.new) }
    {
        if self.is_waiting(broker_ref.takes) {
            return Ok(false);
        }
        self.prepare_enabled(alloc, scenario, event, broker_ref, plan)
    }

    /// The same of an event that takes no packet, or takes one that is there.
    // Inlined, as is the second half, both halves of a plain run's event are one function (2.7 % of a long script's instructions).
    #[inline(always)]
    pub(crate) fn prepare_enabled(
        &mut self,
        alloc: Global,
        scenario: &Scenario,
        event: &Event,
        broker_ref: BrokerRef,
        plan: &mut Plan,
    ) -> Result<bool, Memory>
        requires at { IsAt scenario.now.setup self.old }
        requires broker { IsBrokers event.now }
        requires scripted { IsEvent scenario.now.setup event.now }
        requires broker_ref { broker_ref ≡ broker_ref_at scenario.now.setup self.old.links event.now }
        requires empty { IsEmptyPlan plan.old }
        ensures ready { result ≡ Ok true → IsHalfDone scenario.now.setup self.new event.now plan.new }
        ensures idle { (w : Machine) → Reached scenario.now.setup w → Stands scenario.now.setup (kept_of self.old) w
            → result ≡ Ok false → Acts scenario.now.setup self.old self.new (happens scenario.now.setup w event.now) (Ok false) }
        ensures empty { result ≡ Ok false → IsEmptyPlan plan.new }
        ensures at { IsAt scenario.now.setup self.new }
        ensures same { SameWorld self.old self.new }
        ensures err { OnErr result (IsEmptyPlan plan.new) }
    {
        let number = node_number(scenario, broker_ref.topic, broker_ref.cluster);
        self.prepare_at(alloc, number, event, broker_ref.takes, plan)?;
        if plan.is_idle() {
            plan.clear();
            return Ok(false);
        }
        Ok(true)
    }

    /// The second half of an event of a broker, whose first half was the last that happened to the world: its packets are sent, it takes
    /// its packet, and what was prepared is done. The plan is empty then. An `Err` changes nothing of the world: a limit of the run that
    /// the event would pass, or want of memory.
    #[inline(always)]
    pub fn finish(
        &mut self,
        alloc: Global,
        scenario: &Scenario,
        event: &Event,
        broker_ref: BrokerRef,
        plan: &mut Plan,
    ) -> Result<(), RunFault>
        requires at { IsAt scenario.now.setup self.old }
        requires broker { IsBrokers event.now }
        requires scripted { IsEvent scenario.now.setup event.now }
        requires broker_ref { broker_ref ≡ broker_ref_at scenario.now.setup self.old.links event.now }
        requires ready { IsHalfDone scenario.now.setup self.old event.now plan.old }
        ensures acts { (w : Machine) → Reached scenario.now.setup w → Stands scenario.now.setup (kept_of self.old) w
            → Acts scenario.now.setup self.old self.new (happens scenario.now.setup w event.now) (enabled result) }
        ensures at { IsAt scenario.now.setup self.new }
        ensures later { IsLater self.old self.new }
        ensures err { OnErr result (SameWorld self.old self.new) }
        ensures empty { IsEmptyPlan plan.new }
    {
        let number = node_number(scenario, broker_ref.topic, broker_ref.cluster);
        match self.finish_at(alloc, broker_ref, number, plan) {
            Ok(()) => Ok(()),
            Err(fault) => {
                plan.clear();
                Err(fault)
            }
        }
    }

    /// The first half of a stop in the midst of an event of a broker: what the event would do is prepared in a plan that is empty, also
    /// where it is idle. Nothing of the world's state changes; brokers may have other room. An `Err` is want of memory, and then the plan
    /// is empty again.
    pub fn prepare_halt(
        &mut self,
        alloc: Global,
        scenario: &Scenario,
        event: &Event,
        broker_ref: BrokerRef,
        plan: &mut Plan,
    ) -> Result<(), Memory>
        requires at { IsAt scenario.now.setup self.old }
        requires broker { IsBrokers event.now }
        requires scripted { IsEvent scenario.now.setup event.now }
        requires broker_ref { broker_ref ≡ broker_ref_at scenario.now.setup self.old.links event.now }
        requires empty { IsEmptyPlan plan.old }
        ensures foreseen { OnOk result ((w : Machine) → Reached scenario.now.setup w → Stands scenario.now.setup (kept_of self.new) w
            → IsForeseen scenario.now.setup w event.now (node_at self.new.brokers (node_of scenario.now.setup event.now)) plan.new) }
        ensures at { IsAt scenario.now.setup self.new }
        ensures same { SameWorld self.old self.new }
        ensures err { OnErr result (IsEmptyPlan plan.new) }
    {
        let number = node_number(scenario, broker_ref.topic, broker_ref.cluster);
        self.prepare_at(alloc, number, event, broker_ref.takes, plan)
    }
}
