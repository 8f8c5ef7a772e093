//! An event with its lines, which are made between its two halves: it is prepared then, and not done.
ghost use Rattle.std.specs.Prelude.{◌≡◌, ℕ, ◌++◌, ◌+◌, ◌<◌, ◌^◌, ◌∷◌, [], false, take, Ok, Err, OnErr, OnOk};
ghost use Rattle.trace_runs.specs.Acts.{acts_before};
ghost use Rattle.broker_state.specs.Fits.{PlanFits};
ghost use Rattle.broker_state.specs.Plan.{plan_in};
ghost use Rattle.trace_runs.specs.Snapshots.{HaveSeen, Knows};
ghost use Rattle.trace_runs.specs.Writes.{ReadsWithin, lines_of};
ghost use Rattle.geo_base.specs.Happening.{halts_planned, happens};
ghost use Rattle.geo_base.specs.Planned.{planned};
ghost use Rattle.geo_base.specs.Setup.{Setup};
ghost use Rattle.geo_base.specs.Traced.{cause_of, event_items, halt_items};
ghost use Rattle.geo_base.specs.TraceItems.{Begins};
ghost use Rattle.geo_base.specs.TraceText.{item_line};
ghost use Rattle.geo_base.specs.World.{World as Machine};
ghost use Rattle.script_text.specs.Scenario.{IsEvent};
ghost use Rattle.world.specs.declared.fault.RunFault.TheVariants as fault;
ghost use Rattle.world.specs.Foreseen.{IsForeseen};
ghost use Rattle.world.specs.Steps.{Acts, IsBrokerOf, IsLater, Leads};
ghost use Rattle.world.specs.World.{IsAt, SameWorld, kept_of, node_at};
ghost use Rattle.kept_laws.specs.Events.{IsBrokers, node_of};
ghost use Rattle.kept_laws.specs.Reached.{Reached};
ghost use Rattle.kept_laws.specs.Standing.{Stands};
ghost use Rattle.trace_runs.specs.Tracing.{AreTables, IsClients, item_lines, text_of};

use crate::acts::add_begin;
use crate::trace::Trace;
use crate::writes::add_writes;
use broker::Broker;
use geo_base::{Event, Memory};
use script_text::Scenario;
use std::alloc::Global;
use world::{BrokerRef, RunFault, World};

impl Trace {
    /// An event of a client, of which a trace tells only that it happened.
    #[tactic(auto, using(crate::proofs::ItemsTold::next_fits))]
    pub(crate) fn client_event(
        &mut self,
        alloc: Global,
        world: &mut World,
        scenario: &Scenario,
        event: &Event,
    ) -> Result<(), RunFault>
        requires at { IsAt scenario.now.setup world.old }
        requires tables { AreTables scenario.now.setup self.old.telling.snapshots (kept_of world.old).brokers }
        requires client { IsClients event.now }
        requires scripted { IsEvent scenario.now.setup event.now }
        ensures told { (w : Machine) → Reached scenario.now.setup w → Stands scenario.now.setup (kept_of world.old) w
            → OnOk result (self.new.telling.text ≡ self.old.telling.text ++ item_lines scenario.now.setup (event_items scenario.now.setup w event.now)) }
        ensures leads { (w : Machine) → Reached scenario.now.setup w → Stands scenario.now.setup (kept_of world.old) w
            → Leads scenario.now.setup world.old world.new (happens scenario.now.setup w event.now) result }
        ensures at { IsAt scenario.now.setup world.new }
        ensures tables { OnOk result (AreTables scenario.now.setup self.new.telling.snapshots (kept_of world.new).brokers) }
        ensures past { (n : ℕ) → result ≡ Err (fault.TooLarge n) → SameWorld world.old world.new }
    {
        let before = world.events();
        world.event(alloc, scenario, event)?;
        if world.events() == before {
            return Ok(());
        }
        add_begin(&mut self.telling.text, before + 1)?;
        Ok(())
    }

    /// An event of a broker, which is counted where it is idle; it has no line then.
    #[tactic(auto, using(world::proofs::Acting::leads_acted))]
    pub(crate) fn broker_event(
        &mut self,
        alloc: Global,
        world: &mut World,
        scenario: &Scenario,
        event: &Event,
    ) -> Result<(), RunFault>
        requires at { IsAt scenario.now.setup world.old }
        requires tables { AreTables scenario.now.setup self.old.telling.snapshots (kept_of world.old).brokers }
        requires broker { IsBrokers event.now }
        requires scripted { IsEvent scenario.now.setup event.now }
        ensures told { (w : Machine) → Reached scenario.now.setup w → Stands scenario.now.setup (kept_of world.old) w
            → OnOk result (self.new.telling.text ≡ self.old.telling.text ++ item_lines scenario.now.setup (event_items scenario.now.setup w event.now)) }
        ensures leads { (w : Machine) → Reached scenario.now.setup w → Stands scenario.now.setup (kept_of world.old) w
            → Leads scenario.now.setup world.old world.new (happens scenario.now.setup w event.now) result }
        ensures at { IsAt scenario.now.setup world.new }
        ensures tables { OnOk result (AreTables scenario.now.setup self.new.telling.snapshots (kept_of world.new).brokers) }
        ensures past { (n : ℕ) → result ≡ Err (fault.TooLarge n) → SameWorld world.old world.new }
    {
        if self.acts(alloc, world, scenario, event)? {
            return Ok(());
        }
        world.idles()
    }

    /// An event of a broker, which is done where it is enabled, with its lines between its two halves; whether it was.
    pub(crate) fn acts(
        &mut self,
        alloc: Global,
        world: &mut World,
        scenario: &Scenario,
        event: &Event,
    ) -> Result<bool, RunFault>
        requires at { IsAt scenario.now.setup world.old }
        requires tables { AreTables scenario.now.setup self.old.telling.snapshots (kept_of world.old).brokers }
        requires broker { IsBrokers event.now }
        requires scripted { IsEvent scenario.now.setup event.now }
        ensures told { (w : Machine) → Reached scenario.now.setup w → Stands scenario.now.setup (kept_of world.old) w
            → OnOk result (self.new.telling.text ≡ self.old.telling.text ++ item_lines scenario.now.setup (event_items scenario.now.setup w event.now)) }
        ensures acts { (w : Machine) → Reached scenario.now.setup w → Stands scenario.now.setup (kept_of world.old) w
            → Acts scenario.now.setup world.old world.new (happens scenario.now.setup w event.now) result }
        ensures at { IsAt scenario.now.setup world.new }
        ensures later { IsLater world.old world.new }
        ensures idle { result ≡ Ok false → SameWorld world.old world.new }
        ensures tables { OnOk result (AreTables scenario.now.setup self.new.telling.snapshots (kept_of world.new).brokers) }
        ensures err { OnErr result (SameWorld world.old world.new) }
    {
        let broker_ref = world.broker_ref(scenario, event);
        self.plan.clear();
        let is_ready = world.prepare(alloc, scenario, event, broker_ref, &mut self.plan)?;
        if !is_ready {
            return Ok(false);
        }
        let writes = self.plan.write_count();
        self.tell_at(alloc, world, scenario, event, broker_ref, writes)?;
        world.finish(alloc, scenario, event, broker_ref, &mut self.plan)?;
        Ok(true)
    }

    /// A stop of a broker after the first `writes` durable writes of an event, which have their lines.
    pub(crate) fn stop_of_broker(
        &mut self,
        alloc: Global,
        world: &mut World,
        scenario: &Scenario,
        writes: u32,
        event: &Event,
    ) -> Result<(), RunFault>
        requires at { IsAt scenario.now.setup world.old }
        requires tables { AreTables scenario.now.setup self.old.telling.snapshots (kept_of world.old).brokers }
        requires broker { IsBrokers event.now }
        requires scripted { IsEvent scenario.now.setup event.now }
        ensures told { (w : Machine) → Reached scenario.now.setup w → Stands scenario.now.setup (kept_of world.old) w
            → OnOk result (self.new.telling.text ≡ self.old.telling.text ++ item_lines scenario.now.setup (halt_items scenario.now.setup w writes event.now)) }
        ensures leads { (w : Machine) → Reached scenario.now.setup w → Stands scenario.now.setup (kept_of world.old) w
            → Leads scenario.now.setup world.old world.new (halts_planned scenario.now.setup w writes (planned scenario.now.setup w event.now)) result }
        ensures at { IsAt scenario.now.setup world.new }
        ensures tables { OnOk result (AreTables scenario.now.setup self.new.telling.snapshots (kept_of world.new).brokers) }
        ensures past { (n : ℕ) → result ≡ Err (fault.TooLarge n) → SameWorld world.old world.new }
    {
        let broker_ref = world.broker_ref(scenario, event);
        self.plan.clear();
        world.prepare_halt(alloc, scenario, event, broker_ref, &mut self.plan)?;
        self.tell_at(alloc, world, scenario, event, broker_ref, writes as usize)?;
        world.halt(alloc, scenario, writes, event)
    }

    /// The line of the next event, and those of the first `writes` durable writes that are prepared at its broker.
    fn tell_at(
        &mut self,
        alloc: Global,
        world: &World,
        scenario: &Scenario,
        event: &Event,
        broker_ref: BrokerRef,
        writes: usize,
    ) -> Result<(), Memory>
        requires at { IsAt scenario.now.setup world.now }
        requires tables { AreTables scenario.now.setup self.old.telling.snapshots (kept_of world.now).brokers }
        requires broker { IsBrokers event.now }
        requires scripted { IsEvent scenario.now.setup event.now }
        requires broker_ref { IsBrokerOf scenario.now.setup event.now broker_ref }
        requires foreseen { (w : Machine) → Reached scenario.now.setup w → Stands scenario.now.setup (kept_of world.now) w
            → IsForeseen scenario.now.setup w event.now (node_at world.now.brokers (node_of scenario.now.setup event.now)) self.old.plan }
        ensures told { (w : Machine) → Reached scenario.now.setup w → Stands scenario.now.setup (kept_of world.now) w
            → OnOk result (self.new.telling.text ≡ text_of scenario.now.setup self.old.telling.text w.events (node_at world.now.brokers (node_of scenario.now.setup event.now)) event.now self.old.plan writes) }
        ensures tables { OnOk result (AreTables scenario.now.setup self.new.telling.snapshots (kept_of world.now).brokers) }
        ensures plan { self.new.plan ≡ self.old.plan }
    {
        let events = world.events();
        let node = world.topic(scenario, broker_ref.topic, broker_ref.cluster);
        self.tell(alloc, events, node, event, writes)
    }

    /// The line of an event after so many, and those of the first `writes` durable writes that are prepared at its broker.
    fn tell(
        &mut self,
        alloc: Global,
        events: u64,
        node: &Broker,
        event: &Event,
        writes: usize,
    ) -> Result<(), Memory>
        requires count { events + 1 < 2 ^ 64 }
        requires read { ReadsWithin node.now.site event.now }
        requires fits { PlanFits node.now.site.per_ledger node.now.broker self.old.plan }
        requires known { Knows node.now self.old.telling.snapshots }
        ensures told { (s : Setup) → OnOk result (self.new.telling.text ≡ (self.old.telling.text ++ (item_line s (Begins (events + 1)) ++ 10 ∷ []))
            ++ lines_of node.now.site (acts_before node.now.site (cause_of node.now.broker event.now) node.now.broker (take writes (plan_in node.now.broker self.old.plan).writes))) }
        ensures seen { OnOk result (HaveSeen node.now self.old.telling.snapshots self.new.telling.snapshots) }
        ensures plan { self.new.plan ≡ self.old.plan }
    {
        add_begin(&mut self.telling.text, events + 1)?;
        add_writes(alloc, &mut self.telling, node, event, &self.plan, writes)
    }
}
