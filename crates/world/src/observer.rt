//! What sees a run, event by event, as the world does it.
ghost use Rattle.std.specs.Prelude.{◌≡◌, ℕ, List, Err, OnOk};
ghost use Rattle.geo_base.specs.Broker.{Broker};
ghost use Rattle.geo_base.specs.Happening.{halts_planned, happens, stops};
ghost use Rattle.geo_base.specs.Planned.{planned};
ghost use Rattle.geo_base.specs.Setup.{Setup};
ghost use Rattle.geo_base.specs.World.{World as Machine};
ghost use Rattle.script_text.specs.Scenario.{IsEvent};
ghost use Rattle.world.specs.declared.fault.RunFault.TheVariants as fault;
ghost use Rattle.world.specs.Observing.{Sight};
ghost use Rattle.world.specs.Settling.{IsSettlingEvent, settled_by};
ghost use Rattle.world.specs.Steps.{IsLater, Leads};
ghost use Rattle.world.specs.World.{IsAt, SameWorld, kept_of};
ghost use Rattle.kept_laws.specs.Events.{IsBrokers};
ghost use Rattle.kept_laws.specs.Reached.{Reached};
ghost use Rattle.kept_laws.specs.Standing.{Stands};

use crate::fault::RunFault;
use crate::world::World;
use geo_base::{Event, Memory};
use script_text::Scenario;
use std::alloc::Global;

/// What sees a run. The run's one loop asks it for each thing in turn: it has the world do it, by the world's own calls, an event of a
/// broker by its two halves, and sees between them what is prepared. An `Err` is the world's, or want of memory for what is seen.
pub trait Observer {
    /// What there is to be seen, as contracts have it.
    ghost Seen: { Type 0 };

    /// What it has seen so far.
    ghost seen: { Self → Self.Seen };

    /// What it sees at each thing.
    ghost sight: { Sight Self.Seen };

    /// What it knows of all brokers as they stand, by which it sees the next event.
    ghost knows: { Self → Setup → List Broker → Type 0 };

    /// An event of the script, which is counted where it is idle.
    fn event(
        &mut self,
        alloc: Global,
        world: &mut World,
        scenario: &Scenario,
        event: &Event,
    ) -> Result<(), RunFault>
        requires at { IsAt scenario.now.setup world.old }
        requires knows { Self.knows self.old scenario.now.setup (kept_of world.old).brokers }
        requires scripted { IsEvent scenario.now.setup event.now }
        ensures seen { (w : Machine) → Reached scenario.now.setup w → Stands scenario.now.setup (kept_of world.old) w
            → OnOk result (Self.seen self.new ≡ Self.sight.event scenario.now.setup w event.now (Self.seen self.old)) }
        ensures leads { (w : Machine) → Reached scenario.now.setup w → Stands scenario.now.setup (kept_of world.old) w
            → Leads scenario.now.setup world.old world.new (happens scenario.now.setup w event.now) result }
        ensures at { IsAt scenario.now.setup world.new }
        ensures knows { OnOk result (Self.knows self.new scenario.now.setup (kept_of world.new).brokers) }
        ensures past { (n : ℕ) → result ≡ Err (fault.TooLarge n) → SameWorld world.old world.new };

    /// A stop of a broker in the midst of the durable writes of an event.
    fn halt(
        &mut self,
        alloc: Global,
        world: &mut World,
        scenario: &Scenario,
        writes: u32,
        event: &Event,
    ) -> Result<(), RunFault>
        requires at { IsAt scenario.now.setup world.old }
        requires knows { Self.knows self.old scenario.now.setup (kept_of world.old).brokers }
        requires broker { IsBrokers event.now }
        requires scripted { IsEvent scenario.now.setup event.now }
        ensures seen { (w : Machine) → Reached scenario.now.setup w → Stands scenario.now.setup (kept_of world.old) w
            → OnOk result (Self.seen self.new ≡ Self.sight.halt scenario.now.setup w writes event.now (Self.seen self.old)) }
        ensures leads { (w : Machine) → Reached scenario.now.setup w → Stands scenario.now.setup (kept_of world.old) w
            → Leads scenario.now.setup world.old world.new (halts_planned scenario.now.setup w writes (planned scenario.now.setup w event.now)) result }
        ensures at { IsAt scenario.now.setup world.new }
        ensures knows { OnOk result (Self.knows self.new scenario.now.setup (kept_of world.new).brokers) }
        ensures past { (n : ℕ) → result ≡ Err (fault.TooLarge n) → SameWorld world.old world.new };

    /// A stop of everything.
    fn stop(
        &mut self,
        alloc: Global,
        world: &mut World,
        scenario: &Scenario,
    ) -> Result<(), RunFault>
        requires at { IsAt scenario.now.setup world.old }
        requires knows { Self.knows self.old scenario.now.setup (kept_of world.old).brokers }
        ensures seen { (w : Machine) → Reached scenario.now.setup w → Stands scenario.now.setup (kept_of world.old) w
            → OnOk result (Self.seen self.new ≡ Self.sight.stop scenario.now.setup w (Self.seen self.old)) }
        ensures leads { (w : Machine) → Reached scenario.now.setup w → Stands scenario.now.setup (kept_of world.old) w
            → Leads scenario.now.setup world.old world.new (stops scenario.now.setup w) result }
        ensures at { IsAt scenario.now.setup world.new }
        ensures knows { OnOk result (Self.knows self.new scenario.now.setup (kept_of world.new).brokers) }
        ensures past { (n : ℕ) → result ≡ Err (fault.TooLarge n) → SameWorld world.old world.new };

    /// Settling begins.
    fn settles(&mut self, world: &World, scenario: &Scenario) -> Result<(), Memory>
        requires at { IsAt scenario.now.setup world.now }
        requires knows { Self.knows self.old scenario.now.setup (kept_of world.now).brokers }
        ensures seen { (w : Machine) → Reached scenario.now.setup w → Stands scenario.now.setup (kept_of world.now) w
            → OnOk result (Self.seen self.new ≡ Self.sight.settles scenario.now.setup w (Self.seen self.old)) }
        ensures knows { OnOk result (Self.knows self.new scenario.now.setup (kept_of world.now).brokers) };

    /// An event of settling, which is not counted where it is idle.
    fn settling(
        &mut self,
        alloc: Global,
        world: &mut World,
        scenario: &Scenario,
        event: &Event,
    ) -> Result<(), RunFault>
        requires at { IsAt scenario.now.setup world.old }
        requires knows { Self.knows self.old scenario.now.setup (kept_of world.old).brokers }
        requires event { IsSettlingEvent scenario.now.setup event.now }
        ensures seen { (w : Machine) → Reached scenario.now.setup w → Stands scenario.now.setup (kept_of world.old) w
            → OnOk result (Self.seen self.new ≡ Self.sight.settling scenario.now.setup w event.now (Self.seen self.old)) }
        ensures leads { (w : Machine) → Reached scenario.now.setup w → Stands scenario.now.setup (kept_of world.old) w
            → Leads scenario.now.setup world.old world.new (settled_by scenario.now.setup w event.now) result }
        ensures at { IsAt scenario.now.setup world.new }
        ensures later { IsLater world.old world.new }
        ensures knows { OnOk result (Self.knows self.new scenario.now.setup (kept_of world.new).brokers) }
        ensures past { (n : ℕ) → result ≡ Err (fault.TooLarge n) → SameWorld world.old world.new };

    /// Settling has ended.
    fn settled(&mut self, world: &World, scenario: &Scenario) -> Result<(), Memory>
        requires at { IsAt scenario.now.setup world.now }
        requires knows { Self.knows self.old scenario.now.setup (kept_of world.now).brokers }
        ensures seen { (w : Machine) → Reached scenario.now.setup w → Stands scenario.now.setup (kept_of world.now) w
            → OnOk result (Self.seen self.new ≡ Self.sight.settled scenario.now.setup w (Self.seen self.old)) }
        ensures knows { OnOk result (Self.knows self.new scenario.now.setup (kept_of world.now).brokers) };
}

/// No observer: the world does all alone.
#[derive(Clone, Copy, Drop)]
pub struct Unobserved;

impl Observer for Unobserved {
    ghost use Rattle.world.specs.Observing.{nothing_seen};

    ghost Seen = { Unit {0} };

    ghost seen = { λ _. tt };

    ghost sight = { nothing_seen };

    ghost knows = { λ _ _ _. Unit {0} };

    #[inline(always)]
    fn event(
        &mut self,
        alloc: Global,
        world: &mut World,
        scenario: &Scenario,
        event: &Event,
    ) -> Result<(), RunFault> {
        world.event(alloc, scenario, event)
    }

    fn halt(
        &mut self,
        alloc: Global,
        world: &mut World,
        scenario: &Scenario,
        writes: u32,
        event: &Event,
    ) -> Result<(), RunFault> {
        world.halt(alloc, scenario, writes, event)
    }

    fn stop(
        &mut self,
        alloc: Global,
        world: &mut World,
        scenario: &Scenario,
    ) -> Result<(), RunFault> {
        world.stop(alloc, scenario)
    }

    fn settles(&mut self, _world: &World, _scenario: &Scenario) -> Result<(), Memory> {
        Ok(())
    }

    #[inline(always)]
    fn settling(
        &mut self,
        alloc: Global,
        world: &mut World,
        scenario: &Scenario,
        event: &Event,
    ) -> Result<(), RunFault> {
        world.settles(alloc, scenario, event)
    }

    fn settled(&mut self, _world: &World, _scenario: &Scenario) -> Result<(), Memory> {
        Ok(())
    }
}
