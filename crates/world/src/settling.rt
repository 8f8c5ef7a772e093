//! Settling: every link is reset, and then rounds of take, receipt and read, until one does nothing.
ghost use Rattle.std.specs.Prelude.{◌≡◌, ◌+◌, ◌<◌, ◌≤◌, true, All, IfOk, OnErr, OnOk, Ok};
ghost use Rattle.geo_base.specs.Run.{Ran, all_limits, pairs, round_of, settled_world};
ghost use Rattle.geo_base.specs.World.{World as Machine};
ghost use Rattle.world.specs.Observing.{Ends, IsRounding, IsSettling, Rounds, Settles, settle_seen};
ghost use Rattle.world.specs.Runs.{Comes, at_world};
ghost use Rattle.world.specs.Settling.{IsSettlingEvent, settled_by};
ghost use Rattle.world.specs.Steps.{IsLater, Leads};
ghost use Rattle.world.specs.World.{IsAt, IsWithin, SameWorld, kept_of};
ghost use Rattle.kept_laws.specs.Standing.{Stands};
ghost use Rattle.kept_laws.specs.Reached.{Reached};
ghost use Rattle.world_laws.specs.Starts.{most_at_start};

use crate::fault::RunFault;
use crate::observer::{Observer, Unobserved};
use crate::settling_events::SettlingEvents;
use crate::world::World;
use geo_base::Event;
use script_text::Scenario;
use std::alloc::Global;

impl World {
    /// Settles, and answers how many rounds it counted: all but the last one, which did nothing. Where a limit ends it, the world is
    /// that of the events done before.
    pub fn settle(&mut self, alloc: Global, scenario: &Scenario) -> Result<u64, RunFault>
        requires at { IsAt scenario.now.setup self.old }
        ensures comes { (w : Machine) → Reached scenario.now.setup w → Stands scenario.now.setup (kept_of self.old) w
            → Comes scenario.now.setup self.new (settled_world all_limits scenario.now.setup (at_world w)) result }
        ensures at { IsAt scenario.now.setup self.new }
        ensures rounds { IfOk result (λ n. self.new.rounds ≡ self.old.rounds + n) }
    {
        self.settle_with(alloc, scenario, &mut Unobserved)
    }

    /// The same before an observer.
    pub(crate) fn settle_with<O: Observer>(
        &mut self,
        alloc: Global,
        scenario: &Scenario,
        observer: &mut O,
    ) -> Result<u64, RunFault>
        requires at { IsAt scenario.now.setup self.old }
        requires knows { O.knows observer.old scenario.now.setup (kept_of self.old).brokers }
        ensures seen { (w : Machine) → Reached scenario.now.setup w → Stands scenario.now.setup (kept_of self.old) w
            → OnOk result (O.seen observer.new ≡ O.sight.settled scenario.now.setup (settled_world all_limits scenario.now.setup (at_world w)).world
            (settle_seen O.sight all_limits scenario.now.setup (at_world w) (O.seen observer.old))) }
        ensures comes { (w : Machine) → Reached scenario.now.setup w → Stands scenario.now.setup (kept_of self.old) w
            → Comes scenario.now.setup self.new (settled_world all_limits scenario.now.setup (at_world w)) result }
        ensures at { IsAt scenario.now.setup self.new }
        ensures knows { OnOk result (O.knows observer.new scenario.now.setup (kept_of self.new).brokers) }
        ensures rounds { IfOk result (λ n. self.new.rounds ≡ self.old.rounds + n) }
    {
        let events = SettlingEvents::of(alloc, scenario)?;
        observer.settles(self, scenario)?;
        self.settle_each(alloc, scenario, events.resets.as_slice(), observer)?;
        let rounds = self.rounds(alloc, scenario, events.round.as_slice(), observer)?;
        observer.settled(self, scenario)?;
        Ok(rounds)
    }

    /// Rounds until one does nothing; how many were counted.
    fn rounds<O: Observer>(
        &mut self,
        alloc: Global,
        scenario: &Scenario,
        round: &[Event],
        observer: &mut O,
    ) -> Result<u64, RunFault>
        requires at { IsAt scenario.now.setup self.old }
        requires knows { O.knows observer.old scenario.now.setup (kept_of self.old).brokers }
        requires round { round.now ≡ round_of (pairs scenario.now.setup) }
        ensures ends { (r : Ran) (all : O.Seen) → IsRounding O.sight scenario.now.setup self.old (O.seen observer.old) r all
            → Ends scenario.now.setup self.new (O.seen observer.new) r all result }
        ensures at { IsAt scenario.now.setup self.new }
        ensures knows { OnOk result (O.knows observer.new scenario.now.setup (kept_of self.new).brokers) }
        ensures rounds { IfOk result (λ n. self.new.rounds ≡ self.old.rounds + n) }
    {
        let before = self.counts.rounds;
        while self.round(alloc, scenario, round, observer)? {}
        Ok(self.counts.rounds - before)
    }

    /// A round, which is counted if it did something; whether it did.
    fn round<O: Observer>(
        &mut self,
        alloc: Global,
        scenario: &Scenario,
        round: &[Event],
        observer: &mut O,
    ) -> Result<bool, RunFault>
        requires at { IsAt scenario.now.setup self.old }
        requires knows { O.knows observer.old scenario.now.setup (kept_of self.old).brokers }
        requires round { round.now ≡ round_of (pairs scenario.now.setup) }
        ensures sees { (r : Ran) (all : O.Seen) → IsRounding O.sight scenario.now.setup self.old (O.seen observer.old) r all
            → Rounds O.sight scenario.now.setup self.new (O.seen observer.new) r all result }
        ensures at { IsAt scenario.now.setup self.new }
        ensures knows { OnOk result (O.knows observer.new scenario.now.setup (kept_of self.new).brokers) }
        ensures rounds { OnOk result (self.old.rounds ≤ self.new.rounds) }
        ensures rises { result ≡ Ok true → self.old.events < self.new.events }
    {
        let before = self.counts.events;
        self.settle_each(alloc, scenario, round, observer)?;
        if self.counts.events == before {
            return Ok(false);
        }
        self.counts_round();
        Ok(true)
    }

    /// Counts a round that did an event.
    fn counts_round(&mut self)
        requires within { IsWithin self.old }
        requires few { self.old.rounds < most_at_start + self.old.events }
        ensures { self.new ≡ record self.old { rounds = self.old.rounds + 1 } }
    {
        self.counts.rounds += 1;
    }

    /// Events of settling, one after another, up to the first that would pass a limit of the run.
    fn settle_each<O: Observer>(
        &mut self,
        alloc: Global,
        scenario: &Scenario,
        events: &[Event],
        observer: &mut O,
    ) -> Result<(), RunFault>
        requires at { IsAt scenario.now.setup self.old }
        requires knows { O.knows observer.old scenario.now.setup (kept_of self.old).brokers }
        requires each { All (IsSettlingEvent scenario.now.setup) events.now }
        ensures sees { (r : Ran) (all : O.Seen) → IsSettling O.sight scenario.now.setup self.old (O.seen observer.old) events.now r all
            → Settles O.sight scenario.now.setup self.new (O.seen observer.new) r all result }
        ensures at { IsAt scenario.now.setup self.new }
        ensures knows { OnOk result (O.knows observer.new scenario.now.setup (kept_of self.new).brokers) }
        ensures later { IsLater self.old self.new }
    {
        for event in events {
            observer.settling(alloc, self, scenario, event)?;
        }
        Ok(())
    }

    /// An event of settling: where it is idle it is not counted, and passes no limit. An `Err` changes nothing of the world.
    pub fn settles(
        &mut self,
        alloc: Global,
        scenario: &Scenario,
        event: &Event,
    ) -> Result<(), RunFault>
        requires at { IsAt scenario.now.setup self.old }
        requires event { IsSettlingEvent scenario.now.setup event.now }
        ensures leads { (w : Machine) → Reached scenario.now.setup w → Stands scenario.now.setup (kept_of self.old) w
            → Leads scenario.now.setup self.old self.new (settled_by scenario.now.setup w event.now) result }
        ensures at { IsAt scenario.now.setup self.new }
        ensures later { IsLater self.old self.new }
        ensures err { OnErr result (SameWorld self.old self.new) }
    {
        let _enabled = self.acts(alloc, scenario, event)?;
        Ok(())
    }
}
