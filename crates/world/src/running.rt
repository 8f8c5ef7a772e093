//! A run: the steps of a script, one after another.
ghost use Rattle.std.specs.Prelude.{◌≡◌, All, OnOk};
ghost use Rattle.geo_base.specs.Run.{all_limits, run_from, steps};
ghost use Rattle.geo_base.specs.World.{World as Machine};
ghost use Rattle.world.specs.Observing.{run_seen, step_seen};
ghost use Rattle.world.specs.Runs.{Comes, at_world};
ghost use Rattle.world.specs.World.{IsAt, kept_of};
ghost use Rattle.script_text.specs.Scenario.{IsStep};
ghost use Rattle.kept_laws.specs.Standing.{Stands};
ghost use Rattle.kept_laws.specs.Reached.{Reached};

use crate::fault::RunFault;
use crate::observer::{Observer, Unobserved};
use crate::world::World;
use geo_base::Step;
use script_text::{Scenario, StepList};
use std::alloc::Global;

impl World {
    /// Does steps of a script, one after another. The first one that does not come to its end is the last one: where a limit ends
    /// the run, the world is that of the events done before.
    pub fn run(
        &mut self,
        alloc: Global,
        scenario: &Scenario,
        steps: &StepList,
    ) -> Result<(), RunFault>
        requires at { IsAt scenario.now.setup self.old }
        requires each { All (IsStep scenario.now.setup) steps.now }
        ensures comes { (w : Machine) → Reached scenario.now.setup w → Stands scenario.now.setup (kept_of self.old) w
            → Comes scenario.now.setup self.new (run_from all_limits scenario.now.setup (at_world w) steps.now) result }
        ensures at { IsAt scenario.now.setup self.new }
    {
        self.run_with(alloc, scenario, steps, &mut Unobserved)
    }

    /// The same before an observer, which has then seen all of it.
    pub fn run_with<O: Observer>(
        &mut self,
        alloc: Global,
        scenario: &Scenario,
        steps: &StepList,
        observer: &mut O,
    ) -> Result<(), RunFault>
        requires at { IsAt scenario.now.setup self.old }
        requires knows { O.knows observer.old scenario.now.setup (kept_of self.old).brokers }
        requires each { All (IsStep scenario.now.setup) steps.now }
        ensures seen { (w : Machine) → Reached scenario.now.setup w → Stands scenario.now.setup (kept_of self.old) w
            → OnOk result (O.seen observer.new ≡ run_seen O.sight all_limits scenario.now.setup (at_world w) steps.now (O.seen observer.old)) }
        ensures comes { (w : Machine) → Reached scenario.now.setup w → Stands scenario.now.setup (kept_of self.old) w
            → Comes scenario.now.setup self.new (run_from all_limits scenario.now.setup (at_world w) steps.now) result }
        ensures at { IsAt scenario.now.setup self.new }
    {
        for broker_ref in 0..steps.len() {
            self.step_with(alloc, scenario, &steps.at(broker_ref), observer)?;
        }
        Ok(())
    }

    /// Does a step of a script: an event, a stop of a broker in the midst of one, a stop of everything, or settling, of which a
    /// limit may leave a part.
    pub fn step(&mut self, alloc: Global, scenario: &Scenario, step: &Step) -> Result<(), RunFault>
        requires at { IsAt scenario.now.setup self.old }
        requires step { IsStep scenario.now.setup step.now }
        ensures comes { (w : Machine) → Reached scenario.now.setup w → Stands scenario.now.setup (kept_of self.old) w
            → Comes scenario.now.setup self.new (steps all_limits scenario.now.setup (at_world w) step.now) result }
        ensures at { IsAt scenario.now.setup self.new }
    {
        self.step_with(alloc, scenario, step, &mut Unobserved)
    }

    /// The same before an observer.
    // Inlined, the step of a list is read into its parts at once, and is no value in memory (1.6 % of a long script's instructions).
    #[inline(always)]
    fn step_with<O: Observer>(
        &mut self,
        alloc: Global,
        scenario: &Scenario,
        step: &Step,
        observer: &mut O,
    ) -> Result<(), RunFault>
        requires at { IsAt scenario.now.setup self.old }
        requires knows { O.knows observer.old scenario.now.setup (kept_of self.old).brokers }
        requires step { IsStep scenario.now.setup step.now }
        ensures seen { (w : Machine) → Reached scenario.now.setup w → Stands scenario.now.setup (kept_of self.old) w
            → OnOk result (O.seen observer.new ≡ step_seen O.sight all_limits scenario.now.setup (at_world w) step.now (O.seen observer.old)) }
        ensures comes { (w : Machine) → Reached scenario.now.setup w → Stands scenario.now.setup (kept_of self.old) w
            → Comes scenario.now.setup self.new (steps all_limits scenario.now.setup (at_world w) step.now) result }
        ensures at { IsAt scenario.now.setup self.new }
        ensures knows { OnOk result (O.knows observer.new scenario.now.setup (kept_of self.new).brokers) }
    {
        match *step {
            Step::Plain(event) => observer.event(alloc, self, scenario, &event),
            Step::Halt(writes, event) => observer.halt(alloc, self, scenario, writes, &event),
            Step::Settle => {
                let _rounds = self.settle_with(alloc, scenario, observer)?;
                Ok(())
            }
            Step::Stop => observer.stop(alloc, self, scenario),
        }
    }
}
