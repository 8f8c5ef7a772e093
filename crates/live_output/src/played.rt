//! Runs that are done step by step, up to a limit.
ghost use Rattle.std.specs.Prelude.{◌≡◌, ◌++◌, ◌∷◌, [], All, IfOk, OnOk, Ok, false, true};
ghost use Rattle.geo_base.specs.declared.event.Step.TheVariants as kind;
ghost use Rattle.live_output.specs.Playing.{IsEventStep, IsPlayed};
ghost use Rattle.live_output.specs.Schedules.{fits, longest, with_settling};

use geo_base::{Memory, Step};
use script_text::{Scenario, StepList};
use std::alloc::Global;
use world::{RunFault, World};

/// The world after steps whose run passes no limit, and these steps.
#[derive(Drop)]
pub(crate) struct Played {
    pub world: World,
    pub steps: StepList,
}

impl Played {
    /// Before any step.
    fn new(alloc: Global, scenario: &Scenario) -> Result<Played, Memory>
        ensures steps { IfOk result (λ p. p.steps ≡ []) }
        ensures at { IfOk result (λ p. IsPlayed scenario.now p.steps p.world) }
    {
        Ok(Played {
            world: World::new(alloc, scenario)?,
            steps: StepList::new(alloc),
        })
    }

    /// Does an event, unless it would pass a limit: whether it did it.
    #[tactic(auto, using(crate::proofs::OneMore::known_step))]
    fn does(&mut self, alloc: Global, scenario: &Scenario, step: Step) -> Result<bool, Memory>
        requires at { IsPlayed scenario.now self.old.steps self.old.world }
        requires event { IsEventStep scenario.now.setup step }
        ensures done { result ≡ Ok true → (fits scenario.now.setup (self.old.steps ++ step ∷ []) ≡ true) × (self.new.steps ≡ self.old.steps ++ step ∷ []) }
        ensures over { result ≡ Ok false → (fits scenario.now.setup (self.old.steps ++ step ∷ []) ≡ false) × (self.new.steps ≡ self.old.steps) }
        ensures at { OnOk result (IsPlayed scenario.now self.new.steps self.new.world) }
    {
        match self.world.step(alloc, scenario, &step) {
            Ok(()) => {
                self.steps.push(step)?;
                Ok(true)
            }
            Err(RunFault::TooLarge(_)) => Ok(false),
            Err(RunFault::Memory) => Err(Memory),
        }
    }

    /// Does as many of some events as pass no limit.
    fn does_all(
        &mut self,
        alloc: Global,
        scenario: &Scenario,
        steps: &StepList,
    ) -> Result<(), Memory>
        requires at { IsPlayed scenario.now self.old.steps self.old.world }
        requires none { self.old.steps ≡ [] }
        requires events { All (IsEventStep scenario.now.setup) steps.now }
        ensures steps { OnOk result (self.new.steps ≡ longest scenario.now.setup [] steps.now) }
        ensures events { OnOk result (All (IsEventStep scenario.now.setup) self.new.steps) }
        ensures at { OnOk result (IsPlayed scenario.now self.new.steps self.new.world) }
    {
        for place in 0..steps.len() {
            if !self.does(alloc, scenario, steps.at(place))? {
                return Ok(());
            }
        }
        Ok(())
    }

    /// Lets the run go.
    pub fn let_go(self) {
        let Played { world, steps } = self;
        world.let_go();
        drop(steps);
    }
}

/// The run of as many of some events as pass no limit. An `Err` is want of memory.
pub(crate) fn replay(alloc: Global, scenario: &Scenario, steps: &StepList) -> Result<Played, Memory>
    requires { All (IsEventStep scenario.now.setup) steps.now }
    ensures steps { IfOk result (λ p. p.steps ≡ longest scenario.now.setup [] steps.now) }
    ensures events { IfOk result (λ p. All (IsEventStep scenario.now.setup) p.steps) }
    ensures at { IfOk result (λ p. IsPlayed scenario.now p.steps p.world) }
{
    let mut played = Played::new(alloc, scenario)?;
    match played.does_all(alloc, scenario, steps) {
        Ok(()) => Ok(played),
        Err(error) => {
            played.let_go();
            Err(error)
        }
    }
}

/// The run with settling after it, where that passes no limit. An `Err` is want of memory.
pub(crate) fn settle_where_it_fits(
    alloc: Global,
    scenario: &Scenario,
    played: Played,
) -> Result<Played, Memory>
    requires at { IsPlayed scenario.now played.steps played.world }
    requires events { All (IsEventStep scenario.now.setup) played.steps }
    ensures steps { IfOk result (λ p. p.steps ≡ with_settling scenario.now.setup played.steps) }
    ensures at { IfOk result (λ p. IsPlayed scenario.now p.steps p.world) }
{
    let Played { mut world, steps } = played;
    match world.step(alloc, scenario, &Step::Settle) {
        Ok(()) => settled(world, steps),
        // Settling left a part of itself behind: the run is done again without it.
        Err(RunFault::TooLarge(_)) => {
            world.let_go();
            replay(alloc, scenario, &steps)
        }
        Err(RunFault::Memory) => {
            world.let_go();
            Err(Memory)
        }
    }
}

/// A world that has settled after some steps, with the step that says so.
fn settled(world: World, mut steps: StepList) -> Result<Played, Memory>
    ensures steps { IfOk result (λ p. p.steps ≡ steps ++ kind.Settle ∷ []) }
    ensures world { IfOk result (λ p. p.world ≡ world) }
{
    match steps.push(Step::Settle) {
        Ok(()) => Ok(Played { world, steps }),
        Err(error) => {
            world.let_go();
            Err(error)
        }
    }
}
