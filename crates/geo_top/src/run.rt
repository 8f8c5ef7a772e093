//! The runs of the program.
ghost use Rattle.std.specs.Prelude.{◌≡◌, ℕ, All, Err, IfOk, None, OnOk, Some};
ghost use Rattle.geo_base.specs.Run.{all_limits};
ghost use Rattle.run_report.specs.Finished.{IsFinished, IsResumed};
ghost use Rattle.run_report.specs.Reports.{exceeded_limit};
ghost use Rattle.run_report.specs.States.{file_of, resumed_under, state_of_run, stopped};
ghost use Rattle.script_text.specs.Scenario.{IsStep};
ghost use Rattle.state_file.specs.Known.{IsKnownState};
ghost use Rattle.state_file.specs.State.{state_of};
ghost use Rattle.state_file.specs.Writing.{CanSave};

use geo_base::Blob;
use script_text::{Scenario, StepList};
use state_file::{Saved, save};
use std::alloc::Global;
use world::{RunFault, World};

/// The world at the end of a script's run, or the limit that the run passes.
#[tactic(auto, using(crate::proofs::Finishing::finished, crate::proofs::Finishing::passed))]
pub fn run_script(alloc: Global, scenario: &Scenario) -> Result<World, RunFault>
    ensures done { IfOk result (IsFinished scenario.now) }
    ensures large { (limit : ℕ) → result ≡ Err (RunFault.TooLarge limit) → exceeded_limit scenario.now ≡ Some limit }
{
    let mut world = World::new(alloc, scenario)?;
    match world.run(alloc, scenario, scenario.steps()) {
        Ok(()) => Ok(world),
        Err(fault) => {
            world.let_go();
            Err(fault)
        }
    }
}

/// The state file of a script's run and the stop after it, or the limit that they pass.
pub fn save_script(alloc: Global, scenario: Scenario) -> Result<Blob, RunFault>
    ensures done { IfOk result (λ bytes. bytes ≡ file_of scenario) }
    ensures within { OnOk result (exceeded_limit (stopped scenario) ≡ None) }
    ensures large { (limit : ℕ) → result ≡ Err (RunFault.TooLarge limit) → exceeded_limit (stopped scenario) ≡ Some limit }
{
    let saved = saved_run(alloc, scenario)?;
    let bytes = save(alloc, &saved);
    saved.let_go();
    Ok(bytes?)
}

/// The state that the stop after a script's run leaves, or the limit that they pass.
#[tactic(auto, using(crate::proofs::Stopping::run_limit))]
fn saved_run(alloc: Global, scenario: Scenario) -> Result<Saved, RunFault>
    ensures state { IfOk result (λ v. state_of v ≡ state_of_run scenario) }
    ensures can { IfOk result (λ v. CanSave (state_of v)) }
    ensures within { OnOk result (exceeded_limit (stopped scenario) ≡ None) }
    ensures large { (limit : ℕ) → result ≡ Err (RunFault.TooLarge limit) → exceeded_limit (stopped scenario) ≡ Some limit }
{
    match run_script(alloc, &scenario) {
        Ok(world) => {
            let saved = world.saved(alloc, scenario);
            world.let_go();
            saved
        }
        Err(fault) => {
            drop(scenario);
            Err(fault)
        }
    }
}

/// The world at the end of a run that goes on from a state, and what its script declares.
#[derive(Drop)]
pub struct Resumed {
    pub scenario: Scenario,
    pub world: World,
}

/// The world after the steps that go on from a state, or the limit that they pass.
pub fn resume(alloc: Global, saved: Saved, steps: &StepList) -> Result<Resumed, RunFault>
    requires known { IsKnownState (state_of saved) }
    requires steps { All (IsStep (state_of saved).scenario.setup) steps.now }
    ensures scenario { IfOk result (λ r. r.scenario ≡ (state_of saved).scenario) }
    ensures done { IfOk result (λ r. IsResumed (state_of saved) steps.now r.world) }
    ensures large { (limit : ℕ) → result ≡ Err (RunFault.TooLarge limit)
        → (resumed_under all_limits (state_of saved) steps.now).ended ≡ Some limit }
{
    let (scenario, mut world) = World::from_saved(alloc, saved)?;
    match world.run(alloc, &scenario, steps) {
        Ok(()) => Ok(Resumed { scenario, world }),
        Err(fault) => {
            drop(scenario);
            world.let_go();
            Err(fault)
        }
    }
}
