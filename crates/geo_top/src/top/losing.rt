//! The answers of the commands that tell what is lost if a cluster goes.
ghost use Rattle.std.specs.Prelude.{◌≡◌, ◌<◌, ◌≤◌, ◌+◌, ℕ, All, Err, IfOk, List, None, OnOk, Ok, Some, length};
ghost use Rattle.geo_base.specs.Run.{run};
ghost use Rattle.geo_top.specs.Founded.{IsAccepted};
ghost use Rattle.geo_top.specs.Losing.{declaring, declaring_on};
ghost use Rattle.geo_top.specs.Outputs.{IsAnswerToLosingFile, answer_to_losing, answer_to_losing_on, unless_exceeded};
ghost use Rattle.run_report.specs.Reports.{exceeded_limit, resumed_limit};
ghost use Rattle.run_report.specs.States.{resumed};
ghost use Rattle.loss_laws.specs.LostLines.{lost_text};
ghost use Rattle.script_text.specs.Lines.{lines_of};
ghost use Rattle.script_text.specs.Rules.{script_of};
ghost use Rattle.script_text.specs.Scenario.{IsStep};
ghost use Rattle.script_text.specs.Schedule.{schedule_of};
ghost use Rattle.state_file.specs.Known.{IsKnownState};
ghost use Rattle.state_file.specs.State.{state_of};

use crate::lost::lost_lines;
use crate::run::{Resumed, resume, run_script};
use crate::top::answer::{Answer, refusal};
use crate::top::declared::{line_behind, number_of, undeclared};
use crate::top::given_back::give_back;
use crate::top::states::behind;
use crate::top::status::Status;
use geo_base::limits::INPUT_BYTES;
use geo_base::{Blob, Memory};
use script_text::{Scenario, ScriptFault, StepList, read_schedule, read_script};
use state_file::{Saved, StateFault, load};
use std::alloc::Global;
use world::RunFault;
use world_measures::Gone;

/// The answer to the bytes of a script, of whose run it is told what is lost if a cluster goes.
pub fn answer_to_losing(
    alloc: Global,
    cluster: &[u8],
    with_names: bool,
    bytes: Blob,
) -> Result<Answer, Memory>
    requires { length bytes ≤ INPUT_BYTES }
    ensures answer { IfOk result (λ a. a ≡ answer_to_losing cluster.now with_names (declaring cluster.now bytes (script_of bytes))) }
    ensures known { OnOk result (IsAccepted (script_of bytes)) }
{
    let line = line_behind(bytes.as_slice());
    let read = read_script(alloc, bytes.as_slice());
    give_back(bytes);
    match read {
        Ok(scenario) => {
            let answer = losing_scenario(alloc, cluster, with_names, &scenario, line);
            drop(scenario);
            answer
        }
        Err(ScriptFault::Rule { line, rule }) => refusal(alloc, Status::BadScript { line, rule }),
        Err(ScriptFault::Memory) => Err(Memory),
    }
}

/// The answer to a script that is read; `line` is the number of the line after its last one.
fn losing_scenario(
    alloc: Global,
    cluster: &[u8],
    with_names: bool,
    scenario: &Scenario,
    line: u64,
) -> Result<Answer, Memory>
    ensures { (input : List ℕ) → line ≡ length (lines_of input) + 1
        → IfOk result (λ a. a ≡ answer_to_losing cluster.now with_names (declaring cluster.now input (Ok scenario.now))) }
{
    match number_of(scenario.clusters(), cluster) {
        Some(cluster) => {
            let gone = Gone {
                cluster,
                with_names,
            };
            told(alloc, scenario, gone)
        }
        None => undeclared(alloc, line),
    }
}

/// What is told of a script's run, or the limit that the run passes.
#[tactic(auto, using(crate::proofs::Losing::told_whole, crate::proofs::Losing::told_refused))]
fn told(alloc: Global, scenario: &Scenario, gone: Gone) -> Result<Answer, Memory>
    requires { gone.cluster < length scenario.now.setup.clusters }
    ensures { IfOk result (λ a. a ≡ unless_exceeded (lost_text gone.with_names scenario.now.setup (run scenario.now.setup scenario.now.steps) gone.cluster) (exceeded_limit scenario.now)) }
{
    match lost_of_run(alloc, scenario, gone) {
        Ok(bytes) => Ok(Answer {
            status: Status::Ok,
            bytes,
        }),
        Err(RunFault::TooLarge(limit)) => refusal(alloc, Status::TooLarge(limit)),
        Err(RunFault::Memory) => Err(Memory),
    }
}

/// What is lost of the world at the end of a script's run.
fn lost_of_run(alloc: Global, scenario: &Scenario, gone: Gone) -> Result<Blob, RunFault>
    requires { gone.cluster < length scenario.now.setup.clusters }
    ensures done { IfOk result (λ bytes. bytes ≡ lost_text gone.with_names scenario.now.setup (run scenario.now.setup scenario.now.steps) gone.cluster) }
    ensures within { OnOk result (exceeded_limit scenario.now ≡ None) }
    ensures large { (limit : ℕ) → result ≡ Err (RunFault.TooLarge limit) → exceeded_limit scenario.now ≡ Some limit }
{
    let world = run_script(alloc, scenario)?;
    let bytes = lost_lines(alloc, scenario, &world, gone);
    world.let_go();
    Ok(bytes?)
}

/// The answer to a state file and the lines after it.
pub fn answer_to_losing_on(alloc: Global, cluster: &[u8], bytes: &[u8]) -> Result<Answer, Memory>
    requires { length bytes.now ≤ INPUT_BYTES }
    ensures { IfOk result (IsAnswerToLosingFile cluster.now bytes.now) }
{
    match load(alloc, bytes) {
        Ok((saved, used)) => losing_behind(alloc, cluster, saved, behind(bytes, used)),
        Err(StateFault::BadState { offset, rule }) => refusal(
            alloc,
            Status::BadState {
                offset: offset as u64,
                rule,
            },
        ),
        Err(StateFault::Version(number)) => refusal(alloc, Status::StateVersion(number)),
        Err(StateFault::Memory) => Err(Memory),
    }
}

/// The answer to a state and the lines after it.
fn losing_behind(
    alloc: Global,
    cluster: &[u8],
    saved: Saved,
    lines: &[u8],
) -> Result<Answer, Memory>
    requires known { IsKnownState (state_of saved) }
    requires few { length lines.now ≤ INPUT_BYTES }
    ensures { IfOk result (λ a. a ≡ answer_to_losing_on cluster.now (state_of saved)
        (declaring_on (state_of saved).scenario.setup cluster.now lines.now (schedule_of (state_of saved).scenario.setup lines.now))) }
{
    match read_schedule(alloc, &saved.scenario, lines) {
        Ok(steps) => {
            let answer = losing_saved(alloc, cluster, saved, &steps, line_behind(lines));
            drop(steps);
            answer
        }
        Err(fault) => {
            saved.let_go();
            match fault {
                ScriptFault::Rule { line, rule } => {
                    refusal(alloc, Status::BadScript { line, rule })
                }
                ScriptFault::Memory => Err(Memory),
            }
        }
    }
}

/// The answer to a state and the steps after it; `line` is the number of the line after their last one.
fn losing_saved(
    alloc: Global,
    cluster: &[u8],
    saved: Saved,
    steps: &StepList,
    line: u64,
) -> Result<Answer, Memory>
    requires known { IsKnownState (state_of saved) }
    requires steps { All (IsStep (state_of saved).scenario.setup) steps.now }
    ensures { (lines : List ℕ) → line ≡ length (lines_of lines) + 1
        → IfOk result (λ a. a ≡ answer_to_losing_on cluster.now (state_of saved) (declaring_on (state_of saved).scenario.setup cluster.now lines (Ok steps.now))) }
{
    match number_of(saved.scenario.clusters(), cluster) {
        Some(cluster) => {
            let gone = Gone {
                cluster,
                with_names: true,
            };
            told_on(alloc, saved, steps, gone)
        }
        None => {
            saved.let_go();
            undeclared(alloc, line)
        }
    }
}

/// What is told of the run that goes on from a state, or the limit that it passes.
#[tactic(auto, using(crate::proofs::Losing::told_whole, crate::proofs::Losing::told_refused))]
fn told_on(alloc: Global, saved: Saved, steps: &StepList, gone: Gone) -> Result<Answer, Memory>
    requires known { IsKnownState (state_of saved) }
    requires steps { All (IsStep (state_of saved).scenario.setup) steps.now }
    requires cluster { gone.cluster < length (state_of saved).scenario.setup.clusters }
    ensures { IfOk result (λ a. a ≡ unless_exceeded (lost_text gone.with_names (state_of saved).scenario.setup (resumed (state_of saved) steps.now) gone.cluster) (resumed_limit (state_of saved) steps.now)) }
{
    match lost_of_resumed(alloc, saved, steps, gone) {
        Ok(bytes) => Ok(Answer {
            status: Status::Ok,
            bytes,
        }),
        Err(RunFault::TooLarge(limit)) => refusal(alloc, Status::TooLarge(limit)),
        Err(RunFault::Memory) => Err(Memory),
    }
}

/// What is lost of the world after the steps that go on from a state.
fn lost_of_resumed(
    alloc: Global,
    saved: Saved,
    steps: &StepList,
    gone: Gone,
) -> Result<Blob, RunFault>
    requires known { IsKnownState (state_of saved) }
    requires steps { All (IsStep (state_of saved).scenario.setup) steps.now }
    requires cluster { gone.cluster < length (state_of saved).scenario.setup.clusters }
    ensures done { IfOk result (λ bytes. bytes ≡ lost_text gone.with_names (state_of saved).scenario.setup (resumed (state_of saved) steps.now) gone.cluster) }
    ensures within { OnOk result (resumed_limit (state_of saved) steps.now ≡ None) }
    ensures large { (limit : ℕ) → result ≡ Err (RunFault.TooLarge limit) → resumed_limit (state_of saved) steps.now ≡ Some limit }
{
    let resumed = resume(alloc, saved, steps)?;
    let bytes = lost_lines(alloc, &resumed.scenario, &resumed.world, gone);
    let Resumed { scenario, world } = resumed;
    drop(scenario);
    world.let_go();
    Ok(bytes?)
}
