//! The answers of the commands on state files.
ghost use Rattle.std.specs.Prelude.{◌≡◌, ◌<◌, ◌≤◌, ◌^◌, ℕ, All, Err, IfOk, None, OnOk, Ok, Some, drop, length};
ghost use Rattle.geo_top.specs.Founded.{IsAccepted};
ghost use Rattle.geo_top.specs.Outputs.{IsAnswerToFile, answer_going_on, answer_to_resumed, answer_to_save, answer_to_saved, answer_to_steps_on};
ghost use Rattle.run_report.specs.Reports.{resumed_limit, resumed_report};
ghost use Rattle.script_text.specs.Rules.{script_of};
ghost use Rattle.script_text.specs.Scenario.{IsStep};
ghost use Rattle.script_text.specs.Schedule.{schedule_of};
ghost use Rattle.state_file.specs.Known.{IsKnownState};
ghost use Rattle.state_file.specs.State.{state_of};

use crate::run::{Resumed, resume, save_script};
use crate::stepped::steps_on_state;
use crate::top::answer::{Answer, refusal};
use crate::top::command::GoingOn;
use crate::top::given_back::give_back;
use crate::top::status::Status;
use geo_base::limits::INPUT_BYTES;
use geo_base::{Blob, Memory};
use run_report::report;
use script_text::{Scenario, ScriptFault, StepList, read_schedule, read_script};
use state_file::{Saved, StateFault, load};
use std::alloc::Global;
use world::RunFault;

/// The state file of the script that an input is.
pub fn answer_to_saving(alloc: Global, bytes: Blob) -> Result<Answer, Memory>
    requires { length bytes ≤ INPUT_BYTES }
    ensures answer { IfOk result (λ a. a ≡ answer_to_save (script_of bytes)) }
    ensures known { OnOk result (IsAccepted (script_of bytes)) }
{
    let read = read_script(alloc, bytes.as_slice());
    give_back(bytes);
    match read {
        Ok(scenario) => saved_answer(alloc, scenario),
        Err(ScriptFault::Rule { line, rule }) => refusal(alloc, Status::BadScript { line, rule }),
        Err(ScriptFault::Memory) => Err(Memory),
    }
}

/// The state file of a script's run, or the limit that the run or the stop after it passes.
#[tactic(auto, using(crate::proofs::Saving::saved_whole, crate::proofs::Saving::saved_refused))]
fn saved_answer(alloc: Global, scenario: Scenario) -> Result<Answer, Memory>
    ensures { IfOk result (λ a. a ≡ answer_to_saved scenario) }
{
    match save_script(alloc, scenario) {
        Ok(bytes) => Ok(Answer {
            status: Status::Ok,
            bytes,
        }),
        Err(RunFault::TooLarge(limit)) => refusal(alloc, Status::TooLarge(limit)),
        Err(RunFault::Memory) => Err(Memory),
    }
}

/// The answer to a state file and the lines after it.
pub fn answer_to_file(alloc: Global, shown: GoingOn, bytes: &[u8]) -> Result<Answer, Memory>
    requires { length bytes.now ≤ INPUT_BYTES }
    ensures { IfOk result (IsAnswerToFile shown bytes.now) }
{
    match load(alloc, bytes) {
        Ok((saved, used)) => going_on_answer(alloc, shown, saved, behind(bytes, used)),
        Err(StateFault::BadState { offset, rule }) => refusal(
            alloc,
            Status::BadState {
                offset: offset as u64,
                rule,
            },
        ),
        Err(StateFault::Version(number)) => refusal(alloc, Status::StateVersion(number)),
        Err(StateFault::Memory) => Err(Memory),
    }
}

/// The bytes after so many.
pub fn behind(bytes: &[u8], used: usize) -> &[u8]
    ensures behind { result.now ≡ drop used bytes.now }
    ensures shorter { length result.now ≤ length bytes.now }
{
    if used < bytes.len() {
        &bytes[used..]
    } else {
        &[]
    }
}

/// The answer to a state and the lines after it.
fn going_on_answer(
    alloc: Global,
    shown: GoingOn,
    saved: Saved,
    lines: &[u8],
) -> Result<Answer, Memory>
    requires known { IsKnownState (state_of saved) }
    requires few { length lines.now < 2 ^ 32 }
    ensures { IfOk result (λ a. a ≡ answer_going_on shown (state_of saved) lines.now) }
{
    match read_schedule(alloc, &saved.scenario, lines) {
        Ok(steps) => {
            let answer = match shown {
                GoingOn::Report => run_on(alloc, saved, &steps),
                GoingOn::Steps => step_on(alloc, saved, &steps, lines),
            };
            drop(steps);
            answer
        }
        Err(fault) => {
            saved.let_go();
            match fault {
                ScriptFault::Rule { line, rule } => {
                    refusal(alloc, Status::BadScript { line, rule })
                }
                ScriptFault::Memory => Err(Memory),
            }
        }
    }
}

/// The report of the run that goes on from a state, or the limit that it passes.
#[tactic(auto, using(crate::proofs::Saving::resumed_whole, crate::proofs::Saving::resumed_refused))]
fn run_on(alloc: Global, saved: Saved, steps: &StepList) -> Result<Answer, Memory>
    requires known { IsKnownState (state_of saved) }
    requires steps { All (IsStep (state_of saved).scenario.setup) steps.now }
    ensures { IfOk result (λ a. a ≡ answer_to_resumed (state_of saved) (Ok steps.now)) }
{
    match reported_on(alloc, saved, steps) {
        Ok(bytes) => Ok(Answer {
            status: Status::Ok,
            bytes,
        }),
        Err(RunFault::TooLarge(limit)) => refusal(alloc, Status::TooLarge(limit)),
        Err(RunFault::Memory) => Err(Memory),
    }
}

/// The steps of the run that goes on from a state, with the lines that say them, or the limit that it passes.
#[tactic(auto, using(crate::proofs::Saving::stepped_whole, crate::proofs::Saving::stepped_refused))]
fn step_on(alloc: Global, saved: Saved, steps: &StepList, lines: &[u8]) -> Result<Answer, Memory>
    requires known { IsKnownState (state_of saved) }
    requires steps { All (IsStep (state_of saved).scenario.setup) steps.now }
    requires said { schedule_of (state_of saved).scenario.setup lines.now ≡ Ok steps.now }
    ensures { IfOk result (λ a. a ≡ answer_to_steps_on (state_of saved) lines.now (Ok steps.now)) }
{
    match steps_on_state(alloc, saved, steps, lines) {
        Ok(bytes) => Ok(Answer {
            status: Status::Ok,
            bytes,
        }),
        Err(RunFault::TooLarge(limit)) => refusal(alloc, Status::TooLarge(limit)),
        Err(RunFault::Memory) => Err(Memory),
    }
}

/// The report of the world after the steps that go on from a state, or the limit that they pass.
fn reported_on(alloc: Global, saved: Saved, steps: &StepList) -> Result<Blob, RunFault>
    requires known { IsKnownState (state_of saved) }
    requires steps { All (IsStep (state_of saved).scenario.setup) steps.now }
    ensures done { IfOk result (λ bytes. bytes ≡ resumed_report (state_of saved) steps.now) }
    ensures within { OnOk result (resumed_limit (state_of saved) steps.now ≡ None) }
    ensures large { (limit : ℕ) → result ≡ Err (RunFault.TooLarge limit) → resumed_limit (state_of saved) steps.now ≡ Some limit }
{
    let resumed = resume(alloc, saved, steps)?;
    let bytes = report(alloc, &resumed.scenario, &resumed.world);
    let Resumed { scenario, world } = resumed;
    drop(scenario);
    world.let_go();
    Ok(bytes?)
}
