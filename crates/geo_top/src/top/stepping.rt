//! The answers of the commands that tell the steps of a run.
ghost use Rattle.std.specs.Prelude.{◌≡◌, ◌≤◌, Ok, IfOk, OnOk, length};
ghost use Rattle.geo_top.specs.Founded.{IsAccepted};
ghost use Rattle.geo_top.specs.Outputs.{answer_to_big_steps, answer_to_steps};
ghost use Rattle.script_generator.specs.Generated.{generated_run};
ghost use Rattle.script_text.specs.Rules.{script_of};

use crate::stepped::{steps_by_schedule, steps_of_script};
use crate::top::answer::{Answer, refusal};
use crate::top::scripts::generated;
use crate::top::status::Status;
use geo_base::Memory;
use geo_base::limits::INPUT_BYTES;
use script_text::{Scenario, ScriptFault, read_script};
use std::alloc::Global;
use world::RunFault;

/// The steps of the script that an input is. The input stays until they are told, since each cites its line.
pub fn answer_to_steps(alloc: Global, bytes: &[u8]) -> Result<Answer, Memory>
    requires { length bytes.now ≤ INPUT_BYTES }
    ensures answer { IfOk result (λ a. a ≡ answer_to_steps bytes.now (script_of bytes.now)) }
    ensures known { OnOk result (IsAccepted (script_of bytes.now)) }
{
    match read_script(alloc, bytes) {
        Ok(scenario) => {
            let answer = told_answer(alloc, &scenario, bytes);
            drop(scenario);
            answer
        }
        Err(ScriptFault::Rule { line, rule }) => refusal(alloc, Status::BadScript { line, rule }),
        Err(ScriptFault::Memory) => Err(Memory),
    }
}

/// The steps of a script's run, or the limit that the run passes.
#[tactic(auto, using(crate::proofs::SteppedRuns::told_whole, crate::proofs::SteppedRuns::told_refused))]
fn told_answer(alloc: Global, scenario: &Scenario, text: &[u8]) -> Result<Answer, Memory>
    requires { script_of text.now ≡ Ok scenario.now }
    ensures { IfOk result (λ a. a ≡ answer_to_steps text.now (Ok scenario.now)) }
{
    match steps_of_script(alloc, scenario, text) {
        Ok(bytes) => Ok(Answer {
            status: Status::Ok,
            bytes,
        }),
        Err(RunFault::TooLarge(limit)) => refusal(alloc, Status::TooLarge(limit)),
        Err(RunFault::Memory) => Err(Memory),
    }
}

/// The steps of the run that a number generates, or the limit that the run passes.
pub fn answer_to_big_steps(alloc: Global, number: u32) -> Result<Answer, Memory>
    ensures { IfOk result (λ a. a ≡ answer_to_big_steps number) }
{
    let scenario = generated(alloc, number)?;
    let answer = told_by_schedule(alloc, number, &scenario);
    drop(scenario);
    answer
}

/// The steps of a number's run, or the limit that it passes.
#[tactic(auto, using(crate::proofs::SteppedRuns::big_whole, crate::proofs::SteppedRuns::big_refused))]
fn told_by_schedule(alloc: Global, number: u32, scenario: &Scenario) -> Result<Answer, Memory>
    requires { scenario.now ≡ generated_run number }
    ensures { IfOk result (λ a. a ≡ answer_to_big_steps number) }
{
    match steps_by_schedule(alloc, scenario) {
        Ok(bytes) => Ok(Answer {
            status: Status::Ok,
            bytes,
        }),
        Err(RunFault::TooLarge(limit)) => refusal(alloc, Status::TooLarge(limit)),
        Err(RunFault::Memory) => Err(Memory),
    }
}
