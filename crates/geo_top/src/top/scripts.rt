//! The answers of the commands that show something of a script's run, and of the one that sums up a generated run.
ghost use Rattle.std.specs.Prelude.{◌≡◌, ◌≤◌, ℕ, Err, IfOk, None, OnOk, Some, length};
ghost use Rattle.run_report.specs.Finished.{IsFinished};
ghost use Rattle.geo_top.specs.Founded.{IsAccepted};
ghost use Rattle.geo_top.specs.Outputs.{answer_to, answer_to_big, answer_to_run, compacted_of, output_of, summary_of, tiered_of};
ghost use Rattle.run_report.specs.Reports.{exceeded_limit, report_of};
ghost use Rattle.script_generator.specs.Generated.{generated_run};
ghost use Rattle.script_text.specs.Rules.{script_of};
ghost use Rattle.script_text.specs.Scenario.{IsScenario};

use crate::compacted::compacted_views;
use crate::run::run_script;
use crate::summary::append_summary;
use crate::tiered::tiered_topics;
use crate::top::answer::{Answer, refusal};
use crate::top::command::Shown;
use crate::top::given_back::give_back;
use crate::top::status::Status;
use crate::traced::trace_script;
use geo_base::limits::INPUT_BYTES;
use geo_base::{Blob, Memory};
use run_report::report;
use script_generator::generate;
use script_text::{Scenario, ScriptFault, read_script};
use std::alloc::Global;
use world::{RunFault, World};

/// The answer to the bytes of a script, of whose run something is shown.
pub fn answer_to_script(alloc: Global, shown: Shown, bytes: Blob) -> Result<Answer, Memory>
    requires { length bytes ≤ INPUT_BYTES }
    ensures answer { IfOk result (λ a. a ≡ answer_to shown (script_of bytes)) }
    ensures known { OnOk result (IsAccepted (script_of bytes)) }
{
    let read = read_script(alloc, bytes.as_slice());
    give_back(bytes);
    match read {
        Ok(scenario) => {
            let answer = answer_to_scenario(alloc, shown, &scenario);
            drop(scenario);
            answer
        }
        Err(ScriptFault::Rule { line, rule }) => refusal(alloc, Status::BadScript { line, rule }),
        Err(ScriptFault::Memory) => Err(Memory),
    }
}

/// What is shown of the run of a script, or the limit that the run passes.
#[tactic(auto, using(crate::proofs::Finishing::shown_whole, crate::proofs::Finishing::refused_run))]
fn answer_to_scenario(alloc: Global, shown: Shown, scenario: &Scenario) -> Result<Answer, Memory>
    requires { IsScenario scenario.now }
    ensures { IfOk result (λ a. a ≡ answer_to_run shown scenario.now (exceeded_limit scenario.now)) }
{
    match output(alloc, shown, scenario) {
        Ok(bytes) => Ok(Answer {
            status: Status::Ok,
            bytes,
        }),
        Err(RunFault::TooLarge(limit)) => refusal(alloc, Status::TooLarge(limit)),
        Err(RunFault::Memory) => Err(Memory),
    }
}

/// What is shown of the run of a script: of the world at its end, or the run itself; or the limit that the run passes.
#[tactic(auto, using(crate::proofs::Views::as_shown))]
fn output(alloc: Global, shown: Shown, scenario: &Scenario) -> Result<Blob, RunFault>
    requires { IsScenario scenario.now }
    ensures done { IfOk result (λ bytes. bytes ≡ output_of shown scenario.now) }
    ensures within { OnOk result (exceeded_limit scenario.now ≡ None) }
    ensures large { (limit : ℕ) → result ≡ Err (RunFault.TooLarge limit) → exceeded_limit scenario.now ≡ Some limit }
{
    match shown {
        Shown::Report => reported(alloc, scenario),
        Shown::Compacted(horizon) => compacted(alloc, scenario, horizon),
        Shown::Tiered(keep) => tiered(alloc, scenario, keep),
        Shown::Trace => trace_script(alloc, scenario),
    }
}

/// The report of the world at the end of a script's run.
fn reported(alloc: Global, scenario: &Scenario) -> Result<Blob, RunFault>
    ensures done { IfOk result (λ bytes. bytes ≡ report_of scenario.now) }
    ensures within { OnOk result (exceeded_limit scenario.now ≡ None) }
    ensures large { (limit : ℕ) → result ≡ Err (RunFault.TooLarge limit) → exceeded_limit scenario.now ≡ Some limit }
{
    let world = run_script(alloc, scenario)?;
    let bytes = report(alloc, scenario, &world);
    world.let_go();
    Ok(bytes?)
}

/// The compacted views of the world at the end of a script's run.
fn compacted(alloc: Global, scenario: &Scenario, horizon: u64) -> Result<Blob, RunFault>
    ensures done { IfOk result (λ bytes. bytes ≡ compacted_of horizon scenario.now) }
    ensures within { OnOk result (exceeded_limit scenario.now ≡ None) }
    ensures large { (limit : ℕ) → result ≡ Err (RunFault.TooLarge limit) → exceeded_limit scenario.now ≡ Some limit }
{
    let world = run_script(alloc, scenario)?;
    let bytes = compacted_views(alloc, scenario, &world, horizon);
    world.let_go();
    Ok(bytes?)
}

/// The topics of the world at the end of a script's run, whose closed ledgers move to tiers.
fn tiered(alloc: Global, scenario: &Scenario, keep: u64) -> Result<Blob, RunFault>
    requires { IsScenario scenario.now }
    ensures done { IfOk result (λ bytes. bytes ≡ tiered_of keep scenario.now) }
    ensures within { OnOk result (exceeded_limit scenario.now ≡ None) }
    ensures large { (limit : ℕ) → result ≡ Err (RunFault.TooLarge limit) → exceeded_limit scenario.now ≡ Some limit }
{
    let world = run_script(alloc, scenario)?;
    let bytes = tiered_topics(alloc, scenario, &world, keep);
    world.let_go();
    Ok(bytes?)
}

/// The summary of the run that a number generates, or the limit that the run passes.
pub fn answer_to_number(alloc: Global, number: u32) -> Result<Answer, Memory>
    ensures { IfOk result (λ a. a ≡ answer_to_big number) }
{
    let scenario = generated(alloc, number)?;
    let answer = answer_to_its_run(alloc, number, &scenario);
    drop(scenario);
    answer
}

/// The summary of a number's run, or the limit that it passes.
#[tactic(auto, using(crate::proofs::Finishing::summed, crate::proofs::Finishing::refused_big))]
fn answer_to_its_run(alloc: Global, number: u32, scenario: &Scenario) -> Result<Answer, Memory>
    requires { scenario.now ≡ generated_run number }
    ensures { IfOk result (λ a. a ≡ answer_to_big number) }
{
    match summed_up(alloc, number, scenario) {
        Ok(bytes) => Ok(Answer {
            status: Status::Ok,
            bytes,
        }),
        Err(RunFault::TooLarge(limit)) => refusal(alloc, Status::TooLarge(limit)),
        Err(RunFault::Memory) => Err(Memory),
    }
}

/// The summary of the world at the end of a number's run, or the limit that the run passes.
fn summed_up(alloc: Global, number: u32, scenario: &Scenario) -> Result<Blob, RunFault>
    requires { scenario.now ≡ generated_run number }
    ensures done { IfOk result (λ bytes. bytes ≡ summary_of number) }
    ensures within { OnOk result (exceeded_limit scenario.now ≡ None) }
    ensures large { (limit : ℕ) → result ≡ Err (RunFault.TooLarge limit) → exceeded_limit scenario.now ≡ Some limit }
{
    let world = run_script(alloc, scenario)?;
    let bytes = summary(alloc, number, scenario, &world);
    world.let_go();
    Ok(bytes?)
}

/// The script of a number's run.
pub fn generated(alloc: Global, number: u32) -> Result<Scenario, Memory>
    ensures { IfOk result (λ s. s ≡ generated_run number) }
{
    let parts = generate(alloc, number)?;
    Scenario::of_parts(alloc, parts)
}

/// The summary of such a world.
#[tactic(auto, using(crate::proofs::Summed::shown_summary))]
fn summary(alloc: Global, number: u32, scenario: &Scenario, world: &World) -> Result<Blob, Memory>
    requires number { scenario.now ≡ generated_run number }
    requires finished { IsFinished scenario.now world.now }
    ensures { IfOk result (λ bytes. bytes ≡ summary_of number) }
{
    let mut bytes = Blob::new(alloc);
    append_summary(alloc, &mut bytes, number, scenario, world)?;
    Ok(bytes)
}
