//! The answer to an observation that stands after a script's declarations.
ghost use Rattle.std.specs.Prelude.{◌≡◌, ◌≤◌, ◌+◌, IfOk, length};
ghost use Rattle.geo_top.specs.Outputs.{answer_to_findings, answer_to_observing, answer_to_seen, found_status};
ghost use Rattle.observation.specs.Findings.{findings_of};
ghost use Rattle.observe.specs.Topics.{IsOf, entries_in};
ghost use Rattle.observed_text.specs.Observing.{read_observation};

use crate::top::answer::{Answer, refusal};
use crate::top::declared::line_behind;
use crate::top::status::Status;
use geo_base::Memory;
use geo_base::limits::INPUT_BYTES;
use observation::Finding;
use observe::{Observed, judge};
use observed_text::{ObserveFault, findings_text, observed_start, read_observed};
use script_text::{Scenario, ScriptFault, read_script};
use std::alloc::Global;

/// The answer to declarations and an observation.
pub fn answer_to_observing(alloc: Global, bytes: &[u8]) -> Result<Answer, Memory>
    requires { length bytes.now ≤ INPUT_BYTES }
    ensures { IfOk result (λ a. a ≡ answer_to_observing bytes.now) }
{
    let start = observed_start(bytes);
    let declarations = &bytes[..start];
    let line = line_behind(declarations);
    match read_script(alloc, declarations) {
        Ok(scenario) => {
            let answer = answer_to_seen(alloc, &scenario, line, &bytes[start..]);
            drop(scenario);
            answer
        }
        Err(ScriptFault::Rule { line, rule }) => refusal(alloc, Status::BadScript { line, rule }),
        Err(ScriptFault::Memory) => Err(Memory),
    }
}

/// The answer to an observation of a script's topics, whose head is the line of this number.
fn answer_to_seen(
    alloc: Global,
    scenario: &Scenario,
    line: u64,
    bytes: &[u8],
) -> Result<Answer, Memory>
    requires small { length bytes.now ≤ INPUT_BYTES }
    requires line { line ≤ INPUT_BYTES + 2 }
    ensures { IfOk result (λ a. a ≡ answer_to_seen scenario.now.setup (read_observation scenario.now.setup line bytes.now)) }
{
    match read_observed(alloc, scenario, line, bytes) {
        Ok(observed) => {
            let answer = judged(alloc, scenario, &observed);
            drop(observed);
            answer
        }
        Err(ObserveFault::Rule { line, rule }) => {
            refusal(alloc, Status::BadObservation { line, rule })
        }
        Err(ObserveFault::Memory) => Err(Memory),
    }
}

/// What is found against an observation, or that it is safe.
fn judged(alloc: Global, scenario: &Scenario, observed: &Observed) -> Result<Answer, Memory>
    requires numbers { IsOf scenario.now.setup observed.now }
    requires few { entries_in observed.now.topics ≤ INPUT_BYTES }
    ensures { IfOk result (λ a. a ≡ answer_to_findings scenario.now.setup observed.now (findings_of scenario.now.setup observed.now)) }
{
    let found = judge(alloc, scenario, observed)?;
    let status = found_status(found.as_slice());
    let text = findings_text(alloc, scenario, observed.entry_count(), found.as_slice());
    drop(found);
    Ok(Answer {
        status,
        bytes: text?,
    })
}

/// How it ends, by what is found.
fn found_status(found: &[Finding]) -> Status
    ensures { result ≡ found_status found.now }
{
    if found.is_empty() {
        Status::Ok
    } else {
        Status::Found
    }
}
