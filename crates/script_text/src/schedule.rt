//! Schedules that stand by themselves, after the declarations of a script.
ghost use Rattle.std.specs.Prelude.{◌≡◌, ℕ, ◌<◌, ◌^◌, ◌⊎◌, List, [], length, All, Err, Ok, IfOk};
ghost use Rattle.geo_base.specs.declared.event.Step.{Step};
ghost use Rattle.script_text.specs.Drafts.{Answers, Takes};
ghost use Rattle.script_text.specs.Lines.{lines_of};
ghost use Rattle.script_text.specs.Naming.{names_of};
ghost use Rattle.script_text.specs.Scenario.{IsStep};
ghost use Rattle.script_text.specs.Schedule.{schedule_from, schedule_of, schedule_text};
ghost use Rattle.script_text.specs.Script.{no_steps};

use crate::fault::ScriptFault;
use crate::lines::Lines;
use crate::scenario::Scenario;
use crate::step_list::StepList;
use crate::steps::Steps;
use geo_base::{Blob, Memory};
use script_rows::{LineFault, Names, Progress, Stage};
use std::alloc::Global;

/// A schedule stands as if the declarations and one event stood before it.
pub(crate) const AT_EVENTS: Progress = Progress {
    begun: true,
    last: Stage::Event,
    has_ledger: false,
    has_chance: false,
};

/// Reads a schedule of fewer than 2^32 bytes by the names of a script: lines as a script has them, of which each that is
/// not skipped schedules a step. No line at all is a schedule without steps.
///
/// `ScriptFault::Rule` comes exactly for a schedule with an offending line, and names the first one, counted from 1 with
/// the skipped ones, and the lowest rule that it breaks. `ScriptFault::Memory` may come at any schedule.
pub fn read_schedule(
    alloc: Global,
    scenario: &Scenario,
    bytes: &[u8],
) -> Result<StepList, ScriptFault>
    requires { length bytes.now < 2 ^ 32 }

    // What is answered is what the schedule says.
    ensures ok { IfOk result (λ steps. schedule_of scenario.now.setup bytes.now ≡ Ok steps) }
    ensures rule { (line rule : ℕ) → result ≡ Err (ScriptFault.Rule line rule)
        → schedule_of scenario.now.setup bytes.now ≡ Err (record { line = line; rule = rule }) }
    ensures known { IfOk result (All (IsStep scenario.now.setup)) }

    // What the schedule says is answered, unless memory is wanting.
    ensures accepts { (steps : List Step) → schedule_of scenario.now.setup bytes.now ≡ Ok steps
        → (result ≡ Ok steps) ⊎ (result ≡ Err ScriptFault.Memory) }
    ensures refuses { (line rule : ℕ)
        → schedule_of scenario.now.setup bytes.now ≡ Err (record { line = line; rule = rule })
        → (result ≡ Err (ScriptFault.Rule line rule)) ⊎ (result ≡ Err ScriptFault.Memory) }
{
    read(alloc, scenario, bytes)
}

/// The same, said at once.
fn read(alloc: Global, scenario: &Scenario, bytes: &[u8]) -> Result<StepList, ScriptFault>
    requires { length bytes.now < 2 ^ 32 }
    ensures answers { Answers result (schedule_of scenario.now.setup bytes.now) }
    ensures known { IfOk result (All (IsStep scenario.now.setup)) }
{
    match scenario.names(alloc) {
        Ok(names) => {
            let steps = read_by(alloc, &names, bytes);
            // by a call, so that the end of names is proved once
            drop(names);
            steps
        }
        Err(Memory) => Err(ScriptFault::Memory),
    }
}

/// The steps of a schedule by names.
fn read_by(alloc: Global, names: &Names<'_>, bytes: &[u8]) -> Result<StepList, ScriptFault>
    requires { length bytes.now < 2 ^ 32 }
    ensures { Answers result (schedule_from 1 names.now no_steps (lines_of bytes.now)) }
{
    let mut steps = Steps::new(alloc);
    match take_lines(names, &mut steps, bytes) {
        Ok(()) => Ok(steps.into_list()),
        Err(fault) => Err(fault),
    }
}

/// Takes in the steps of a schedule's lines.
#[tactic(auto, using(crate::proofs::LineCounts::length_lines_of))]
fn take_lines(names: &Names<'_>, steps: &mut Steps, bytes: &[u8]) -> Result<(), ScriptFault>
    requires { length bytes.now < 2 ^ 32 }
    ensures { Takes result steps.new.list
        (schedule_from 1 names.now steps.old (lines_of bytes.now)) }
{
    let mut lines = Lines::new(bytes);
    let mut number = 1;
    while let Some(line) = lines.next_line() {
        match steps.read_line(AT_EVENTS, names, number, &line) {
            Ok(()) => number += 1,
            Err(LineFault::Broken(rule)) => {
                return Err(ScriptFault::Rule {
                    line: number,
                    rule: rule.number(),
                });
            }
            Err(LineFault::Memory) => return Err(ScriptFault::Memory),
        }
    }
    Ok(())
}

/// Writes the steps of a schedule, a line each, by the names of a script. What is written of steps that the script may
/// schedule reads back the same.
pub fn write_schedule(alloc: Global, scenario: &Scenario, steps: &StepList) -> Result<Blob, Memory>
    ensures text { IfOk result (λ text. text ≡ schedule_text (names_of scenario.now.setup) steps.now) }
    ensures back { IfOk result (λ text. All (IsStep scenario.now.setup) steps.now
        → schedule_of scenario.now.setup text ≡ Ok steps.now) }
{
    let names = scenario.names(alloc)?;
    let text = write_steps(alloc, &names, steps);
    // by a call, so that the end of names is proved once
    drop(names);
    text
}

fn write_steps(alloc: Global, names: &Names<'_>, steps: &StepList) -> Result<Blob, Memory>
    ensures { IfOk result (λ text. text ≡ schedule_text names.now steps.now) }
{
    let mut text = Blob::new(alloc);
    for place in 0..steps.len() {
        names.write_step(alloc, &mut text, &steps.at(place))?;
        text.append(b"\n")?;
    }
    Ok(text)
}
