//! The steps of a run, line by line.
ghost use Rattle.std.specs.Prelude.{◌≡◌, ◌≤◌, ◌++◌, ◌∷◌, ℕ, [], All, Err, IfOk, None, Ok, OnOk, Some, codes, length};
ghost use Rattle.geo_base.specs.Report.{report};
ghost use Rattle.geo_base.specs.Run.{all_limits, run_from};
ghost use Rattle.geo_base.specs.World.{World as Machine};
ghost use Rattle.run_report.specs.Reports.{exceeded_limit, resumed_limit};
ghost use Rattle.run_report.specs.Shown.{shown_world};
ghost use Rattle.geo_top.specs.Stepped.{steps_by_schedule, steps_of, steps_on, steps_text};
ghost use Rattle.script_text.specs.Canonical.{declarations_text};
ghost use Rattle.script_text.specs.Rules.{script_of};
ghost use Rattle.script_text.specs.Said.{said_in};
ghost use Rattle.script_text.specs.Scenario.{IsStep};
ghost use Rattle.script_text.specs.Schedule.{schedule_of};
ghost use Rattle.state_file.specs.Known.{IsKnownState};
ghost use Rattle.state_file.specs.State.{state_of};
ghost use Rattle.step_lines.specs.Telling.{Rises};
ghost use Rattle.world.specs.Runs.{at_world};
ghost use Rattle.world.specs.World.{IsAt, kept_of};
ghost use Rattle.kept_laws.specs.Reached.{Reached};
ghost use Rattle.kept_laws.specs.Standing.{Stands};

use geo_base::{Blob, Memory};
use run_report::{add_head, report};
use script_text::{SaidLines, Scenario, StepList, write_declarations, write_schedule};
use state_file::Saved;
use std::alloc::Global;
use step_lines::Steps;
use world::{RunFault, World};

/// The steps of the run of a script, with the lines of its text that say them, or the limit that the run passes. An `Err` may be want
/// of memory.
pub fn steps_of_script(alloc: Global, scenario: &Scenario, text: &[u8]) -> Result<Blob, RunFault>
    requires { script_of text.now ≡ Ok scenario.now }
    ensures done { IfOk result (λ bytes. bytes ≡ steps_of text.now scenario.now) }
    ensures within { OnOk result (exceeded_limit scenario.now ≡ None) }
    ensures large { (limit : ℕ) → result ≡ Err (RunFault.TooLarge limit) → exceeded_limit scenario.now ≡ Some limit }
{
    let mut world = World::new(alloc, scenario)?;
    let said = said_of(scenario, text);
    let told = tell(alloc, scenario, &mut world, scenario.steps(), said);
    world.let_go();
    told
}

/// The steps of the run that goes on from a state, with the lines after it that say them, or the limit that the run passes.
pub fn steps_on_state(
    alloc: Global,
    saved: Saved,
    steps: &StepList,
    lines: &[u8],
) -> Result<Blob, RunFault>
    requires known { IsKnownState (state_of saved) }
    requires steps { All (IsStep (state_of saved).scenario.setup) steps.now }
    requires said { schedule_of (state_of saved).scenario.setup lines.now ≡ Ok steps.now }
    ensures done { IfOk result (λ bytes. bytes ≡ steps_on (state_of saved) lines.now steps.now) }
    ensures within { OnOk result (resumed_limit (state_of saved) steps.now ≡ None) }
    ensures large { (limit : ℕ) → result ≡ Err (RunFault.TooLarge limit) → resumed_limit (state_of saved) steps.now ≡ Some limit }
{
    let (scenario, mut world) = World::from_saved(alloc, saved)?;
    let said = SaidLines::behind(lines, 0);
    let told = tell(alloc, &scenario, &mut world, steps, said);
    drop(scenario);
    world.let_go();
    told
}

/// The steps of the run of a script that no text said, with the lines of its schedule as it is written, or the limit that the run passes.
pub fn steps_by_schedule(alloc: Global, scenario: &Scenario) -> Result<Blob, RunFault>
    ensures done { IfOk result (λ bytes. bytes ≡ steps_by_schedule scenario.now) }
    ensures within { OnOk result (exceeded_limit scenario.now ≡ None) }
    ensures large { (limit : ℕ) → result ≡ Err (RunFault.TooLarge limit) → exceeded_limit scenario.now ≡ Some limit }
{
    let steps = scenario.steps();
    let lines = write_schedule(alloc, scenario, steps)?;
    let mut world = World::new(alloc, scenario)?;
    let said = SaidLines::behind(lines.as_slice(), 0);
    let told = tell(alloc, scenario, &mut world, steps, said);
    world.let_go();
    told
}

/// The lines of a script's text that say its steps.
#[tactic(auto, using(crate::proofs::SaidSteps::first_some))]
fn said_of<'a>(scenario: &Scenario, text: &'a [u8]) -> SaidLines<'a>
    requires { script_of text.now ≡ Ok scenario.now }
    ensures said { result ≡ said_in scenario.now.first_event text.now }
    ensures many { length scenario.now.steps ≤ length result }
    ensures rises { Rises 0 result }
{
    match scenario.first_event() {
        Some(first) => SaidLines::behind(text, first - 1),
        None => SaidLines::behind(&[], 0),
    }
}

/// Has a world do steps, each of which a line says, and tells them after what the script declares and the report of where they begin; or
/// the limit that they pass.
fn tell(
    alloc: Global,
    scenario: &Scenario,
    world: &mut World,
    steps: &StepList,
    said: SaidLines<'_>,
) -> Result<Blob, RunFault>
    requires at { IsAt scenario.now.setup world.old }
    requires each { All (IsStep scenario.now.setup) steps.now }
    requires many { length steps.now ≤ length said }
    requires rises { Rises 0 said }
    ensures told { (w : Machine) → Reached scenario.now.setup w → Stands scenario.now.setup (kept_of world.old) w
        → IfOk result (λ bytes. bytes ≡ steps_text scenario.now w said.entry steps.now) }
    ensures within { (w : Machine) → Reached scenario.now.setup w → Stands scenario.now.setup (kept_of world.old) w
        → OnOk result ((run_from all_limits scenario.now.setup (at_world w) steps.now).ended ≡ None) }
    ensures large { (limit : ℕ) → result ≡ Err (RunFault.TooLarge limit) → (w : Machine) → Reached scenario.now.setup w → Stands scenario.now.setup (kept_of world.old) w
        → (run_from all_limits scenario.now.setup (at_world w) steps.now).ended ≡ Some limit }
{
    let head = head(alloc, scenario, world)?;
    let names = scenario.names(alloc)?;
    let mut telling = Steps::behind(alloc, head, names, said);
    world.run_with(alloc, scenario, steps, &mut telling)?;
    let mut lines = telling.into_text();
    add_head(alloc, &mut lines, world)?;
    Ok(lines)
}

/// What stands before the steps: what the script declares, the line `steps`, and the report of where they begin.
fn head(alloc: Global, scenario: &Scenario, world: &World) -> Result<Blob, Memory>
    requires { IsAt scenario.now.setup world.now }
    ensures { IfOk result (λ text. text ≡ (declarations_text scenario.now.setup scenario.now.chance ++ (codes "steps" ++ 10 ∷ [])) ++ report scenario.now.setup (shown_world world.now)) }
{
    let mut text = write_declarations(alloc, scenario)?;
    text.append(b"steps\n")?;
    let opening = report(alloc, scenario, world)?;
    text.append(opening.as_slice())?;
    Ok(text)
}
