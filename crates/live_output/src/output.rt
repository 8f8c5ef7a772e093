//! The report and the schedule of the run that logs make.
ghost use Rattle.std.specs.Prelude.{◌≡◌, All, IfOk, Ok, OnOk, length};
ghost use Rattle.std.specs.Arc.{arc_value};
ghost use Rattle.geo_base.specs.Nodes.{node_count};
ghost use Rattle.script_text.specs.Naming.{names_of};
ghost use Rattle.script_text.specs.Schedule.{schedule_of, schedule_text};
ghost use Rattle.live_output.specs.Lists.{views_of};
ghost use Rattle.live_output.specs.LiveRuns.{IsOutputOf, IsOutputOfAll, TellsRun, live_text};
ghost use Rattle.live_output.specs.Playing.{IsEventStep, IsPlayed};
ghost use Rattle.live_output.specs.Schedules.{scheduled};
ghost use Rattle.merge_history.specs.Logs.{AreOwn};

use crate::merging::{events_of, merge};
use crate::played::{Played, replay, settle_where_it_fits};
use geo_base::{Blob, Memory};
use node_log::NodeLogs;
use run_report::report;
use script_text::{Scenario, StepList, write_schedule};
use std::alloc::Global;
use std::sync::Arc;
use wire_ends::End;

/// The report of a run of the machine, the line `schedule`, and the schedule of that run: as much of the merge of the logs as the
/// limits of a run allow, and `settle` after it exactly where that passes none. Whether the logs fit together is not asked, since
/// any schedule has its run. An `Err` is want of memory.
#[tactic(auto, using(crate::proofs::Outputs::output_is, crate::proofs::Outputs::steps_known))]
pub fn live_output<E: End>(
    alloc: Global,
    scenario: &Arc<Scenario>,
    logs: &NodeLogs<E>,
) -> Result<Blob, Memory>
    requires { length logs.now ≡ node_count (arc_value scenario.now).setup }
    ensures of_logs { IfOk result (IsOutputOf (arc_value scenario.now) (views_of logs.now)) }
    ensures tells { IfOk result (TellsRun (arc_value scenario.now)) }
{
    let merged = merge(alloc, scenario, logs)?;
    let output = output_of(alloc, scenario, &merged.steps);
    merged.let_go();
    output
}

/// The same of the events of all logs, whichever configuration each keeps, as far as the script may schedule them: nothing is
/// compared, so this is linear in nodes and events. Where no log is strange it is what [`live_output`] gives. An `Err` is want of
/// memory.
pub fn all_events_output<E: End>(
    alloc: Global,
    scenario: &Arc<Scenario>,
    logs: &NodeLogs<E>,
) -> Result<Blob, Memory>
    requires { length logs.now ≡ node_count (arc_value scenario.now).setup }
    ensures of_all { IfOk result (IsOutputOfAll (arc_value scenario.now) (views_of logs.now)) }
    ensures of_logs { AreOwn (arc_value scenario.now) (views_of logs.now) → IfOk result (IsOutputOf (arc_value scenario.now) (views_of logs.now)) }
    ensures tells { IfOk result (TellsRun (arc_value scenario.now)) }
{
    let steps = events_of(alloc, scenario, logs)?;
    output_of(alloc, scenario, &steps)
}

/// The report and the schedule of as many of some events as the limits of a run allow, and of settling after them where that fits.
#[tactic(auto, using(crate::proofs::Outputs::text_of))]
fn output_of(alloc: Global, scenario: &Scenario, steps: &StepList) -> Result<Blob, Memory>
    requires { All (IsEventStep scenario.now.setup) steps.now }
    ensures text { IfOk result (λ output. output ≡ live_text scenario.now (scheduled scenario.now.setup steps.now)) }
    ensures tells { IfOk result (TellsRun scenario.now) }
{
    let replayed = replay(alloc, scenario, steps)?;
    let played = settle_where_it_fits(alloc, scenario, replayed)?;
    let output = written(alloc, scenario, &played);
    played.let_go();
    output
}

/// The report of a run and its schedule, which reads back.
fn written(alloc: Global, scenario: &Scenario, played: &Played) -> Result<Blob, Memory>
    requires { IsPlayed scenario.now played.now.steps played.now.world }
    ensures text { IfOk result (λ text. text ≡ live_text scenario.now played.now.steps) }
    ensures back { OnOk result (schedule_of scenario.now.setup (schedule_text (names_of scenario.now.setup) played.now.steps) ≡ Ok played.now.steps) }
{
    let mut text = report(alloc, scenario, &played.world)?;
    let schedule = write_schedule(alloc, scenario, &played.steps)?;
    text.append(b"schedule\n")?;
    text.append(schedule.as_slice())?;
    Ok(text)
}
