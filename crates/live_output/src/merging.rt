//! The merge of a list of logs.
ghost use Rattle.std.specs.Prelude.{◌≡◌, All, IfOk, length};
ghost use Rattle.std.specs.Arc.{arc_value};
ghost use Rattle.geo_base.specs.Nodes.{node_count};
ghost use Rattle.live_output.specs.Lists.{IsMergeOf, views_of};
ghost use Rattle.live_output.specs.Playing.{IsEventStep};
ghost use Rattle.merge_history.specs.Logs.{AreOwn};
ghost use Rattle.merge_history.specs.Events.{AreMergedEvents, AreOwnEvents};

use geo_base::Memory;
use merge_history::{LogRef, Merged, merge_events, merge_logs};
use node_log::{NodeLog, NodeLogs};
use script_text::{Scenario, StepList};
use std::alloc::Global;
use std::sync::Arc;
use wire_ends::End;

/// The merge of the logs of a scenario's nodes, in the nodes' order: the events of all that are not strange, ordered by stamp and
/// node, and what is the first not to fit, if anything is. A log is strange where it keeps another configuration than the given one,
/// or is the log of another node than its place. An `Err` is want of memory.
#[tactic(auto, using(crate::proofs::Lists::many_views))]
pub fn merge<E: End>(
    alloc: Global,
    scenario: &Arc<Scenario>,
    logs: &NodeLogs<E>,
) -> Result<Merged, Memory>
    requires { length logs.now ≡ node_count (arc_value scenario.now).setup }
    ensures { IfOk result (IsMergeOf (arc_value scenario.now) logs.now) }
{
    let views = views_of(alloc, logs.as_slice())?;
    merge_logs(alloc, scenario, views.as_slice())
}

/// The events of all logs that the script may schedule, ordered by stamp and node; nothing is compared. An `Err` is want of memory.
pub(crate) fn events_of<E: End>(
    alloc: Global,
    scenario: &Arc<Scenario>,
    logs: &NodeLogs<E>,
) -> Result<StepList, Memory>
    requires { length logs.now ≡ node_count (arc_value scenario.now).setup }
    ensures all { IfOk result (AreMergedEvents (arc_value scenario.now).setup (views_of logs.now)) }
    ensures own { AreOwn (arc_value scenario.now) (views_of logs.now) → IfOk result (AreOwnEvents (arc_value scenario.now) (views_of logs.now)) }
    ensures events { IfOk result (λ es. All (IsEventStep (arc_value scenario.now).setup) es) }
{
    let views = views_of(alloc, logs.as_slice())?;
    merge_events(alloc, scenario, views.as_slice())
}

/// Logs as the merge sees them.
fn views_of<E: End>(alloc: Global, logs: &[NodeLog<E>]) -> Result<Vec<LogRef<'_>>, Memory>
    ensures { IfOk result (λ views. views.items ≡ views_of logs.now) }
{
    let mut views = Vec::new(alloc);
    for log in logs {
        views.push(LogRef::new(log.configuration(), log.number(), log.history()))?;
    }
    Ok(views)
}
