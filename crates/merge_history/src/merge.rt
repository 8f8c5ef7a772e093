//! The merge of logs.
ghost use Rattle.std.specs.Prelude.{◌≡◌, ◌<◌, ◌^◌, ℕ, IfOk, IfSome, None, Ok, length};
ghost use Rattle.std.specs.Arc.{arc_value};
ghost use Rattle.geo_base.specs.NodeState.{NodeState};
ghost use Rattle.geo_base.specs.Nodes.{node_count};
ghost use Rattle.merge_history.specs.Differences.{AllSent};
ghost use Rattle.merge_history.specs.Firsts.{AreRising};
ghost use Rattle.merge_history.specs.Ends.{layout_of};
ghost use Rattle.merge_history.specs.Logs.{AreLogs, AreTold, kept_of};
ghost use Rattle.merge_history.specs.Merges.{DiffersAs, IsMerged, IsPacket, IsStrangeAt};

use crate::difference::{Difference, NodeConfig};
use crate::layout::layout_of;
use crate::log::LogRef;
use crate::steps::merged_steps;
use crate::strange::{Judged, first_strange, judge_logs};
use crate::{History, Layout, first_difference, packets_of};
use geo_base::Memory;
use script_text::{Scenario, StepList};
use std::alloc::Global;
use std::sync::Arc;

/// The events of all logs that are not strange, ordered by stamp and node, and what is the first not to fit, if anything is.
#[derive(Drop)]
pub struct Merged {
    pub steps: StepList,
    pub differs: Option<Difference>,
}

impl Merged {
    /// Lets the merge go, as `drop` does: a crate that calls this need not show again how each part of a merge ends.
    pub fn let_go(self) {
        drop(self)
    }
}

/// The merge of the logs of a scenario's nodes, in the nodes' order. What it says holds where each history replays, as it does
/// in a log that a node keeps. An `Err` is want of memory.
pub fn merge_logs(
    alloc: Global,
    scenario: &Arc<Scenario>,
    logs: &[LogRef<'_>],
) -> Result<Merged, Memory>
    requires { length logs.now ≡ node_count (arc_value scenario.now).setup }
    ensures { (st : ℕ → NodeState) (clock : ℕ → ℕ) → AreLogs logs.now st clock → IfOk result (IsMerged (arc_value scenario.now) logs.now st) }
{
    let layout = layout_of(alloc, scenario)?;
    let judged = judge_logs(alloc, scenario, logs)?;
    Ok(Merged {
        steps: merged_steps(alloc, judged.histories.as_slice())?,
        differs: difference_of(alloc, scenario, logs, &judged, &layout)?,
    })
}

/// What is the first not to fit, if anything is.
fn difference_of(
    alloc: Global,
    scenario: &Arc<Scenario>,
    logs: &[LogRef<'_>],
    judged: &Judged<'_>,
    layout: &Layout,
) -> Result<Option<Difference>, Memory>
    requires few { length logs.now < 2 ^ 32 }
    requires told { AreTold (arc_value scenario.now) logs.now judged.now.own.items }
    requires kept { judged.now.histories.items ≡ kept_of judged.now.own.items logs.now }
    requires layout { layout.now ≡ layout_of (arc_value scenario.now).setup }
    ensures { AreRising judged.now.histories.items → IfOk result (DiffersAs (arc_value scenario.now) logs.now judged.now.histories.items) }
{
    match first_strange(judged.own.as_slice()) {
        Some(place) => Ok(Some(strange_at(scenario, logs, place)?)),
        None => packet_difference(alloc, layout, judged.histories.as_slice()),
    }
}

/// The strange log at a place, and what the place asks.
fn strange_at(
    scenario: &Arc<Scenario>,
    logs: &[LogRef<'_>],
    place: usize,
) -> Result<Difference, Memory>
    requires within { place < length logs.now }
    requires few { length logs.now < 2 ^ 32 }
    ensures { IfOk result (IsStrangeAt (arc_value scenario.now) logs.now place) }
{
    Ok(Difference::Config {
        node: place as u32,
        kept: logs[place].config()?,
        given: NodeConfig::new(scenario, place as u32)?,
    })
}

/// The first packet that is not the one that was sent, with the one that was.
fn packet_difference(
    alloc: Global,
    layout: &Layout,
    histories: &[History<'_>],
) -> Result<Option<Difference>, Memory>
    requires few { length histories.now < 2 ^ 32 }
    ensures some { AreRising histories.now → IfOk result (λ o. IfSome o (IsPacket layout.now histories.now)) }
    ensures none { result ≡ Ok None → (n : ℕ) → AllSent layout.now histories.now n }
{
    let Some(first) = first_difference(alloc, layout, histories)? else {
        return Ok(None);
    };
    let packets = packets_of(alloc, layout, histories, &first)?;
    Ok(Some(Difference::Packet {
        node: first.node as u32,
        peer: first.found.peer,
        index: first.found.index as u64,
        sent: packets.sent,
        taken: packets.taken,
    }))
}
