//! The events of logs, for a run of them.
ghost use Rattle.std.specs.Prelude.{◌≡◌, ◌<◌, ◌^◌, ℕ, All, IfOk, length, nat_lt};
ghost use Rattle.geo_base.specs.NodeState.{NodeState};
ghost use Rattle.geo_base.specs.Nodes.{node_count};
ghost use Rattle.geo_base.specs.Planned.{has_client, has_node, has_sub};
ghost use Rattle.merge_history.specs.Logs.{AreLogs, AreOwn};
ghost use Rattle.merge_history.specs.Events.{AreMergedEvents, AreOwnEvents, IsOfLink, MaySchedule, allowed, histories_of, may_happen, may_schedule};

use crate::History;
use crate::log::LogRef;
use crate::steps::merged_steps;
use geo_base::{Event, Memory, Step};
use script_text::{Scenario, StepList};
use std::alloc::Global;

/// The events of all logs of a scenario's nodes, in the nodes' order, as far as its script may schedule them; ordered by stamp and node.
/// Neither the configurations that logs keep nor packets are compared, so this is linear in nodes and events. Of logs none of
/// which is strange every event is there. An `Err` is want of memory.
pub fn merge_events(
    alloc: Global,
    scenario: &Scenario,
    logs: &[LogRef<'_>],
) -> Result<StepList, Memory>
    requires { length logs.now ≡ node_count scenario.now.setup }
    ensures each { IfOk result (λ es. All (MaySchedule scenario.now.setup) es) }
    ensures all { IfOk result (AreMergedEvents scenario.now.setup logs.now) }
    ensures own { (st : ℕ → NodeState) (clock : ℕ → ℕ) → AreLogs logs.now st clock → AreOwn scenario.now logs.now
        → IfOk result (AreOwnEvents scenario.now logs.now) }
{
    let _known = scenario.clients();
    all_events(alloc, scenario, logs)
}

/// The same of fewer logs than 2^32.
fn all_events(alloc: Global, scenario: &Scenario, logs: &[LogRef<'_>]) -> Result<StepList, Memory>
    requires { length logs.now < 2 ^ 32 }
    ensures each { IfOk result (λ es. All (MaySchedule scenario.now.setup) es) }
    ensures all { IfOk result (AreMergedEvents scenario.now.setup logs.now) }
{
    let histories = histories_of(alloc, logs)?;
    let merged = merged_steps(alloc, histories.as_slice())?;
    allowed_steps(alloc, scenario, &merged)
}

/// The histories of all logs.
fn histories_of<'a>(alloc: Global, logs: &[LogRef<'a>]) -> Result<Vec<History<'a>>, Memory>
    ensures { IfOk result (λ hs. hs.items ≡ histories_of logs.now) }
{
    let mut histories = Vec::new(alloc);
    for log in logs {
        histories.push(History::new(log.events()))?;
    }
    Ok(histories)
}

/// Those of some steps that a script may schedule, in their order.
fn allowed_steps(alloc: Global, scenario: &Scenario, steps: &StepList) -> Result<StepList, Memory>
    ensures { IfOk result (λ es. es ≡ allowed scenario.now.setup steps.now) }
{
    let mut allowed = StepList::new(alloc);
    for place in 0..steps.len() {
        let step = steps.at(place);
        if may_schedule(scenario, &step) {
            allowed.push(step)?;
        }
    }
    Ok(allowed)
}

/// Whether a step is an event with all its numbers in range.
fn may_schedule(scenario: &Scenario, step: &Step) -> bool
    ensures { result ≡ may_schedule scenario.now.setup step.now }
{
    match step {
        Step::Plain(event) => may_happen(scenario, event),
        _ => false,
    }
}

fn may_happen(scenario: &Scenario, event: &Event) -> bool
    ensures { result ≡ may_happen scenario.now.setup event.now }
{
    match *event {
        Event::Go { client } | Event::Get { client } | Event::Reconnect { client } => {
            is_client(scenario, client)
        }
        Event::Serve { cluster, client } | Event::Drop { cluster, client } => {
            is_cluster(scenario, cluster) && is_client(scenario, client)
        }
        Event::Snap { topic, cluster } | Event::Restart { topic, cluster } => {
            is_node(scenario, topic, cluster)
        }
        Event::Offer {
            topic,
            cluster,
            sub,
        }
        | Event::Seek {
            topic,
            cluster,
            sub,
            ..
        } => is_sub(scenario, topic, cluster, sub),
        Event::Reset { .. } | Event::Read { .. } | Event::Take { .. } | Event::Receipt { .. } => {
            is_at_link(scenario, event)
        }
    }
}

/// The same of an event of a link between brokers, whose ends are two.
fn is_at_link(scenario: &Scenario, event: &Event) -> bool
    requires { IsOfLink event.now }
    ensures { result ≡ may_happen scenario.now.setup event.now }
{
    match *event {
        Event::Reset {
            topic,
            source,
            target,
        }
        | Event::Read {
            topic,
            source,
            target,
        }
        | Event::Take {
            topic,
            source,
            target,
            ..
        }
        | Event::Receipt {
            topic,
            source,
            target,
            ..
        } => is_node(scenario, topic, source) && is_cluster(scenario, target) && target != source,
        _ => unreachable!(),
    }
}

fn is_client(scenario: &Scenario, client: u32) -> bool
    ensures { result ≡ has_client scenario.now.setup client }
{
    (client as usize) < scenario.clients().len()
}

fn is_cluster(scenario: &Scenario, cluster: u32) -> bool
    ensures { result ≡ nat_lt cluster (length scenario.now.setup.clusters) }
{
    (cluster as usize) < scenario.clusters().len()
}

fn is_node(scenario: &Scenario, topic: u32, cluster: u32) -> bool
    ensures { result ≡ has_node scenario.now.setup topic cluster }
{
    (topic as usize) < scenario.topics().len() && is_cluster(scenario, cluster)
}

#[tactic(auto, using(crate::proofs::Allowed::has_sub_name))]
fn is_sub(scenario: &Scenario, topic: u32, cluster: u32, sub: u32) -> bool
    ensures { result ≡ has_sub scenario.now.setup topic cluster sub }
{
    is_node(scenario, topic, cluster) && scenario.sub_name(topic, sub).is_some()
}
