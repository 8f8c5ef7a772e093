//! The logs of a run.
ghost use Rattle.std.specs.Prelude.{◌≡◌, ◌<◌, ◌+◌, length, IfOk, OnOk, vec_len};
ghost use Rattle.std.specs.Arc.{arc_value};
ghost use Rattle.geo_base.specs.Nodes.{broker_count, node_count};

use crate::NodeRings;
use actors::{client_count, cluster_count, topic_count};
use geo_base::Memory;
use link_rings::RingEnd;
use node_log::{NodeLog, NodeLogs};
use script_text::Scenario;
use std::alloc::Global;
use std::sync::{Arc, Mutex};

/// A log that several threads may take.
pub(crate) type LockedLog = Mutex<NodeLog<RingEnd>>;

/// The logs of a scenario's nodes before any event, in the order of the nodes' numbers. An `Err` is want of memory.
pub(crate) fn open(
    alloc: Global,
    scenario: &Arc<Scenario, Global>,
) -> Result<Vec<LockedLog>, Memory>
    ensures { IfOk result (λ logs. vec_len logs ≡ node_count (arc_value scenario.now).setup) }
{
    let mut rings = NodeRings::new(alloc, scenario)?;
    let mut logs = Vec::new(alloc);
    open_brokers(alloc, scenario, &mut rings, &mut logs)?;
    open_clients(alloc, scenario, &mut rings, &mut logs)?;
    Ok(logs)
}

/// The logs of all brokers.
#[tactic(auto, using(crate::proofs::Counts::one_topic))]
fn open_brokers(
    alloc: Global,
    scenario: &Arc<Scenario, Global>,
    rings: &mut NodeRings,
    logs: &mut Vec<LockedLog>,
) -> Result<(), Memory>
    requires rings { rings.old ≡ node_count (arc_value scenario.now).setup }
    ensures logs { OnOk result (vec_len logs.new ≡ vec_len logs.old + broker_count (arc_value scenario.now).setup) }
    ensures rings { rings.new ≡ rings.old }
{
    for topic in 0..topic_count(scenario) {
        open_topic(alloc, scenario, topic, rings, logs)?;
    }
    Ok(())
}

/// Those of a topic.
fn open_topic(
    alloc: Global,
    scenario: &Arc<Scenario, Global>,
    topic: u32,
    rings: &mut NodeRings,
    logs: &mut Vec<LockedLog>,
) -> Result<(), Memory>
    requires topic { topic < length (arc_value scenario.now).setup.topics }
    requires rings { rings.old ≡ node_count (arc_value scenario.now).setup }
    ensures logs { OnOk result (vec_len logs.new ≡ vec_len logs.old + length (arc_value scenario.now).setup.clusters) }
    ensures rings { rings.new ≡ rings.old }
{
    for cluster in 0..cluster_count(scenario) {
        let ends = rings.broker(alloc, scenario, topic, cluster)?;
        let shared = Arc::try_clone(scenario)?;
        logs.push(Mutex::new(NodeLog::broker(alloc, shared, topic, cluster, ends)?))?;
    }
    Ok(())
}

/// The logs of all clients.
fn open_clients(
    alloc: Global,
    scenario: &Arc<Scenario, Global>,
    rings: &mut NodeRings,
    logs: &mut Vec<LockedLog>,
) -> Result<(), Memory>
    requires rings { rings.old ≡ node_count (arc_value scenario.now).setup }
    ensures { OnOk result (vec_len logs.new ≡ vec_len logs.old + length (arc_value scenario.now).setup.clients) }
{
    for client in 0..client_count(scenario) {
        let ends = rings.client(alloc, scenario, client)?;
        let shared = Arc::try_clone(scenario)?;
        logs.push(Mutex::new(NodeLog::client(alloc, shared, client, ends)?))?;
    }
    Ok(())
}

/// The logs, which no thread takes any more. An `Err` is want of memory.
pub(crate) fn close(alloc: Global, locked: Vec<LockedLog>) -> Result<NodeLogs<RingEnd>, Memory>
    ensures { IfOk result (λ logs. length logs ≡ vec_len locked) }
{
    let mut logs = NodeLogs::new(alloc);
    for log in locked {
        logs.push(log.into_inner())?;
    }
    Ok(logs)
}
