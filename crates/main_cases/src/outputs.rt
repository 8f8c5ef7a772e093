//! What is written of logs that were made by hand.
ghost use Rattle.std.specs.Prelude.{◌≡◌};
ghost use Rattle.std.specs.Arc.{arc_value};
ghost use Rattle.geo_base.specs.Nodes.{node_count};

use actors::{client_count, cluster_count, node_count, topic_count};
use geo_base::{Blob, Event, Memory};
use link_rings::RingEnd;
use live_output::{all_events_output, live_output};
use live_run::NodeRings;
use node_log::{NodeLog, NodeLogs};
use script_text::{Scenario, read_script};
use std::alloc::Global;
use std::sync::Arc;
use std::test::Fail;

/// Two clusters, and a producer of a message.
const SCRIPT: &[u8] =
    b"geo 1\ncluster a\ncluster b\ntopic t\nclient p t a\ndo p produce\ndo p pub 0 * - hi\n";

/// The same with another message.
const OTHER: &[u8] =
    b"geo 1\ncluster a\ncluster b\ntopic t\nclient p t a\ndo p produce\ndo p pub 0 * - ho\n";

/// The producer connects; the rest is what settling does.
const OUTPUT: &[u8] =
    b"events 7 idle 0 rounds 1\ntopic t at a\nsender b session 1 open mark 0\ntopic t at b\nsender a session 1 open mark 0\n\
client p at a lines 0/2 receipts 0 duplicates 0 errors 0\nschedule\nreconnect p\nsettle\n";

/// Adds the log of the first topic's broker at a cluster; want of memory where there is none.
fn add_broker(
    alloc: Global,
    scenario: &Arc<Scenario, Global>,
    cluster: u32,
    rings: &mut NodeRings,
    logs: &mut NodeLogs<RingEnd>,
) -> Result<(), Memory>
    requires { rings.old ≡ node_count (arc_value scenario.now).setup }
    ensures { rings.new ≡ rings.old }
{
    if topic_count(scenario) == 0 || cluster >= cluster_count(scenario) {
        return Err(Memory);
    }
    let ends = rings.broker(alloc, scenario, 0, cluster)?;
    let shared = Arc::try_clone(scenario)?;
    logs.push(NodeLog::broker(alloc, shared, 0, cluster, ends)?)
}

/// Adds the log of the first client, which has connected; want of memory where there is none.
fn add_client(
    alloc: Global,
    scenario: &Arc<Scenario, Global>,
    rings: &mut NodeRings,
    logs: &mut NodeLogs<RingEnd>,
) -> Result<(), Memory>
    requires { rings.old ≡ node_count (arc_value scenario.now).setup }
{
    if client_count(scenario) == 0 {
        return Err(Memory);
    }
    let ends = rings.client(alloc, scenario, 0)?;
    let shared = Arc::try_clone(scenario)?;
    logs.push(connected(alloc, NodeLog::client(alloc, shared, 0, ends)?)?)
}

fn connected(alloc: Global, log: NodeLog<RingEnd>) -> Result<NodeLog<RingEnd>, Memory> {
    let mut log = log;
    match log.act(alloc, &Event::Reconnect { client: 0 }) {
        Ok(true) => Ok(log),
        _ => {
            log.let_go();
            Err(Memory)
        }
    }
}

/// The logs of three new nodes, of which the client has connected.
fn three_logs(
    alloc: Global,
    scenario: &Arc<Scenario, Global>,
) -> Result<NodeLogs<RingEnd>, Memory> {
    let mut rings = NodeRings::new(alloc, scenario)?;
    let mut logs = NodeLogs::new(alloc);
    let added = add_three(alloc, scenario, &mut rings, &mut logs);
    drop(rings);
    match added {
        Ok(()) => Ok(logs),
        Err(fault) => {
            logs.let_go();
            Err(fault)
        }
    }
}

fn add_three(
    alloc: Global,
    scenario: &Arc<Scenario, Global>,
    rings: &mut NodeRings,
    logs: &mut NodeLogs<RingEnd>,
) -> Result<(), Memory>
    requires { rings.old ≡ node_count (arc_value scenario.now).setup }
{
    add_broker(alloc, scenario, 0, rings, logs)?;
    add_broker(alloc, scenario, 1, rings, logs)?;
    add_client(alloc, scenario, rings, logs)
}

/// What is written of logs; want of memory where they are not as many as the scenario has nodes.
fn written(
    alloc: Global,
    scenario: &Arc<Scenario>,
    logs: &NodeLogs<RingEnd>,
) -> Result<Blob, Memory> {
    if logs.as_slice().len() != node_count(scenario) as usize {
        return Err(Memory);
    }
    live_output(alloc, scenario, logs)
}

/// What is written of three logs that keep a configuration, of which none is asked.
fn all_written(
    alloc: Global,
    kept: &Arc<Scenario>,
    scenario: &Arc<Scenario>,
) -> Result<Blob, Memory> {
    let logs = three_logs(alloc, kept)?;
    let output = if logs.as_slice().len() == node_count(scenario) as usize {
        all_events_output(alloc, scenario, &logs)
    } else {
        Err(Memory)
    };
    logs.let_go();
    output
}

/// What is written of the three logs.
fn written_of_three(alloc: Global, scenario: &Arc<Scenario>) -> Result<Blob, Memory> {
    let logs = three_logs(alloc, scenario)?;
    let output = written(alloc, scenario, &logs);
    logs.let_go();
    output
}

#[test]
fn one_event_is_settled(rt: HostRuntime) -> Result<(), Fail> {
    let alloc = rt.alloc();
    let scenario = Arc::new(alloc, read_script(alloc, SCRIPT)?)?;
    let output = written_of_three(alloc, &scenario);
    drop(scenario);
    assert!(rt; output?.as_slice() == OUTPUT);
    Ok(())
}

#[test]
fn no_configuration_is_asked(rt: HostRuntime) -> Result<(), Fail> {
    let alloc = rt.alloc();
    let scenario = Arc::new(alloc, read_script(alloc, SCRIPT)?)?;
    let other = Arc::new(alloc, read_script(alloc, OTHER)?)?;
    let own = all_written(alloc, &scenario, &scenario);
    let strange = all_written(alloc, &other, &scenario);
    drop(other);
    drop(scenario);
    assert!(rt; own?.as_slice() == OUTPUT);
    assert!(rt; strange?.as_slice() == OUTPUT);
    Ok(())
}
