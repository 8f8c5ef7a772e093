//! The logs of the four nodes of a small script, over lists: the brokers of its topic at two clusters, and two clients of it.
ghost use Rattle.std.specs.Prelude.{◌≡◌, ◌<◌, ◌-◌, IfOk, IsTrue};
ghost use Rattle.node_cases.specs.Small.{IsSmall, peers_in};

use geo_base::{Event, Memory, Peer};
use log_parts::{EndRow, EndTable};
use node_log::NodeLog;
use script_text::{Scenario, read_script};
use std::alloc::Global;
use std::sync::Arc;
use std::test::Fail;
use wire_ends::{ListEnd, WirePacket};

/// The first client attaches its producer, and publishes a message.
const SCRIPT: &[u8] =
    b"geo 1\ncluster a\ncluster b\ntopic t\nclient p t a\nclient c t a\ndo p produce\ndo p pub 0 * - x\n";

/// What the script says.
pub fn scenario(alloc: Global) -> Result<Arc<Scenario>, Fail> {
    Ok(Arc::new(alloc, read_script(alloc, SCRIPT)?)?)
}

/// The logs of nodes, in the order in which they were added. They stand in a vector, so that what their end does is shown once.
pub type Logs = Vec<NodeLog<ListEnd>>;

/// Adds the log of the topic's broker at a cluster, over ends of so many places; want of memory where the scenario is another one.
#[tactic(auto, using(crate::proofs::SmallTables::topic_there, crate::proofs::SmallTables::cluster_there))]
pub fn add_broker(
    alloc: Global,
    scenario: &Arc<Scenario>,
    cluster: u32,
    places: usize,
    logs: &mut Logs,
) -> Result<(), Memory> {
    if !is_small(scenario) || cluster > 1 {
        return Err(Memory);
    }
    let other = 1 - cluster;
    let peers = [
        Peer::Forward(other),
        Peer::Back(other),
        Peer::Client(0),
        Peer::Client(1),
    ];
    let ends = ends_of(alloc, &peers, places)?;
    let shared = Arc::try_clone(scenario)?;
    let log = NodeLog::broker(alloc, shared, 0, cluster, ends)?;
    logs.push(log)?;
    Ok(())
}

/// Adds the log of a client.
#[tactic(auto, using(crate::proofs::SmallTables::client_peers, crate::proofs::SmallTables::client_there))]
pub fn add_client(
    alloc: Global,
    scenario: &Arc<Scenario>,
    client: u32,
    places: usize,
    logs: &mut Logs,
) -> Result<(), Memory> {
    if !is_small(scenario) || client > 1 {
        return Err(Memory);
    }
    let peers = [Peer::Broker(0), Peer::Broker(1)];
    let ends = ends_of(alloc, &peers, places)?;
    let shared = Arc::try_clone(scenario)?;
    let log = NodeLog::client(alloc, shared, client, ends)?;
    logs.push(log)?;
    Ok(())
}

/// Whether a script has two clusters, a topic and two clients of it.
fn is_small(scenario: &Scenario) -> bool
    ensures { IsTrue result → IsSmall scenario.now.setup }
{
    let clients = scenario.clients();
    scenario.clusters().len() == 2
        && scenario.topics().len() == 1
        && clients.len() == 2
        && clients[0].topic() == 0
        && clients[1].topic() == 0
}

/// The ends of the links to peers, of so many places each.
fn ends_of(alloc: Global, peers: &[Peer], places: usize) -> Result<EndTable<ListEnd>, Memory>
    ensures { IfOk result (λ t. peers_in t.rows.items ≡ peers.now) }
{
    let mut rows = Vec::new(alloc);
    for peer in peers {
        rows.push(EndRow {
            peer: *peer,
            take: ListEnd::new(alloc, places)?,
            send: ListEnd::new(alloc, places)?,
        })?;
    }
    Ok(EndTable { rows })
}

/// Whether the node of a log does an event; want of memory where there is no such log.
pub fn act(alloc: Global, logs: &mut Logs, number: usize, event: &Event) -> Result<bool, Memory> {
    match logs.get_mut(number) {
        Some(log) => log.act(alloc, event),
        None => Err(Memory),
    }
}

/// How many events a node did.
pub fn events_of(logs: &Logs, number: usize) -> usize {
    match logs.get(number) {
        Some(log) => log.history().len(),
        None => 0,
    }
}

/// A node's last stamp.
pub fn stamp_of(logs: &Logs, number: usize) -> u64 {
    match logs.get(number) {
        Some(log) => log.clock().number(),
        None => 0,
    }
}

/// Carries the packets that a node sent to a peer to that peer, eight at most.
pub fn carry(
    logs: &mut Logs,
    (from, to): (usize, Peer),
    (at, source): (usize, Peer),
) -> Result<(), Memory> {
    for _ in 0..8 {
        match next_of(logs, from, to) {
            Some(packet) => put(logs, at, source, packet)?,
            None => return Ok(()),
        }
    }
    Ok(())
}

/// The next packet that a node sent to a peer.
pub fn next_of(logs: &mut Logs, from: usize, to: Peer) -> Option<WirePacket> {
    match logs.get_mut(from) {
        Some(log) => outgoing(log, to),
        None => None,
    }
}

fn outgoing(log: &mut NodeLog<ListEnd>, to: Peer) -> Option<WirePacket> {
    if log.has_peer(to) {
        log.outgoing(to)
    } else {
        None
    }
}

/// Brings a packet from a peer; want of memory where there is no such log.
fn put(logs: &mut Logs, at: usize, source: Peer, packet: WirePacket) -> Result<(), Memory> {
    match logs.get_mut(at) {
        Some(log) => incoming(log, source, packet),
        None => {
            drop(packet);
            Err(Memory)
        }
    }
}

fn incoming(log: &mut NodeLog<ListEnd>, source: Peer, packet: WirePacket) -> Result<(), Memory> {
    if log.has_peer(source) {
        log.incoming(source, packet)
    } else {
        drop(packet);
        Err(Memory)
    }
}
