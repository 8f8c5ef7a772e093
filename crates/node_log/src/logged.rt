//! The log of a node.
ghost use Rattle.std.specs.Prelude.{◌≡◌, ◌<◌, ◌+◌, length, true};
ghost use Rattle.std.specs.Arc.{arc_value};
ghost use Rattle.log_parts.specs.Rows.{has_peer};
ghost use Rattle.geo_base.specs.Nodes.{broker_count, is_node, is_peer, node_number};
ghost use Rattle.geo_base.specs.World.{node};
ghost use Rattle.node_log.specs.Logs.{IsReplayed, IsStateOf, StateOf, node_in};

use crate::log::Log;
use crate::state::NodeState;
use geo_base::{Peer, Stamp};
use log_parts::{Done, EndTable};
use script_text::Scenario;
use std::alloc::Global;
use std::marker::Model;
use std::sync::Arc;
use wire_ends::End;

/// A broker or a client with its configuration, its state, its history, its last stamp and the ends of its links, which are those
/// of its peers.
#[derive(Drop)]
pub struct NodeLog<E: End> {
    pub(crate) scenario: Arc<Scenario, Global>,
    pub(crate) state: NodeState,
    pub(crate) log: Log,
    pub(crate) ends: EndTable<E>,
}

impl<E: End> Model for NodeLog<E> {
    ghost use Rattle.std.specs.Arc.{arc_value};
    ghost use Rattle.node_log.specs.Logs.{LogHolds, NodeLogView, log_view};

    ghost Value = { NodeLogView E };

    ghost view = { λ b. log_view (arc_value b.scenario) b.state b.log.history.items b.log.clock b.ends.rows.items };

    ghost invariant = { λ b. LogHolds (arc_value b.scenario).setup b.state b.log.history.items b.log.clock b.ends.rows.items };
}

impl<E: End> NodeLog<E> {
    /// The configuration.
    pub fn scenario(&self) -> &Scenario
        ensures { result.now ≡ self.now.scenario }
    {
        &self.scenario
    }

    /// The configuration as it is shared with the logs of other nodes.
    pub fn configuration(&self) -> &Arc<Scenario, Global>
        ensures { arc_value result.now ≡ self.now.scenario }
    {
        &self.scenario
    }

    /// The node's number: brokers are numbered first, topic by topic, and after them all clients.
    pub fn number(&self) -> u32
        ensures { result ≡ node_number self.now.scenario.setup self.now.node }
    {
        number_of(&self.scenario, &self.state)
    }

    /// Whether a peer is one of the node's.
    pub fn has_peer(&self, peer: Peer) -> bool
        ensures ends { result ≡ has_peer self.now.ends peer }
        ensures setup { result ≡ is_peer self.now.scenario.setup self.now.node peer }
    {
        self.ends.has(peer)
    }

    /// The node's state, which says which node it is.
    pub fn state(&self) -> &NodeState
        ensures state { StateOf self.now result.now }
        ensures known { IsStateOf self.now.scenario.setup result.now }
    {
        &self.state
    }

    /// The events that the node did, in order: they replay from its opening state to its state.
    pub fn history(&self) -> &[Done]
        ensures history { result.now ≡ self.now.history }
        ensures replayed { IsReplayed self.now }
    {
        self.log.history.as_slice()
    }

    /// The stamp of the last event, 0 before any.
    pub fn clock(&self) -> Stamp
        ensures { result ≡ self.now.clock }
    {
        self.log.clock
    }

    /// Lets the log go, as `drop` does: a crate that calls this need not show again how each part of a node ends.
    pub fn let_go(self) {
        drop(self)
    }
}

/// The number of the node of a state.
#[tactic(auto, using(crate::proofs::Numbers::topic_there, crate::proofs::Numbers::cluster_there, crate::proofs::Numbers::client_there, crate::proofs::Numbers::broker_number, crate::proofs::Numbers::client_number))]
fn number_of(scenario: &Scenario, state: &NodeState) -> u32
    requires { is_node scenario.now.setup (node_in state.now) ≡ true }
    ensures { result ≡ node_number scenario.now.setup (node_in state.now) }
{
    match state {
        NodeState::Broker(broker) => broker_number(scenario, broker.topic(), broker.cluster()),
        NodeState::Client(own) => client_number(scenario, own.number),
    }
}

/// The number of the broker of a topic at a cluster. A script has few nodes, so that it has 32 bits.
#[tactic(auto, using(crate::proofs::Numbers::broker_fits))]
fn broker_number(scenario: &Scenario, topic: u32, cluster: u32) -> u32
    requires topic { topic < length scenario.now.setup.topics }
    requires cluster { cluster < length scenario.now.setup.clusters }
    ensures { result ≡ node scenario.now.setup topic cluster }
{
    (topic as usize * scenario.clusters().len() + cluster as usize) as u32
}

/// The number of a client among all nodes.
#[tactic(auto, using(world_laws::proofs::Merges::FewNodes::few_brokers))]
fn client_number(scenario: &Scenario, client: u32) -> u32
    requires { client < length scenario.now.setup.clients }
    ensures { result ≡ broker_count scenario.now.setup + client }
{
    (scenario.topics().len() * scenario.clusters().len() + client as usize) as u32
}
