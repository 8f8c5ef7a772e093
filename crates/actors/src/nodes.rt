//! The numbers of nodes: brokers first, by topic and then by cluster, and then all clients.
ghost use Rattle.std.specs.Prelude.{◌≡◌};
ghost use Rattle.geo_base.specs.Nodes.{BrokerNode, ClientNode, broker_count, node_count, node_number};

use crate::counts::{client_count, cluster_count, topic_count};
use script_text::Scenario;

/// How many brokers a scenario has: one of each topic at each cluster.
#[tactic(auto, using(world_laws::proofs::Merges::FewNodes::few_brokers))]
pub fn broker_count(scenario: &Scenario) -> u32
    ensures { result ≡ broker_count scenario.now.setup }
{
    let _known = scenario.topics();
    topic_count(scenario) * cluster_count(scenario)
}

/// How many nodes a scenario has: its brokers and its clients.
#[tactic(auto, using(world_laws::proofs::Merges::FewNodes::few_brokers, world_laws::proofs::Merges::FewNodes::few_clients))]
pub fn node_count(scenario: &Scenario) -> u32
    ensures { result ≡ node_count scenario.now.setup }
{
    let _known = scenario.topics();
    broker_count(scenario) + client_count(scenario)
}

/// The number of the broker of a topic at a cluster.
#[tactic(auto, using(world_laws::proofs::Merges::FewNodes::broker_fits))]
pub fn broker_number(scenario: &Scenario, topic: u32, cluster: u32) -> usize
    ensures { result ≡ node_number scenario.now.setup (BrokerNode topic cluster) }
{
    let _known = scenario.topics();
    topic as usize * cluster_count(scenario) as usize + cluster as usize
}

/// The number of a client among the nodes.
pub fn client_number(scenario: &Scenario, client: u32) -> usize
    ensures { result ≡ node_number scenario.now.setup (ClientNode client) }
{
    broker_count(scenario) as usize + client as usize
}
