//! How a log begins.
ghost use Rattle.std.specs.Prelude.{◌≡◌, ◌<◌, [], length, IfOk};
ghost use Rattle.std.specs.Arc.{arc_value};
ghost use Rattle.broker.specs.Events.{IsNodeOf};
ghost use Rattle.geo_base.specs.Broker.{new_broker};
ghost use Rattle.geo_base.specs.Client.{new_client};
ghost use Rattle.geo_base.specs.NodeState.{BrokerState, ClientState};
ghost use Rattle.geo_base.specs.Nodes.{BrokerNode, ClientNode};
ghost use Rattle.geo_base.specs.Scripted.{IsScripted};
ghost use Rattle.geo_base.specs.Setup.{declared_at};
ghost use Rattle.node_log.specs.Logs.{HasPeers, opening_log};

use crate::log::Log;
use crate::logged::NodeLog;
use crate::state::{NodeState, NumberedClient};
use broker::Broker;
use client::Client;
use geo_base::{Memory, Stamp};
use log_parts::EndTable;
use node_starts::{new_node, site_of};
use script_text::Scenario;
use std::alloc::Global;
use std::sync::Arc;
use wire_ends::End;

impl Log {
    /// No event; takes no memory.
    fn new(alloc: Global) -> Log
        ensures history { result.history.items ≡ [] }
        ensures clock { result.clock ≡ 0 }
    {
        Log {
            history: Vec::new(alloc),
            clock: Stamp::new(0),
        }
    }
}

impl<E: End> NodeLog<E> {
    /// The log of the broker of a topic at a cluster before any event, over the ends of the links to its peers. An `Err` is want
    /// of memory.
    pub fn broker(
        alloc: Global,
        scenario: Arc<Scenario, Global>,
        topic: u32,
        cluster: u32,
        ends: EndTable<E>,
    ) -> Result<NodeLog<E>, Memory>
        requires topic { topic < length (arc_value scenario).setup.topics }
        requires cluster { cluster < length (arc_value scenario).setup.clusters }
        requires peers { HasPeers (arc_value scenario).setup (BrokerNode topic cluster) ends.rows.items }
        ensures { IfOk result (λ b. b ≡ opening_log (arc_value scenario) (BrokerNode topic cluster)
            (BrokerState (new_broker (length (arc_value scenario).setup.clusters) (length (arc_value scenario).setup.clients))) ends.rows.items) }
    {
        let node = new_broker(alloc, &scenario, topic, cluster)?;
        Ok(NodeLog {
            scenario,
            state: NodeState::Broker(node),
            log: Log::new(alloc),
            ends,
        })
    }

    /// The log of a client that has done nothing, over the ends of the links to its peers. An `Err` is want of memory.
    pub fn client(
        alloc: Global,
        scenario: Arc<Scenario, Global>,
        client: u32,
        ends: EndTable<E>,
    ) -> Result<NodeLog<E>, Memory>
        requires client { client < length (arc_value scenario).setup.clients }
        requires peers { HasPeers (arc_value scenario).setup (ClientNode client) ends.rows.items }
        ensures { IfOk result (λ b. b ≡ opening_log (arc_value scenario) (ClientNode client)
            (ClientState (new_client (declared_at (arc_value scenario).setup client))) ends.rows.items) }
    {
        let state = NodeState::Client(NumberedClient {
            number: client,
            client: new_client(alloc, &scenario, client)?,
        });
        Ok(NodeLog {
            scenario,
            state,
            log: Log::new(alloc),
            ends,
        })
    }
}

/// A broker before any event. An `Err` is want of memory.
fn new_broker(
    alloc: Global,
    scenario: &Scenario,
    topic: u32,
    cluster: u32,
) -> Result<Broker, Memory>
    requires topic { topic < length scenario.now.setup.topics }
    requires cluster { cluster < length scenario.now.setup.clusters }
    ensures node { IfOk result (IsNodeOf scenario.now.setup topic cluster) }
    ensures broker { IfOk result (λ v. v.broker ≡ new_broker (length scenario.now.setup.clusters) (length scenario.now.setup.clients)) }
    ensures known { IsScripted scenario.now.setup }
{
    let _known = scenario.clusters();
    new_node(alloc, scenario, topic, cluster)
}

/// A client that has done nothing. An `Err` is want of memory.
fn new_client(alloc: Global, scenario: &Scenario, client: u32) -> Result<Client, Memory>
    requires { client < length scenario.now.setup.clients }
    ensures client { IfOk result (λ k. k ≡ new_client (declared_at scenario.now.setup client)) }
    ensures known { IsScripted scenario.now.setup }
{
    let _known = scenario.clients();
    let site = site_of(scenario, client);
    Client::new(alloc, &site)
}
