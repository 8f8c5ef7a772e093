//! How a world begins: empty topics, clients that have done nothing, empty links, and clocks at zero.
ghost use Rattle.std.specs.Prelude.{◌≡◌, ◌<◌, ◌+◌, ◌*◌, length, map, replicate, IfOk, OnOk};
ghost use Rattle.geo_base.specs.Client.{new_client};
ghost use Rattle.geo_base.specs.Scripted.{IsScripted};
ghost use Rattle.links.specs.Queues.{empty_links};
ghost use Rattle.world.specs.Opening.{AreNew};
ghost use Rattle.world.specs.World.{IsAt, kept_of};
ghost use Rattle.kept_laws.specs.Kept.{opening_kept};

use crate::world::World;
use broker::Broker;
use broker_state::Plan;
use client::Client;
use geo_base::Memory;
use links::Links;
use node_starts::{new_node, site_of};
use script_text::Scenario;
use state_nodes::Counts;
use std::alloc::Global;

impl World {
    /// The world in which a script's first step is done. An `Err` is want of memory.
    pub fn new(alloc: Global, scenario: &Scenario) -> Result<World, Memory>
        ensures kept { IfOk result (λ w. kept_of w ≡ opening_kept scenario.now.setup) }
        ensures at { IfOk result (IsAt scenario.now.setup) }
    {
        let brokers = new_nodes(alloc, scenario)?;
        let clients = new_clients(alloc, scenario)?;
        let unused = Unused::of(alloc, scenario)?;
        Ok(World {
            brokers,
            clients,
            links: unused.links,
            broker_clocks: unused.broker_clocks,
            client_clocks: unused.client_clocks,
            counts: Counts {
                events: 0,
                idle: 0,
                rounds: 0,
                frame_bytes: 0,
            },
            plan: None,
        })
    }
}

/// What no event used yet: links on which nothing was sent, and clocks at zero.
#[derive(Drop)]
pub(crate) struct Unused {
    pub(crate) links: Links,
    pub(crate) broker_clocks: Vec<u64>,
    pub(crate) client_clocks: Vec<u64>,
}

impl Unused {
    /// Those of a script's world. An `Err` is want of memory.
    pub(crate) fn of(alloc: Global, scenario: &Scenario) -> Result<Unused, Memory>
        ensures links { IfOk result (λ u. u.links ≡ empty_links (length scenario.now.setup.topics) (length scenario.now.setup.clusters) (length scenario.now.setup.clients)) }
        ensures broker_clocks { IfOk result (λ u. u.broker_clocks.items ≡ replicate (length scenario.now.setup.topics * length scenario.now.setup.clusters) 0) }
        ensures client_clocks { IfOk result (λ u. u.client_clocks.items ≡ replicate (length scenario.now.setup.clients) 0) }
        ensures known { OnOk result (IsScripted scenario.now.setup) }
    {
        let topics = scenario.topics().len();
        let clusters = scenario.clusters().len();
        let clients = scenario.clients().len();
        // the links last, since nothing may fail while they are owned
        let broker_clocks = vec![in alloc; 0u64; topics * clusters]?;
        let client_clocks = vec![in alloc; 0u64; clients]?;
        let links = Links::new(alloc, topics, clusters, clients)?;
        Ok(Unused {
            links,
            broker_clocks,
            client_clocks,
        })
    }
}

/// The brokers of all topics, by topic and then by cluster.
fn new_nodes(alloc: Global, scenario: &Scenario) -> Result<Vec<Broker>, Memory>
    ensures { IfOk result (λ vs. AreNew scenario.now.setup (length scenario.now.setup.topics * length scenario.now.setup.clusters) vs.items) }
{
    let mut brokers = Vec::new(alloc);
    for topic in 0..scenario.topics().len() as u32 {
        add_nodes(alloc, scenario, topic, &mut brokers)?;
    }
    Ok(brokers)
}

/// The brokers of a topic, after those of the topics before it.
fn add_nodes(
    alloc: Global,
    scenario: &Scenario,
    topic: u32,
    brokers: &mut Vec<Broker>,
) -> Result<(), Memory>
    requires topic { topic < length scenario.now.setup.topics }
    requires before { AreNew scenario.now.setup (topic * length scenario.now.setup.clusters) brokers.old.items }
    ensures { OnOk result (AreNew scenario.now.setup ((topic + 1) * length scenario.now.setup.clusters) brokers.new.items) }
{
    for cluster in 0..scenario.clusters().len() as u32 {
        brokers.push(new_node(alloc, scenario, topic, cluster)?)?;
    }
    Ok(())
}

/// The clients, none of which has done anything.
fn new_clients(alloc: Global, scenario: &Scenario) -> Result<Vec<Client>, Memory>
    ensures { IfOk result (λ ms. ms.items ≡ map new_client scenario.now.setup.clients) }
{
    let mut clients = Vec::new(alloc);
    for client in 0..scenario.clients().len() as u32 {
        clients.push(Client::new(alloc, &site_of(scenario, client))?)?;
    }
    Ok(clients)
}
