//! A world that goes on from the state that a file held.
ghost use Rattle.std.specs.Prelude.{◌≡◌, ◌<◌, ◌≤◌, ◌*◌, ◌/◌, ◌%◌, true, false, [], length, map, IfOk, OnOk};
ghost use Rattle.client.specs.State.{stopped};
ghost use Rattle.geo_base.specs.Scripted.{IsScripted};
ghost use Rattle.geo_base.specs.Setup.{sub_names};
ghost use Rattle.geo_base.specs.World.{site};
ghost use Rattle.state_file.specs.Known.{IsKnownBehind, IsKnownState};
ghost use Rattle.state_file.specs.State.{state_of};
ghost use Rattle.state_items.specs.Fitting.{AllFit};
ghost use Rattle.state_nodes.specs.Known.{IsKnownNode};
ghost use Rattle.state_nodes.specs.Nodes.{broker_of};
ghost use Rattle.world.specs.Saving.{AreRevived, IsResumed, IsRevived};
ghost use Rattle.kept_laws.specs.Saved.{world_from};
ghost use Rattle.world.specs.World.{IsAt, kept_of};
ghost use Rattle.world_laws.specs.Starts.{most_at_start};
ghost use Rattle.kept_laws.specs.Reached.{Reached};
ghost use Rattle.kept_laws.specs.Standing.{Stands};

use crate::opening::Unused;
use crate::world::World;
use broker::Broker;
use broker_state::{Plan, Site};
use client::{Client, ClientState};
use geo_base::{Entry, Memory, SubName};
use node_starts::{new_site, sub_names};
use script_text::Scenario;
use state_file::Saved;
use state_nodes::{Counts, NodeParts};
use std::alloc::Global;

impl World {
    /// What the declarations of a loaded state say, and the world that goes on from it: its brokers have started again, its clients
    /// are not connected, no link was used, and each clock is at zero. An `Err` is want of memory; a topic of 2^32 entries counts as
    /// that.
    pub fn from_saved(alloc: Global, saved: Saved) -> Result<(Scenario, World), Memory>
        requires known { IsKnownState (state_of saved) }
        ensures scenario { IfOk result (λ x. x.0 ≡ saved.scenario) }
        ensures at { IfOk result (λ x. IsAt saved.scenario.setup x.1) }
        ensures reached { IfOk result (λ x. Reached saved.scenario.setup (world_from (state_of saved))) }
        ensures stands { IfOk result (λ x. Stands saved.scenario.setup (kept_of x.1) (world_from (state_of saved))) }
    {
        let Saved {
            scenario,
            counts,
            brokers,
            clients,
        } = saved;
        match resumed_world(alloc, &scenario, counts, brokers, clients) {
            Ok(world) => Ok((scenario, world)),
            Err(memory) => {
                // by a call, so that the end of a scenario is proved by itself
                drop(scenario);
                Err(memory)
            }
        }
    }
}

/// The world that goes on from such a state, by its parts.
fn resumed_world(
    alloc: Global,
    scenario: &Scenario,
    counts: Counts,
    parts: Vec<NodeParts>,
    states: Vec<ClientState>,
) -> Result<World, Memory>
    requires { IsKnownState (state_of (record { scenario = scenario.now; counts = counts; brokers = parts; clients = states })) }
    ensures resumed { IfOk result (IsResumed (state_of (record { scenario = scenario.now; counts = counts; brokers = parts; clients = states }))) }
    ensures known { OnOk result (IsScripted scenario.now.setup) }
{
    let brokers = revived_nodes(alloc, scenario, parts)?;
    let clients = resumed_clients(alloc, states)?;
    let unused = Unused::of(alloc, scenario)?;
    Ok(World {
        brokers,
        clients,
        links: unused.links,
        broker_clocks: unused.broker_clocks,
        client_clocks: unused.client_clocks,
        counts,
        plan: None,
    })
}

/// The brokers of all topics, by topic and then by cluster, from what is durable of each.
fn revived_nodes(
    alloc: Global,
    scenario: &Scenario,
    parts: Vec<NodeParts>,
) -> Result<Vec<Broker>, Memory>
    requires known { AllFit (IsKnownBehind scenario.now.setup) [] (map broker_of parts.items) }
    requires count { length parts.items ≡ length scenario.now.setup.topics * length scenario.now.setup.clusters }
    ensures { IfOk result (λ vs. AreRevived scenario.now.setup (map broker_of parts.items) vs.items) }
{
    let mut brokers = Vec::new(alloc);
    for part in parts {
        let number = brokers.len();
        brokers.push(revived_node(alloc, scenario, number, part)?)?;
    }
    Ok(brokers)
}

/// The broker of a number from what is durable of it.
fn revived_node(
    alloc: Global,
    scenario: &Scenario,
    number: usize,
    part: NodeParts,
) -> Result<Broker, Memory>
    requires number { number < length scenario.now.setup.topics * length scenario.now.setup.clusters }
    requires known { IsKnownNode scenario.now.setup.per_ledger scenario.now.setup.clusters (number % length scenario.now.setup.clusters) (broker_of part) }
    ensures { IfOk result (λ v. IsRevived scenario.now.setup number (broker_of part) v) }
{
    if !are_few(part.entries.as_slice()) {
        // by a call, so that the end of what is durable is proved by itself
        drop(part);
        return Err(Memory);
    }
    let clusters = scenario.clusters().len();
    let topic = (number / clusters) as u32;
    let cluster = (number % clusters) as u32;
    let durable = part.into_durable(alloc, cluster, scenario.per_ledger())?;
    match known_there(alloc, scenario, topic, cluster) {
        Ok((site, names)) => {
            Broker::from_durable(alloc, topic, site, names, durable, scenario.clients().len())
        }
        Err(memory) => {
            drop(durable);
            Err(memory)
        }
    }
}

/// What a broker knows of the setup, and the names of its topic's subscriptions.
fn known_there(
    alloc: Global,
    scenario: &Scenario,
    topic: u32,
    cluster: u32,
) -> Result<(Site, Vec<SubName>), Memory>
    requires topic { topic < length scenario.now.setup.topics }
    requires cluster { cluster < length scenario.now.setup.clusters }
    ensures site { IfOk result (λ x. x.0 ≡ site scenario.now.setup topic cluster) }
    ensures names { IfOk result (λ x. x.1.items ≡ sub_names scenario.now.setup topic) }
{
    let site = new_site(alloc, scenario, topic, cluster)?;
    let names = sub_names(alloc, scenario, topic)?;
    Ok((site, names))
}

/// Whether a topic's entries are fewer than 2^32, so that its counts have room to grow.
fn are_few(entries: &[Entry]) -> bool
    ensures few { result ≡ true → length entries.now < most_at_start }
    ensures many { result ≡ false → most_at_start ≤ length entries.now }
{
    entries.len() <= u32::MAX as usize
}

/// Clients from what a stop left of them.
fn resumed_clients(alloc: Global, states: Vec<ClientState>) -> Result<Vec<Client>, Memory>
    ensures { IfOk result (λ ks. ks.items ≡ map stopped states.items) }
{
    let mut clients = Vec::new(alloc);
    for state in states {
        clients.push(Client::from_state(alloc, state)?)?;
    }
    Ok(clients)
}
