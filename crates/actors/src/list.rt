//! The roles of a scenario.
ghost use Rattle.std.specs.Prelude.{◌≡◌, ◌<◌, ◌++◌, length, IfOk, OnOk};
ghost use Rattle.actors.specs.Order.{client_roles, controller_role, dispatcher_role, dispatcher_roles, for_each, link_roles, roles_of, source_roles, topic_roles};

use crate::role::{Link, Role};
use crate::{client_count, cluster_count, sub_count, topic_count, topic_of};
use geo_base::Memory;
use script_text::Scenario;
use std::alloc::Global;

/// The roles of a scenario, in the order in which actors are numbered from 0. An `Err` is want of memory.
#[tactic(auto, using(crate::proofs::Counting::next, crate::proofs::Counting::none, std::proofs::lemmas::Grind::common_steps))]
pub fn roles(alloc: Global, scenario: &Scenario) -> Result<Vec<Role>, Memory>
    ensures { IfOk result (λ rs. rs.items ≡ roles_of scenario.now.setup) }
{
    let mut roles = Vec::new(alloc);
    for topic in 0..topic_count(scenario) {
        add_topic(scenario, topic, &mut roles)?;
    }
    Ok(roles)
}

/// Those of a topic.
#[tactic(auto, unfolding(crate::specs::Order::topic_roles))]
fn add_topic(scenario: &Scenario, topic: u32, roles: &mut Vec<Role>) -> Result<(), Memory>
    ensures { OnOk result (roles.new.items ≡ roles.old.items ++ topic_roles scenario.now.setup topic) }
{
    add_links(scenario, topic, roles)?;
    add_controllers(scenario, topic, roles)?;
    add_dispatchers(scenario, topic, roles)?;
    add_clients(scenario, topic, roles)
}

/// The replicators and receivers of a topic.
#[tactic(auto, using(crate::proofs::Counting::next, crate::proofs::Counting::none, std::proofs::lemmas::Grind::common_steps))]
fn add_links(scenario: &Scenario, topic: u32, roles: &mut Vec<Role>) -> Result<(), Memory>
    ensures { OnOk result (roles.new.items ≡ roles.old.items ++ for_each (length scenario.now.setup.clusters) (source_roles scenario.now.setup topic)) }
{
    for source in 0..cluster_count(scenario) {
        add_targets(scenario, topic, source, roles)?;
    }
    Ok(())
}

/// Those of the links from a cluster.
#[tactic(auto, using(crate::proofs::Counting::next, crate::proofs::Counting::none, std::proofs::lemmas::Grind::common_steps), unfolding(crate::specs::Order::source_roles))]
fn add_targets(
    scenario: &Scenario,
    topic: u32,
    source: u32,
    roles: &mut Vec<Role>,
) -> Result<(), Memory>
    ensures { OnOk result (roles.new.items ≡ roles.old.items ++ source_roles scenario.now.setup topic source) }
{
    for target in 0..cluster_count(scenario) {
        add_link(topic, source, target, roles)?;
    }
    Ok(())
}

/// Those of a link, which has two ends.
#[tactic(auto, unfolding(crate::specs::Order::link_roles))]
fn add_link(topic: u32, source: u32, target: u32, roles: &mut Vec<Role>) -> Result<(), Memory>
    ensures { OnOk result (roles.new.items ≡ roles.old.items ++ link_roles topic source target) }
{
    if source == target {
        return Ok(());
    }
    let link = Link {
        topic,
        source,
        target,
    };
    roles.push(Role::Replicator(link))?;
    roles.push(Role::Receiver(link))?;
    Ok(())
}

/// The controllers of a topic.
#[tactic(auto, using(crate::proofs::Counting::next, crate::proofs::Counting::none, std::proofs::lemmas::Grind::common_steps), unfolding(crate::specs::Order::controller_role))]
fn add_controllers(scenario: &Scenario, topic: u32, roles: &mut Vec<Role>) -> Result<(), Memory>
    ensures { OnOk result (roles.new.items ≡ roles.old.items ++ for_each (length scenario.now.setup.clusters) (controller_role topic)) }
{
    for cluster in 0..cluster_count(scenario) {
        roles.push(Role::Controller { topic, cluster })?;
    }
    Ok(())
}

/// The dispatchers of a topic.
#[tactic(auto, using(crate::proofs::Counting::next, crate::proofs::Counting::none, std::proofs::lemmas::Grind::common_steps))]
fn add_dispatchers(scenario: &Scenario, topic: u32, roles: &mut Vec<Role>) -> Result<(), Memory>
    ensures { OnOk result (roles.new.items ≡ roles.old.items ++ for_each (length scenario.now.setup.clusters) (dispatcher_roles scenario.now.setup topic)) }
{
    for cluster in 0..cluster_count(scenario) {
        add_subs(scenario, topic, cluster, roles)?;
    }
    Ok(())
}

/// Those of a cluster, one of each subscription.
#[tactic(auto, using(crate::proofs::Counting::next, crate::proofs::Counting::none, std::proofs::lemmas::Grind::common_steps), unfolding(crate::specs::Order::dispatcher_role, crate::specs::Order::dispatcher_roles))]
fn add_subs(
    scenario: &Scenario,
    topic: u32,
    cluster: u32,
    roles: &mut Vec<Role>,
) -> Result<(), Memory>
    ensures { OnOk result (roles.new.items ≡ roles.old.items ++ dispatcher_roles scenario.now.setup topic cluster) }
{
    for sub in 0..sub_count(scenario, topic) {
        roles.push(Role::Dispatcher {
            topic,
            cluster,
            sub,
        })?;
    }
    Ok(())
}

/// The clients of a topic with their servers.
#[tactic(auto, using(crate::proofs::Counting::next, crate::proofs::Counting::none, std::proofs::lemmas::Grind::common_steps))]
fn add_clients(scenario: &Scenario, topic: u32, roles: &mut Vec<Role>) -> Result<(), Memory>
    ensures { OnOk result (roles.new.items ≡ roles.old.items ++ for_each (length scenario.now.setup.clients) (client_roles scenario.now.setup topic)) }
{
    for client in 0..client_count(scenario) {
        add_client(scenario, topic, client, roles)?;
    }
    Ok(())
}

/// Those of a client, where it is one of the topic.
#[tactic(auto, unfolding(crate::specs::Order::client_roles))]
fn add_client(
    scenario: &Scenario,
    topic: u32,
    client: u32,
    roles: &mut Vec<Role>,
) -> Result<(), Memory>
    requires { client < length scenario.now.setup.clients }
    ensures { OnOk result (roles.new.items ≡ roles.old.items ++ client_roles scenario.now.setup topic client) }
{
    if topic_of(scenario, client) == topic {
        roles.push(Role::Client { client })?;
        roles.push(Role::Server { topic, client })?;
    }
    Ok(())
}
