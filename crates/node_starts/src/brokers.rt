//! How a broker begins.
ghost use Rattle.std.specs.Prelude.{◌≡◌, ◌<◌, length, IfOk};
ghost use Rattle.broker.specs.Events.{IsNodeOf};
ghost use Rattle.geo_base.specs.Broker.{new_broker};
ghost use Rattle.geo_base.specs.Setup.{sub_names};
ghost use Rattle.geo_base.specs.World.{site};

use broker::Broker;
use broker_state::Site;
use geo_base::limits::SUBSCRIPTIONS;
use geo_base::{ClusterName, Memory, Name, SubName};
use script_text::Scenario;
use std::alloc::Global;

/// The broker of a topic at a cluster before any event: an empty topic, and no session. An `Err` is want of memory.
pub fn new_node(
    alloc: Global,
    scenario: &Scenario,
    topic: u32,
    cluster: u32,
) -> Result<Broker, Memory>
    requires topic { topic < length scenario.now.setup.topics }
    requires cluster { cluster < length scenario.now.setup.clusters }
    ensures node { IfOk result (IsNodeOf scenario.now.setup topic cluster) }
    ensures broker { IfOk result (λ v. v.broker ≡ new_broker (length scenario.now.setup.clusters) (length scenario.now.setup.clients)) }
{
    let site = new_site(alloc, scenario, topic, cluster)?;
    let names = sub_names(alloc, scenario, topic)?;
    Broker::new(alloc, topic, site, names, scenario.clients().len())
}

/// What the broker of a topic at a cluster knows of the setup. An `Err` is want of memory.
pub fn new_site(
    alloc: Global,
    scenario: &Scenario,
    topic: u32,
    cluster: u32,
) -> Result<Site, Memory>
    requires topic { topic < length scenario.now.setup.topics }
    requires cluster { cluster < length scenario.now.setup.clusters }
    ensures { IfOk result (λ h. h ≡ site scenario.now.setup topic cluster) }
{
    let clusters = cluster_names(alloc, scenario.clusters())?;
    let topic = copied(alloc, &scenario.topics()[topic as usize])?;
    Ok(Site::new(cluster, clusters, topic, scenario.per_ledger()))
}

/// The clusters' names once more.
fn cluster_names(alloc: Global, names: &[ClusterName]) -> Result<Vec<ClusterName>, Memory>
    ensures { IfOk result (λ copies. copies.items ≡ names.now) }
{
    let mut copies = Vec::new(alloc);
    for name in names {
        copies.push(copied(alloc, name)?)?;
    }
    Ok(copies)
}

/// The names of a topic's subscriptions, by their numbers in events. An `Err` is want of memory.
pub fn sub_names(alloc: Global, scenario: &Scenario, topic: u32) -> Result<Vec<SubName>, Memory>
    ensures { IfOk result (λ names. names.items ≡ sub_names scenario.now.setup topic) }
{
    let _known = scenario.topics();
    let mut names = Vec::new(alloc);
    for sub in 0..SUBSCRIPTIONS as u32 {
        if let Some(name) = scenario.sub_name(topic, sub) {
            names.push(copied(alloc, name)?)?;
        }
    }
    Ok(names)
}

/// A name with the same text.
fn copied<K>(alloc: Global, name: &Name<K>) -> Result<Name<K>, Memory>
    ensures { IfOk result (λ copy. copy ≡ name.now) }
{
    Name::read(alloc, name.as_str()).map_err(|_| Memory)
}
