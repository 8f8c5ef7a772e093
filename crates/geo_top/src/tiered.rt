//! The topics of a world whose closed ledgers move to tiers in memory, line by line.
//!
//! Each part appends its lines to those before it. Where a part wants memory, it is left open what it appended, since the whole
//! is given up then.
ghost use Rattle.std.specs.Prelude.{◌≡◌, ◌<◌, ◌≤◌, ◌++◌, ◌∷◌, [], length, slice_index_or, IfOk, OnOk};
ghost use Rattle.geo_base.specs.Report.{entry_lines, with_line_feeds};
ghost use Rattle.run_report.specs.Shown.{shown_world};
ghost use Rattle.geo_top.specs.Tiered.{AreTopicsTellable, tiered, tiers_at, tiers_of};
ghost use Rattle.report_lines.specs.Tiers.{moved_line};
ghost use Rattle.tiered_storage.specs.Kept.{kept_in};
ghost use Rattle.tiered_storage.specs.Calls.{offloaded};
ghost use Rattle.tiered_storage.specs.Tiered.{Holds};
ghost use Rattle.world.specs.World.{IsAt};

use geo_base::limits::CLUSTERS;
use geo_base::{Blob, ClusterName, Memory};
use report_lines::{TieredTopic, add, add_read_entries, moved_line, moved_to_tier};
use script_text::Scenario;
use std::alloc::Global;
use topic_store::TopicLedger;
use world::World;

/// Of each topic at each cluster of a world, how many of its closed ledgers moved to a tier of its own (all but the last `keep`) and
/// its entries, each read from where it stands then. An `Err` is want of memory.
pub fn tiered_topics(
    alloc: Global,
    scenario: &Scenario,
    world: &World,
    keep: u64,
) -> Result<Blob, Memory>
    requires at { IsAt scenario.now.setup world.now }
    requires tellable { AreTopicsTellable scenario.now.setup (shown_world world.now) }
    ensures { IfOk result (λ bytes. bytes ≡ tiered keep scenario.now.setup (shown_world world.now)) }
{
    let mut lines = Blob::new(alloc);
    add_topics(alloc, &mut lines, scenario, world, keep)?;
    Ok(lines)
}

/// All topics.
fn add_topics(
    alloc: Global,
    lines: &mut Blob,
    scenario: &Scenario,
    world: &World,
    keep: u64,
) -> Result<(), Memory>
    requires at { IsAt scenario.now.setup world.now }
    requires tellable { AreTopicsTellable scenario.now.setup (shown_world world.now) }
    ensures { OnOk result (lines.new ≡ lines.old ++ with_line_feeds (tiers_of scenario.now.setup (shown_world world.now) keep 0 scenario.now.setup.topics)) }
{
    for topic in 0..scenario.topics().len() {
        add_topic(alloc, lines, scenario, world, topic as u32, keep)?;
    }
    Ok(())
}

/// A topic at each cluster.
fn add_topic(
    alloc: Global,
    lines: &mut Blob,
    scenario: &Scenario,
    world: &World,
    topic: u32,
    keep: u64,
) -> Result<(), Memory>
    requires at { IsAt scenario.now.setup world.now }
    requires tellable { AreTopicsTellable scenario.now.setup (shown_world world.now) }
    requires topic { topic < length scenario.now.setup.topics }
    ensures { OnOk result (lines.new ≡ lines.old ++ with_line_feeds (tiers_at scenario.now.setup (shown_world world.now) keep topic (slice_index_or scenario.now.setup.topics topic []) 0 scenario.now.setup.clusters)) }
{
    let name = scenario.topics()[topic as usize].as_str();
    let clusters = scenario.clusters();
    for (number, cluster) in clusters.iter().enumerate() {
        let store = world.topic(scenario, topic, number as u32).store();
        let mut moved = moved_to_tier(alloc, clusters, number as u32, store, keep)?;
        let added = add_moved(
            alloc,
            lines,
            clusters,
            name,
            cluster.as_str(),
            store,
            &mut moved,
        );
        drop(moved);
        added?;
    }
    Ok(())
}

/// A topic at a cluster, each by its name, of which ledgers moved.
fn add_moved(
    alloc: Global,
    lines: &mut Blob,
    clusters: &[ClusterName],
    name: &str,
    cluster: &str,
    store: &TopicLedger,
    moved: &mut TieredTopic,
) -> Result<(), Memory>
    requires few { length clusters.now ≤ CLUSTERS }
    requires holds { Holds clusters.now kept_in store.now.entries moved.old }
    ensures { OnOk result (lines.new ≡ (lines.old ++ (moved_line name.now cluster.now (offloaded moved.old) ++ 10 ∷ []))
        ++ with_line_feeds (entry_lines clusters.now store.now.ledgers 0 store.now.entries)) }
{
    let line = moved_line(alloc, name, cluster, moved.offloaded())?;
    add(lines, line)?;
    add_read_entries(alloc, lines, clusters, store, moved)
}
