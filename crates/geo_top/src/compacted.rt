//! The compacted views of a world, line by line.
//!
//! Each part appends its lines to those before it. Where a part wants memory, it is left open what it appended, since the whole
//! is given up then.
ghost use Rattle.std.specs.Prelude.{◌≡◌, ◌<◌, ◌++◌, [], length, slice_index_or, IfOk, OnOk};
ghost use Rattle.geo_base.specs.Report.{with_line_feeds};
ghost use Rattle.geo_top.specs.Compacted.{compacted, views_at, views_of};
ghost use Rattle.run_report.specs.Shown.{shown_world};
ghost use Rattle.world.specs.World.{IsAt};

use geo_base::{Blob, EntryStore, Memory};
use report_lines::{add, add_messages, horizon_line};
use script_text::Scenario;
use std::alloc::Global;
use world::World;

/// The compacted view of each topic at each cluster of a world. The horizon of a topic is the given one, or its length where that is
/// less. An `Err` is want of memory.
pub fn compacted_views(
    alloc: Global,
    scenario: &Scenario,
    world: &World,
    horizon: u64,
) -> Result<Blob, Memory>
    requires { IsAt scenario.now.setup world.now }
    ensures { IfOk result (λ bytes. bytes ≡ compacted horizon scenario.now.setup (shown_world world.now)) }
{
    let mut lines = Blob::new(alloc);
    add_views(alloc, &mut lines, scenario, world, horizon)?;
    Ok(lines)
}

/// The views of all topics.
fn add_views(
    alloc: Global,
    lines: &mut Blob,
    scenario: &Scenario,
    world: &World,
    horizon: u64,
) -> Result<(), Memory>
    requires { IsAt scenario.now.setup world.now }
    ensures { OnOk result (lines.new ≡ lines.old ++ with_line_feeds (views_of scenario.now.setup (shown_world world.now) horizon 0 scenario.now.setup.topics)) }
{
    for topic in 0..scenario.topics().len() {
        add_topic(alloc, lines, scenario, world, topic as u32, horizon)?;
    }
    Ok(())
}

/// The views of a topic at each cluster.
fn add_topic(
    alloc: Global,
    lines: &mut Blob,
    scenario: &Scenario,
    world: &World,
    topic: u32,
    horizon: u64,
) -> Result<(), Memory>
    requires at { IsAt scenario.now.setup world.now }
    requires topic { topic < length scenario.now.setup.topics }
    ensures { OnOk result (lines.new ≡ lines.old ++ with_line_feeds (views_at scenario.now.setup (shown_world world.now) horizon topic (slice_index_or scenario.now.setup.topics topic []) 0 scenario.now.setup.clusters)) }
{
    let name = scenario.topics()[topic as usize].as_str();
    let clusters = scenario.clusters();
    for (number, cluster) in clusters.iter().enumerate() {
        let store = world.topic(scenario, topic, number as u32).store();
        let kept = horizon.min(store.len() as u64);
        add(lines, horizon_line(alloc, name, cluster.as_str(), kept)?)?;
        add_messages(alloc, lines, clusters, store, horizon)?;
    }
    Ok(())
}
