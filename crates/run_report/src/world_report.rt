//! The report of a world, line by line.
//!
//! Each part appends its lines to those before it. Where a part wants memory, it is left open what it appended, since the whole is
//! given up then.
ghost use Rattle.std.specs.Prelude.{◌≡◌, ◌<◌, ◌++◌, ◌∷◌, [], length, IfOk, OnOk, OnErr};
ghost use Rattle.geo_base.specs.Report.{client_lines, cluster_lines, head_line, report, topic_lines, with_line_feeds};
ghost use Rattle.run_report.specs.Shown.{shown_world};
ghost use Rattle.world.specs.World.{IsAt};

use geo_base::{Blob, Memory};
use report_lines::{add, add_broker, add_client, head_line, place_line};
use script_text::Scenario;
use std::alloc::Global;
use world::World;

/// The report of a world. An `Err` is want of memory.
#[tactic(auto, unfolding(geo_base::specs::Report::report_lines))]
pub fn report(alloc: Global, scenario: &Scenario, world: &World) -> Result<Blob, Memory>
    requires { IsAt scenario.now.setup world.now }
    ensures { IfOk result (λ bytes. bytes ≡ report scenario.now.setup (shown_world world.now)) }
{
    let mut lines = Blob::new(alloc);
    add_head(alloc, &mut lines, world)?;
    add_topics(alloc, &mut lines, scenario, world)?;
    Ok(lines)
}

/// The counts of a run; unchanged where memory is wanting.
pub fn add_head(alloc: Global, lines: &mut Blob, world: &World) -> Result<(), Memory>
    ensures ok { OnOk result (lines.new ≡ lines.old ++ (head_line (shown_world world.now) ++ 10 ∷ [])) }
    ensures err { OnErr result (lines.new ≡ lines.old) }
{
    let counts = world.counts();
    let line = head_line(alloc, counts.events, counts.idle, counts.rounds)?;
    add(lines, line)
}

/// The topics.
fn add_topics(
    alloc: Global,
    lines: &mut Blob,
    scenario: &Scenario,
    world: &World,
) -> Result<(), Memory>
    requires { IsAt scenario.now.setup world.now }
    ensures { OnOk result (lines.new ≡ lines.old ++ with_line_feeds (topic_lines scenario.now.setup (shown_world world.now) 0 scenario.now.setup.topics)) }
{
    let topics = scenario.topics();
    for (number, topic) in topics.iter().enumerate() {
        add_places(alloc, lines, scenario, world, number as u32, topic.as_str())?;
        add_clients(alloc, lines, scenario, world, number)?;
    }
    Ok(())
}

/// A topic at each cluster.
fn add_places(
    alloc: Global,
    lines: &mut Blob,
    scenario: &Scenario,
    world: &World,
    topic: u32,
    name: &str,
) -> Result<(), Memory>
    requires at { IsAt scenario.now.setup world.now }
    requires topic { topic < length scenario.now.setup.topics }
    ensures { OnOk result (lines.new ≡ lines.old ++ with_line_feeds (cluster_lines scenario.now.setup (shown_world world.now) topic name.now 0 scenario.now.setup.clusters)) }
{
    let clusters = scenario.clusters();
    for (number, cluster) in clusters.iter().enumerate() {
        add(lines, place_line(alloc, name, cluster.as_str())?)?;
        add_broker(alloc, lines, world.topic(scenario, topic, number as u32))?;
    }
    Ok(())
}

/// The clients of a topic.
fn add_clients(
    alloc: Global,
    lines: &mut Blob,
    scenario: &Scenario,
    world: &World,
    topic: usize,
) -> Result<(), Memory>
    requires { IsAt scenario.now.setup world.now }
    ensures { OnOk result (lines.new ≡ lines.old ++ with_line_feeds (client_lines scenario.now.setup (shown_world world.now) topic 0 scenario.now.setup.clients)) }
{
    let clients = scenario.clients();
    for (number, declared) in clients.iter().enumerate() {
        let client = world.client(number as u32);
        add_client(alloc, lines, scenario, declared, client, topic)?;
    }
    Ok(())
}
