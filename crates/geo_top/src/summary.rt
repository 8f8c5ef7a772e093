//! The summary of a generated run, line by line.
ghost use Rattle.std.specs.Prelude.{◌≡◌, ◌++◌, ◌∷◌, [], string_bytes, IfOk, OnErr, OnOk};
ghost use Rattle.geo_base.specs.Report.{with_line_feeds};
ghost use Rattle.run_report.specs.Shown.{shown_world};
ghost use Rattle.geo_top.specs.Summary.{big_line, stored_line, stored_lines, summary};
ghost use Rattle.world.specs.World.{IsAt};

use geo_base::{Blob, EntryStore, Memory};
use report_lines::add;
use run_report::add_head;
use script_text::Scenario;
use std::alloc::Global;
use topic_store::TopicLedger;
use world::World;

/// The one topic of a generated run.
const TOPIC: u32 = 0;

/// Appends the summary of the run of a number, which left a world; nothing where memory is wanting.
pub fn append_summary(
    alloc: Global,
    out: &mut Blob,
    number: u32,
    scenario: &Scenario,
    world: &World,
) -> Result<(), Memory>
    requires { IsAt scenario.now.setup world.now }
    ensures ok { OnOk result (out.new ≡ out.old ++ summary number scenario.now.setup (shown_world world.now)) }
    ensures err { OnErr result (out.new ≡ out.old) }
{
    let mut lines = Blob::new(alloc);
    add_summary(alloc, &mut lines, number, scenario, world)?;
    out.append(lines.as_slice())
}

/// Appends it after no other line.
#[tactic(auto, unfolding(crate::specs::Summary::summary_lines))]
fn add_summary(
    alloc: Global,
    lines: &mut Blob,
    number: u32,
    scenario: &Scenario,
    world: &World,
) -> Result<(), Memory>
    requires at { IsAt scenario.now.setup world.now }
    requires none { lines.old ≡ [] }
    ensures { OnOk result (lines.new ≡ summary number scenario.now.setup (shown_world world.now)) }
{
    add(lines, big_line(alloc, number)?)?;
    add_stored(alloc, lines, scenario, world)?;
    add(lines, String::from_str(alloc, "quiet\n")?)?;
    add_head(alloc, lines, world)?;
    Ok(())
}

/// The number, and what each generated run has.
fn big_line(alloc: Global, number: u32) -> Result<String, Memory>
    ensures { IfOk result (λ line. string_bytes line ≡ big_line number ++ 10 ∷ []) }
{
    Ok(format!(in alloc; "big {number} clusters 3 messages 2000\n")?)
}

/// The messages that each cluster stored.
fn add_stored(
    alloc: Global,
    lines: &mut Blob,
    scenario: &Scenario,
    world: &World,
) -> Result<(), Memory>
    requires { IsAt scenario.now.setup world.now }
    ensures { OnOk result (lines.new ≡ lines.old ++ with_line_feeds (stored_lines scenario.now.setup (shown_world world.now) 0 scenario.now.setup.clusters)) }
{
    let clusters = scenario.clusters();
    for (number, cluster) in clusters.iter().enumerate() {
        let broker = world.topic(scenario, TOPIC, number as u32);
        add(lines, stored_line(alloc, cluster.as_str(), broker.store())?)?;
    }
    Ok(())
}

/// The messages that a topic stored at a cluster.
fn stored_line(alloc: Global, name: &str, store: &TopicLedger) -> Result<String, Memory>
    ensures { IfOk result (λ line. string_bytes line ≡ stored_line name.now store.now.entries ++ 10 ∷ []) }
{
    let stored = store.messages_before(store.len());
    Ok(format!(in alloc; "stored {name} {stored}\n")?)
}
