//! All measures of a world.
ghost use Rattle.std.specs.Prelude.{◌≡◌, ◌<◌, ◌≤◌, ◌++◌, ◌∷◌, ◌==◌, [], if◌then◌else◌, length, slice_index_or, IfOk, OnOk, string_bytes, codes};
ghost use Rattle.geo_base.specs.Report.{with_line_feeds, words};
ghost use Rattle.geo_base.specs.World.{World as Machine};
ghost use Rattle.loss_laws.specs.LostLines.{lines_at, lines_of_each, lost_head, lost_text, other_lines, own_lines, topic_lines};
ghost use Rattle.world.specs.World.{IsAt};
ghost use Rattle.world_measures.specs.Places.{TellAll, Tells};
ghost use Rattle.world_measures.specs.Worlds.{HasBrokers};

use crate::ends::add_ends;
use crate::gone::{Gone, Topic};
use crate::missing::add_missing_at;
use crate::named::add_number_line;
use crate::subs::{add_subs_at, add_untold};
use crate::tables::TopicTables;
use crate::told::is_asked;
use broker::Broker;
use geo_base::limits::CLUSTERS;
use geo_base::{Blob, Memory};
use report_lines::add;
use script_text::Scenario;
use std::alloc::Global;
use world::World;

/// Appends what is lost, what comes again and what was never told, if a cluster goes now: of each topic, in the script's order. An `Err` is
/// want of memory; what stood before then stands, with a part of these lines or none.
pub fn add_lost_lines(
    alloc: Global,
    lines: &mut Blob,
    scenario: &Scenario,
    world: &World,
    gone: Gone,
) -> Result<(), Memory>
    requires at { IsAt scenario.now.setup world.now }
    requires cluster { gone.cluster < length scenario.now.setup.clusters }
    ensures { (w : Machine) → HasBrokers w world.now
        → OnOk result (lines.new ≡ lines.old ++ lost_text gone.with_names scenario.now.setup w gone.cluster) }
{
    for number in 0..scenario.topics().len() {
        let topic = Topic {
            number: number as u32,
            gone,
        };
        add_topic(alloc, lines, scenario, world, topic)?;
    }
    Ok(())
}

/// Those of a topic.
fn add_topic(
    alloc: Global,
    lines: &mut Blob,
    scenario: &Scenario,
    world: &World,
    topic: Topic,
) -> Result<(), Memory>
    requires at { IsAt scenario.now.setup world.now }
    requires topic { topic.number < length scenario.now.setup.topics }
    requires cluster { topic.gone.cluster < length scenario.now.setup.clusters }
    ensures { (w : Machine) → HasBrokers w world.now → OnOk result (lines.new ≡ lines.old
        ++ with_line_feeds (topic_lines topic.gone.with_names scenario.now.setup w topic.gone.cluster topic.number (slice_index_or scenario.now.setup.topics topic.number []))) }
{
    let tables = TopicTables::of(alloc, scenario, world, topic.number)?;
    let added = add_parts(alloc, lines, scenario, world, topic, &tables);
    drop(tables);
    added
}

/// Those of a topic, with the tables of where its entries stand.
fn add_parts(
    alloc: Global,
    lines: &mut Blob,
    scenario: &Scenario,
    world: &World,
    topic: Topic,
    tables: &TopicTables,
) -> Result<(), Memory>
    requires at { IsAt scenario.now.setup world.now }
    requires topic { topic.number < length scenario.now.setup.topics }
    requires cluster { topic.gone.cluster < length scenario.now.setup.clusters }
    requires many { length tables.now ≡ length scenario.now.setup.clusters }
    requires few { length tables.now ≤ CLUSTERS }
    ensures { (w : Machine) → HasBrokers w world.now → TellAll scenario.now.setup w topic.number tables.now → OnOk result (lines.new ≡ lines.old
        ++ with_line_feeds (topic_lines topic.gone.with_names scenario.now.setup w topic.gone.cluster topic.number (slice_index_or scenario.now.setup.topics topic.number []))) }
{
    add_head(alloc, lines, scenario, topic)?;
    let broker = world.topic(scenario, topic.number, topic.gone.cluster);
    add_own(alloc, lines, topic.gone.cluster, broker)?;
    add_others(alloc, lines, scenario, world, topic, tables)?;
    add_ends(alloc, lines, scenario, world, topic, tables)
}

/// Which cluster goes, and of which topic the lines are.
fn add_head(
    alloc: Global,
    lines: &mut Blob,
    scenario: &Scenario,
    topic: Topic,
) -> Result<(), Memory>
    requires topic { topic.number < length scenario.now.setup.topics }
    requires cluster { topic.gone.cluster < length scenario.now.setup.clusters }
    ensures { OnOk result (lines.new ≡ lines.old ++ (lost_head scenario.now.setup topic.gone.cluster (slice_index_or scenario.now.setup.topics topic.number []) ++ 10 ∷ [])) }
{
    let cluster = scenario.clusters()[topic.gone.cluster as usize].as_str();
    let name = scenario.topics()[topic.number as usize].as_str();
    add(lines, head_line(alloc, cluster, name)?)
}

fn head_line(alloc: Global, cluster: &str, topic: &str) -> Result<String, Memory>
    ensures { IfOk result (λ line. string_bytes line ≡ words (codes "lost" ∷ cluster.now ∷ codes "topic" ∷ topic.now ∷ []) ++ 10 ∷ []) }
{
    Ok(format!(in alloc; "lost {cluster} topic {topic}\n")?)
}

/// What the topic shows at the cluster that goes, and whether its broker makes a snapshot.
fn add_own(alloc: Global, lines: &mut Blob, source: u32, broker: &Broker) -> Result<(), Memory>
    ensures { OnOk result (lines.new ≡ lines.old ++ with_line_feeds (own_lines source broker.now.broker)) }
{
    let asked = String::from_str(alloc, "asked")?;
    add_number_line(lines, asked, u64::from(is_asked(source, broker.store())))?;
    let making = String::from_str(alloc, "making")?;
    add_number_line(lines, making, u64::from(broker.is_making()))?;
    add_untold(alloc, lines, source, broker)
}

/// What is missing and what would come again at each other cluster.
fn add_others(
    alloc: Global,
    lines: &mut Blob,
    scenario: &Scenario,
    world: &World,
    topic: Topic,
    tables: &TopicTables,
) -> Result<(), Memory>
    requires at { IsAt scenario.now.setup world.now }
    requires topic { topic.number < length scenario.now.setup.topics }
    requires cluster { topic.gone.cluster < length scenario.now.setup.clusters }
    requires many { length tables.now ≡ length scenario.now.setup.clusters }
    ensures { (w : Machine) → HasBrokers w world.now → TellAll scenario.now.setup w topic.number tables.now → OnOk result (lines.new ≡ lines.old
        ++ with_line_feeds (lines_of_each (other_lines topic.gone.with_names scenario.now.setup w topic.number topic.gone.cluster) 0 scenario.now.setup.clusters)) }
{
    let broker = world.topic(scenario, topic.number, topic.gone.cluster);
    for number in 0..scenario.clusters().len() {
        let there = world.topic(scenario, topic.number, number as u32);
        add_at(alloc, lines, topic.gone, broker, there, tables)?;
    }
    Ok(())
}

/// Those at a cluster, unless it is the one that goes.
#[tactic(auto, using(crate::proofs::Brokers::none_of_own))]
fn add_at(
    alloc: Global,
    lines: &mut Blob,
    gone: Gone,
    broker: &Broker,
    there: &Broker,
    tables: &TopicTables,
) -> Result<(), Memory>
    requires here { gone.cluster < length tables.now }
    requires own { there.now.site.own < length there.now.site.clusters }
    requires many { length tables.now ≡ length there.now.site.clusters }
    ensures { Tells (slice_index_or tables.now gone.cluster []) broker.now.broker.entries → Tells (slice_index_or tables.now there.now.site.own []) there.now.broker.entries
        → OnOk result (lines.new ≡ lines.old ++ with_line_feeds (if gone.cluster == there.now.site.own then [] else lines_at gone.with_names there.now.site.clusters gone.cluster
        there.now.site.own broker.now.broker there.now.broker (slice_index_or there.now.site.clusters there.now.site.own []))) }
{
    if gone.cluster == there.cluster() {
        return Ok(());
    }
    let table = tables.at(there.cluster());
    add_missing_at(alloc, lines, gone, broker, there, table)?;
    let own = tables.at(gone.cluster);
    add_subs_at(alloc, lines, gone, broker, there, own)
}
