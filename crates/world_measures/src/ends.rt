//! What is lost for good, if the cluster never comes back.
ghost use Rattle.std.specs.Prelude.{◌≡◌, ◌<◌, ◌≤◌, ◌++◌, ◌==◌, ◌&&◌, List, not, ℕ, [], IfOk, OnOk, codes, length, slice_index_or, string_bytes};
ghost use Rattle.std.specs.List.{list_any, range_with_len};
ghost use Rattle.geo_base.specs.declared.entry.Entry.{Entry};
ghost use Rattle.geo_base.specs.Entry.{goes_to};
ghost use Rattle.geo_base.specs.Report.{with_line_feeds};
ghost use Rattle.geo_base.specs.Setup.{Setup};
ghost use Rattle.geo_base.specs.World.{World as Machine, topic_at};
ghost use Rattle.loss_laws.specs.Lost.{is_own_message, stands};
ghost use Rattle.loss_laws.specs.LostLines.{end_lines, named_lines};
ghost use Rattle.world.specs.World.{IsAt};
ghost use Rattle.world_measures.specs.Ends.{end_label, ends_of, is_end, is_of};
ghost use Rattle.world_measures.specs.Named.{IsNamed};
ghost use Rattle.world_measures.specs.Places.{TellAll, Tells};
ghost use Rattle.world_measures.specs.Worlds.{HasBrokers};

use crate::gone::{Gone, Topic};
use crate::missing::is_message;
use crate::named::{Named, add_named};
use crate::tables::TopicTables;
use broker::Broker;
use geo_base::limits::CLUSTERS;
use geo_base::{Blob, Entry, EntryStore, Ident, Memory, Targets};
use script_text::Scenario;
use std::alloc::Global;
use world::World;

/// What is told of a cluster's messages if it never comes back.
#[derive(Clone, Copy, Drop)]
pub(crate) enum End {
    /// They are meant for others, and stand at none.
    Lost,
    /// They are meant for it alone.
    Alone,
    /// They stand at another one, and one that they are meant for lacks them.
    Differ,
}

/// Appends what is lost, what stood alone, and what differs for good.
pub(crate) fn add_ends(
    alloc: Global,
    lines: &mut Blob,
    scenario: &Scenario,
    world: &World,
    topic: Topic,
    tables: &TopicTables,
) -> Result<(), Memory>
    requires at { IsAt scenario.now.setup world.now }
    requires topic { topic.number < length scenario.now.setup.topics }
    requires cluster { topic.gone.cluster < length scenario.now.setup.clusters }
    requires few { length tables.now ≤ CLUSTERS }
    ensures { (w : Machine) → HasBrokers w world.now → TellAll scenario.now.setup w topic.number tables.now → OnOk result (lines.new ≡ lines.old
        ++ with_line_feeds (end_lines topic.gone.with_names scenario.now.setup w topic.number topic.gone.cluster)) }
{
    let broker = world.topic(scenario, topic.number, topic.gone.cluster);
    add_end(alloc, lines, topic.gone, broker, tables, End::Lost)?;
    add_end(alloc, lines, topic.gone, broker, tables, End::Alone)?;
    add_end(alloc, lines, topic.gone, broker, tables, End::Differ)
}

/// One of the three.
fn add_end(
    alloc: Global,
    lines: &mut Blob,
    gone: Gone,
    broker: &Broker,
    tables: &TopicTables,
    end: End,
) -> Result<(), Memory>
    requires { length tables.now ≤ CLUSTERS }
    ensures { (s : Setup) (w : Machine) (t : ℕ) → TellAll s w t tables.now → OnOk result (lines.new ≡ lines.old
        ++ with_line_feeds (named_lines gone.with_names broker.now.site.clusters (end_label end) (ends_of s w t gone.cluster end broker.now.broker.entries))) }
{
    let named = ends(alloc, gone, broker, tables, end)?;
    match label(alloc, end) {
        Ok(label) => add_named(lines, label, named),
        Err(memory) => {
            drop(named);
            Err(memory)
        }
    }
}

fn label(alloc: Global, end: End) -> Result<String, Memory>
    ensures { IfOk result (λ label. string_bytes label ≡ end_label end) }
{
    let word = match end {
        End::Lost => "lost",
        End::Alone => "alone",
        End::Differ => "differ",
    };
    Ok(String::from_str(alloc, word)?)
}

fn ends(
    alloc: Global,
    gone: Gone,
    broker: &Broker,
    tables: &TopicTables,
    end: End,
) -> Result<Named, Memory>
    requires { length tables.now ≤ CLUSTERS }
    ensures { IfOk result (λ named. (s : Setup) (w : Machine) (t : ℕ) → TellAll s w t tables.now
        → IsNamed gone.with_names broker.now.site.clusters (ends_of s w t gone.cluster end broker.now.broker.entries) named) }
{
    let mut named = Named::none(alloc, gone.with_names);
    let store = broker.store();
    for index in 0..store.len() {
        match store.get(index) {
            Some(entry) => {
                let is_end = is_end(alloc, gone.cluster, tables, end, entry)?;
                named.add_if(is_end, broker.site().clusters(), entry)?;
            }
            None => unreachable!(),
        }
    }
    Ok(named)
}

/// Whether an entry is one of them.
#[tactic(auto, using(crate::proofs::Ending::not_end))]
fn is_end(
    alloc: Global,
    source: u32,
    tables: &TopicTables,
    end: End,
    entry: &Entry,
) -> Result<bool, Memory>
    requires { length tables.now ≤ CLUSTERS }
    ensures { IfOk result (λ b. (s : Setup) (w : Machine) (t i : ℕ) → TellAll s w t tables.now → b ≡ is_end s w t source end i entry.now) }
{
    if !is_own_message(source, entry) {
        return Ok(false);
    }
    let is_for_others = is_for_others(source, tables.len() as u32, entry.to);
    let stands_elsewhere = stands_elsewhere(alloc, source, tables, &entry.ident)?;
    let is_lacked = is_lacked(alloc, source, tables, entry)?;
    Ok(is_of(end, is_for_others, stands_elsewhere, is_lacked))
}

/// Which of the three an own message is.
fn is_of(end: End, is_for_others: bool, stands_elsewhere: bool, is_lacked: bool) -> bool
    ensures { result ≡ is_of end is_for_others stands_elsewhere is_lacked }
{
    match end {
        End::Lost => is_for_others && !stands_elsewhere,
        End::Alone => !is_for_others,
        End::Differ => stands_elsewhere && is_lacked,
    }
}

fn is_own_message(source: u32, entry: &Entry) -> bool
    ensures { result ≡ is_own_message source entry.now }
{
    entry.ident.origin == source && is_message(entry)
}

/// Whether another cluster is in a list.
fn is_for_others(source: u32, clusters: u32, to: Targets) -> bool
    ensures { result ≡ list_any (λ y. not (source == y) && goes_to y to) (range_with_len 0 clusters) }
{
    for cluster in 0..clusters {
        if is_target(source, cluster, to) {
            return true;
        }
    }
    false
}

fn is_target(source: u32, cluster: u32, to: Targets) -> bool
    ensures { result ≡ (not (source == cluster) && goes_to cluster to) }
{
    source != cluster && to.contains(cluster)
}

/// Whether a message stands at another cluster.
fn stands_elsewhere(
    alloc: Global,
    source: u32,
    tables: &TopicTables,
    ident: &Ident,
) -> Result<bool, Memory>
    requires { length tables.now ≤ CLUSTERS }
    ensures { IfOk result (λ b. (s : Setup) (w : Machine) (t : ℕ) → TellAll s w t tables.now
        → b ≡ list_any (λ y. not (source == y) && stands (topic_at s w t y).entries ident.now) (range_with_len 0 (length tables.now))) }
{
    let clusters = tables.len() as u32;
    for cluster in 0..clusters {
        let stands = stands_at(alloc, source, tables, cluster, ident)?;
        if stands {
            return Ok(true);
        }
    }
    Ok(false)
}

/// Whether it stands at a cluster, which is another one.
fn stands_at(
    alloc: Global,
    source: u32,
    tables: &TopicTables,
    cluster: u32,
    ident: &Ident,
) -> Result<bool, Memory>
    requires { cluster < length tables.now }
    ensures { IfOk result (λ b. (es : List Entry) → Tells (slice_index_or tables.now cluster []) es → b ≡ (not (source == cluster) && stands es ident.now)) }
{
    if source == cluster {
        return Ok(false);
    }
    let table = tables.at(cluster);
    table.has(alloc, ident)
}

/// Whether another cluster that a message is meant for lacks it.
fn is_lacked(
    alloc: Global,
    source: u32,
    tables: &TopicTables,
    entry: &Entry,
) -> Result<bool, Memory>
    requires { length tables.now ≤ CLUSTERS }
    ensures { IfOk result (λ b. (s : Setup) (w : Machine) (t : ℕ) → TellAll s w t tables.now
        → b ≡ list_any (λ y. not (source == y) && (goes_to y entry.now.to && not (stands (topic_at s w t y).entries entry.now.ident))) (range_with_len 0 (length tables.now))) }
{
    let clusters = tables.len() as u32;
    for cluster in 0..clusters {
        let lacks = lacks_at(alloc, source, tables, cluster, entry)?;
        if lacks {
            return Ok(true);
        }
    }
    Ok(false)
}

/// Whether it is meant for a cluster, which is another one, and does not stand there.
fn lacks_at(
    alloc: Global,
    source: u32,
    tables: &TopicTables,
    cluster: u32,
    entry: &Entry,
) -> Result<bool, Memory>
    requires { cluster < length tables.now }
    ensures { IfOk result (λ b. (es : List Entry) → Tells (slice_index_or tables.now cluster []) es
        → b ≡ (not (source == cluster) && (goes_to cluster entry.now.to && not (stands es entry.now.ident)))) }
{
    if source == cluster || !entry.to.contains(cluster) {
        return Ok(false);
    }
    let table = tables.at(cluster);
    let stands = table.has(alloc, &entry.ident)?;
    Ok(!stands)
}
