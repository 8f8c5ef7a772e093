//! The compacted view of a topic at a cluster, line by line: up to which entry it is compacted, and the messages that are left, as
//! a report shows them.
//!
//! A view is what a reader gets of a compacted topic: of each key the last message (Pulsar manual, topic compaction).

ghost use Rattle.std.specs.Prelude.{◌≡◌, ◌<◌, ◌≤◌, ◌^◌, ◌++◌, ◌∷◌, [], length, string_bytes, IfOk, OnOk, OnErr, take};
ghost use Rattle.topic_compaction.specs.Last.{IsCompacted};
ghost use Rattle.geo_base.specs.Report.{with_line_feeds};
ghost use Rattle.report_lines.specs.Views.{horizon_line, shown_lines, view_messages};

use crate::add_entry;
use geo_base::limits::CLUSTERS;
use geo_base::{Blob, ClusterName, EntryStore, Memory};
use std::alloc::Global;
use topic_compaction::{CompactFault, Compacted};

/// A topic at a cluster, each by its name, and the horizon: the index below which its entries are compacted. An `Err` is want of memory.
pub fn horizon_line(
    alloc: Global,
    topic: &str,
    cluster: &str,
    horizon: u64,
) -> Result<String, Memory>
    ensures { IfOk result (λ line. string_bytes line ≡ horizon_line topic.now cluster.now horizon ++ 10 ∷ []) }
{
    Ok(format!(in alloc; "compacted {topic} at {cluster} horizon {horizon}\n")?)
}

/// Appends the messages of a topic's view at a horizon, in order, each at its position; the topic's length stands for a horizon that
/// is greater. An `Err` is want of memory.
pub fn add_messages<S: EntryStore>(
    alloc: Global,
    lines: &mut Blob,
    clusters: &[ClusterName],
    store: &S,
    horizon: u64,
) -> Result<(), Memory>
    requires { length clusters.now ≤ CLUSTERS }
    ensures ok { OnOk result (lines.new ≡ lines.old ++ with_line_feeds (view_messages clusters.now horizon (S.ledgers store.now) (S.entries store.now))) }
    ensures err { OnErr result (take (length lines.old) lines.new ≡ lines.old) }
{
    let compacted = compacted_to(alloc, store, horizon.min(store.len() as u64))?;
    let added = add_view(lines, clusters, store, &compacted);
    drop(compacted);
    added
}

/// Appends the messages of a view of a topic.
fn add_view<S: EntryStore>(
    lines: &mut Blob,
    clusters: &[ClusterName],
    store: &S,
    compacted: &Compacted,
) -> Result<(), Memory>
    requires few { length clusters.now ≤ CLUSTERS }
    requires of { IsCompacted (S.entries store.now) compacted.now }
    requires indexes { length (S.entries store.now) < 2 ^ 64 }
    ensures ok { OnOk result (lines.new ≡ lines.old ++ with_line_feeds
        (shown_lines clusters.now (S.ledgers store.now) compacted.now.horizon (S.entries store.now) 0 (S.entries store.now))) }
    ensures err { OnErr result (take (length lines.old) lines.new ≡ lines.old) }
{
    let mut from = 0;
    while let Some(index) = compacted.next(store, from) {
        add_entry(lines, clusters, store, index as usize)?;
        from = index + 1;
    }
    Ok(())
}

/// The view at a horizon that is at most the store's length, so that it can only be memory that is wanting.
fn compacted_to<S: EntryStore>(alloc: Global, store: &S, horizon: u64) -> Result<Compacted, Memory>
    requires { horizon ≤ length (S.entries store.now) }
    ensures of { IfOk result (IsCompacted (S.entries store.now)) }
    ensures at { IfOk result (λ c. c.horizon ≡ horizon) }
{
    match Compacted::build(alloc, store, horizon) {
        Ok(compacted) => Ok(compacted),
        Err(CompactFault::Memory) => Err(Memory),
        Err(CompactFault::PastEnd { .. } | CompactFault::Backward { .. }) => unreachable!(),
    }
}
