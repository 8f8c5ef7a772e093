//! The lines of a topic at a cluster whose closed ledgers move to a tier in memory: how many moved, and the entries, each read back,
//! as a report shows them (Pulsar manual, tiered storage).
//!
//! A reader gets what was stored, wherever it stands; so the entries' lines are those of a report.

ghost use Rattle.std.specs.Prelude.{◌≡◌, ◌≤◌, ◌<◌, ◌++◌, ◌∷◌, [], Some, List, length, slice_get, slice_set, string_bytes, IfOk, OnOk, OnErr, take};
ghost use Rattle.std.specs.List.{sum};
ghost use Rattle.geo_base.specs.declared.entry.Entry.{Entry};
ghost use Rattle.geo_base.specs.Report.{entry_line, entry_lines, with_line_feeds};
ghost use Rattle.geo_base.specs.Topic.{position_at};
ghost use Rattle.tiered_storage.specs.Readable.{AreTellable};
ghost use Rattle.report_lines.specs.Tiers.{first_away, moved_ledgers, moved_line};
ghost use Rattle.tiered_storage.specs.Kept.{kept_in};
ghost use Rattle.tiered_storage.specs.Calls.{offloaded};
ghost use Rattle.tiered_storage.specs.Tiered.{Holds, all_here};
ghost use Rattle.tiered_storage.specs.declared.part.Part.TheVariants as part;

use crate::add_entry_line;
use geo_base::limits::CLUSTERS;
use geo_base::{Blob, ClusterName, EntryStore, Memory};
use std::alloc::Global;
use tiered_storage::{MemTier, OffloadFault, Tier, TieredLedger};

/// A topic at a cluster, of which closed ledgers may stand in a tier in memory of its own.
pub type TieredTopic = TieredLedger<MemTier>;

/// A topic at a cluster, each by its name, and how many of its ledgers moved. An `Err` is want of memory.
pub fn moved_line(alloc: Global, topic: &str, cluster: &str, moved: u64) -> Result<String, Memory>
    ensures { IfOk result (λ line. string_bytes line ≡ moved_line topic.now cluster.now moved ++ 10 ∷ []) }
{
    Ok(format!(in alloc; "tiered {topic} at {cluster} offloaded {moved}\n")?)
}

/// The entries of a store at the cluster `own`, of which each closed ledger moved to a tier but the last `keep`. An `Err` is want of
/// memory: the tier has no other faults. Those that moved are the first ones, and the others stand here.
pub fn moved_to_tier<S: EntryStore>(
    alloc: Global,
    clusters: &[ClusterName],
    own: u32,
    store: &S,
    keep: u64,
) -> Result<TieredTopic, Memory>
    requires { AreTellable clusters.now own (S.entries store.now) }
    ensures holds { IfOk result (Holds clusters.now kept_in (S.entries store.now)) }
    ensures moved { IfOk result (λ t. offloaded t ≡ moved_ledgers (S.per_ledger store.now) keep (S.ledgers store.now)) }
    ensures parts { IfOk result (λ t. t.parts ≡ first_away (moved_ledgers (S.per_ledger store.now) keep (S.ledgers store.now)) (all_here (S.ledgers store.now) (S.entries store.now))) }
{
    moved(alloc, clusters, own, store, keep)
}

/// What [`moved_to_tier`] does, with the entries named in its contract: each ledger moves by a call that knows no store, and that says
/// of which entries the topic is the list.
fn moved<S: EntryStore>(
    alloc: Global,
    clusters: &[ClusterName],
    own: u32,
    store: &S,
    keep: u64,
) -> Result<TieredTopic, Memory>
    ghost entries: { List Entry }
    requires tellable { AreTellable clusters.now own entries }
    requires store { S.entries store.now ≡ entries }
    ensures holds { IfOk result (Holds clusters.now kept_in entries) }
    ensures moved { IfOk result (λ t. offloaded t ≡ moved_ledgers (S.per_ledger store.now) keep (S.ledgers store.now)) }
    ensures parts { IfOk result (λ t. t.parts ≡ first_away (moved_ledgers (S.per_ledger store.now) keep (S.ledgers store.now)) (all_here (S.ledgers store.now) entries)) }
{
    let mut topic = TieredLedger::new(alloc, own, store, MemTier::new(alloc, &[])?)?;
    let closed = store.next().ledger;
    for ledger in 0..closed.saturating_sub(keep) {
        move_ledger(alloc, clusters, &mut topic, ledger)?;
    }
    Ok(topic)
}

/// Moves a closed ledger to the tier. An `Err` is want of memory, or that the tier failed, which one in memory does for want of it alone.
#[tactic(auto, using(crate::proofs::Moving::never_unknown, crate::proofs::Moving::never_open, crate::proofs::Moving::parts_moved, crate::proofs::Moving::unclosed_still))]
fn move_ledger<T: Tier + Drop>(
    alloc: Global,
    clusters: &[ClusterName],
    topic: &mut TieredLedger<T>,
    ledger: u64,
) -> Result<(), Memory>
    ghost entries: { List Entry }
    requires holds { Holds clusters.now T.kept entries topic.old }
    requires closed { ledger < topic.old.unclosed }
    ensures holds { Holds clusters.now T.kept entries topic.new }
    ensures moved { OnOk result (topic.new.parts ≡ slice_set topic.old.parts ledger part.Away) }
    ensures unclosed { topic.new.unclosed ≡ topic.old.unclosed }
{
    match topic.offload(alloc, clusters, ledger) {
        Ok(()) => Ok(()),
        Err(OffloadFault::Memory | OffloadFault::Failed) => Err(Memory),
        Err(OffloadFault::Unknown(_) | OffloadFault::Open(_)) => unreachable!(),
    }
}

/// Appends the entries of a topic in order, each read from where it stands now, at its position in the store that it was copied
/// from. An `Err` is want of memory: the text still begins with what it had, and some of the lines may follow, since each is added
/// as soon as its entry is read.
pub fn add_read_entries<S: EntryStore>(
    alloc: Global,
    lines: &mut Blob,
    clusters: &[ClusterName],
    store: &S,
    topic: &mut TieredTopic,
) -> Result<(), Memory>
    requires few { length clusters.now ≤ CLUSTERS }
    requires holds { Holds clusters.now kept_in (S.entries store.now) topic.old }
    ensures ok { OnOk result (lines.new ≡ lines.old ++ with_line_feeds (entry_lines clusters.now (S.ledgers store.now) 0 (S.entries store.now))) }
    ensures err { OnErr result (take (length lines.old) lines.new ≡ lines.old) }
{
    for index in 0..store.len() {
        add_read_entry(alloc, lines, clusters, store, topic, index)?;
    }
    Ok(())
}

/// Appends the entry at an index, read from where it stands now. An `Err` is want of memory, and the text still begins with what it had.
fn add_read_entry<S: EntryStore>(
    alloc: Global,
    lines: &mut Blob,
    clusters: &[ClusterName],
    store: &S,
    topic: &mut TieredTopic,
    index: usize,
) -> Result<(), Memory>
    ghost entries: { List Entry }
    requires few { length clusters.now ≤ CLUSTERS }
    requires holds { Holds clusters.now kept_in entries topic.old }
    requires store { S.entries store.now ≡ entries }
    requires within { index < length entries }
    requires counted { sum (S.ledgers store.now) ≡ length entries }
    ensures holds { Holds clusters.now kept_in entries topic.new }
    ensures line { (e : Entry) → slice_get entries index ≡ Some e → OnOk result (lines.new ≡ lines.old ++ (entry_line clusters.now (position_at (S.ledgers store.now) index) e ++ 10 ∷ [])) }
    ensures err { OnErr result (take (length lines.old) lines.new ≡ lines.old) }
{
    let Some(position) = store.position_of(index) else {
        unreachable!();
    };
    match topic.read(alloc, clusters, index) {
        Ok(Some(entry)) => add_entry_line(lines, clusters, position, &entry),
        Ok(None) => unreachable!(),
        Err(_) => Err(Memory),
    }
}
