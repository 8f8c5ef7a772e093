//! The rule of cursors: what a cursor has was dealt with.
ghost use Rattle.std.specs.Prelude.{◌≡◌, ◌<◌, ◌||◌, ◌++◌, Some, not, length, slice_get, OnOk};
ghost use Rattle.geo_base.specs.Cursor.{has};
ghost use Rattle.observation.specs.Findings.{skipped, skipped_of, unless};
ghost use Rattle.observation.specs.Observed.{entries_seen, is_dealt_with};
ghost use Rattle.observation.specs.declared.finding.Finding.TheVariants as finding;
ghost use Rattle.observe.specs.Kept.{EntryAt};

use crate::cursors::SubCursor;
use crate::logs::Logs;
use geo_base::Memory;
use observation::Finding;
use std::alloc::Global;

/// Adds for each message that a cursor of the logs' topic at a cluster has and nobody dealt with that it was skipped.
#[tactic(auto, unfolding(observation::specs::Findings::skipped))]
pub(crate) fn find_skipped(
    alloc: Global,
    logs: &Logs<'_>,
    cluster: u32,
    found: &mut Vec<Finding>,
) -> Result<(), Memory>
    requires { cluster < length logs.now.setup.clusters }
    ensures { OnOk result (found.new.items ≡ found.old.items ++ skipped logs.now.setup logs.now.observed logs.now.topic cluster) }
{
    let subs = logs.at(cluster).subs();
    for sub in subs {
        find_skipped_of(alloc, logs, cluster, sub, found)?;
    }
    Ok(())
}

/// Adds those of one of its cursors.
fn find_skipped_of(
    alloc: Global,
    logs: &Logs<'_>,
    cluster: u32,
    sub: &SubCursor,
    found: &mut Vec<Finding>,
) -> Result<(), Memory>
    requires { cluster < length logs.now.setup.clusters }
    ensures { OnOk result (found.new.items ≡ found.old.items ++ skipped_of logs.now.setup logs.now.observed logs.now.topic cluster sub.now) }
{
    let entries = logs.entries_at(cluster);
    for index in 0..entries.len() {
        find_skipped_at(alloc, logs, cluster, sub, index, found)?;
    }
    Ok(())
}

/// Adds that of one entry.
#[tactic(auto, using(crate::proofs::Each::one_found, crate::proofs::Each::none_found))]
fn find_skipped_at(
    alloc: Global,
    logs: &Logs<'_>,
    cluster: u32,
    sub: &SubCursor,
    index: usize,
    found: &mut Vec<Finding>,
) -> Result<(), Memory>
    requires cluster { cluster < length logs.now.setup.clusters }
    requires index { index < length (entries_seen logs.now.setup logs.now.observed logs.now.topic cluster) }
    ensures { OnOk result ((e : EntryAt) → slice_get (entries_seen logs.now.setup logs.now.observed logs.now.topic cluster) index ≡ Some e → found.new.items ≡ found.old.items ++ unless (not (has sub.now.cursor index) || is_dealt_with logs.now.setup logs.now.observed logs.now.topic sub.now.name e) (finding.Skipped logs.now.topic cluster sub.now.name index)) }
{
    let seen = logs.at(cluster);
    let entry = &seen.entries()[index];
    if sub.has(index) && !logs.is_settled(sub.name(), entry, seen.identity_at(index)) {
        found.push(Finding::Skipped {
            topic: logs.topic(),
            cluster,
            sub: sub.name().copy(alloc)?,
            index: index as u64,
        })?;
    }
    Ok(())
}
