//! The snapshot that an update tells.
ghost use Rattle.std.specs.Prelude.{◌≡◌, IfOk};
ghost use Rattle.geo_base.specs.Traced.{snapshot_told};
ghost use Rattle.trace_runs.specs.Snapshots.{HaveSeen, Knows};

use crate::naming::number;
use crate::snapshot_tables::SnapshotTables;
use broker::Broker;
use geo_base::{Entry, Memory, Position};
use std::alloc::Global;

/// Of an update of the own cluster that a broker stores next, the position of the snapshot that it tells; None of any other entry.
#[tactic(auto, using(crate::proofs::Seen::told_is, crate::proofs::Seen::told_none, crate::proofs::Seen::knows_by, crate::proofs::Seen::seen_by, crate::proofs::Seen::seen_same))]
pub(crate) fn snapshot_told(
    alloc: Global,
    snapshots: &mut SnapshotTables,
    node: &Broker,
    entry: &Entry,
) -> Result<Option<Position>, Memory>
    requires known { Knows node.now snapshots.old }
    ensures told { IfOk result (λ by. by ≡ snapshot_told node.now.site node.now.broker entry.now entry.now.content) }
    ensures seen { HaveSeen node.now snapshots.old snapshots.new }
{
    if entry.ident.origin != node.cluster() {
        return Ok(None);
    }
    let clusters = node.site().clusters().len() as u32;
    snapshots.told(alloc, number(node), clusters, node.store(), entry)
}
