//! What snapshots are told apart by.
ghost use Rattle.std.specs.Prelude.{◌≡◌, ◌++◌, ◌∷◌, [], IfOk, OnOk};
ghost use Rattle.std.proofs.Common.{rules};
ghost use Rattle.std.specs.Cmp.Rules.{comparing, hashing};
ghost use Rattle.std.specs.Hash as fed;
ghost use Rattle.std.specs.Str.{bytes_eq};
ghost use Rattle.geo_base.specs.Entry.{means_cluster};
ghost use Rattle.geo_base.specs.Updating.{positions_for};
ghost use Rattle.trace_runs.specs.SnapshotTables.{key_part, snapshot_key};

use geo_base::{ClusterPosition, ClusterRef, Memory, Position};
use std::alloc::Global;
use std::hash::{Hash, Hasher};
use std::marker::Model;

/// Whose snapshot it is, which positions it names for each cluster, and how many in all, as numbers: the same for two markers exactly
/// where an update that names what one of them names tells the other as well.
#[derive(Drop)]
pub(crate) struct SnapshotKey {
    numbers: Vec<u64>,
}

impl Model for SnapshotKey {
    ghost use Rattle.std.specs.Prelude.{List, ℕ};

    ghost Value = { List ℕ };

    ghost view = { λ k. k.numbers.items };
}

impl SnapshotKey {
    /// The key of a marker of a cluster, one of so many.
    pub(crate) fn of(
        alloc: Global,
        own: u32,
        clusters: u32,
        remote: &[ClusterPosition],
    ) -> Result<SnapshotKey, Memory>
        ensures { IfOk result (λ k. k ≡ snapshot_key own clusters remote.now) }
    {
        let mut numbers = Vec::new(alloc);
        numbers.push(u64::from(own))?;
        let mut left = clusters;
        while left > 0 {
            left -= 1;
            add_positions(&mut numbers, left, remote)?;
        }
        numbers.push(remote.len() as u64)?;
        Ok(SnapshotKey { numbers })
    }
}

impl PartialEq for SnapshotKey {
    ghost eq = { bytes_eq };

    ghost laws = { Prim.search (comparing, rules) };

    fn eq(&self, other: &SnapshotKey) -> bool {
        self.numbers.as_slice() == other.numbers.as_slice()
    }
}

impl Eq for SnapshotKey {
    ghost laws = { Prim.search (comparing, rules) };
}

impl Hash for SnapshotKey {
    ghost hash_input = { λ w. fed.slice fed.u64 w };

    ghost respects_eq = { Prim.search (hashing, rules) };

    fn hash<H: Hasher>(&self, state: &mut H) {
        self.numbers.as_slice().hash(state);
    }
}

/// Adds the positions that are named for a cluster, each after a one, and a zero after them.
fn add_positions(
    numbers: &mut Vec<u64>,
    cluster: u32,
    remote: &[ClusterPosition],
) -> Result<(), Memory>
    ensures { OnOk result (numbers.new.items ≡ numbers.old.items ++ key_part (positions_for cluster remote.now)) }
{
    for named in remote {
        if means_cluster(cluster, &named.cluster) {
            add_position(numbers, named.position)?;
        }
    }
    numbers.push(0)?;
    Ok(())
}

fn add_position(numbers: &mut Vec<u64>, position: Position) -> Result<(), Memory>
    ensures { OnOk result (numbers.new.items ≡ numbers.old.items ++ (1 ∷ position.ledger ∷ position.entry ∷ [])) }
{
    numbers.push(1)?;
    numbers.push(position.ledger)?;
    numbers.push(position.entry)?;
    Ok(())
}

/// Whether a place is the cluster of a number.
fn means_cluster(cluster: u32, place: &ClusterRef) -> bool
    ensures { result ≡ means_cluster cluster place.now }
{
    match place {
        ClusterRef::Known(other) => cluster == *other,
        ClusterRef::Stranger(_) => false,
    }
}
