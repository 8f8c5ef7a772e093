//! The positions that a marker names for clusters.
ghost use Rattle.std.specs.Prelude.{◌≡◌, ◌≤◌, length, slice_get, IfOk};
ghost use Rattle.geo_base.specs.Audit.{is_named_once, names_each, position_named};
ghost use Rattle.geo_base.specs.Entry.{means_cluster};
ghost use Rattle.geo_base.specs.TraceItems.{names_same, same_positions};
ghost use Rattle.geo_base.specs.Updating.{positions_for};
ghost use Rattle.audit.specs.Named.{only_of};

use crate::same::is_same_position;
use geo_base::{ClusterPosition, ClusterRef, Memory, Position, Sequence};
use std::alloc::Global;

/// Whether a place is the cluster of a number.
fn means_cluster(cluster: u32, place: &ClusterRef) -> bool
    ensures { result ≡ means_cluster cluster place.now }
{
    match place {
        ClusterRef::Known(other) => cluster == *other,
        ClusterRef::Stranger(_) => false,
    }
}

/// How many positions are named for a cluster.
fn count_for(cluster: u32, remote: &[ClusterPosition]) -> usize
    ensures count { result ≡ length (positions_for cluster remote.now) }
    ensures few { result ≤ length remote.now }
{
    let mut count = 0;
    for position in remote {
        if means_cluster(cluster, &position.cluster) {
            count += 1;
        }
    }
    count
}

/// The first position that is named for a cluster.
pub fn first_position(cluster: u32, remote: &[ClusterPosition]) -> Option<Position>
    ensures { result ≡ position_named cluster remote.now }
{
    for position in remote {
        if means_cluster(cluster, &position.cluster) {
            return Some(position.position);
        }
    }
    None
}

/// The position that is named for a cluster, where one alone is.
#[tactic(auto, using(crate::proofs::Steps::one_only, crate::proofs::Steps::not_one))]
pub fn only_position(cluster: u32, remote: &[ClusterPosition]) -> Option<Position>
    ensures { result ≡ only_of (positions_for cluster remote.now) }
{
    if count_for(cluster, remote) == 1 {
        first_position(cluster, remote)
    } else {
        None
    }
}

/// Whether a cluster is the own one, or is named exactly once.
fn is_named_once(own: u32, cluster: u32, remote: &[ClusterPosition]) -> bool
    ensures { result ≡ is_named_once own cluster remote.now }
{
    own == cluster || count_for(cluster, remote) == 1
}

/// Whether each other one of so many clusters is named exactly once, and so many are named in all.
pub fn names_each(own: u32, clusters: u32, remote: &[ClusterPosition]) -> bool
    ensures { result ≡ names_each own clusters remote.now }
{
    if remote.len() + 1 != clusters as usize {
        return false;
    }
    for cluster in 0..clusters {
        if !is_named_once(own, cluster, remote) {
            return false;
        }
    }
    true
}

/// The positions that are named for a cluster.
fn positions_for(
    alloc: Global,
    cluster: u32,
    remote: &[ClusterPosition],
) -> Result<Sequence<Position>, Memory>
    ensures { IfOk result (λ positions. positions ≡ positions_for cluster remote.now) }
{
    let mut positions = Sequence::new(alloc);
    for position in remote {
        if means_cluster(cluster, &position.cluster) {
            positions.push(position.position)?;
        }
    }
    Ok(positions)
}

/// Whether two lists have the same positions.
fn are_same_positions(positions: &[Position], others: &[Position]) -> bool
    ensures { result ≡ same_positions positions.now others.now }
{
    if positions.len() != others.len() {
        return false;
    }
    for (place, position) in positions.iter().enumerate() {
        if !is_same_position(position, &others[place]) {
            return false;
        }
    }
    true
}

/// Whether two markers name the same positions for a cluster.
fn name_same_for(
    alloc: Global,
    cluster: u32,
    remote: &[ClusterPosition],
    other: &[ClusterPosition],
) -> Result<bool, Memory>
    ensures { IfOk result (λ same. same ≡ same_positions (positions_for cluster remote.now) (positions_for cluster other.now)) }
{
    let positions = positions_for(alloc, cluster, remote)?;
    let others = positions_for(alloc, cluster, other)?;
    Ok(are_same_positions(positions.as_slice(), others.as_slice()))
}

/// Whether two markers name the same positions for each of so many clusters, and as many in all.
pub fn name_same(
    alloc: Global,
    clusters: u32,
    remote: &[ClusterPosition],
    other: &[ClusterPosition],
) -> Result<bool, Memory>
    ensures { IfOk result (λ same. same ≡ names_same clusters remote.now other.now) }
{
    let mut left = clusters;
    while left > 0 {
        left -= 1;
        if !name_same_for(alloc, left, remote, other)? {
            return Ok(false);
        }
    }
    Ok(remote.len() == other.len())
}
