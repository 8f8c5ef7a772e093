//! The update marker of a snapshot.
ghost use Rattle.std.specs.Prelude.{◌≡◌, [], ◌∷◌, ◌++◌, IfOk, OnErr, OnOk};
ghost use Rattle.geo_base.specs.declared.marker.Marker.TheVariants as marker;
ghost use Rattle.geo_base.specs.SnapshotBuilder.{named, named_from};

use geo_base::{
    ClusterPosition, ClusterRef, Cut, Marker, Memory, Position, Sequence, SubName, Text,
    cluster_number,
};
use std::alloc::Global;

/// The marker that tells the other clusters that a subscription has passed a snapshot: its name, and each remote position of
/// the cut, in cluster order.
pub fn make(alloc: Global, sub: &SubName, cut: &Cut) -> Result<Marker, Memory>
    ensures { IfOk result (λ m. m ≡ marker.Update sub.now (named cut.now)) }
{
    Ok(Marker::Update {
        sub: Text::from_str(alloc, sub.as_str())?,
        remote: named_positions(alloc, cut)?,
    })
}

/// The remote positions of a cut, as a marker names them, in cluster order.
pub fn named_positions(alloc: Global, cut: &Cut) -> Result<Sequence<ClusterPosition>, Memory>
    ensures { IfOk result (λ positions. positions ≡ named cut.now) }
{
    let mut named = Sequence::new(alloc);
    let remote = cut.remote.as_slice();
    for cluster in 0..remote.len() {
        name_one(&mut named, cluster, remote[cluster])?;
    }
    Ok(named)
}

/// Names the position of a cluster, where there is one. A cluster's number has 32 bits; the positions of more clusters than
/// that would take over 64 GiB, and are answered as want of memory.
fn name_one(
    named: &mut Sequence<ClusterPosition>,
    cluster: usize,
    position: Option<Position>,
) -> Result<(), Memory>
    ensures ok { OnOk result (named.new ≡ named.old ++ named_from cluster (position ∷ [])) }
    ensures err { OnErr result (named.new ≡ named.old) }
{
    let Some(position) = position else {
        return Ok(());
    };
    let Some(number) = cluster_number(cluster) else {
        return Err(Memory);
    };
    named.push(ClusterPosition {
        cluster: ClusterRef::Known(number),
        position,
    })
}
