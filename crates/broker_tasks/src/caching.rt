//! The snapshot that a marker brings into the cache of a replicated subscription: one that the own cluster made, whose local position
//! is stored (PIP-33).
ghost use Rattle.std.specs.Prelude.{◌≡◌, ◌<◌, None, length, replicate, IfOk, IfSome};
ghost use Rattle.geo_base.specs.Cache.{cut_of, with_place, with_places};
ghost use Rattle.geo_base.specs.Offering.{own_snapshot};
ghost use Rattle.broker_subs.specs.Table.{sub_at};
ghost use Rattle.broker_plans.specs.Storable.{IsSnapshotOf};

use broker_plans::sub_at;
use broker_state::BrokerState;
use geo_base::{
    CachedSnapshot, ClusterPosition, ClusterRef, Content, Cut, Entry, Marker, Memory, Position,
    Sequence,
};
use std::alloc::Global;

/// The snapshot that an entry brings to the subscription at a place, if it does.
pub(crate) fn own_snapshot(
    alloc: Global,
    state: &BrokerState,
    sub_index: usize,
    entry: &Entry,
) -> Result<Option<CachedSnapshot>, Memory>
    requires { sub_index < length state.now.broker.subs }
    ensures snapshot { IfOk result (λ o. o ≡ own_snapshot state.now.site state.now.broker (sub_at state.now.broker.subs sub_index) entry.now.ident.origin entry.now.content) }
    ensures small { IfOk result (λ o. IfSome o (IsSnapshotOf state.now.site)) }
{
    let Content::Marked(marker) = &entry.content else {
        return Ok(None);
    };
    let Marker::Snapshot { local, remote, .. } = marker.get() else {
        return Ok(None);
    };
    if entry.ident.origin != state.site().own() || !sub_at(state, sub_index).is_replicated() {
        return Ok(None);
    }
    match state.index_of(*local) {
        None => Ok(None),
        Some(index) => {
            let cut = cut_of(alloc, state, *local, remote.as_slice())?;
            Ok(Some(CachedSnapshot { index, cut }))
        }
    }
}

/// The cut that a snapshot marker stands for: for each remote cluster the last position that it names; other names are dropped.
#[tactic(auto, using(crate::proofs::Cuts::as_many))]
fn cut_of(
    alloc: Global,
    state: &BrokerState,
    local: Position,
    named: &[ClusterPosition],
) -> Result<Cut, Memory>
    ensures cut { IfOk result (λ c. c ≡ cut_of state.now.site.own (length state.now.site.clusters) local named.now) }
    ensures many { IfOk result (λ c. length c.remote ≡ length state.now.site.clusters) }
{
    let mut remote = no_places(alloc, state.site().clusters().len())?;
    put_all(&mut remote, state.site().own(), named);
    Ok(Cut { local, remote })
}

/// No position of so many clusters.
fn no_places(alloc: Global, clusters: usize) -> Result<Sequence<Option<Position>>, Memory>
    ensures { IfOk result (λ ps. ps ≡ replicate clusters None) }
{
    let mut places = Sequence::new(alloc);
    for _cluster in 0..clusters {
        places.push(None)?;
    }
    Ok(places)
}

/// Each position that is named for a remote cluster is put at the cluster's place.
fn put_all(places: &mut Sequence<Option<Position>>, own: u32, named: &[ClusterPosition])
    ensures { places.new ≡ with_places own places.old named.now }
{
    for one in named {
        put(places, own, one);
    }
}

fn put(places: &mut Sequence<Option<Position>>, own: u32, named: &ClusterPosition)
    ensures { places.new ≡ with_place own named.now.cluster named.now.position places.old }
{
    let ClusterRef::Known(cluster) = &named.cluster else {
        return;
    };
    let at = *cluster as usize;
    if *cluster != own && at < places.len() {
        places.set(at, Some(named.position));
    }
}
