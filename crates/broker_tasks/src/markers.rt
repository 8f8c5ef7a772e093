//! The markers of snapshots that a broker writes: a request goes to all clusters, its answer to the one that asked, and the snapshot
//! stays with the cluster that made it (PIP-33).
ghost use Rattle.std.specs.Prelude.{◌≡◌, ◌≤◌, ◌<◌, ◌+◌, ◌^◌, true, [], ◌∷◌, length, IfOk};
ghost use Rattle.geo_base.specs.declared.entry.Targets.TheVariants as targets;
ghost use Rattle.geo_base.specs.Broker.{cluster_name};
ghost use Rattle.geo_base.specs.Markers.{request_marker, response_marker, snapshot_marker};
ghost use Rattle.geo_base.specs.Sizes.{most_entry_size};
ghost use Rattle.geo_base.specs.Storing.{own_marker};
ghost use Rattle.geo_base.specs.Topic.{or_first};
ghost use Rattle.broker_plans.specs.Prepared.{MarkerFits};
ghost use Rattle.broker_plans.specs.Storable.{IsBuilderOf, most_id};
ghost use Rattle.broker_tasks.specs.Reading.{IsReady};

use broker_plans::own_marker;
use broker_state::BrokerState;
use geo_base::{
    ClusterPosition, ClusterRef, Entry, EntryStore, Marker, Memory, Position, Sequence, Targets,
    Text,
};
use replicated_subs::{SnapshotBuilder, named_positions};
use std::alloc::Global;
use topic_store::or_first;

/// A request of this id, of a snapshot's first or second round.
pub(crate) fn request(alloc: Global, state: &BrokerState, id: &str) -> Result<Entry, Memory>
    requires number { MarkerFits state.now.site state.now.broker }
    requires short { length id.now ≤ most_id + 2 }
    ensures marker { IfOk result (λ e. e ≡ request_marker state.now.site state.now.broker id.now) }
    ensures ready { IfOk result (IsReady state.now.site state.now.broker) }
{
    let own = state.site().own();
    let text = Text::from_str(alloc, id)?;
    let names = Sequence::new(alloc);
    let marker = Marker::Request {
        id: text,
        source: ClusterRef::Known(own),
    };
    own_marker(alloc, state, marker, Targets::All, names)
}

/// The answer to a request of a cluster: the last entry that was stored before it.
pub(crate) fn response(
    alloc: Global,
    state: &BrokerState,
    remote: u32,
    id: &Text,
) -> Result<Entry, Memory>
    requires number { MarkerFits state.now.site state.now.broker }
    requires remote { remote < length state.now.site.clusters }
    requires short { length id.now ≤ most_entry_size }
    ensures marker { IfOk result (λ e. e ≡ response_marker state.now.site state.now.broker remote id.now) }
    ensures ready { IfOk result (IsReady state.now.site state.now.broker) }
{
    let own = state.site().own();
    let position = or_first(state.store().last());
    let text = id.copy(alloc)?;
    let marker = Marker::Response {
        id: text,
        answer: ClusterPosition {
            cluster: ClusterRef::Known(own),
            position,
        },
    };
    marker_for(alloc, state, marker, remote)
}

/// The snapshot that a builder has made.
pub(crate) fn snapshot(
    alloc: Global,
    state: &BrokerState,
    builder: &SnapshotBuilder,
) -> Result<Entry, Memory>
    requires number { MarkerFits state.now.site state.now.broker }
    requires builder { IsBuilderOf state.now.site builder.now }
    requires made { builder.now.finished ≡ true }
    ensures marker { IfOk result (λ e. e ≡ snapshot_marker state.now.site state.now.broker builder.now) }
    ensures ready { IfOk result (IsReady state.now.site state.now.broker) }
{
    let Some(cut) = builder.cut() else {
        unreachable!()
    };
    let own = state.site().own();
    let text = Text::from_str(alloc, builder.id())?;
    let remote = named_positions(alloc, cut)?;
    let marker = Marker::Snapshot {
        id: text,
        local: cut.local,
        remote,
    };
    marker_for(alloc, state, marker, own)
}

/// A marker that is for one cluster.
fn marker_for(
    alloc: Global,
    state: &BrokerState,
    marker: Marker,
    cluster: u32,
) -> Result<Entry, Memory>
    requires number { MarkerFits state.now.site state.now.broker }
    requires cluster { cluster < length state.now.site.clusters }
    ensures { IfOk result (λ e. e ≡ own_marker state.now.site state.now.broker marker (targets.Only (2 ^ cluster)) (cluster_name state.now.site cluster ∷ [])) }
{
    match named(alloc, state, cluster) {
        Ok(names) => own_marker(alloc, state, marker, only(state, cluster), names),
        Err(why) => {
            drop(marker);
            Err(why)
        }
    }
}

/// The names of the targets that are one cluster.
fn named(alloc: Global, state: &BrokerState, cluster: u32) -> Result<Sequence<Text>, Memory>
    requires { cluster < length state.now.site.clusters }
    ensures { IfOk result (λ names. names ≡ cluster_name state.now.site cluster ∷ []) }
{
    let name = Text::from_str(alloc, state.site().cluster_name(cluster).as_str())?;
    let mut names = Sequence::new(alloc);
    names.push(name)?;
    Ok(names)
}

/// The targets that are one cluster.
fn only(state: &BrokerState, cluster: u32) -> Targets
    requires { cluster < length state.now.site.clusters }
    ensures { result ≡ targets.Only (2 ^ cluster) }
{
    let _site = state.site();
    Targets::Only(1 << cluster)
}
