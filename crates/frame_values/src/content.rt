//! What an entry is, by its marker type and its payload.
ghost use Rattle.std.specs.Prelude.{◌≡◌, ◌≤◌, ◌<◌, ◌^◌, [], length, map, None, Some, IfOk, MatchOption, OnOk};
ghost use Rattle.geo_base.specs.declared.marker.Marker.TheVariants as machine;
ghost use Rattle.geo_base.specs.Sizes.{marker_type, cluster_ref_name};
ghost use Rattle.pb_fields.specs.Canonical.{text};
ghost use Rattle.marker_codec.specs.Canonical.{canonical_fields};
ghost use Rattle.marker_codec.specs.Markers.{IsMarkerText};
ghost use Rattle.marker_codec.specs.Machine.{named_cluster, named_marker};
ghost use Rattle.frame_values.specs.Coded.{IsMarkerRight};
ghost use Rattle.frame_values.specs.Texts.{marker_number, payload_text};
ghost use Rattle.frame_values.specs.Values.{IsContent, place_of, placed_cluster, placed_marker};

use crate::place::{name_of, place_of};
use geo_base::limits::CLUSTERS;
use geo_base::{
    Blob, BoxedMarker, ClusterName, ClusterPosition, ClusterRef, Content, Marker as MachineMarker,
    Memory, Position, Sequence, Text,
};
use marker_codec::{ClusterMessageId, Marker, MarkerFault};
use std::alloc::Global;

/// What an entry of a marker type and a payload is, and the payload that it keeps: none where that is the marker's canonical text.
pub fn content_of(
    alloc: Global,
    names: &[ClusterName],
    number: Option<u64>,
    payload: Blob,
) -> Result<(Content, Blob), Memory>
    requires { length names.now ≤ CLUSTERS }
    ensures { IfOk result (λ x. IsContent names.now number payload x.0 x.1) }
{
    match number {
        None => Ok((Content::Data, payload)),
        Some(kind) => marked(alloc, names, kind, payload),
    }
}

/// The same of an entry that has a marker type.
fn marked(
    alloc: Global,
    names: &[ClusterName],
    kind: u64,
    payload: Blob,
) -> Result<(Content, Blob), Memory>
    requires { length names.now ≤ CLUSTERS }
    ensures { IfOk result (λ x. IsContent names.now (Some kind) payload x.0 x.1) }
{
    match Marker::read(alloc, kind, payload.as_slice()) {
        Ok(marker) => {
            let canonical = marker.write(alloc)?;
            let placed = placed_marker(alloc, names, marker)?;
            let placed = Content::Marked(BoxedMarker::new(alloc, placed)?);
            if canonical.as_slice() == payload.as_slice() {
                Ok((placed, Blob::new(alloc)))
            } else {
                Ok((placed, payload))
            }
        }
        Err(why) => match why {
            MarkerFault::Memory => Err(Memory),
            _ => Ok((Content::Unread(kind), payload)),
        },
    }
}

/// A marker with clusters by their numbers.
fn placed_marker(
    alloc: Global,
    names: &[ClusterName],
    marker: Marker,
) -> Result<MachineMarker, Memory>
    requires { length names.now ≤ CLUSTERS }
    ensures { IfOk result (λ m. m ≡ placed_marker names.now marker) }
{
    match marker {
        Marker::Request {
            snapshot_id,
            source_cluster,
        } => Ok(MachineMarker::Request {
            id: snapshot_id,
            source: place_of(names, source_cluster),
        }),
        Marker::Response {
            snapshot_id,
            cluster,
        } => Ok(MachineMarker::Response {
            id: snapshot_id,
            answer: placed_cluster(names, cluster),
        }),
        Marker::Snapshot {
            snapshot_id,
            local_message_id,
            clusters,
        } => match placed_clusters(alloc, names, clusters) {
            Ok(remote) => Ok(MachineMarker::Snapshot {
                id: snapshot_id,
                local: local_message_id,
                remote,
            }),
            Err(why) => {
                drop(snapshot_id);
                Err(why)
            }
        },
        Marker::Update {
            subscription_name,
            clusters,
        } => match placed_clusters(alloc, names, clusters) {
            Ok(remote) => Ok(MachineMarker::Update {
                sub: subscription_name,
                remote,
            }),
            Err(why) => {
                drop(subscription_name);
                Err(why)
            }
        },
    }
}

fn placed_cluster(names: &[ClusterName], cluster: ClusterMessageId) -> ClusterPosition
    requires { length names.now ≤ CLUSTERS }
    ensures { result ≡ placed_cluster names.now cluster }
{
    ClusterPosition {
        cluster: place_of(names, cluster.cluster),
        position: cluster.message_id,
    }
}

fn placed_clusters(
    alloc: Global,
    names: &[ClusterName],
    clusters: Sequence<ClusterMessageId>,
) -> Result<Sequence<ClusterPosition>, Memory>
    requires { length names.now ≤ CLUSTERS }
    ensures { IfOk result (λ cs. cs ≡ map (λ c. placed_cluster names.now c) clusters) }
{
    let mut placed = Sequence::new(alloc);
    let added = add_placed(alloc, names, &mut placed, clusters.as_slice());
    // by calls, so that each end is proved once
    drop(clusters);
    match added {
        Ok(()) => Ok(placed),
        Err(why) => {
            drop(placed);
            Err(why)
        }
    }
}

/// Clusters by their numbers, after none.
fn add_placed(
    alloc: Global,
    names: &[ClusterName],
    placed: &mut Sequence<ClusterPosition>,
    clusters: &[ClusterMessageId],
) -> Result<(), Memory>
    requires few { length names.now ≤ CLUSTERS }
    requires fresh { placed.old ≡ [] }
    ensures { OnOk result (placed.new ≡ map (λ c. placed_cluster names.now c) clusters.now) }
{
    for cluster in clusters {
        let name = cluster.cluster.copy(alloc)?;
        placed.push(ClusterPosition {
            cluster: place_of(names, name),
            position: cluster.message_id,
        })?;
    }
    Ok(())
}

/// The number in the metadata of an entry: none of a message (marker_type of PulsarMarkers.proto, with this project's own
/// numbers).
pub fn marker_number(content: &Content) -> Option<u64>
    ensures { result ≡ marker_number content.now }
{
    match content {
        Content::Data => None,
        Content::Marked(marker) => Some(match marker.get() {
            MachineMarker::Request { .. } => 10,
            MachineMarker::Response { .. } => 11,
            MachineMarker::Snapshot { .. } => 12,
            MachineMarker::Update { .. } => 13,
        }),
        Content::Unread(kind) => Some(*kind),
    }
}

/// The canonical text of a marker that keeps no payload; None where the payload is written as it is kept.
#[tactic(auto, using(crate::proofs::Writing::unkept_text, crate::proofs::Writing::unkept_right, crate::proofs::Writing::kept_text, crate::proofs::Writing::kept_right))]
pub fn canonical_payload(
    alloc: Global,
    names: &[ClusterName],
    content: &Content,
    kept: &Blob,
) -> Result<Option<Blob>, Memory>
    ensures text { IfOk result (λ o. MatchOption o (payload_text names.now content.now kept.now ≡ kept.now) (λ b. payload_text names.now content.now kept.now ≡ b)) }
    ensures right { OnOk result (IsMarkerRight names.now content.now kept.now) }
{
    match content {
        Content::Marked(marker) => {
            if !kept.as_slice().is_empty() {
                return Ok(None);
            }
            let text = marker_text(alloc, names, marker.get())?;
            Ok(Some(text))
        }
        Content::Data | Content::Unread(_) => Ok(None),
    }
}

/// The canonical text of a marker.
#[tactic(auto, using(crate::proofs::Writing::marker_right))]
fn marker_text(alloc: Global, names: &[ClusterName], marker: &MachineMarker) -> Result<Blob, Memory>
    ensures text { IfOk result (λ b. b ≡ text (canonical_fields (named_marker names.now marker.now))) }
    ensures right { OnOk result (IsMarkerText (marker_type marker.now) (text (canonical_fields (named_marker names.now marker.now))) (named_marker names.now marker.now)) }
{
    let named = named_marker(alloc, names, marker)?;
    let text = named.write(alloc);
    drop(named);
    Ok(text?)
}

/// A marker with clusters by their names.
fn named_marker(
    alloc: Global,
    names: &[ClusterName],
    marker: &MachineMarker,
) -> Result<Marker, Memory>
    ensures { IfOk result (λ m. m ≡ named_marker names.now marker.now) }
{
    match marker {
        MachineMarker::Request { id, source } => {
            let snapshot_id = id.copy(alloc)?;
            match Text::from_str(alloc, name_of(names, source)) {
                Ok(source_cluster) => Ok(Marker::Request {
                    snapshot_id,
                    source_cluster,
                }),
                Err(why) => {
                    drop(snapshot_id);
                    Err(why)
                }
            }
        }
        MachineMarker::Response { id, answer } => {
            let snapshot_id = id.copy(alloc)?;
            match named_cluster(alloc, names, answer) {
                Ok(cluster) => Ok(Marker::Response {
                    snapshot_id,
                    cluster,
                }),
                Err(why) => {
                    drop(snapshot_id);
                    Err(why)
                }
            }
        }
        MachineMarker::Snapshot { id, local, remote } => {
            named_snapshot(alloc, names, id, *local, remote.as_slice())
        }
        MachineMarker::Update { sub, remote } => {
            named_update(alloc, names, sub, remote.as_slice())
        }
    }
}

/// A snapshot with clusters by their names.
fn named_snapshot(
    alloc: Global,
    names: &[ClusterName],
    id: &Text,
    local: Position,
    remote: &[ClusterPosition],
) -> Result<Marker, Memory>
    ensures { IfOk result (λ m. m ≡ named_marker names.now (machine.Snapshot id.now local remote.now)) }
{
    let snapshot_id = id.copy(alloc)?;
    match named_clusters(alloc, names, remote) {
        Ok(clusters) => Ok(Marker::Snapshot {
            snapshot_id,
            local_message_id: local,
            clusters,
        }),
        Err(why) => {
            drop(snapshot_id);
            Err(why)
        }
    }
}

/// An update with clusters by their names.
fn named_update(
    alloc: Global,
    names: &[ClusterName],
    sub: &Text,
    remote: &[ClusterPosition],
) -> Result<Marker, Memory>
    ensures { IfOk result (λ m. m ≡ named_marker names.now (machine.Update sub.now remote.now)) }
{
    let subscription_name = sub.copy(alloc)?;
    match named_clusters(alloc, names, remote) {
        Ok(clusters) => Ok(Marker::Update {
            subscription_name,
            clusters,
        }),
        Err(why) => {
            drop(subscription_name);
            Err(why)
        }
    }
}

fn named_cluster(
    alloc: Global,
    names: &[ClusterName],
    cluster: &ClusterPosition,
) -> Result<ClusterMessageId, Memory>
    ensures { IfOk result (λ c. c ≡ named_cluster names.now cluster.now) }
{
    Ok(ClusterMessageId {
        cluster: Text::from_str(alloc, name_of(names, &cluster.cluster))?,
        message_id: cluster.position,
    })
}

fn named_clusters(
    alloc: Global,
    names: &[ClusterName],
    clusters: &[ClusterPosition],
) -> Result<Sequence<ClusterMessageId>, Memory>
    ensures { IfOk result (λ cs. cs ≡ map (λ c. named_cluster names.now c) clusters.now) }
{
    let mut named = Sequence::new(alloc);
    for cluster in clusters {
        named.push(named_cluster(alloc, names, cluster)?)?;
    }
    Ok(named)
}
