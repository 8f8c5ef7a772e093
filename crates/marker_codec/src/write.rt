//! Writing markers.

ghost use Rattle.std.specs.Prelude.{◌≡◌, ◌++◌, ◌∷◌, [], IsUtf8, IfOk, OnOk, OnErr};
ghost use Rattle.std.specs.List.{AllByRecursion};
ghost use Rattle.pb_fields.specs.Field.{IsFieldNumber, IsField, bytes_field};
ghost use Rattle.pb_fields.specs.Canonical.{field_text, text};
ghost use Rattle.marker_codec.specs.Kinds.{kind_number, marker_kind};
ghost use Rattle.marker_codec.specs.Markers.{IsMarkerText};
ghost use Rattle.marker_codec.specs.Canonical.{position_fields, cluster_fields, clusters_fields, canonical_fields, IsPosition, IsCluster, HasGoodParts};

use crate::marker::{ClusterMessageId, ClusterMessageIds, Marker};
use crate::table::{
    CLUSTER, ENTRY_ID, LEDGER_ID, LOCAL_MESSAGE_ID, MESSAGE_ID, RESPONSE_CLUSTER,
    SNAPSHOT_CLUSTERS, SNAPSHOT_ID, SOURCE_CLUSTER, SUBSCRIPTION_NAME, UPDATE_CLUSTERS,
};
use geo_base::{Blob, Memory, Position, Text};
use pb_fields::{write_bytes, write_varint};
use std::alloc::Global;

impl Marker {
    /// The canonical text: the fields in the order of their numbers, an embedded message by its own canonical text,
    /// each varint as short as can be.
    pub fn write(&self, alloc: Global) -> Result<Blob, Memory>
        ensures canonical { IfOk result (λ bytes. bytes ≡ text (canonical_fields self.now)) }
        ensures text { IfOk result (λ bytes. IsMarkerText (kind_number (marker_kind self.now)) bytes self.now) }
    {
        let mut out = Blob::new(alloc);
        append_marker(alloc, &mut out, self)?;
        Ok(out)
    }
}

fn append_marker(alloc: Global, out: &mut Blob, marker: &Marker) -> Result<(), Memory>
    ensures ok { OnOk result (out.new ≡ out.old ++ text (canonical_fields marker.now)) }
    ensures fields { OnOk result (AllByRecursion IsField (canonical_fields marker.now)) }
    ensures parts { OnOk result (HasGoodParts marker.now) }
{
    match marker {
        Marker::Request {
            snapshot_id,
            source_cluster,
        } => {
            append_text(out, SNAPSHOT_ID, snapshot_id)?;
            append_text(out, SOURCE_CLUSTER, source_cluster)
        }
        Marker::Response {
            snapshot_id,
            cluster,
        } => {
            append_text(out, SNAPSHOT_ID, snapshot_id)?;
            append_cluster(alloc, out, RESPONSE_CLUSTER, cluster)
        }
        Marker::Snapshot {
            snapshot_id,
            local_message_id,
            clusters,
        } => {
            append_text(out, SNAPSHOT_ID, snapshot_id)?;
            append_position(alloc, out, LOCAL_MESSAGE_ID, *local_message_id)?;
            append_clusters(alloc, out, SNAPSHOT_CLUSTERS, clusters)
        }
        Marker::Update {
            subscription_name,
            clusters,
        } => {
            append_text(out, SUBSCRIPTION_NAME, subscription_name)?;
            append_clusters(alloc, out, UPDATE_CLUSTERS, clusters)
        }
    }
}

fn append_text(out: &mut Blob, number: u32, content: &Text) -> Result<(), Memory>
    requires { IsFieldNumber number }
    ensures ok { OnOk result (out.new ≡ out.old ++ field_text (bytes_field number content.now)) }
    ensures field { OnOk result (IsField (bytes_field number content.now)) }
    ensures utf8 { OnOk result (IsUtf8 content.now) }
{
    write_bytes(out, number, content.as_str().as_bytes())
}

/// Appends a MarkersMessageIdData.
fn append_position(
    alloc: Global,
    out: &mut Blob,
    number: u32,
    position: Position,
) -> Result<(), Memory>
    requires { IsFieldNumber number }
    ensures ok { OnOk result (out.new ≡ out.old ++ field_text (bytes_field number (text (position_fields position)))) }
    ensures field { OnOk result (IsField (bytes_field number (text (position_fields position)))) }
    ensures position { OnOk result (IsPosition position) }
{
    let mut content = Blob::new(alloc);
    write_varint(&mut content, LEDGER_ID, position.ledger)?;
    write_varint(&mut content, ENTRY_ID, position.entry)?;
    write_bytes(out, number, content.as_slice())
}

/// Appends a ClusterMessageId.
fn append_cluster(
    alloc: Global,
    out: &mut Blob,
    number: u32,
    cluster: &ClusterMessageId,
) -> Result<(), Memory>
    requires { IsFieldNumber number }
    ensures ok { OnOk result (out.new ≡ out.old ++ field_text (bytes_field number (text (cluster_fields cluster.now)))) }
    ensures field { OnOk result (IsField (bytes_field number (text (cluster_fields cluster.now)))) }
    ensures cluster { OnOk result (IsCluster cluster.now) }
{
    let mut content = Blob::new(alloc);
    append_text(&mut content, CLUSTER, &cluster.cluster)?;
    append_position(alloc, &mut content, MESSAGE_ID, cluster.message_id)?;
    write_bytes(out, number, content.as_slice())
}

/// Appends one ClusterMessageId a field.
fn append_clusters(
    alloc: Global,
    out: &mut Blob,
    number: u32,
    clusters: &ClusterMessageIds,
) -> Result<(), Memory>
    requires { IsFieldNumber number }
    ensures ok { OnOk result (out.new ≡ out.old ++ text (clusters_fields number clusters.now)) }
    ensures fields { OnOk result (AllByRecursion IsField (clusters_fields number clusters.now)) }
    ensures clusters { OnOk result (AllByRecursion IsCluster clusters.now) }
{
    for cluster in clusters.as_slice() {
        append_cluster(alloc, out, number, cluster)?;
    }
    Ok(())
}
