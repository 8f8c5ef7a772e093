//! Reading markers.

ghost use Rattle.std.specs.Prelude.{◌≡◌, ℕ, List, IfOk, IfErr, Ok, Err};
ghost use Rattle.std.specs.List.{AllByRecursion};
ghost use Rattle.pb_fields.specs.Faults.{Answers};
ghost use Rattle.pb_fields.specs.Message.{values};
ghost use Rattle.pb_fields.specs.Embedded.{IsMessageWith};
ghost use Rattle.pb_fields.proofs.Nested.{IsHeld};
ghost use Rattle.marker_codec.specs.declared.fault.MarkerFault.{MarkerFault};
ghost use Rattle.marker_codec.specs.declared.kind.MarkerKind.TheVariants as kind;
ghost use Rattle.marker_codec.specs.declared.marker.Marker.{Marker};
ghost use Rattle.marker_codec.specs.Table.{request_rows, response_rows, snapshot_rows, update_rows, cluster_rows};
ghost use Rattle.marker_codec.specs.Kinds.{kind_number, kind_rows, marker_kind, RightPosition, RightCluster, RightPart};
ghost use Rattle.marker_codec.specs.Markers.{IsPositionText, IsClusterText, SaysCluster, HoldsCluster, AreClusters, Says, IsMarkerText};
ghost use Rattle.marker_codec.specs.Faults.{IsNoKind, WrongMarker, IsWrongOrMemory};

use crate::fault::MarkerFault;
use crate::kind::MarkerKind;
use crate::marker::{ClusterMessageId, ClusterMessageIds, Marker};
use crate::table::{
    CLUSTER, CLUSTER_ROWS, ENTRY_ID, LEDGER_ID, LOCAL_MESSAGE_ID, MESSAGE_ID, POSITION_PARTS,
    POSITION_ROWS, REQUEST_ROWS, RESPONSE_CLUSTER, RESPONSE_ROWS, SNAPSHOT_CLUSTERS, SNAPSHOT_ID,
    SNAPSHOT_ROWS, SOURCE_CLUSTER, SUBSCRIPTION_NAME, UPDATE_CLUSTERS, UPDATE_ROWS,
};
use geo_base::{Memory, Position, Text};
use pb_fields::embedded::{Unread, read_message_with, required_message};
use pb_fields::message::{MessageFault, required_text, required_varint};
use pb_fields::{Field, Value};
use std::alloc::Global;

impl Marker {
    /// The marker that the bytes are a text of, by the number of its kind, which stands in the metadata of its entry.
    pub fn read(alloc: Global, kind: u64, bytes: &[u8]) -> Result<Marker, MarkerFault>
        // What is read is what the bytes say.
        ensures found { IfOk result (IsMarkerText kind bytes.now) }
        // What the bytes say is read, unless memory runs out.
        ensures only { (m : Marker) → IsMarkerText kind bytes.now m → Answers MarkerFault.Memory result (Ok m) }
        // A number of no kind is refused, whatever the bytes are.
        ensures no_kind { IsNoKind kind → result ≡ Err (MarkerFault.UnknownKind kind) }
        // A fault is the first by the order of judgement.
        ensures fault { IfErr result (IsWrongOrMemory (WrongMarker kind bytes.now)) }
        // The first fault is answered, unless memory runs out.
        ensures refused { (e : MarkerFault) → WrongMarker kind bytes.now e → Answers MarkerFault.Memory result (Err e) }
    {
        match MarkerKind::from_number(kind) {
            Some(kind) => marker_of_kind(alloc, kind, bytes),
            None => Err(MarkerFault::UnknownKind(kind)),
        }
    }
}

/// Reads the fields of the kind, and takes from them what its table names.
fn marker_of_kind(alloc: Global, kind: MarkerKind, bytes: &[u8]) -> Result<Marker, MarkerFault>
    ensures found { IfOk result (IsMarkerText (kind_number kind) bytes.now) }
    ensures fault { IfErr result (IsWrongOrMemory (WrongMarker (kind_number kind) bytes.now)) }
{
    let fields = read_message_with(alloc, kind.rows(), &kind, bytes)?;
    Ok(marker_of_fields(alloc, kind, fields.as_slice())?)
}

/// What the fields say.
fn marker_of_fields(alloc: Global, kind: MarkerKind, fields: &[Field]) -> Result<Marker, Memory>
    requires { IsMessageWith (RightPart kind) (kind_rows kind) fields.now }
    ensures kind { IfOk result (λ m. marker_kind m ≡ kind) }
    ensures says { IfOk result (Says fields.now) }
{
    match kind {
        MarkerKind::Request => request_of(alloc, fields),
        MarkerKind::Response => response_of(alloc, fields),
        MarkerKind::Snapshot => snapshot_of(alloc, fields),
        MarkerKind::Update => update_of(alloc, fields),
    }
}

fn request_of(alloc: Global, fields: &[Field]) -> Result<Marker, Memory>
    requires { IsMessageWith (RightPart kind.Request) request_rows fields.now }
    ensures kind { IfOk result (λ m. marker_kind m ≡ kind.Request) }
    ensures says { IfOk result (Says fields.now) }
{
    let id = Text::from_str(alloc, required_text(REQUEST_ROWS, fields, SNAPSHOT_ID))?;
    let source = Text::from_str(alloc, required_text(REQUEST_ROWS, fields, SOURCE_CLUSTER))?;
    Ok(Marker::Request {
        snapshot_id: id,
        source_cluster: source,
    })
}

fn response_of(alloc: Global, fields: &[Field]) -> Result<Marker, Memory>
    requires { IsMessageWith (RightPart kind.Response) response_rows fields.now }
    ensures kind { IfOk result (λ m. marker_kind m ≡ kind.Response) }
    ensures says { IfOk result (Says fields.now) }
{
    let id = Text::from_str(alloc, required_text(RESPONSE_ROWS, fields, SNAPSHOT_ID))?;
    let held = required_message(
        RESPONSE_ROWS,
        &MarkerKind::Response,
        fields,
        RESPONSE_CLUSTER,
    );
    let cluster = cluster_of(alloc, held)?;
    Ok(Marker::Response {
        snapshot_id: id,
        cluster,
    })
}

fn snapshot_of(alloc: Global, fields: &[Field]) -> Result<Marker, Memory>
    requires { IsMessageWith (RightPart kind.Snapshot) snapshot_rows fields.now }
    ensures kind { IfOk result (λ m. marker_kind m ≡ kind.Snapshot) }
    ensures says { IfOk result (Says fields.now) }
{
    let id = Text::from_str(alloc, required_text(SNAPSHOT_ROWS, fields, SNAPSHOT_ID))?;
    let held = required_message(
        SNAPSHOT_ROWS,
        &MarkerKind::Snapshot,
        fields,
        LOCAL_MESSAGE_ID,
    );
    let local = position_of(alloc, held)?;
    let clusters = clusters_of(alloc, fields, SNAPSHOT_CLUSTERS)?;
    Ok(Marker::Snapshot {
        snapshot_id: id,
        local_message_id: local,
        clusters,
    })
}

fn update_of(alloc: Global, fields: &[Field]) -> Result<Marker, Memory>
    requires { IsMessageWith (RightPart kind.Update) update_rows fields.now }
    ensures kind { IfOk result (λ m. marker_kind m ≡ kind.Update) }
    ensures says { IfOk result (Says fields.now) }
{
    let name = Text::from_str(alloc, required_text(UPDATE_ROWS, fields, SUBSCRIPTION_NAME))?;
    let clusters = clusters_of(alloc, fields, UPDATE_CLUSTERS)?;
    Ok(Marker::Update {
        subscription_name: name,
        clusters,
    })
}

/// The want of memory that a judged content can still meet.
fn wanting(why: MessageFault) -> Memory
    requires { why ≡ MessageFault.Memory }
{
    match why {
        MessageFault::Memory => Memory,
        _ => unreachable!(),
    }
}

/// What a MarkersMessageIdData says.
fn position_of(alloc: Global, content: &[u8]) -> Result<Position, Memory>
    requires { RightPosition 0 content.now }
    ensures { IfOk result (IsPositionText content.now) }
{
    match read_message_with(alloc, POSITION_ROWS, &Unread, content) {
        Ok(fields) => Ok(Position {
            ledger: required_varint(POSITION_ROWS, fields.as_slice(), LEDGER_ID),
            entry: required_varint(POSITION_ROWS, fields.as_slice(), ENTRY_ID),
        }),
        Err(why) => Err(wanting(why)),
    }
}

/// What a ClusterMessageId says.
#[tactic(auto, using(crate::proofs::Clusters::cluster_is))]
fn cluster_of(alloc: Global, content: &[u8]) -> Result<ClusterMessageId, Memory>
    requires { RightCluster 0 content.now }
    ensures { IfOk result (IsClusterText content.now) }
{
    match read_message_with(alloc, CLUSTER_ROWS, &POSITION_PARTS, content) {
        Ok(fields) => cluster_of_fields(alloc, fields.as_slice()),
        Err(why) => Err(wanting(why)),
    }
}

fn cluster_of_fields(alloc: Global, fields: &[Field]) -> Result<ClusterMessageId, Memory>
    requires { IsMessageWith RightPosition cluster_rows fields.now }
    ensures { IfOk result (SaysCluster fields.now) }
{
    let name = Text::from_str(alloc, required_text(CLUSTER_ROWS, fields, CLUSTER))?;
    let held = required_message(CLUSTER_ROWS, &POSITION_PARTS, fields, MESSAGE_ID);
    let position = position_of(alloc, held)?;
    Ok(ClusterMessageId {
        cluster: name,
        message_id: position,
    })
}

/// What a value that holds a ClusterMessageId says.
fn cluster_of_value(alloc: Global, value: &Value) -> Result<ClusterMessageId, Memory>
    requires { IsHeld (RightCluster 0) value.now }
    ensures { IfOk result (HoldsCluster value.now) }
{
    match value.as_bytes() {
        Some(content) => cluster_of(alloc, content),
        None => unreachable!(),
    }
}

/// What the values of a repeated ClusterMessageId say.
fn clusters_of(alloc: Global, fields: &[Field], number: u32) -> Result<ClusterMessageIds, Memory>
    requires { AllByRecursion (IsHeld (RightCluster 0)) (values number fields.now) }
    ensures { IfOk result (AreClusters (values number fields.now)) }
{
    let mut clusters = ClusterMessageIds::new(alloc);
    for field in fields {
        if field.number == number {
            clusters.push(cluster_of_value(alloc, &field.value)?)?;
        }
    }
    Ok(clusters)
}
