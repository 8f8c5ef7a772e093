//! The kinds of markers, and the fields of each (PulsarMarkers.proto). In this project every field that is not repeated
//! is required (own).

ghost use Rattle.std.specs.Prelude.{◌≡◌};
ghost use Rattle.marker_codec.specs.declared.kind.MarkerKind.TheVariants as kind;
ghost use Rattle.marker_codec.specs.Kinds.{kind_number};
ghost use Rattle.marker_codec.specs.Table as field;

use pb_fields::embedded::{OfTable, Unread};
use pb_fields::message::{Form, Row};

/// The kind of a request (this and the next three: PulsarMarkers.proto's MarkerType, as known and not looked up).
pub const REQUEST: u64 = 10;

/// The kind of a response.
pub const RESPONSE: u64 = 11;

/// The kind of a snapshot.
pub const SNAPSHOT: u64 = 12;

/// The kind of an update.
pub const UPDATE: u64 = 13;

/// The name of a snapshot, in a request, a response and a snapshot.
pub const SNAPSHOT_ID: u32 = 1;

/// The name of the cluster that asks, in a request.
pub const SOURCE_CLUSTER: u32 = 2;

/// The cluster that answers and its position, in a response.
pub const RESPONSE_CLUSTER: u32 = 2;

/// The position in the own topic, in a snapshot.
pub const LOCAL_MESSAGE_ID: u32 = 2;

/// The other clusters and their positions, in a snapshot.
pub const SNAPSHOT_CLUSTERS: u32 = 3;

/// The name of a subscription, in an update.
pub const SUBSCRIPTION_NAME: u32 = 1;

/// The clusters and their positions, in an update.
pub const UPDATE_CLUSTERS: u32 = 2;

/// The cluster's name, in a ClusterMessageId.
pub const CLUSTER: u32 = 1;

/// The position, in a ClusterMessageId.
pub const MESSAGE_ID: u32 = 2;

/// The ledger, in a MarkersMessageIdData.
pub const LEDGER_ID: u32 = 1;

/// The entry, in a MarkersMessageIdData.
pub const ENTRY_ID: u32 = 2;

/// The fields of a request.
pub const REQUEST_ROWS: &[Row] = &[
    Row {
        number: SNAPSHOT_ID,
        form: Form::Text,
        required: true,
    },
    Row {
        number: SOURCE_CLUSTER,
        form: Form::Text,
        required: true,
    },
];

/// The fields of a response.
pub const RESPONSE_ROWS: &[Row] = &[
    Row {
        number: SNAPSHOT_ID,
        form: Form::Text,
        required: true,
    },
    Row {
        number: RESPONSE_CLUSTER,
        form: Form::Message,
        required: true,
    },
];

/// The fields of a snapshot.
pub const SNAPSHOT_ROWS: &[Row] = &[
    Row {
        number: SNAPSHOT_ID,
        form: Form::Text,
        required: true,
    },
    Row {
        number: LOCAL_MESSAGE_ID,
        form: Form::Message,
        required: true,
    },
    Row {
        number: SNAPSHOT_CLUSTERS,
        form: Form::Message,
        required: false,
    },
];

/// The fields of an update.
pub const UPDATE_ROWS: &[Row] = &[
    Row {
        number: SUBSCRIPTION_NAME,
        form: Form::Text,
        required: true,
    },
    Row {
        number: UPDATE_CLUSTERS,
        form: Form::Message,
        required: false,
    },
];

/// The fields of a ClusterMessageId.
pub const CLUSTER_ROWS: &[Row] = &[
    Row {
        number: CLUSTER,
        form: Form::Text,
        required: true,
    },
    Row {
        number: MESSAGE_ID,
        form: Form::Message,
        required: true,
    },
];

/// The fields of a MarkersMessageIdData.
pub const POSITION_ROWS: &[Row] = &[
    Row {
        number: LEDGER_ID,
        form: Form::Varint,
        required: true,
    },
    Row {
        number: ENTRY_ID,
        form: Form::Varint,
        required: true,
    },
];

/// The numbers of the protocol: the definitions write each themselves, and the constants here are the same.
pub fn protocol_numbers()
    ensures request { REQUEST ≡ kind_number kind.Request }
    ensures response { RESPONSE ≡ kind_number kind.Response }
    ensures snapshot { SNAPSHOT ≡ kind_number kind.Snapshot }
    ensures update { UPDATE ≡ kind_number kind.Update }
    ensures snapshot_id { SNAPSHOT_ID ≡ field.snapshot_id }
    ensures source_cluster { SOURCE_CLUSTER ≡ field.source_cluster }
    ensures response_cluster { RESPONSE_CLUSTER ≡ field.response_cluster }
    ensures local_message_id { LOCAL_MESSAGE_ID ≡ field.local_message_id }
    ensures snapshot_clusters { SNAPSHOT_CLUSTERS ≡ field.snapshot_clusters }
    ensures subscription_name { SUBSCRIPTION_NAME ≡ field.subscription_name }
    ensures update_clusters { UPDATE_CLUSTERS ≡ field.update_clusters }
    ensures cluster { CLUSTER ≡ field.cluster }
    ensures message_id { MESSAGE_ID ≡ field.message_id }
    ensures ledger_id { LEDGER_ID ≡ field.ledger_id }
    ensures entry_id { ENTRY_ID ≡ field.entry_id }
    ensures request_rows { REQUEST_ROWS.now ≡ field.request_rows }
    ensures response_rows { RESPONSE_ROWS.now ≡ field.response_rows }
    ensures snapshot_rows { SNAPSHOT_ROWS.now ≡ field.snapshot_rows }
    ensures update_rows { UPDATE_ROWS.now ≡ field.update_rows }
    ensures cluster_rows { CLUSTER_ROWS.now ≡ field.cluster_rows }
    ensures position_rows { POSITION_ROWS.now ≡ field.position_rows }
{}

/// Embedded messages that are each a MarkersMessageIdData.
pub(crate) const POSITION_PARTS: OfTable<'static, Unread> = OfTable {
    rows: POSITION_ROWS,
    embedded: Unread,
};

/// Embedded messages that are each a ClusterMessageId.
pub(crate) const CLUSTER_PARTS: OfTable<'static, OfTable<'static, Unread>> = OfTable {
    rows: CLUSTER_ROWS,
    embedded: POSITION_PARTS,
};
