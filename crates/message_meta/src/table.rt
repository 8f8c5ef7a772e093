//! The fields of message metadata that are read.

ghost use Rattle.std.specs.Prelude.{◌≡◌};
ghost use Rattle.message_meta.specs.Table as field;

use pb_fields::message::{Form, Row};

/// The name of the producer that published the message.
pub const PRODUCER_NAME: u32 = 1;

/// The message's number within its producer.
pub const SEQUENCE_ID: u32 = 2;

/// When it was published, in milliseconds since 1970.
pub const PUBLISH_TIME: u32 = 3;

/// The cluster that the message was replicated from.
pub const REPLICATED_FROM: u32 = 5;

/// The key by which messages are told apart and ordered.
pub const PARTITION_KEY: u32 = 6;

/// The clusters that the message is replicated to, one a field.
pub const REPLICATE_TO: u32 = 7;

/// What kind of marker the message is, where it is one.
pub const MARKER_TYPE: u32 = 20;

/// The numbers and types of PulsarApi.proto; that of `marker_type` as known and not looked up.
pub const ROWS: &[Row] = &[
    Row {
        number: PRODUCER_NAME,
        form: Form::Text,
        required: true,
    },
    Row {
        number: SEQUENCE_ID,
        form: Form::Varint,
        required: true,
    },
    Row {
        number: PUBLISH_TIME,
        form: Form::Varint,
        required: true,
    },
    Row {
        number: REPLICATED_FROM,
        form: Form::Text,
        required: false,
    },
    Row {
        number: PARTITION_KEY,
        form: Form::Text,
        required: false,
    },
    Row {
        number: REPLICATE_TO,
        form: Form::Text,
        required: false,
    },
    Row {
        number: MARKER_TYPE,
        form: Form::Varint,
        required: false,
    },
];

/// The numbers of the protocol: the definitions write each themselves, and the constants here are the same.
pub fn protocol_numbers()
    ensures producer_name { PRODUCER_NAME ≡ field.producer_name }
    ensures sequence_id { SEQUENCE_ID ≡ field.sequence_id }
    ensures publish_time { PUBLISH_TIME ≡ field.publish_time }
    ensures replicated_from { REPLICATED_FROM ≡ field.replicated_from }
    ensures partition_key { PARTITION_KEY ≡ field.partition_key }
    ensures replicate_to { REPLICATE_TO ≡ field.replicate_to }
    ensures marker_type { MARKER_TYPE ≡ field.marker_type }
    ensures rows { ROWS.now ≡ field.rows }
{}
