//! The fields of the commands that are read, with the numbers and types of PulsarApi.proto.

use pb_fields::message::{Form, Row};

/// A field that holds a value of an enumeration.
#[derive(Clone, Copy, Drop)]
pub(crate) struct Choice {
    /// The field's number.
    pub number: u32,
    /// The enumeration's values are those from 0 below this.
    pub size: u64,
}

/// The row of a field that a message has to have.
macro_rules! required {
    ($number:expr, $form:ident) => {
        Row {
            number: $number,
            form: Form::$form,
            required: true,
        }
    };
}

/// The row of a field that a message need not have.
macro_rules! optional {
    ($number:expr, $form:ident) => {
        Row {
            number: $number,
            form: Form::$form,
            required: false,
        }
    };
}

/// The type of a BaseCommand.
pub(crate) const TYPE: u32 = 1;

pub(crate) const TYPE_ROWS: &[Row] = &[required!(TYPE, Varint)];

/// The ledgerId of a MessageIdData.
pub(crate) const LEDGER: u32 = 1;

/// The entryId of a MessageIdData.
pub(crate) const ENTRY: u32 = 2;

/// The message_id of a CommandAck.
pub(crate) const MESSAGE_ID: u32 = 3;

/// MessageIdData: ledgerId, entryId.
pub(crate) const ID_ROWS: &[Row] = &[required!(LEDGER, Varint), required!(ENTRY, Varint)];

/// client_version, protocol_version.
pub(crate) const CONNECT: &[Row] = &[required!(1, Text), optional!(4, Varint)];

/// server_version, protocol_version.
pub(crate) const CONNECTED: &[Row] = &[required!(1, Text), optional!(2, Varint)];

/// topic, subscription, subType, consumer_id, request_id, consumer_name, initialPosition, replicate_subscription_state.
pub(crate) const SUBSCRIBE: &[Row] = &[
    required!(1, Text),
    required!(2, Text),
    required!(3, Varint),
    required!(4, Varint),
    required!(5, Varint),
    optional!(6, Text),
    optional!(13, Varint),
    optional!(14, Varint),
];

/// subType: Exclusive, Shared, Failover, Key_Shared. initialPosition: Latest, Earliest.
pub(crate) const SUBSCRIBE_CHOICES: &[Choice] = &[
    Choice { number: 3, size: 4 },
    Choice {
        number: 13,
        size: 2,
    },
];

/// topic, producer_id, request_id, producer_name.
pub(crate) const PRODUCER: &[Row] = &[
    required!(1, Text),
    required!(2, Varint),
    required!(3, Varint),
    optional!(4, Text),
];

/// producer_id, sequence_id, num_messages.
pub(crate) const SEND: &[Row] = &[
    required!(1, Varint),
    required!(2, Varint),
    optional!(3, Varint),
];

/// producer_id, sequence_id, message_id.
pub(crate) const SEND_RECEIPT: &[Row] = &[
    required!(1, Varint),
    required!(2, Varint),
    optional!(3, Message),
];

/// producer_id, sequence_id, error, message.
pub(crate) const SEND_ERROR: &[Row] = &[
    required!(1, Varint),
    required!(2, Varint),
    required!(3, Varint),
    required!(4, Text),
];

/// consumer_id, message_id.
pub(crate) const MESSAGE: &[Row] = &[required!(1, Varint), required!(2, Message)];

/// consumer_id, ack_type, message_id.
pub(crate) const ACK: &[Row] = &[
    required!(1, Varint),
    required!(2, Varint),
    optional!(3, Message),
];

/// ack_type: Individual, Cumulative.
pub(crate) const ACK_CHOICES: &[Choice] = &[Choice { number: 2, size: 2 }];

/// consumer_id, messagePermits.
pub(crate) const FLOW: &[Row] = &[required!(1, Varint), required!(2, Varint)];

/// consumer_id, request_id.
pub(crate) const UNSUBSCRIBE: &[Row] = &[required!(1, Varint), required!(2, Varint)];

/// request_id.
pub(crate) const SUCCESS: &[Row] = &[required!(1, Varint)];

/// request_id, error, message.
pub(crate) const ERROR: &[Row] = &[
    required!(1, Varint),
    required!(2, Varint),
    required!(3, Text),
];

/// producer_id, request_id.
pub(crate) const CLOSE_PRODUCER: &[Row] = &[required!(1, Varint), required!(2, Varint)];

/// consumer_id, request_id.
pub(crate) const CLOSE_CONSUMER: &[Row] = &[required!(1, Varint), required!(2, Varint)];

/// request_id, producer_name.
pub(crate) const PRODUCER_SUCCESS: &[Row] = &[required!(1, Varint), required!(2, Text)];
