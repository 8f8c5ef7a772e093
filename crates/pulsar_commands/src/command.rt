//! Commands as values.

ghost use Rattle.std.specs.Prelude.{◌≡◌};
ghost use Rattle.pulsar_commands.specs.Parts.{kind_of};

use crate::kind::Kind;
use geo_base::{AckKind, Position, Sequence, SubKind, Text};

/// Positions in order.
pub type PositionList = Sequence<Position>;

/// A command of the binary protocol, with the field names of PulsarApi.proto in lower case. Numbers are 64-bit varints
/// as they came; a field that need not be there is an `Option` where its absence has no value.
#[derive(Drop)]
pub enum Command {
    Connect {
        client_version: Text,
        protocol_version: Option<u64>,
    },
    Connected {
        server_version: Text,
        protocol_version: Option<u64>,
    },
    Subscribe {
        topic: Text,
        subscription: Text,
        sub_type: SubKind,
        consumer_id: u64,
        request_id: u64,
        consumer_name: Option<Text>,
        /// Whether it is Earliest; else, and where it is absent, Latest.
        initial_position: bool,
        /// False also where it is absent.
        replicate_subscription_state: bool,
    },
    Producer {
        topic: Text,
        producer_id: u64,
        request_id: u64,
        producer_name: Option<Text>,
    },
    Send {
        producer_id: u64,
        sequence_id: u64,
        /// 1 also where it is absent.
        num_messages: u64,
    },
    SendReceipt {
        producer_id: u64,
        sequence_id: u64,
        message_id: Option<Position>,
    },
    SendError {
        producer_id: u64,
        sequence_id: u64,
        error: u64,
        message: Text,
    },
    Message {
        consumer_id: u64,
        message_id: Position,
    },
    Ack {
        consumer_id: u64,
        ack_type: AckKind,
        message_id: PositionList,
    },
    Flow {
        consumer_id: u64,
        message_permits: u64,
    },
    Unsubscribe {
        consumer_id: u64,
        request_id: u64,
    },
    Success {
        request_id: u64,
    },
    Error {
        request_id: u64,
        error: u64,
        message: Text,
    },
    CloseProducer {
        producer_id: u64,
        request_id: u64,
    },
    CloseConsumer {
        consumer_id: u64,
        request_id: u64,
    },
    ProducerSuccess {
        request_id: u64,
        producer_name: Text,
    },
    Ping,
    Pong,
}

impl Command {
    /// The command's type.
    pub fn kind(&self) -> Kind
        ensures { result ≡ kind_of self.now }
    {
        match self {
            Command::Connect { .. } => Kind::Connect,
            Command::Connected { .. } => Kind::Connected,
            Command::Subscribe { .. } => Kind::Subscribe,
            Command::Producer { .. } => Kind::Producer,
            Command::Send { .. } => Kind::Send,
            Command::SendReceipt { .. } => Kind::SendReceipt,
            Command::SendError { .. } => Kind::SendError,
            Command::Message { .. } => Kind::Message,
            Command::Ack { .. } => Kind::Ack,
            Command::Flow { .. } => Kind::Flow,
            Command::Unsubscribe { .. } => Kind::Unsubscribe,
            Command::Success { .. } => Kind::Success,
            Command::Error { .. } => Kind::Error,
            Command::CloseProducer { .. } => Kind::CloseProducer,
            Command::CloseConsumer { .. } => Kind::CloseConsumer,
            Command::ProducerSuccess { .. } => Kind::ProducerSuccess,
            Command::Ping => Kind::Ping,
            Command::Pong => Kind::Pong,
        }
    }
}
