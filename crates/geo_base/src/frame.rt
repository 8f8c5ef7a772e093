//! What a packet carries: one command, with an entry where it has a payload (BaseCommand in PulsarApi.proto).
use crate::entry::Entry;
use crate::marker::ClusterRef;
use crate::position::Position;
use crate::sequence::Sequence;
use crate::text::Text;

/// How the consumers of a subscription share its messages (subType of CommandSubscribe).
#[derive(Clone, Copy, Drop, PartialEq, Eq)]
pub enum SubKind {
    Exclusive,
    Shared,
    Failover,
    KeyShared,
}

/// What an acknowledgement covers: the positions that it names, or all up to the one that it names (ack_type of CommandAck).
#[derive(Clone, Copy, Drop, PartialEq, Eq)]
pub enum AckKind {
    Individual,
    Cumulative,
}

/// A command as a value. `id` is a producer's or a consumer's id, `request` a request id, `source` the entry's `replicated_from`.
#[derive(Drop)]
pub enum Frame {
    Connect,
    Connected,
    Subscribe {
        topic: Text,
        sub: Text,
        kind: SubKind,
        id: u64,
        request: u64,
        consumer: Option<Text>,
        earliest: bool,
        replicated: bool,
    },
    Producer {
        topic: Text,
        id: u64,
        request: u64,
        name: Option<Text>,
    },
    Send {
        id: u64,
        seq: u64,
        source: Option<ClusterRef>,
        entry: Entry,
    },
    SendReceipt {
        id: u64,
        seq: u64,
        position: Option<Position>,
    },
    SendError {
        id: u64,
        seq: u64,
        code: u64,
    },
    Message {
        id: u64,
        position: Position,
        source: Option<ClusterRef>,
        entry: Entry,
    },
    Ack {
        id: u64,
        kind: AckKind,
        positions: Sequence<Position>,
    },
    Flow {
        id: u64,
        permits: u64,
    },
    Unsubscribe {
        id: u64,
        request: u64,
    },
    Success {
        request: u64,
    },
    Error {
        request: u64,
        code: u64,
    },
    CloseProducer {
        id: u64,
        request: u64,
    },
    CloseConsumer {
        id: u64,
        request: u64,
    },
    ProducerSuccess {
        request: u64,
        name: Text,
    },
    Ping,
    Pong,
    /// Bytes that are no text of a frame.
    Unreadable,
}
