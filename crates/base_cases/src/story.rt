//! One story with lines of all kinds.
use geo_base::{Blob, Ident, Line, Memory, ProducerName, Sequence, SubKind, Targets, Text};
use std::alloc::Global;

/// What happens to the client.
#[derive(Clone, Copy, Drop)]
pub enum Act {
    Go,
    Reconnect,
    /// The bytes of a frame that was sent in a session come.
    Get(u64, &'static [u8]),
}

use Act::{Get, Go, Reconnect};

/// The receipt of sequence id 0.
const STORED_0: &[u8] =
    b"\x00\x00\x00\x12\x00\x00\x00\x0e\x08\x07\x3a\x0a\x08\x00\x10\x00\x1a\x04\x08\x00\x10\x00";

/// The receipt of a duplicate of 1.
const DUPLICATE_1: &[u8] =
    b"\x00\x00\x00\x24\x00\x00\x00\x20\x08\x07\x3a\x1c\x08\x00\x10\x01\x1a\x16\x08\xff\xff\xff\xff\xff\xff\xff\xff\xff\x01\x10\xff\xff\xff\xff\xff\xff\xff\xff\xff\x01";

/// Sequence id 1 is refused.
const REFUSED_1: &[u8] =
    b"\x00\x00\x00\x15\x00\x00\x00\x11\x08\x08\x42\x0d\x08\x00\x10\x01\x18\x01\x22\x05\x65\x72\x72\x6f\x72";

/// A request is refused.
const ERROR: &[u8] =
    b"\x00\x00\x00\x13\x00\x00\x00\x0f\x08\x0e\x72\x0b\x08\x03\x10\x01\x1a\x05\x65\x72\x72\x6f\x72";

/// A message to consumer 3, at 0:0 the message 0 of p.
const MESSAGE_0: &[u8] =
    b"\x00\x00\x00\x1c\x00\x00\x00\x0c\x08\x09\x4a\x08\x08\x03\x12\x04\x08\x00\x10\x00\x00\x00\x00\x07\x0a\x01\x70\x10\x00\x18\x00\x78";

/// At 0:1 the message 7 of q, from cluster b.
const MESSAGE_OF_B: &[u8] =
    b"\x00\x00\x00\x1f\x00\x00\x00\x0c\x08\x09\x4a\x08\x08\x03\x12\x04\x08\x00\x10\x01\x00\x00\x00\x0a\x0a\x01\x71\x10\x07\x18\x00\x2a\x01\x62\x78";

/// A message from cluster z, which nobody declared.
const MESSAGE_OF_Z: &[u8] =
    b"\x00\x00\x00\x1f\x00\x00\x00\x0c\x08\x09\x4a\x08\x08\x03\x12\x04\x08\x00\x10\x02\x00\x00\x00\x0a\x0a\x01\x70\x10\x09\x18\x00\x2a\x01\x7a\x78";

/// At 0:3 the message 1 of p.
const MESSAGE_1: &[u8] =
    b"\x00\x00\x00\x1c\x00\x00\x00\x0c\x08\x09\x4a\x08\x08\x03\x12\x04\x08\x00\x10\x03\x00\x00\x00\x07\x0a\x01\x70\x10\x01\x18\x00\x78";

/// A message to another consumer.
const MESSAGE_TO_9: &[u8] =
    b"\x00\x00\x00\x1c\x00\x00\x00\x0c\x08\x09\x4a\x08\x08\x09\x12\x04\x08\x00\x10\x02\x00\x00\x00\x07\x0a\x01\x70\x10\x09\x18\x00\x78";

/// What the client does or gets, how many packets it sends, and what it is then: how many lines are done, the `produce`, `sub`
/// and `flow` lines in force, publishes without receipt, messages held and got, and receipts, duplicates and errors.
pub type Row = (Act, usize, State);

/// A row after what happens and what is sent.
pub type State = (usize, &'static [Option<usize>], [usize; 3], [u64; 3]);

pub const ROWS: &[Row] = &[
    // No line is done before the client is connected.
    (Go, 0, (0, &[None, None, None], [0, 0, 0], [0, 0, 0])),
    (Reconnect, 1, (0, &[None, None, None], [0, 0, 0], [0, 0, 0])),
    // `produce`, two publishes, `sub`, `flow`.
    (Go, 1, (1, &[Some(0), None, None], [0, 0, 0], [0, 0, 0])),
    (Go, 1, (2, &[Some(0), None, None], [1, 0, 0], [0, 0, 0])),
    (Go, 1, (3, &[Some(0), None, None], [2, 0, 0], [0, 0, 0])),
    (Go, 1, (4, &[Some(0), Some(3), None], [2, 0, 0], [0, 0, 0])),
    (
        Go,
        1,
        (5, &[Some(0), Some(3), Some(4)], [2, 0, 0], [0, 0, 0]),
    ),
    // Nothing is held that could be acknowledged.
    (
        Go,
        0,
        (5, &[Some(0), Some(3), Some(4)], [2, 0, 0], [0, 0, 0]),
    ),
    // An earlier connection, no frame, an unknown cluster, another consumer.
    (
        Get(0, MESSAGE_0),
        0,
        (5, &[Some(0), Some(3), Some(4)], [2, 0, 0], [0, 0, 0]),
    ),
    (
        Get(1, b"\x00\x00\x00\x01\x07"),
        0,
        (5, &[Some(0), Some(3), Some(4)], [2, 0, 0], [0, 0, 0]),
    ),
    (
        Get(1, MESSAGE_OF_Z),
        0,
        (5, &[Some(0), Some(3), Some(4)], [2, 0, 0], [0, 0, 0]),
    ),
    (
        Get(1, MESSAGE_TO_9),
        0,
        (5, &[Some(0), Some(3), Some(4)], [2, 0, 0], [0, 0, 0]),
    ),
    (
        Get(1, MESSAGE_0),
        0,
        (5, &[Some(0), Some(3), Some(4)], [2, 1, 1], [0, 0, 0]),
    ),
    (
        Get(1, MESSAGE_OF_B),
        0,
        (5, &[Some(0), Some(3), Some(4)], [2, 2, 2], [0, 0, 0]),
    ),
    (
        Get(1, MESSAGE_1),
        0,
        (5, &[Some(0), Some(3), Some(4)], [2, 3, 3], [0, 0, 0]),
    ),
    // `ack`, `ackto`, `ackall`, `ping`.
    (
        Go,
        1,
        (6, &[Some(0), Some(3), Some(4)], [2, 2, 3], [0, 0, 0]),
    ),
    (
        Go,
        1,
        (7, &[Some(0), Some(3), Some(4)], [2, 1, 3], [0, 0, 0]),
    ),
    (
        Go,
        1,
        (8, &[Some(0), Some(3), Some(4)], [2, 0, 3], [0, 0, 0]),
    ),
    (
        Go,
        1,
        (9, &[Some(0), Some(3), Some(4)], [2, 0, 3], [0, 0, 0]),
    ),
    // Two publishes have no receipt: the producer can't be closed.
    (
        Go,
        0,
        (9, &[Some(0), Some(3), Some(4)], [2, 0, 3], [0, 0, 0]),
    ),
    (
        Get(1, STORED_0),
        0,
        (9, &[Some(0), Some(3), Some(4)], [1, 0, 3], [1, 0, 0]),
    ),
    // CONNECT, the three lines in force, one publish.
    (
        Reconnect,
        5,
        (9, &[Some(0), Some(3), Some(4)], [1, 0, 3], [1, 0, 0]),
    ),
    (
        Get(1, DUPLICATE_1),
        0,
        (9, &[Some(0), Some(3), Some(4)], [1, 0, 3], [1, 0, 0]),
    ),
    (
        Get(2, DUPLICATE_1),
        0,
        (9, &[Some(0), Some(3), Some(4)], [0, 0, 3], [1, 1, 0]),
    ),
    // Nothing waits for an answer any more.
    (
        Get(2, REFUSED_1),
        0,
        (9, &[Some(0), Some(3), Some(4)], [0, 0, 3], [1, 1, 0]),
    ),
    (
        Get(2, ERROR),
        0,
        (9, &[Some(0), Some(3), Some(4)], [0, 0, 3], [1, 1, 1]),
    ),
    // `closep`, `close`, `sub`, `unsub`, `move`.
    (Go, 1, (10, &[None, Some(3), Some(4)], [0, 0, 3], [1, 1, 1])),
    (
        Get(2, MESSAGE_0),
        0,
        (10, &[None, Some(3), Some(4)], [0, 1, 4], [1, 1, 1]),
    ),
    (Go, 1, (11, &[None, None, None], [0, 0, 4], [1, 1, 1])),
    (Go, 1, (12, &[None, Some(11), None], [0, 0, 4], [1, 1, 1])),
    (Go, 1, (13, &[None, None, None], [0, 0, 4], [1, 1, 1])),
    (Go, 1, (14, &[None, None, None], [0, 0, 4], [1, 1, 1])),
    // There is no line left.
    (Go, 0, (14, &[None, None, None], [0, 0, 4], [1, 1, 1])),
];

/// An identity.
fn ident(alloc: Global, origin: u32, producer: &str, seq: u64) -> Result<Ident, Memory> {
    Ok(Ident {
        origin,
        producer: ProducerName::any(alloc, producer)?,
        seq,
    })
}

/// A line that publishes.
fn publish(alloc: Global, seq: u64, to: Targets) -> Result<Line, Memory> {
    Ok(Line::Pub {
        seq,
        to,
        key: None,
        text: Blob::from_slice(alloc, b"hi")?,
    })
}

/// A line that subscribes.
fn subscribe(alloc: Global, kind: SubKind) -> Result<Line, Memory> {
    Ok(Line::Sub {
        sub: Text::from_str(alloc, "s")?,
        kind,
        earliest: true,
        replicated: true,
    })
}

/// Adds the client's lines.
pub fn add_lines(alloc: Global, lines: &mut Sequence<Line>) -> Result<(), Memory> {
    add_producer(alloc, lines)?;
    add_consumer(alloc, lines)?;
    add_acks(alloc, lines)?;
    add_ends(alloc, lines)
}

fn add_producer(alloc: Global, lines: &mut Sequence<Line>) -> Result<(), Memory> {
    lines.push(Line::Produce)?;
    lines.push(publish(alloc, 0, Targets::Only(2))?)?;
    lines.push(publish(alloc, 1, Targets::All)?)
}

fn add_consumer(alloc: Global, lines: &mut Sequence<Line>) -> Result<(), Memory> {
    lines.push(subscribe(alloc, SubKind::Shared)?)?;
    lines.push(Line::Flow { permits: 5 })
}

fn add_acks(alloc: Global, lines: &mut Sequence<Line>) -> Result<(), Memory> {
    let first = ident(alloc, 0, "p", 0)?;
    lines.push(Line::Ack { ident: first })?;
    let second = ident(alloc, 1, "q", 7)?;
    lines.push(Line::AckTo { ident: second })?;
    lines.push(Line::AckAll)
}

fn add_ends(alloc: Global, lines: &mut Sequence<Line>) -> Result<(), Memory> {
    lines.push(Line::Ping)?;
    lines.push(Line::CloseProducer)?;
    lines.push(Line::Close)?;
    lines.push(subscribe(alloc, SubKind::Exclusive)?)?;
    lines.push(Line::Unsub)?;
    lines.push(Line::Move { cluster: 1 })
}
