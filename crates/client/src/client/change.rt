//! What an event changes at a client.
use geo_base::{Ident, Position};

/// What an event changes at a client. All but the last do its next line.
#[derive(Drop)]
pub enum ClientChange {
    /// The line is done, and nothing else changes.
    LineDone,
    /// The line is the `produce` line in force from now on.
    Produces,
    /// The line publishes, and its receipt is awaited.
    Publishes,
    /// The line is the `sub` line in force from now on: no `flow` line is, and nothing is held.
    Subscribes,
    /// The line is the `flow` line in force from now on.
    Permits,
    /// The first held message of an identity is acknowledged.
    Acknowledges(Ident),
    /// All that is held up to a position is acknowledged.
    AcknowledgesTo(Position),
    /// What is held first is acknowledged, as much as one ACK may name.
    AcknowledgesAll,
    /// No `sub` and no `flow` line is in force any more, and nothing is held.
    EndsSub,
    /// No `produce` line is in force any more.
    EndsProducer,
    /// The client is at another cluster, connects to it, and holds nothing.
    Moves(u32),
    /// The client connects again to its cluster, and holds nothing.
    Reconnects,
}
