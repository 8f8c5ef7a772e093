//! The parts of a replicator's sending side that code and definitions share.

/// Whether the other side has opened the replicator's session.
#[derive(Clone, Copy, Drop, PartialEq, Eq)]
pub enum ReplicatorState {
    /// No session was begun since the broker started.
    Closed,
    /// The opening PRODUCER went out.
    Opening,
    /// PRODUCER_SUCCESS came back.
    Open,
}

/// An entry that was sent and whose receipt is awaited: its number within the session, from 0, and its index.
#[derive(Clone, Copy, Drop, PartialEq, Eq)]
pub struct Pending {
    pub number: u64,
    pub index: u64,
}
