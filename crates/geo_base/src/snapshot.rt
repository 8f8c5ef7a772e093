//! Snapshots of replicated subscriptions (PIP-33).
use crate::position::Position;
use crate::sequence::Sequence;
use crate::text::Text;

/// A position in the own topic, and one in the topic of each remote cluster, by the cluster's number.
#[derive(Drop)]
pub struct Cut {
    pub local: Position,
    pub remote: Sequence<Option<Position>>,
}

/// A snapshot in the cache of a subscription, with the index of its local position.
#[derive(Drop)]
pub struct CachedSnapshot {
    pub index: u64,
    pub cut: Cut,
}

/// A snapshot that is being made. `id` is that of its first round, `heard` are the clusters that answered in this round.
#[derive(Drop)]
pub struct SnapshotBuilder {
    pub id: Text,
    pub own: u32,
    pub clusters: u32,
    pub second: bool,
    pub heard: Sequence<u32>,
    pub cut: Cut,
    pub finished: bool,
}

/// What a response does to a builder: nothing, it is counted, a second round begins, the snapshot is made.
#[derive(Clone, Copy, Drop, PartialEq, Eq)]
pub enum Progress {
    Ignored,
    Kept,
    SecondRound,
    Done,
}
