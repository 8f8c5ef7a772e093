//! What is found against an observation.
use geo_base::{Ident, Position, Text};

/// One finding: a fault that no run of the machine leaves after. Indexes count the entries of a topic at a cluster from 0.
#[derive(Drop)]
pub enum Finding {
    /// A producer has a receipt for a message that does not stand in the topic of its cluster.
    Lost {
        topic: u32,
        ident: Ident,
        position: Position,
    },
    /// An entry stands after one of its origin and producer that has its sequence id or a greater one.
    Twice {
        topic: u32,
        cluster: u32,
        index: u64,
    },
    /// An entry of another cluster does not stand there, or is another one there, or was not meant to go here.
    Nowhere {
        topic: u32,
        cluster: u32,
        index: u64,
        origin: u32,
    },
    /// An entry of another cluster, at an index there, is missing here though a later one of that cluster is here.
    Gap {
        topic: u32,
        cluster: u32,
        origin: u32,
        index: u64,
    },
    /// An entry of another cluster stands here after one that stands after it there.
    Order {
        topic: u32,
        cluster: u32,
        index: u64,
        origin: u32,
    },
    /// Of a cluster that was not read, two others have another message here and there, at these indexes.
    Apart {
        topic: u32,
        origin: u32,
        cluster: u32,
        index: u64,
        other: u32,
        other_index: u64,
    },
    /// The cursor of a cluster's replicator to another one has an entry that does not stand there.
    Unreceived {
        topic: u32,
        cluster: u32,
        to: u32,
        index: u64,
    },
    /// A snapshot has no local position that stands here, or does not name each other cluster once.
    Unplaced {
        topic: u32,
        cluster: u32,
        index: u64,
    },
    /// The position that a snapshot names of another cluster does not stand there, or it covers a message that does not stand here at or
    /// below the local position.
    Cut {
        topic: u32,
        cluster: u32,
        index: u64,
        of: u32,
    },
    /// The position that an update names of a cluster does not stand there, or nobody dealt with a message at or below it.
    Told {
        topic: u32,
        cluster: u32,
        index: u64,
        of: u32,
    },
    /// A cursor has a message that nobody dealt with.
    Skipped {
        topic: u32,
        cluster: u32,
        sub: Text,
        index: u64,
    },
}
