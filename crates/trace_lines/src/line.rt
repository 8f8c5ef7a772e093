//! What a line says.
use crate::ranges::AckedRanges;
use geo_base::{Blob, Cause, ClusterPosition, Content, Entry, Position, Sequence, Text};

/// What was written of a topic at a cluster. The indexes of an acknowledgement are ranges, which may be long.
#[derive(Drop)]
pub enum Written {
    Appends {
        position: Position,
        entry: Entry,
        by: Option<Position>,
    },
    Creates {
        sub: Text,
        latest: bool,
    },
    Deletes {
        sub: Text,
    },
    Acks {
        sub: Text,
        ranges: AckedRanges,
        cause: Cause,
    },
    Seeks {
        sub: Text,
        index: u64,
    },
}

/// One line: an event begins, or something was written of a topic at a cluster.
#[derive(Drop)]
pub enum Line {
    Begins(u64),
    Writes {
        topic: u32,
        cluster: u32,
        written: Written,
    },
}

/// What an entry is, and after an update of its own cluster the position of the snapshot that it tells.
#[derive(Drop)]
pub(crate) struct What {
    pub(crate) content: Content,
    pub(crate) key: Option<Text>,
    pub(crate) payload: Blob,
    pub(crate) by: Option<Position>,
}

/// The positions that an update of the own cluster names, and that of the snapshot that it tells.
#[derive(Drop)]
pub(crate) struct ToldPositions {
    pub(crate) remote: Sequence<ClusterPosition>,
    pub(crate) by: Position,
}
