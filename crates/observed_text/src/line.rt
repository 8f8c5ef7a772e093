//! What a line says.
use geo_base::{Entry, Ident, Position, Text};
use trace_lines::AckedRanges;

/// What was read of a topic at a cluster.
#[derive(Drop)]
pub(crate) enum Read {
    /// The next entry.
    Entry { position: Position, entry: Entry },
    /// What a subscription acknowledged.
    Cursor { sub: Text, ranges: AckedRanges },
    /// What the replicator to another cluster counts as brought over.
    Brought { to: u32, ranges: AckedRanges },
    /// A subscription is done with all below an index.
    Below { sub: Text, index: u64 },
    /// A subscription may be done with what does not stand there.
    Unsure { sub: Text },
    /// It was not read.
    Unread,
    /// Its beginning may be deleted.
    Trimmed,
}

/// What is said of a topic, at no cluster.
#[derive(Drop)]
pub(crate) enum Logged {
    Done { sub: Text, ident: Ident },
    Receipt { ident: Ident, position: Position },
}

/// One line after the head.
#[derive(Drop)]
pub(crate) enum Line {
    Reads {
        topic: u32,
        cluster: u32,
        read: Read,
    },
    Logs {
        topic: u32,
        logged: Logged,
    },
}
