//! One durable write.
use cursor_acks::Cursor;
use geo_base::{Entry, SubKind, SubName};

/// One durable write. Those of cursors carry the whole cursor as it is then, as a managed ledger of Pulsar writes it; `Seek`
/// carries the subscription's count of seeks too.
#[derive(Drop)]
pub enum Write {
    /// An entry is stored.
    Append(Entry),
    /// A subscription is created, at Latest with all present entries acknowledged, at Earliest with none.
    Create {
        sub: SubName,
        kind: SubKind,
        replicated: bool,
        latest: bool,
    },
    /// A subscription has another kind, or is replicated from now on.
    Change {
        sub: SubName,
        kind: SubKind,
        replicated: bool,
    },
    /// A subscription is gone.
    Delete(SubName),
    /// A subscription's cursor.
    Acks {
        sub: SubName,
        cursor: Cursor,
    },
    /// A subscription's cursor after a seek.
    Seek {
        sub: SubName,
        cursor: Cursor,
        seeks: u64,
    },
    /// The cursor of the replicator to a cluster.
    ReplicatorAcks {
        remote: u32,
        cursor: Cursor,
    },
    /// The session of the replicator to a cluster.
    Session {
        remote: u32,
        session: u64,
    },
    /// The next ledger is opened.
    Ledger,
}
