//! What a broker changes in memory.
use crate::consumer::Consumer;
use crate::session::Session;
use crate::snapshot::{CachedSnapshot, SnapshotBuilder};
use crate::text::Text;

/// One change in memory.
#[derive(Drop)]
pub enum Change {
    /// The session that is open on the forward link from a cluster.
    Receiver {
        source: u32,
        session: Option<u64>,
    },
    /// What a client has open.
    Client {
        client: u32,
        session: Option<Session>,
    },
    /// A consumer joins a subscription, last in order.
    Attach {
        sub: Text,
        consumer: Consumer,
    },
    /// A client's consumers leave; what was out with them is due again.
    Detach {
        client: u32,
    },
    /// A consumer gains permits.
    Permit {
        sub: Text,
        client: u32,
        permits: u64,
    },
    /// An index was offered to no consumer, being a marker's.
    Skipped {
        sub: Text,
        index: u64,
    },
    /// An index was given to the consumer at a place in the order.
    Given {
        sub: Text,
        index: u64,
        place: u64,
    },
    /// A snapshot enters the cache.
    Cache {
        sub: Text,
        snapshot: CachedSnapshot,
    },
    /// The cursor was written: nothing acknowledged is out or due, and the cache gives up what the mark has passed.
    Acked {
        sub: Text,
    },
    /// A seek: no consumer, nothing out, due again or cached, and reading begins at the first entry.
    Cleared {
        sub: Text,
    },
    /// A replicator has a new session, which the other side has not opened yet.
    Opening {
        remote: u32,
    },
    /// The other side opened it.
    Opened {
        remote: u32,
    },
    /// An entry was sent, and its receipt is awaited.
    Pend {
        remote: u32,
        index: u64,
    },
    /// A replicator has read what stands below an index.
    ReadTo {
        remote: u32,
        index: u64,
    },
    /// A receipt came for the entry that was sent under a number.
    Unpend {
        remote: u32,
        number: u64,
    },
    /// The snapshot that is being made.
    Building {
        builder: Option<SnapshotBuilder>,
    },
    /// A restart: all of this is lost.
    Forget,
}
