//! Durable writes of a broker.

use broker_subs::{Sub, SubWrite};
use geo_base::Entry;
use topic_store::Stream;

/// One durable write, with all the memory that it takes. The subscription that it is of is the prepared event's.
#[derive(Drop)]
pub enum StateWrite {
    /// An entry is stored; `stream` is that of its identity.
    Append { entry: Entry, stream: Stream },
    /// A subscription is created, at Latest or at Earliest.
    Create { sub: Sub, latest: bool },
    /// The subscription is no more.
    Delete,
    /// The subscription's cursor, kind or mark is written.
    Sub(SubWrite),
    /// A replicator's cursor gains an index.
    ReplicatorAck { remote: u32, index: u64 },
    /// A replicator has a new session.
    SessionNumber { remote: u32, session: u64 },
    /// A ledger is opened.
    Ledger,
}
