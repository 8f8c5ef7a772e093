//! Changes in a broker's memory.

use crate::boxed::BoxedBuilder;
use broker_subs::SubChange;
use geo_base::Session;

/// One change in memory, with all the memory that it takes. The subscription that it is of is the prepared event's.
#[derive(Drop)]
pub enum StateChange {
    /// The session that is open on the forward link from a cluster.
    Receiver {
        source: u32,
        session: Option<u64>,
    },
    /// What a client has open.
    Client {
        client: u32,
        session: Option<Session>,
    },
    /// A client's consumers leave, wherever it has any.
    Detach {
        client: u32,
    },
    /// The subscription's consumers or snapshots change.
    Sub(SubChange),
    /// A replicator's session begins, which the other side has not opened yet.
    Opening {
        remote: u32,
    },
    /// The other side opened it.
    Opened {
        remote: u32,
    },
    /// An entry was sent, and its receipt is awaited.
    Pend {
        remote: u32,
        index: u64,
    },
    /// A replicator has read what stands below an index.
    ReadTo {
        remote: u32,
        index: u64,
    },
    /// A receipt came for the entry that was sent under a number.
    Unpend {
        remote: u32,
        number: u64,
    },
    /// The snapshot that is being made.
    Building {
        builder: Option<BoxedBuilder>,
    },
    /// A restart: what is in memory is lost.
    Forget,
}
