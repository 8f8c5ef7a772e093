//! What the logs of clients and operators say.
use geo_base::{Ident, Position, Text};

/// A line of the logs.
#[derive(Drop)]
pub enum Said {
    /// A client acknowledged a message on a subscription, at whatever cluster.
    Done {
        topic: u32,
        sub: Text,
        ident: Ident,
    },
    /// A subscription was created at Latest at a cluster, or sought there: it is done with all below an index of that topic.
    Below {
        topic: u32,
        cluster: u32,
        sub: Text,
        index: u64,
    },
    /// A producer has a receipt for a message, with the position at which its cluster stored it.
    Receipt {
        topic: u32,
        ident: Ident,
        position: Position,
    },
    /// A subscription did something at a cluster with a message that is not told: it may be done with any that does not stand there in what
    /// was read, and so with all where nothing was.
    Unsure {
        topic: u32,
        cluster: u32,
        sub: Text,
    },
}
