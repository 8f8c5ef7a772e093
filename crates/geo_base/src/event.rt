//! What may happen.
use crate::position::Position;

/// What becomes of a packet that is taken: acted on, taken without effect, or acted on two times in a row.
#[derive(Clone, Copy, Drop, PartialEq, Eq)]
pub enum Fate {
    Good,
    Lost,
    Twice,
}

/// One action at one node. The numbers are those of topics, clusters, clients and subscription names, from 0;
/// `source` and `target` are the two ends of the forward link.
#[derive(Clone, Copy, Drop, PartialEq, Eq)]
pub enum Event {
    Go {
        client: u32,
    },
    Get {
        client: u32,
    },
    Reconnect {
        client: u32,
    },
    Serve {
        cluster: u32,
        client: u32,
    },
    Drop {
        cluster: u32,
        client: u32,
    },
    Reset {
        topic: u32,
        source: u32,
        target: u32,
    },
    Read {
        topic: u32,
        source: u32,
        target: u32,
    },
    Take {
        topic: u32,
        source: u32,
        target: u32,
        fate: Fate,
    },
    Receipt {
        topic: u32,
        source: u32,
        target: u32,
        fate: Fate,
    },
    Snap {
        topic: u32,
        cluster: u32,
    },
    Offer {
        topic: u32,
        cluster: u32,
        sub: u32,
    },
    Seek {
        topic: u32,
        cluster: u32,
        sub: u32,
        to: Option<Position>,
    },
    Restart {
        topic: u32,
        cluster: u32,
    },
}

/// One line of a schedule. `Halt(k, e)` stops the node after the first `k` durable writes of `e`.
#[derive(Clone, Copy, Drop, PartialEq, Eq)]
pub enum Step {
    Plain(Event),
    Halt(u32, Event),
    Settle,
    Stop,
}
