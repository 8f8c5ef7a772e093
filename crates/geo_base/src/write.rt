//! What a broker writes durably.
use crate::entry::Entry;
use crate::frame::SubKind;
use crate::sequence::Sequence;
use crate::text::Text;

/// One durable write. `Acks` and `ReplicatorAck` say which indexes a cursor gains, `Seek` that a cursor becomes all below an index.
#[derive(Drop)]
pub enum Write {
    Append(Entry),
    Create {
        sub: Text,
        kind: SubKind,
        replicated: bool,
        latest: bool,
    },
    Alter {
        sub: Text,
        kind: SubKind,
        replicated: bool,
    },
    Delete {
        sub: Text,
    },
    Acks {
        sub: Text,
        indexes: Sequence<u64>,
    },
    Seek {
        sub: Text,
        below: u64,
    },
    ReplicatorAck {
        remote: u32,
        index: u64,
    },
    SessionNumber {
        remote: u32,
        session: u64,
    },
    Ledger,
}
