//! What a broker writes durably, what of it survives a stop, and what the broker has again when it starts: the table of duplicates
//! and the sequence id of its next own marker, both from what the topic stores.
//!
//! A write of an entry, of a ledger or of a session takes constant time, one of a subscription a search by name among those of the
//! topic. A start reads the topic twice, from its first entry to its last, and makes one look into a hash table for each.
//!
//! The program's broker writes into its own tables, by the steps of `TopicLedger`, of `Cursor` and of `DurableSub` (`alter`); it starts
//! by `recover`, and what survives is a `Durable` of it. For other teams is `apply_write`, which does the same writes to a `Durable`, those of
//! cursors as whole cursors, and `Durable::new`, a new topic.
#![tactic(auto)]

mod applying;
mod durable;
mod marker;
mod recovery;
mod replicators;
mod subs;
mod write;

pub use applying::apply_write;
pub use durable::{Durable, DurableReplicator, DurableSub};
pub use marker::{MARKER_PRODUCER, is_own_marker, marker_after};
pub use recovery::{Recovered, recover};
pub use replicators::DurableReplicators;
pub use subs::DurableSubs;
pub use write::Write;
