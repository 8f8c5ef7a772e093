//! The two ends of a replicator (geo-replication manual): a replicator reads the own topic through a cursor and sends entry after
//! entry in a numbered session, a receiver knows which session is open. Session numbers are own: they tell what comes from
//! an earlier connection apart.
//!
//! The program's broker looks before it writes anything, by `next_read`, `next_answer` and `next_packet`, and does the bare steps after
//! (`set_session`, `begin`, `opened`, `pend`, `read_to`, `unpend`, `restart`; `open`, `close`). A trace asks `index_to_read`. For other teams are `reset`,
//! `on_success`, `on_receipt`, `read` and `on_packet`: each is such a look and its step in one call.
#![tactic(auto)]

mod answering;
mod pending;
mod reading;
mod receiver;
mod replicator;

pub use answering::Heard;
pub use reading::ReadOut;
pub use receiver::{Receiver, Taken};
pub use replicator::Replicator;
