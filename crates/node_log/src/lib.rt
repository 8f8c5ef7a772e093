//! A node by itself: a broker of a topic at a cluster, or a client, with the list of all that it did and the ends of its links.
//!
//! A node does its events without a world. What it takes comes from the ends of its links, what it sends goes into them, and its
//! history has each event with the bytes that it took and sent. That the history replays from the node's opening state to its
//! state, and that its clock is the last stamp, is a fact of the type: so it holds of a log that comes out of a lock.
#![tactic(auto)]

mod acting;
mod broker_acting;
mod client_acting;
mod getting;
mod list;
mod log;
mod logged;
mod looking;
mod moving;
mod owning;
mod packing;
mod room;
mod starting;
mod state;

pub use list::NodeLogs;
pub use logged::NodeLog;
pub use state::{NodeState, NumberedClient};
