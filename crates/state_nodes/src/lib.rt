//! The parts of a state file: what a run counted, the durable parts of its brokers, and what a stop leaves of each client.
//!
//! Each has one text, and a reader that answers what bytes say or the first item that breaks a rule. No reader takes more memory than its
//! bytes call for: a list grows item by item, and each item has a byte at least.
#![tactic(auto)]

mod brokers;
mod client_laws;
mod client_writing;
mod clients;
mod counts;
mod durable;
mod entries;
mod force;
mod heading;
mod laws;
mod ledgers;
mod replicators;
mod subs;
mod topic_so_far;
mod writing;

pub use brokers::{NodeParts, node_at};
pub use client_laws::{client_is_known, clients_read_back};
pub use client_writing::put_client;
pub use clients::client_at;
pub use counts::{Counts, counts_at};
pub use laws::{parts_are_known, parts_read_back};
pub use writing::{put_counts, put_node};
