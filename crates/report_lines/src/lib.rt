//! The lines of a report: each from its parts, counts, topics, entries, replicators, subscriptions, clients and what they got; and the parts
//! of a report that show what is there, a broker or a client as it is, the compacted view of a topic, and a topic whose closed ledgers
//! moved to a tier.
//!
//! A line ends with its line feed. What is shown of names, markers and numbers is exactly what `geo_base`'s definition of a report
//! says; a byte that a terminal does not show as itself is shown as `?`.
//!
//! A broker's lines are its topic's entries, its replicators to the other clusters and its subscriptions; a client's are its own line and one
//! for each message that it got. Each call that appends does so to the lines before it. Where memory ends in the midst, an `Err`, what
//! stood before stands, with a part of what was to be appended or none: a whole report is made apart from where it goes.
#![tactic(auto)]

mod broker_lines;
mod client_lines;
mod entries;
mod lines;
mod markers;
mod tier_lines;
mod view_lines;
mod words;

pub use broker_lines::add_broker;
pub use client_lines::add_client;
pub use entries::{add, add_entries, add_entry, add_entry_line, add_entry_words, add_got};
pub use lines::{
    ClientCounts, SubShown, add_client_line, add_head_line, add_place_line, add_replicator_line,
    add_sub_line, client_line, head_line, place_line, replicator_line, sub_line,
};
pub use tier_lines::{TieredTopic, add_read_entries, moved_line, moved_to_tier};
pub use view_lines::{add_messages, horizon_line};
pub use words::{add_ident, add_number, add_position};
