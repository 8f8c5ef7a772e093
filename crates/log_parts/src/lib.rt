//! Parts of a node's log: what the node did, and the ends of its links.
//!
//! Each event that a node did stands with the packet that it took, those that it sent, and its stamp ([`Done`]). Packets are kept as the
//! bytes that crossed the links (own: nothing is decoded to judge histories). Contracts see an event as the laws of `world_laws` do, so a
//! list of events is a history of those laws.
//!
//! A node looks at the ends of its links alone, and never at what the other node of a link did. [`EndTable`] has a taking end and a
//! sending end for each peer; what an event sends goes out all or none ([`EndTable::has_room`], [`EndTable::send_all`]).
#![tactic(auto)]

mod done;
mod hand;
mod peer;
mod sending;
mod table;

pub use done::{Done, Sent};
pub use sending::Addressed;
pub use table::{EndRow, EndTable};
