//! The merge of what the nodes of a run recorded: all events as one schedule, and whether what was taken is what was sent.
//!
//! A history is a node's own record of its events, with the bytes of the packets that came and went ([`History`]). A node alone
//! takes from each of its links, so how many packets it took from a peer is told by its own history, and what was sent there by
//! the peer's. [`first_difference`] reads each history once. The laws say what agreement means: the machine's run over the merge
//! of the histories is what was recorded (`law_run`).
//!
//! Each node has a log: its configuration, its number, and its history ([`LogRef`]). A log is strange where its configuration is
//! not the given one or its number is not its place's; it counts for nothing. [`merge_logs`] orders the events of all others by
//! stamp and, among equal stamps, by node. An event's stamp is greater than that of the packet that it took, so each packet is
//! sent before it is taken. Where nothing differs, the machine's run over these events is what the logs recorded.
#![tactic(auto)]

mod counts;
mod difference;
mod differences;
mod events;
mod history;
mod laws;
mod layout;
mod log;
mod merge;
mod outbox;
mod packet_laws;
mod packet_layout;
mod packets;
mod slot;
mod steps;
mod strange;
mod turn;
mod walk;

pub use difference::{Difference, NodeConfig};
pub use differences::{PacketDifference, first_difference};
pub use events::merge_events;
pub use history::History;
pub use laws::law_sorted;
pub use log::LogRef;
pub use merge::{Merged, merge_logs};
pub use packet_laws::{law_agree, law_ends, law_linked, law_run};
pub use packet_layout::{FarEnd, Home, Layout};
pub use packets::{Packets, packets_of};
pub use walk::Found;
