//! What the laws over values say of bytes: what runs send is told whole by its bytes and can be written, a node that keeps the bytes of
//! its packets keeps a history of the law of the merge, and a packet that was cut off on its way is one that was lost.
//!
//! And the laws of a node's log: when an event joins it, and where its packets go. What a node sends is told by its bytes, whatever
//! came: an entry that it stores was read from bytes, or was made by itself. So the canonical text that it sends stands for the packet,
//! and no world is asked.
//!
//! As in `world_laws`, a law is a public function without parameters and without an answer; its contract is the statement, and its proof
//! stands in `proofs/`.
#![tactic(auto)]

mod histories;
mod logs;
mod losses;
mod telling;

pub use histories::{law_alike_bytes, law_bare, law_byte_histories};
pub use logs::{law_log_grows, law_log_sends};
pub use losses::{law_cut_off, law_no_bytes};
pub use telling::{law_told, law_written, plain_told};
