//! What every event of a broker is prepared with: the bytes of its packets, the markers that it writes, and the update that may
//! follow a cursor's write.
//!
//! An event first makes room in the tables that it touches, then only looks, and fills a plan that was empty. What it promises is
//! one definition, `IsPrepared`. An `Err` is want of memory everywhere: then the broker's state is as it was, and the plan is given
//! up, for its caller to clear.
#![tactic(auto)]

mod finding;
mod marking;
mod packet;
mod receiving;
mod updating;
mod usual;

pub use finding::{sub_at, sub_index_consumed, sub_index_named};
pub use marking::{appending, own_marker};
pub use packet::{message_text, send_text, text};
pub use receiving::{NO_POSITION, also_send, storing};
pub use updating::{begin_write, update_after};
pub use usual::{Answered, Came, also_receipt, is_small, storing_message};
