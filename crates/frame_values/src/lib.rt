//! Frames as values of the written machine, read from the bytes that links carry, and written as them.
//!
//! The codec crates say what bytes mean in the words of the protocol. Here their frames become the machine's: names of
//! clusters become numbers, target lists become masks, payloads of markers become markers; and back. Any bytes say one
//! value; a value is written as its one canonical text.
#![tactic(auto)]

mod command;
mod content;
mod entry;
mod laws;
mod place;
mod read;
mod size;
mod usual;
mod write;

pub use content::{canonical_payload, content_of, marker_number};
pub use entry::{fields_text, known_of};
pub use laws::{canonical_value, one_value, text_sizes};
pub use place::{number_of, targets_of};
pub use read::read_value;
pub use size::is_within_limit;
pub use usual::entry_of_message;
pub use write::{is_readable, try_write_value, write_message, write_send, write_value};
