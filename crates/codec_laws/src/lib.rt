//! Laws of bytes: whatever the bytes are, they are a text of something, as fields, metadata, markers, commands and frames, or something is
//! wrong with them. So a codec that answers by such a relation cannot be always out of memory for want of an answer.
//!
//! As in `world_laws`, a law is a public function without parameters and without an answer. Its contract is the statement, in the words of
//! the definitions; nothing is done in its body, and its proof stands in `proofs/`.
#![tactic(auto)]

mod codecs;
mod machine;

pub use codecs::{law_command, law_fields, law_frames, law_marker, law_message, law_metadata};
pub use machine::{law_content, law_value};
