//! The items that a state file is made of, written and read; and an entry of a topic as two texts, its metadata and its payload, and
//! back.
//!
//! Reading goes from the front: a reader answers what an item says and the bytes after it, or the first item that breaks a rule.
//! `specs/Reading.antt` says it as functions of the bytes, `specs/Texts.antt` has the text of each item.
//!
//! The texts of an entry are those of a message in a frame (Pulsar's MessageMetadata, and the payload after it). What a metadata says of
//! the cluster that stored the message first is told from the cluster that stores it now: `replicated_from` stands exactly where the two
//! differ.
#![tactic(auto)]

mod entry_laws;
mod entry_writing;
mod fault;
mod items;
mod laws;
mod limits;
mod place;
mod ranges;
mod reading;
mod rule;
mod writing;

pub use entry_laws::texts_say_the_entry;
pub use entry_writing::put_entry;
pub use fault::{Broken, ItemFault};
pub use items::{byte_at, judge, number_at, number_within, text_at, word_at};
pub use laws::items_read_back;
pub use limits::{MOST_COUNT, state_numbers};
pub use place::origin_of;
pub use ranges::cursor_at;
pub use reading::read_entry;
pub use rule::Rule;
pub use writing::{put_byte, put_cursor, put_number, put_text, put_word};
