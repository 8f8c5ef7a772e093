//! Which messages of a topic are acknowledged: a cursor is a set of indexes below the topic's length (Pulsar manual: a
//! cursor has a mark-delete position and individual acknowledgements above it).
//!
//! A cursor is kept as inclusive ranges, ascending and never adjacent, so that it is short while acknowledgements come
//! nearly in order. They stand in blocks of at most 64: an index is found by two binary searches, and a change moves at most
//! the ranges of one block, and the list of the blocks only where one is split or goes.
#![tactic(auto)]

mod block;
mod blocks;
mod cursor;
mod edit;
mod iter;
mod laws;
mod list;
mod range;
mod range_index;
mod search;

pub use cursor::{Cursor, PastEnd};
pub use iter::RangeIter;
pub use laws::{acks_add, acks_stay_below, one_list_of_ranges};
pub use list::RangeList;
pub use range::IndexRange;
