//! Topic compaction (Pulsar manual): a view for a reader that wants the last message of each key, and not all before it.
//!
//! A compacted view ([`Compacted`]) is of the entries below a horizon, and grows with it. It keeps a map from each key to the index of its last
//! message, and one row a key is all that it keeps; what a reader gets is said of the whole list of entries (`specs/View.antt`). A store keeps
//! entries as values, so that each has its key at hand and none is without a reading.
#![tactic(auto)]

mod compacted;
mod fault;

pub use compacted::Compacted;
pub use fault::CompactFault;
