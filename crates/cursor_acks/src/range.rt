//! Ranges of indexes.

/// The indexes from `first` to `last`, both included.
#[derive(Clone, Copy, Drop, PartialEq, Eq)]
pub struct IndexRange {
    pub first: u64,
    pub last: u64,
}
