//! Where a range stands.

/// A block, and how many of its ranges stand before.
#[derive(Clone, Copy, Drop, PartialEq, Eq)]
pub(crate) struct RangeIndex {
    pub(crate) block: usize,
    pub(crate) offset: usize,
}
