//! The memory of an input that was read, given back.

use geo_base::Blob;

/// What is left of an input's memory until the call ends (own). A large block that is let go whole raises the size from which the C
/// library gives blocks pages of their own, so that each table that grows later is copied as it grows; one that shrinks does not.
const LEFT: usize = 1;

/// Gives the memory of bytes back.
pub fn give_back(bytes: Blob) {
    let mut bytes = bytes.into_vec();
    bytes.clear();
    bytes.shrink_to(LEFT);
}
