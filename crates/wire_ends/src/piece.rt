//! What a link is cut into.

use geo_base::{Blob, Stamp};

/// How many bytes the program puts into a part at most (own). The frame of a usual message is one part, so that no byte of it is
/// copied; a larger one never asks for more than this in one piece.
pub const PART_BYTES: usize = 8192;

/// A piece of a packet. A head says how many bytes the frame has; parts with these bytes follow it.
#[derive(Debug, Drop)]
pub enum Piece {
    Head {
        session: u64,
        stamp: Stamp,
        len: u64,
    },
    Part(Blob),
}
