//! The ends of links: packets go out in pieces, and come in as packets again.
//!
//! A packet crosses a link as a head and parts of bytes (own: a connection of Pulsar carries whole frames). What a list of pieces
//! says is `packets` of `specs/Pieces`: where a part is lost, the packet has no byte once the next one begins, and nobody reads a
//! frame out of no byte. [`End`] is what a node sees of a link, whatever carries it. [`ListEnd`] keeps whole packets, for tests;
//! [`PieceEnd`] keeps pieces, in one thread.
#![tactic(auto)]

mod end;
mod ghost_history;
mod joiner;
mod list_end;
mod packet;
mod parcel;
mod piece;
mod piece_end;

pub use end::End;
pub use ghost_history::GhostHistory;
pub use joiner::Joiner;
pub use list_end::ListEnd;
pub use packet::WirePacket;
pub use parcel::{Parcel, Pieces};
pub use piece::{PART_BYTES, Piece};
pub use piece_end::PieceEnd;
