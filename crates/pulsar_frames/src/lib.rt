//! Frames of the Pulsar binary protocol: one command, with metadata and a payload where it has a message.
//!
//! The program reads a packet at a time, by `usual_frame` or `read_frame`. `FrameReader`, which takes a stream in any pieces, is for other
//! teams, and `geo_examples` asks it; it parses by what `read_frame` parses by.
#![tactic(auto)]

mod fault;
mod frame;
mod laws;
mod layout;
mod queue;
mod read;
mod reader;
mod view;
mod write;
mod write_view;

pub use fault::FrameFault;
pub use frame::{Body, Frame};
pub use laws::{any_pieces, canonical_frame, no_prefix, one_frame, one_limit, one_reading};
pub use read::{carries_message, read_frame};
pub use reader::FrameReader;
pub use view::{FrameView, MessageView, usual_frame};
pub use write::{write_carrying, write_frame};
pub use write_view::{write_usual_ack, write_usual_command, write_usual_message};
