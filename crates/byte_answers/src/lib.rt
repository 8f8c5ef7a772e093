//! Says what is answered to bytes, line by line of a section of `geo_examples`.
//!
//! - Vectors: lines `KIND HEX`, a kind of message (`fields`, `meta`, `marker NUMBER`, `command`, `frame` or `value`) and its bytes in
//!   hexadecimal, `-` for none. A line is written for each: `ok HEX` with the canonical bytes of what a codec read, or the fault. Of a
//!   stream the first frame counts, and the answer is `incomplete` where it has none yet. A `value` is the machine's value of one frame,
//!   where no cluster has a name, and `unreadable` of what is no frame.
//! - Packets: lines `SESSION ZEROS HEX`, a packet of a session whose frame is these bytes and so many zeros after them. A line is
//!   written for each, of what the broker at b does that takes it from a in an open session 1: the frames that answer it, `-` for none;
//!   what it stored; how many packets answer an honest SEND of session 1 then; and how many entries the broker has after a stop within
//!   one more SEND, saved and loaded.
//! - A script: it is written as it was read, its canonical declarations and the schedule, or the line that refuses it.
//!
//! A vector or a packet of another form is answered by `bad line`.
#![tactic(auto)]

mod answer;
mod fault;
mod hostile;
mod lines;
mod output;
mod packet;
mod script;
mod told;
mod vector;
mod words;

pub use fault::Fault;
pub use lines::{Lines, answer_lines};
