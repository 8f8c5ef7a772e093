//! The program, as one call over bytes, and as one over a source and a sink.
pub mod alone;
pub mod answer;
pub mod auditing;
pub mod bytes;
pub mod command;
mod declared;
mod given_back;
pub mod losing;
pub mod observing;
pub mod scripts;
pub mod states;
pub mod status;
pub mod stepping;
