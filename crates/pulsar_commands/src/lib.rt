//! The commands of the Pulsar binary protocol (BaseCommand in PulsarApi.proto), read from bytes and written.
#![tactic(auto)]

mod acks;
mod append;
mod bodies;
pub mod command;
pub mod fault;
mod ids;
pub mod kind;
mod laws;
mod parts;
mod read;
mod table;
mod view;
mod write;

pub use acks::{ACK_BODY_BOUND, ACK_BOUND, AckView};
pub use command::{Command, PositionList};
pub use fault::CommandFault;
pub use kind::Kind;
pub use laws::{canonical_command, one_meaning};
pub use view::{CommandView, usual_command};
