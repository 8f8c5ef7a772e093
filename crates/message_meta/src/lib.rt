//! The metadata of a Pulsar message (MessageMetadata in PulsarApi.proto).
#![tactic(auto)]

mod known;
mod laws;
mod meta;
mod read;
pub mod table;
mod view;
mod write;

pub use known::KnownMeta;
pub use laws::{canonical_metadata, one_meaning};
pub use meta::{Meta, TextList};
pub use pb_fields::message::MessageFault as MetaFault;
pub use view::{MetaView, usual_meta};
