//! Frames as values.

use geo_base::Blob;
use message_meta::Meta;
use pulsar_commands::Command;

/// A frame: a command, and what it carries. SEND and MESSAGE carry a message, the others nothing (Pulsar binary protocol).
#[derive(Drop)]
pub struct Frame {
    /// The command.
    pub command: Command,
    /// The message, where the command carries one.
    pub body: Option<Body>,
}

/// A message in a frame.
#[derive(Drop)]
pub struct Body {
    /// Its metadata.
    pub meta: Meta,
    /// Its payload, as it came.
    pub payload: Blob,
}
