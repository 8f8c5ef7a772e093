//! What a client has open at a broker.
use crate::sequence::Sequence;
use crate::text::Text;

/// A producer of a client's session, under the id that its commands use.
#[derive(Drop)]
pub struct AttachedProducer {
    pub id: u64,
    pub name: Text,
}

/// A client's connection: its number, and its producers in order of attachment.
#[derive(Drop)]
pub struct Session {
    pub number: u64,
    pub producers: Sequence<AttachedProducer>,
}
