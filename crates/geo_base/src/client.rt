//! What a client does, line by line, and what it keeps of the messages that came.
use crate::bytes::Blob;
use crate::entry::{Ident, Targets};
use crate::frame::SubKind;
use crate::position::Position;
use crate::text::Text;

/// One line of a client, in the words of a script.
#[derive(Drop)]
pub enum Line {
    Produce,
    Pub {
        seq: u64,
        to: Targets,
        key: Option<Text>,
        text: Blob,
    },
    Sub {
        sub: Text,
        kind: SubKind,
        earliest: bool,
        replicated: bool,
    },
    Flow {
        permits: u32,
    },
    Ack {
        ident: Ident,
    },
    AckTo {
        ident: Ident,
    },
    AckAll,
    Unsub,
    Close,
    CloseProducer,
    Ping,
    Move {
        cluster: u32,
    },
}

/// A message that came to a client and that it has not acknowledged, with the position under which it came.
#[derive(Drop)]
pub struct Held {
    pub ident: Ident,
    pub position: Position,
}
