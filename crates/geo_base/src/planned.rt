//! What a broker is about to write, and why.
use crate::position::Position;
use crate::write::Write;

/// Why a broker writes (own). Of the writes of a cursor: a client acknowledged (`Client`), a marker came by in an offer (`Marker`),
/// an update of another cluster said so, which stands at this position of the broker's topic (`Update`), or an operator sought
/// (`Seek`). Every other write is `Plain`.
#[derive(Clone, Copy, Drop, PartialEq, Eq)]
pub enum Cause {
    Plain,
    Client,
    Marker,
    Update(Position),
    Seek,
}

/// One durable write that an event would do, with its cause.
#[derive(Drop)]
pub struct Planned {
    pub write: Write,
    pub cause: Cause,
}
