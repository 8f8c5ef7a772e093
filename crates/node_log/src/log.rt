//! What a node did.
use geo_base::Stamp;
use log_parts::Done;

/// The events of a node in order, and the stamp of the last one, 0 before any.
#[derive(Drop)]
pub(crate) struct Log {
    pub history: Vec<Done>,
    pub clock: Stamp,
}
