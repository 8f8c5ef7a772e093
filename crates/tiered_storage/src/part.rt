//! What is here of a ledger.
use geo_base::{Entry, Sequence};

/// A ledger of a topic: its entries, or nothing but that the tier has them.
#[derive(Drop)]
pub enum Part {
    Here(Sequence<Entry>),
    Away,
}

/// A ledger as it was read from the tier.
#[derive(Drop)]
pub struct Recalled {
    pub ledger: u64,
    pub entries: Sequence<Entry>,
}
