//! The parts of a subscription's memory that code and definitions share.

/// A consumer of a subscription: its client, the id that its commands use, and how many messages it may still be given.
#[derive(Clone, Copy, Drop, PartialEq, Eq)]
pub struct Consumer {
    pub client: u32,
    pub id: u64,
    pub permits: u32,
}

/// An index that is out with a client's consumer: given to it and not acknowledged.
#[derive(Clone, Copy, Drop, PartialEq, Eq)]
pub struct Unacked {
    pub index: u64,
    pub client: u32,
}
