//! A saved state.
use client::ClientState;
use script_text::Scenario;
use state_nodes::{Counts, NodeParts};

/// The state of a run's world after a stop: what its script declares, what it counted, the durable parts of its brokers by topic and
/// then by cluster, and what the stop left of its clients.
#[derive(Drop)]
pub struct Saved {
    pub scenario: Scenario,
    pub counts: Counts,
    pub brokers: Vec<NodeParts>,
    pub clients: Vec<ClientState>,
}

impl Saved {
    /// Lets the state go, as `drop` does: a crate that calls this need not show again how each part of a state ends.
    pub fn let_go(self) {
        drop(self)
    }
}
