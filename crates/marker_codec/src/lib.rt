//! The markers of replicated subscriptions as bytes (PIP-33, PulsarMarkers.proto).
#![tactic(auto)]

mod fault;
mod kind;
mod laws;
mod marker;
mod read;
pub mod table;
mod write;

pub use fault::MarkerFault;
pub use kind::MarkerKind;
pub use laws::{canonical_marker, machine_sizes, one_meaning};
pub use marker::{ClusterMessageId, ClusterMessageIds, Marker};
