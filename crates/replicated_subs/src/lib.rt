//! Replicated subscriptions (PIP-33): snapshots of where clusters are, what a cluster tells the others once a subscription's mark-delete
//! position has passed one, and what such an update of another cluster does to the cursor here.
//!
//! A [`SnapshotBuilder`] has a snapshot while it is made: which answers of other clusters count, when a second round begins, and the cut that the
//! snapshot stands for in the end.
//!
//! A [`SnapshotCache`] has the snapshots that a subscription keeps until its mark-delete position passes them: then an update tells the
//! other clusters how far the subscription is. At most ten are kept, as Pulsar's default has it, so each call looks at ten items at most,
//! whatever the topic's length.
//!
//! `runs` and `apply` walk what the cursor lacks up to the index that is named, and not the topic: a binary search of the cursor's ranges
//! for each such index.
#![tactic(auto)]

mod builder;
mod cache;
mod naming;
mod update_writes;

pub use builder::SnapshotBuilder;
pub use cache::{MOST_SNAPSHOTS, SnapshotCache};
pub use naming::{make, named_positions};
pub use update_writes::{apply, runs};
