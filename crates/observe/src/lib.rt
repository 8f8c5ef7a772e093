//! The judge of an observation: what is found against what was read of clusters that run elsewhere, and what was logged there.
//!
//! [`Observed`] is what was read and logged, line by line, and [`judge`] gives all that is found against it. Tables answer what a walk over a
//! topic would: where the first entry of an identity stands, which messages a subscription is done with by the logs, how many entries here
//! the entries there need. So the time grows nearly as what was read and what is found, times the clusters and the subscriptions of a topic.
#![tactic(auto)]

mod apart;
mod asked;
mod brought;
mod cursors;
mod cuts;
mod dealt;
mod entries;
mod judging;
mod kept;
mod logs;
mod needs;
mod observed;
mod seen;
mod skipped;
mod standing;
mod told;
mod topic_dealt;

pub use cursors::SubCursor;
pub use judging::judge;
pub use observed::{At, Observed, cluster_count};
pub use seen::SeenTopic;
