//! Inputs that stand on a script: that of an audit, a script's declarations and after them the trace of a run; and generated runs, a
//! scenario of three clusters with a schedule of some 68,000 events that a number determines (own).
//!
//! In a generated run three producers publish 2,000 messages for all clusters, and a consumer goes round the clusters. First everyone
//! connects; then 20,000 events are drawn at random, with lost and repeated packets, dropped clients and restarted nodes; then each
//! producer does all its lines; and last everything settles. `specs/` has all of it as definitions.
#![tactic(auto)]

mod draws;
mod inputs;
mod run;
mod scenario;
mod schedule;

pub use inputs::{law_apart, trace_start};
pub use run::generate;
