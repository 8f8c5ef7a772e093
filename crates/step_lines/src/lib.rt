//! The steps of a run: each step of the schedule, and under it the lines of a report that are new or other than before at the node where
//! it happened.
//!
//! The observer of a run looks at the node of an event before it and after it, and tells what a report shows of it and is not the same.
//! It compares values and never a text, and keeps nothing of other brokers. Where all that an event writes is of replicators, it looks at them
//! alone: entries and subscriptions show the same then. Each line is appended to those before it. Where memory ends in the midst, an
//! `Err`, it is left open what was appended.
#![tactic(auto)]

mod acked;
mod backlog_rows;
mod backlogs;
mod broker_changes;
mod client_changes;
mod entries;
mod events;
mod heads;
mod noted;
mod replicator_writes;
mod replicators;
mod steps;
mod stops;
mod sub_names;
mod telling;

pub use steps::Steps;
