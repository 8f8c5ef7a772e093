//! The report of a run, and what holds of every script's run that passes no limit.
//!
//! [`report`] writes the lines of a world as it stands; what the program claims of each run that it does is `HoldsOf`, in
//! `specs/Claims.antt`. Both the program without threads and `live` stand on this crate.
#![tactic(auto)]

mod world_report;

pub use world_report::{add_head, report};
