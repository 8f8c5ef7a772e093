//! What the program writes of a run whose nodes each kept a log.
//!
//! [`merge`] makes one schedule of the events of all logs, and [`live_output`] the report and the schedule of its run: as many of its
//! steps as the limits of a run allow, with settling after them where that fits. [`all_events_output`] gives the same of logs none of
//! which is strange, and compares nothing: it is what the program prints. Where the logs come from is open: nothing here knows of a
//! thread.
#![tactic(auto)]

mod law;
mod merging;
mod output;
mod played;

pub use law::law_schedules;
pub use merging::merge;
pub use output::{all_events_output, live_output};
