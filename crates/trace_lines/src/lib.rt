//! The lines of a trace, read: what a line of any bytes says, where it has a form.
//!
//! A trace tells a run of a script, event by event, and after each event what it wrote durably of topics and subscriptions. A line is
//! cut into words without a copy; what a subscription, a marker or a message is called is copied.
#![tactic(auto)]

mod entries;
mod line;
mod lines;
mod markers;
mod names;
mod numbers;
mod ranges;
mod texts;
mod words;

pub use line::{Line, Written};
pub use lines::{begun_event, entry_of, line_of, ranges_of};
pub use names::{Names, declared};
pub use numbers::{number, position_of};
pub use ranges::AckedRanges;
pub use texts::{sub_of, text_of};
pub use words::LineWords;
