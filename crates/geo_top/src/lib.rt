//! The program: from the words of a command line and the bytes of a script to the bytes of a report.
//!
//! [`answer`] is the program as one call over bytes: what it answers to words and an input, a script or a state file, whose run
//! `world` does. [`geo_alone`] reads the input from a source, and writes what is answered to a sink.
//! [`refusal`] is for the one command that stands above this crate, since its brokers run on threads.
#![tactic(auto)]

mod compacted;
mod law;
mod lost;
mod run;
mod stepped;
mod summary;
mod tiered;
mod top;
mod traced;

pub use law::resumed_runs_are_one;
pub use top::alone::geo_alone;
pub use top::answer::{Answer, refusal};
pub use top::bytes::answer;
pub use top::command::Word;
pub use top::status::Status;
