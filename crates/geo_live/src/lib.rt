//! The whole program, with the command that runs nodes on threads.
//!
//! [`geo_main`] does the words of `live` itself: it reads a script, starts the threads, and hands the logs that they leave to
//! [`live_output::all_events_output`]. All other words are those of [`geo_top::geo_alone`], which starts none.
#![tactic(auto)]

mod answering;
mod program;
mod words;

pub use program::geo_main;
