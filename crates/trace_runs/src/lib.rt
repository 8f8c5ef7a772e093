//! The trace of a run: each event that was not idle, by its number, and after it what it wrote durably, line by line.
//!
//! A line ends with its line feed, and is exactly the one that `geo_base`'s definition of a trace has. Each call that makes one appends it
//! to those before it. Where memory ends in the midst, an `Err`, what stood before stands, with a part of the line or none: the lines of
//! an event are made apart from where they go.
//!
//! Each line of a write looks at the broker as it is before the event. That is the broker that the line is about, too, since of the
//! writes of an event none looks at what another one before it changed: an entry is stored once at most, and a cursor written once.
//!
//! A trace is an observer of the world's one loop: it has the world prepare an event of a broker, makes its lines at the broker as it is
//! then, and has the world finish it. So a trace costs its run and its lines, and the run is the very one that a report shows. Only a
//! stop in the midst of an event is prepared twice, for its lines and by the world's own call.
#![tactic(auto)]

mod acts;
mod cause;
mod events;
mod gained;
mod name_words;
mod naming;
mod ranges;
mod running;
mod snapshot_key;
mod snapshot_lines;
mod snapshot_table;
mod snapshot_tables;
mod subs;
mod telling;
mod trace;
mod writes;

pub use trace::Trace;
