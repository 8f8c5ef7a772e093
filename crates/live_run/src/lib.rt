//! A run of a scenario on threads: workers take turns at the logs of the nodes, each under a lock of its own; and the links between the
//! nodes, as rings.
//!
//! What the threads did stands in the logs: each replays its own history, whatever the order in which locks were taken. No clause
//! speaks of that order, nor of what a worker finds in a log that it locks. What became of a worker's actors its thread hands back: so
//! it is known that each had its turns, in rotation, and in which of them memory was wanting.
//!
//! For each node a table has the ends of the links to and from its peers; the two ends of a ring stand in the tables of two nodes.
//! Contracts know that a table has just the node's peers, for each the end of a ring that sends and the end of one that takes, with all
//! places free; and where two nodes are linked, that neither takes from the ring by which it sends. Which ring an end in a table is of
//! is known by no clause, and is tested.
#![tactic(auto)]

mod crew;
mod logs;
mod rings;
mod run;

pub use rings::NodeRings;
pub use run::live;
