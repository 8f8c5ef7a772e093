//! The actors of a run on threads: what each of them does, in which order they are numbered, and where their chances come from; and the
//! numbers of a scenario's topics, clusters, clients and nodes, as such a run goes through them.
//!
//! In each turn an actor tries the events of its role at a log, until the log does one. No thread stands here: whoever has an actor and
//! a log takes the turn.
#![tactic(auto)]

mod actor;
mod counts;
mod draws;
mod list;
mod nodes;
mod role;
mod room;
mod seeing;
mod turning;

pub use actor::Actor;
pub use counts::{client_count, cluster_count, sub_count, topic_count, topic_of};
pub use draws::Draws;
pub use list::roles;
pub use nodes::{broker_count, broker_number, client_number, node_count};
pub use role::{Link, Role};
