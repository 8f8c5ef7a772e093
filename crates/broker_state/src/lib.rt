//! The state of a broker, which owns one topic at one cluster, and the steps of its events: durable writes and changes in memory.
//! An event is prepared first, which takes all its memory and changes nothing, and then committed, which can't fail. It is prepared
//! in a plan that is there before, whose queues keep their memory from one event to the next.
//!
//! An event is about one subscription at most, which is found once. A prepared event names it by its place, so that no step carries
//! its name.
#![tactic(auto)]

mod backlog;
mod boxed;
mod change;
mod changing;
mod committing;
mod parts;
mod plan;
mod replicator_row;
mod replicators;
mod reserving;
mod site;
mod starting;
mod state;
mod write;
mod writing;

pub use boxed::BoxedBuilder;
pub use change::StateChange;
pub use plan::Plan;
pub use replicator_row::{ReplicatorRow, ReplicatorStep};
pub use replicators::ReplicatorTable;
pub use site::Site;
pub use state::BrokerState;
pub use write::StateWrite;
