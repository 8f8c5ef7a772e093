//! The subscriptions of a topic at one cluster: each with its durable cursor, the dispatcher of its consumers and the snapshots
//! that its cursor has not passed.
//!
//! What takes memory comes first (`Sub::new`, `reserve`), and the steps of an event, which can't fail, after it. A subscription is
//! found once in an event, by its name or by its consumer, and named by its place from then on.
#![tactic(auto)]

mod changing;
mod finding;
mod fresh;
mod starting;
mod sub;
mod table;
mod writing;

pub use changing::SubChange;
pub use sub::Sub;
pub use table::SubTable;
pub use writing::SubWrite;
