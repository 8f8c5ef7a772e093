//! The audit of a trace: whether what its lines tell of a run was safe, told from the lines alone.
//!
//! A trace tells, event by event, what a run wrote durably of topics and of subscriptions with their cursors. The audit keeps what the
//! lines make of these and refuses the first line that breaks a rule. It knows no session, no packet, no snapshot in the making, no
//! cache and no dispatcher, and runs no machine. Tables answer what a walk over a topic would, so that its time grows nearly as the
//! bytes of the trace, whatever these say: no line costs the length of a range that it names, and no snapshot that of a topic.
//!
//! Of entries it asks whether two are the same, what the positions that a marker names are, and over which entries an acknowledgement may
//! pass. Of a topic at one cluster, which identities stand there, what an acknowledgement may pass over, and what the other clusters'
//! topics need of it.
#![tactic(auto)]

mod acks;
mod appends;
mod audit_of;
mod brought;
mod covers;
mod entries;
mod fault;
mod identity;
mod lines;
mod mirrors;
mod named;
mod rule;
mod runs;
mod same;
mod slots;
mod stored;
mod strictness;
mod sub;
mod subs;
mod topic;

pub use audit_of::audit;
pub use fault::AuditFault;
pub use identity::Identity;
pub use named::{first_position, names_each};
pub use same::{is_same_entry, is_same_position};
pub use stored::index_at;
pub use strictness::Strictness;
pub use sub::{ack_all, may_gain};
