//! What a broker does by itself or for an operator, without a packet: for replicated subscriptions (PIP-33) and with what its replicators
//! read, in an offer, in a seek of a subscription, and in a restart.
//!
//! A snapshot begins; a replicator reads the next entry of its topic, which it sends, skips, or, being a marker of the other cluster, acts
//! on. Such an event first makes room, then only looks, and then puts a `Plan` together.
//!
//! Each call takes all the memory of its event and changes nothing but room; the broker's state is told in `broker_state`, what a
//! prepared event is in `broker_plans`.
#![tactic(auto)]

mod act;
mod caching;
mod catching_up;
mod hearing;
mod markers;
mod offering;
mod reading;
mod seeking;
mod snapping;
mod updating;

pub use offering::prepare_offer;
pub use reading::prepare_read;
pub use seeking::{prepare_restart, prepare_seek};
pub use snapping::prepare_snap;
