//! What a broker does with the packets of its clients, with a client's connection that ends, and at the ends of a replication link.
//!
//! There it takes the next packet of the forward link and answers it, it receives what the back link answers, and it begins a new
//! session. A packet of a link is lost, acted on once, or acted on two times in a row.
//!
//! The calls fill a plan: they take all the memory of an event and change nothing but room; the broker's state is told in `broker_state`,
//! what a prepared event is in `broker_plans`.
#![tactic(auto)]

mod acknowledging;
mod act;
mod answering;
mod answers;
mod consuming;
mod producing;
mod publishing;
mod receipts;
mod resetting;
mod serving;
mod subscribing;
mod taking;
mod usual_publishes;
mod usual_sends;

pub use receipts::prepare_receipt;
pub use resetting::prepare_reset;
pub use serving::{prepare_drop, prepare_serve};
pub use taking::prepare_take;
pub use usual_publishes::{prepare_publish, publishes};
pub use usual_sends::{prepare_receive, receives};
