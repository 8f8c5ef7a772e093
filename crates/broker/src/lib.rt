//! A broker of a topic at a cluster, over bytes: what a world calls for each of its events.
//!
//! An event takes the next packet of a link as bytes, whatever they are: what they say is read first, and what can't be read is a
//! value too. It is prepared, which takes all memory and leaves the state as it is, and then committed, which can't fail. What is
//! done is the machine's plan of the event, for each packet that the bytes stand for.
#![tactic(auto)]

mod broker;
mod committing;
mod judging;
mod law;
mod preparing;
mod reading;
mod starting;
mod taking;

pub use broker::Broker;
pub use committing::Acted;
pub use law::law_node_plan;
