//! The world of a run: brokers, clients and the links between them, one event after another.
//!
//! It stands for the machine's world, event by event: where an event ends well, the world stands for the machine's after it; where
//! it would pass a limit of a run, or memory is wanting, nothing has changed.
#![tactic(auto)]

mod broker_ref;
mod brokers;
mod clients;
mod events;
mod fault;
mod gets;
mod halts;
mod halves;
mod observer;
mod opening;
mod resuming;
mod running;
mod saving;
mod settling;
mod settling_events;
mod stops;
mod world;

pub use broker_ref::BrokerRef;
pub use fault::RunFault;
pub use observer::{Observer, Unobserved};
pub use world::World;
