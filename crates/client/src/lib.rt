//! A client of the clusters whose packets are bytes: its own events, and what it keeps.
#![tactic(auto)]

mod client;
mod held;
mod laws;
mod site;

pub use client::{Client, ClientState, ClientView, Prepared};
pub use held::HeldTable;
pub use laws::{law_known_names, law_short_lines};
pub use site::ClientSite;
