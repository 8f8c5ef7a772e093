//! How the nodes of a script begin: brokers with empty topics, and what a client knows. A run of the script begins with them, whoever
//! does it.
#![tactic(auto)]

mod brokers;
mod clients;

pub use brokers::{new_node, new_site, sub_names};
pub use clients::site_of;
