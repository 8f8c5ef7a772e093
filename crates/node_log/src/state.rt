//! The state of a node.
use broker::Broker;
use client::Client;

/// A client and its number.
#[derive(Drop)]
pub struct NumberedClient {
    pub number: u32,
    pub client: Client,
}

/// The state of a broker, or of a client.
#[derive(Drop)]
pub enum NodeState {
    Broker(Broker),
    Client(NumberedClient),
}
