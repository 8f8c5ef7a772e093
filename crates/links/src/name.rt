//! Nodes and links by their numbers.
ghost use Rattle.std.specs.Prelude.{◌≡◌};
ghost use Rattle.links.specs.Names.{broker_sends_on, client_sends_on, sends_on};

use geo_base::Peer;

/// A node of the world: the broker of a topic at a cluster, or a client.
#[derive(Clone, Copy, Drop, PartialEq, Eq)]
pub enum Node {
    Broker { topic: u32, cluster: u32 },
    Client { client: u32 },
}

/// A link by its ends. `Forward` carries what the broker of a topic at `source` replicates to the one at `target`, and `Back`
/// what that one answers.
#[derive(Clone, Copy, Drop, PartialEq, Eq)]
pub enum LinkName {
    Forward {
        topic: u32,
        source: u32,
        target: u32,
    },
    Back {
        topic: u32,
        source: u32,
        target: u32,
    },
    ToBroker {
        client: u32,
        cluster: u32,
    },
    ToClient {
        client: u32,
        cluster: u32,
    },
}

/// The link on which a node sends to a peer. A broker has no peer `Broker`, which is sent to as `Forward` is, and a client
/// sends to brokers alone.
pub(crate) fn link_to(from: Node, to: Peer) -> LinkName
    ensures { result ≡ sends_on from to }
{
    match from {
        Node::Broker { topic, cluster } => broker_link(topic, cluster, to),
        Node::Client { client } => client_link(client, to),
    }
}

fn broker_link(topic: u32, cluster: u32, to: Peer) -> LinkName
    ensures { result ≡ broker_sends_on topic cluster to }
{
    match to {
        Peer::Forward(target) | Peer::Broker(target) => LinkName::Forward {
            topic,
            source: cluster,
            target,
        },
        Peer::Back(source) => LinkName::Back {
            topic,
            source,
            target: cluster,
        },
        Peer::Client(client) => LinkName::ToClient { client, cluster },
    }
}

fn client_link(client: u32, to: Peer) -> LinkName
    ensures { result ≡ client_sends_on client to }
{
    match to {
        Peer::Forward(cluster)
        | Peer::Back(cluster)
        | Peer::Client(cluster)
        | Peer::Broker(cluster) => LinkName::ToBroker { client, cluster },
    }
}
