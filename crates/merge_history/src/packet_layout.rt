//! Who shares links with whom. Nodes are numbered: brokers by topic and cluster, clients after them.
ghost use Rattle.std.specs.Prelude.{◌≡◌, ◌<◌, ◌+◌, ◌*◌, ◌≤◌, ◌^◌};
ghost use Rattle.merge_history.specs.Peers.{IsLayout, broker_end, client_end, end_of, home_at, home_of};

use geo_base::Peer;
use std::marker::Model;

/// The topic of a client, and the cluster that it is declared at.
#[derive(Clone, Copy, Drop)]
pub struct Home {
    pub topic: u32,
    pub cluster: u32,
}

/// The other end of what a node shares with a peer: the peer's number, and as what it knows the node.
#[derive(Clone, Copy, Drop)]
pub struct FarEnd {
    pub node: usize,
    pub peer: Peer,
}

/// How many clusters and brokers there are, and where clients are declared.
#[derive(Drop)]
pub struct Layout {
    clusters: u32,
    brokers: usize,
    homes: Vec<Home>,
}

impl Model for Layout {
    ghost use Rattle.merge_history.specs.Peers.{IsLayout, LayoutView};

    ghost Value = { LayoutView };

    ghost view = { λ l. record { clusters = l.clusters; brokers = l.brokers; homes = l.homes.items } };

    ghost invariant = { λ l. IsLayout (record { clusters = l.clusters; brokers = l.brokers; homes = l.homes.items }) };
}

impl Layout {
    /// So many clusters, and brokers in all, and these clients; takes no memory.
    pub fn new(clusters: u32, brokers: usize, homes: Vec<Home>) -> Layout
        requires { IsLayout (record { clusters = clusters; brokers = brokers; homes = homes.items }) }
        ensures { result ≡ record { clusters = clusters; brokers = brokers; homes = homes.items } }
    {
        Layout {
            clusters,
            brokers,
            homes,
        }
    }

    /// Where a node is declared; a broker does not move.
    pub fn home(&self, node: usize) -> Home
        ensures { result ≡ home_of self.now node }
    {
        if node < self.brokers {
            Home {
                topic: 0,
                cluster: 0,
            }
        } else {
            self.home_at(node - self.brokers)
        }
    }

    fn home_at(&self, client: usize) -> Home
        ensures { result ≡ home_at self.now client }
    {
        if client < self.homes.len() {
            self.homes[client]
        } else {
            Home {
                topic: 0,
                cluster: 0,
            }
        }
    }

    /// The other end of what a node shares with a peer.
    pub fn end_of(&self, node: usize, peer: Peer) -> FarEnd
        requires { node < 2 ^ 32 }
        ensures { result ≡ end_of self.now node peer }
    {
        if node < self.brokers {
            let clusters = self.clusters as usize;
            self.broker_end(node / clusters, (node % clusters) as u32, peer)
        } else {
            self.client_end(node - self.brokers, peer)
        }
    }

    fn broker_end(&self, topic: usize, cluster: u32, peer: Peer) -> FarEnd
        requires { topic < 2 ^ 24 }
        ensures { result ≡ broker_end self.now topic cluster peer }
    {
        match peer {
            Peer::Forward(target) | Peer::Broker(target) => FarEnd {
                node: topic * self.clusters as usize + target as usize,
                peer: Peer::Back(cluster),
            },
            Peer::Back(source) => FarEnd {
                node: topic * self.clusters as usize + source as usize,
                peer: Peer::Forward(cluster),
            },
            Peer::Client(client) => FarEnd {
                node: self.brokers + client as usize,
                peer: Peer::Broker(cluster),
            },
        }
    }

    fn client_end(&self, client: usize, peer: Peer) -> FarEnd
        requires { client < 2 ^ 32 }
        ensures { result ≡ client_end self.now client peer }
    {
        let topic = self.home_at(client).topic as usize;
        match peer {
            Peer::Forward(cluster)
            | Peer::Back(cluster)
            | Peer::Client(cluster)
            | Peer::Broker(cluster) => FarEnd {
                node: topic * self.clusters as usize + cluster as usize,
                peer: Peer::Client(client as u32),
            },
        }
    }
}
