//! Rings between nodes.
ghost use Rattle.std.specs.Prelude.{◌≡◌, ◌<◌, ◌+◌, [], length, IfOk, IfSome, OnOk};
ghost use Rattle.geo_base.specs.Nodes.{BrokerNode, ClientNode, node_count, node_number};
ghost use Rattle.live_run.specs.Linked.{GainsBroker, GainsPeer, HasBrokers, HasClients, HasPeers, HasSites};
ghost use Rattle.live_run.specs.Opened.{AreOpened, IsOpened, opened_send, opened_take};

use actors::{broker_number, client_count, client_number, cluster_count, node_count, topic_of};
use geo_base::{Memory, Peer};
use link_rings::{RING_PLACES, RingEnd, RingSend, RingTake, ring};
use log_parts::{EndRow, EndTable};
use script_text::Scenario;
use std::alloc::Global;
use std::marker::Model;
use wire_ends::PART_BYTES;

/// Where the ends to a peer stand: the number of a node, and how it names the peer.
#[derive(Clone, Copy, Drop, PartialEq, Eq)]
struct PeerEnd {
    node: usize,
    peer: Peer,
}

/// A broker: its number among the nodes, its topic and its cluster.
#[derive(Clone, Copy, Drop, PartialEq, Eq)]
struct BrokerAt {
    node: usize,
    topic: u32,
    cluster: u32,
}

/// The end that sends of a ring that nothing went through yet, and how its node names the one that takes.
#[derive(Drop)]
struct Outlet {
    to: Peer,
    end: RingSend,
    ghost opened: { end ≡ opened_send },
}

/// The end that takes of such a ring, and how the node that sends names the one that takes.
#[derive(Drop)]
struct Inlet {
    to: Peer,
    end: RingTake,
    ghost opened: { end ≡ opened_take },
}

/// The ends to a peer, of such rings.
#[derive(Drop)]
struct PeerRings {
    peer: Peer,
    goes: RingSend,
    comes: RingTake,
    ghost goes_opened: { goes ≡ opened_send },
    ghost comes_opened: { comes ≡ opened_take },
}

/// The ends at a node that wait for it.
#[derive(Drop)]
struct WaitingRings {
    rows: Vec<PeerRings>,
}

/// The links of a scenario's nodes. Whoever asks for the ends of a node first has the rings made; their other ends wait for the
/// peer's turn. Contracts see how many nodes there are.
#[derive(Drop)]
pub struct NodeRings {
    waiting: Vec<WaitingRings>,
}

impl Model for NodeRings {
    ghost use Rattle.std.specs.Prelude.{ℕ, vec_len};

    ghost Value = { ℕ };

    ghost view = { λ r. vec_len r.waiting };
}

impl NodeRings {
    /// No rings yet, between the nodes of a scenario. An `Err` is want of memory.
    pub fn new(alloc: Global, scenario: &Scenario) -> Result<NodeRings, Memory>
        ensures { IfOk result (λ r. r ≡ node_count scenario.now.setup) }
    {
        let mut waiting = Vec::new(alloc);
        for _node in 0..node_count(scenario) {
            waiting.push(WaitingRings {
                rows: Vec::new(alloc),
            })?;
        }
        Ok(NodeRings { waiting })
    }

    /// The ends of the broker of a topic at a cluster: of the links to and from the topic's brokers at the other clusters, and then
    /// its clients. An `Err` is want of memory.
    #[tactic(auto, using(world_laws::proofs::Merges::FewNodes::broker_there, crate::proofs::Links::none_opened))]
    pub fn broker(
        &mut self,
        alloc: Global,
        scenario: &Scenario,
        topic: u32,
        cluster: u32,
    ) -> Result<EndTable<RingEnd>, Memory>
        requires topic { topic < length scenario.now.setup.topics }
        requires cluster { cluster < length scenario.now.setup.clusters }
        requires nodes { self.old ≡ node_count scenario.now.setup }
        ensures peers { IfOk result (λ t. HasPeers scenario.now.setup (BrokerNode topic cluster) t.rows.items) }
        ensures opened { IfOk result (λ t. AreOpened t.rows.items) }
        ensures nodes { self.new ≡ self.old }
    {
        let own = broker_at(scenario, topic, cluster);
        let mut ends = no_ends(alloc);
        self.link_brokers(alloc, scenario, own, &mut ends)?;
        self.link_clients(alloc, scenario, own, &mut ends)?;
        Ok(ends)
    }

    /// Links a broker with those of its topic at the other clusters.
    #[tactic(auto, using(crate::proofs::Links::no_brokers, crate::proofs::Links::brokers_done, crate::proofs::Links::none_opened, world_laws::proofs::Merges::FewNodes::broker_there))]
    fn link_brokers(
        &mut self,
        alloc: Global,
        scenario: &Scenario,
        own: BrokerAt,
        ends: &mut EndTable<RingEnd>,
    ) -> Result<(), Memory>
        requires topic { own.topic < length scenario.now.setup.topics }
        requires here { own.node < self.old }
        requires nodes { self.old ≡ node_count scenario.now.setup }
        requires empty { ends.old.rows.items ≡ [] }
        ensures linked { OnOk result (HasClients scenario.now.setup own.topic own.cluster 0 ends.new.rows.items) }
        ensures opened { OnOk result (AreOpened ends.new.rows.items) }
        ensures nodes { self.new ≡ self.old }
    {
        for remote in 0..cluster_count(scenario) {
            let other = broker_at(scenario, own.topic, remote);
            self.link_other(alloc, own, other, ends)?;
        }
        Ok(())
    }

    /// Links a broker with that at the next cluster, where that is another one.
    #[tactic(auto, using(crate::proofs::Links::brokers_next, crate::proofs::Links::brokers_same))]
    fn link_other(
        &mut self,
        alloc: Global,
        own: BrokerAt,
        other: BrokerAt,
        ends: &mut EndTable<RingEnd>,
    ) -> Result<(), Memory>
        requires here { own.node < self.old }
        requires there { other.node < self.old }
        requires so_far { HasBrokers own.cluster other.cluster ends.old.rows.items }
        requires opened { AreOpened ends.old.rows.items }
        ensures linked { OnOk result (HasBrokers own.cluster (other.cluster + 1) ends.new.rows.items) }
        ensures opened { OnOk result (AreOpened ends.new.rows.items) }
        ensures nodes { self.new ≡ self.old }
    {
        if other.cluster == own.cluster {
            return Ok(());
        }
        self.link_pair(alloc, own, other, ends)?;
        Ok(())
    }

    /// Links a broker with another one of its topic, in both directions of replication.
    #[tactic(auto, using(crate::proofs::Links::linked_both))]
    fn link_pair(
        &mut self,
        alloc: Global,
        own: BrokerAt,
        other: BrokerAt,
        ends: &mut EndTable<RingEnd>,
    ) -> Result<(), Memory>
        requires here { own.node < self.old }
        requires there { other.node < self.old }
        requires opened { AreOpened ends.old.rows.items }
        ensures linked { OnOk result (GainsBroker other.cluster ends.old.rows.items ends.new.rows.items) }
        ensures opened { OnOk result (AreOpened ends.new.rows.items) }
        ensures nodes { self.new ≡ self.old }
    {
        let here = PeerEnd {
            node: own.node,
            peer: Peer::Forward(other.cluster),
        };
        let there = PeerEnd {
            node: other.node,
            peer: Peer::Back(own.cluster),
        };
        self.link(alloc, here, there, ends)?;
        let here = PeerEnd {
            node: own.node,
            peer: Peer::Back(other.cluster),
        };
        let there = PeerEnd {
            node: other.node,
            peer: Peer::Forward(own.cluster),
        };
        self.link(alloc, here, there, ends)?;
        Ok(())
    }

    /// Links a broker with the clients of its topic.
    #[tactic(auto, using(crate::proofs::Links::clients_done))]
    fn link_clients(
        &mut self,
        alloc: Global,
        scenario: &Scenario,
        own: BrokerAt,
        ends: &mut EndTable<RingEnd>,
    ) -> Result<(), Memory>
        requires here { own.node < self.old }
        requires nodes { self.old ≡ node_count scenario.now.setup }
        requires brokers { HasClients scenario.now.setup own.topic own.cluster 0 ends.old.rows.items }
        requires opened { AreOpened ends.old.rows.items }
        ensures linked { OnOk result (HasPeers scenario.now.setup (BrokerNode own.topic own.cluster) ends.new.rows.items) }
        ensures opened { OnOk result (AreOpened ends.new.rows.items) }
        ensures nodes { self.new ≡ self.old }
    {
        for client in 0..client_count(scenario) {
            self.link_client(alloc, scenario, own, client, ends)?;
        }
        Ok(())
    }

    /// Links a broker with the next client, where that is of its topic.
    #[tactic(auto, using(crate::proofs::Links::clients_next, crate::proofs::Links::clients_same, world_laws::proofs::Merges::FewNodes::client_there))]
    fn link_client(
        &mut self,
        alloc: Global,
        scenario: &Scenario,
        own: BrokerAt,
        client: u32,
        ends: &mut EndTable<RingEnd>,
    ) -> Result<(), Memory>
        requires client { client < length scenario.now.setup.clients }
        requires here { own.node < self.old }
        requires nodes { self.old ≡ node_count scenario.now.setup }
        requires so_far { HasClients scenario.now.setup own.topic own.cluster client ends.old.rows.items }
        requires opened { AreOpened ends.old.rows.items }
        ensures linked { OnOk result (HasClients scenario.now.setup own.topic own.cluster (client + 1) ends.new.rows.items) }
        ensures opened { OnOk result (AreOpened ends.new.rows.items) }
        ensures nodes { self.new ≡ self.old }
    {
        if topic_of(scenario, client) != own.topic {
            return Ok(());
        }
        let here = PeerEnd {
            node: own.node,
            peer: Peer::Client(client),
        };
        let there = PeerEnd {
            node: client_number(scenario, client),
            peer: Peer::Broker(own.cluster),
        };
        self.link(alloc, here, there, ends)?;
        Ok(())
    }

    /// The ends of a client: of the links to and from its topic's brokers. An `Err` is want of memory.
    #[tactic(auto, using(crate::proofs::Links::no_sites, crate::proofs::Links::sites_done, crate::proofs::Links::none_opened, world_laws::proofs::Merges::FewNodes::broker_there, world_laws::proofs::Merges::FewNodes::client_there))]
    pub fn client(
        &mut self,
        alloc: Global,
        scenario: &Scenario,
        client: u32,
    ) -> Result<EndTable<RingEnd>, Memory>
        requires client { client < length scenario.now.setup.clients }
        requires nodes { self.old ≡ node_count scenario.now.setup }
        ensures peers { IfOk result (λ t. HasPeers scenario.now.setup (ClientNode client) t.rows.items) }
        ensures opened { IfOk result (λ t. AreOpened t.rows.items) }
        ensures nodes { self.new ≡ self.old }
    {
        let node = client_number(scenario, client);
        let topic = topic_of(scenario, client);
        let mut ends = no_ends(alloc);
        for cluster in 0..cluster_count(scenario) {
            let there = PeerEnd {
                node: broker_number(scenario, topic, cluster),
                peer: Peer::Client(client),
            };
            self.link_site(alloc, node, cluster, there, &mut ends)?;
        }
        Ok(ends)
    }

    /// Links a client with the broker at the next cluster.
    #[tactic(auto, using(crate::proofs::Links::sites_next))]
    fn link_site(
        &mut self,
        alloc: Global,
        node: usize,
        cluster: u32,
        there: PeerEnd,
        ends: &mut EndTable<RingEnd>,
    ) -> Result<(), Memory>
        requires here { node < self.old }
        requires there { there.node < self.old }
        requires so_far { HasSites cluster ends.old.rows.items }
        requires opened { AreOpened ends.old.rows.items }
        ensures linked { OnOk result (HasSites (cluster + 1) ends.new.rows.items) }
        ensures opened { OnOk result (AreOpened ends.new.rows.items) }
        ensures nodes { self.new ≡ self.old }
    {
        let here = PeerEnd {
            node,
            peer: Peer::Broker(cluster),
        };
        self.link(alloc, here, there, ends)?;
        Ok(())
    }

    /// Adds the ends to a peer. An `Err` is want of memory.
    #[tactic(auto, using(crate::proofs::Links::linked_row, crate::proofs::Links::one_opened))]
    fn link(
        &mut self,
        alloc: Global,
        here: PeerEnd,
        there: PeerEnd,
        ends: &mut EndTable<RingEnd>,
    ) -> Result<(), Memory>
        requires here { here.node < self.old }
        requires there { there.node < self.old }
        requires opened { AreOpened ends.old.rows.items }
        ensures linked { OnOk result (GainsPeer here.peer ends.old.rows.items ends.new.rows.items) }
        ensures opened { OnOk result (AreOpened ends.new.rows.items) }
        ensures nodes { self.new ≡ self.old }
    {
        ends.rows.reserve(1)?;
        let row = self.ends_to(alloc, here, there)?;
        ends.rows.push_reserved(row.into_row());
        Ok(())
    }

    /// The ends to a peer: those that wait for the place, or those of new rings, whose other ends wait at the peer then. An `Err` is
    /// want of memory.
    fn ends_to(&mut self, alloc: Global, here: PeerEnd, there: PeerEnd) -> Result<PeerRings, Memory>
        requires here { here.node < self.old }
        requires there { there.node < self.old }
        ensures peer { IfOk result (λ r. r.peer ≡ here.peer) }
        ensures nodes { self.new ≡ self.old }
    {
        if let Some(row) = waiting_for(&mut self.waiting[here.node], here.peer) {
            return Ok(row);
        }
        // room comes first, so that no ring is made that has no place
        let waiting = &mut self.waiting[there.node].rows;
        waiting.reserve(1)?;
        let (near, far) = new_rings(alloc, here.peer, there.peer)?;
        waiting.push_reserved(far);
        Ok(near)
    }
}

/// The broker of a topic at a cluster.
fn broker_at(scenario: &Scenario, topic: u32, cluster: u32) -> BrokerAt
    ensures node { result.node ≡ node_number scenario.now.setup (BrokerNode topic cluster) }
    ensures topic { result.topic ≡ topic }
    ensures cluster { result.cluster ≡ cluster }
{
    BrokerAt {
        node: broker_number(scenario, topic, cluster),
        topic,
        cluster,
    }
}

/// A table without peers; takes no memory.
fn no_ends(alloc: Global) -> EndTable<RingEnd>
    ensures { result.rows.items ≡ [] }
{
    EndTable {
        rows: Vec::new(alloc),
    }
}

/// Where the ends to a peer wait; `None` where none do.
fn place_of(waiting: &[PeerRings], peer: Peer) -> Option<usize>
    ensures { IfSome result (λ at. at < length waiting.now) }
{
    for (at, row) in waiting.iter().enumerate() {
        if row.peer == peer {
            return Some(at);
        }
    }
    None
}

/// The ends to a peer that wait, which wait no more.
fn waiting_for(waiting: &mut WaitingRings, peer: Peer) -> Option<PeerRings>
    ensures { IfSome result (λ r. r.peer ≡ peer) }
{
    let at = place_of(waiting.rows.as_slice(), peer)?;
    let PeerRings { goes, comes, .. } = waiting.rows.swap_remove(at);
    Some(PeerRings { peer, goes, comes })
}

impl PeerRings {
    /// A row of a table.
    fn into_row(self) -> EndRow<RingEnd>
        ensures peer { result.peer ≡ self.peer }
        ensures opened { IsOpened result }
    {
        let PeerRings { peer, goes, comes } = self;
        EndRow {
            peer,
            take: RingEnd::Take(comes),
            send: RingEnd::Send(goes),
        }
    }

    /// The ends to a peer, which names the node itself `own`: those of a ring to it and of a ring from it.
    fn of(peer: Peer, own: Peer, goes: Outlet, comes: Inlet) -> PeerRings
        requires goes { goes.to ≡ peer }
        requires comes { comes.to ≡ own }
        ensures { result.peer ≡ peer }
    {
        PeerRings {
            peer,
            goes: goes.end,
            comes: comes.end,
        }
    }
}

/// A new ring from a node to the one that it names so. An `Err` is want of memory.
fn new_ring(alloc: Global, to: Peer) -> Result<(Outlet, Inlet), Memory>
    ensures goes { IfOk result (λ r. r.0.to ≡ to) }
    ensures comes { IfOk result (λ r. r.1.to ≡ to) }
{
    let (send, take) = ring(alloc, RING_PLACES, PART_BYTES)?;
    Ok((Outlet { to, end: send }, Inlet { to, end: take }))
}

/// Two new rings, one in each direction, between two nodes that name each other so: the ends at the one that names the other `near`,
/// and those at the one that names it `far`. An `Err` is want of memory.
fn new_rings(alloc: Global, near: Peer, far: Peer) -> Result<(PeerRings, PeerRings), Memory>
    ensures near { IfOk result (λ r. r.0.peer ≡ near) }
    ensures far { IfOk result (λ r. r.1.peer ≡ far) }
{
    let (goes, comes) = new_ring(alloc, near)?;
    match new_ring(alloc, far) {
        Ok((answers, returns)) => {
            let here = PeerRings::of(near, far, goes, returns);
            let there = PeerRings::of(far, near, answers, comes);
            Ok((here, there))
        }
        Err(error) => {
            // by calls, so that the ends of a ring are shown to end once
            drop(goes);
            drop(comes);
            Err(error)
        }
    }
}
