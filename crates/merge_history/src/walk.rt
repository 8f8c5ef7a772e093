//! Where a node's history does not agree with those of its peers.
ghost use Rattle.std.specs.Prelude.{◌≡◌, ◌<◌, ◌^◌, length, ◌++◌, ◌∷◌, [], List, ℕ, IfOk, IfSome, None, Ok, OnOk, false, true};
ghost use Rattle.merge_history.specs.Kept.{Kept};
ghost use Rattle.merge_history.specs.Differences.{AllSent};
ghost use Rattle.merge_history.specs.Peers.{LayoutView, asked, cluster_of, cluster_then, peer_taken};
ghost use Rattle.merge_history.specs.Walks.{AreOutboxes, DiffersHere, IsFoundAt, IsSentHere, IsWalked, WasSent};

use crate::counts::Counts;
use crate::history::History;
use crate::outbox::Outbox;
use crate::packet_layout::{FarEnd, Layout};
use crate::packets::same_packet;
use crate::slot::slot;
use geo_base::{Event, Memory, Peer};
use log_parts::{Done, Sent};
use std::alloc::Global;
use std::marker::Model;
use wire_ends::WirePacket;

/// A packet that a node took from a peer and that is not the one that was sent: the place of the event in the node's history,
/// and how many packets the node took from that peer before.
#[derive(Clone, Copy, Drop)]
pub struct Found {
    pub place: usize,
    pub peer: Peer,
    pub index: usize,
}

/// The first packet of a node that is not the one that was sent; None where each is.
pub(crate) fn first_of(
    alloc: Global,
    layout: &Layout,
    histories: &[History<'_>],
    outboxes: &[Outbox<'_>],
    node: usize,
) -> Result<Option<Found>, Memory>
    requires node { node < length histories.now }
    requires few { node < 2 ^ 32 }
    requires outboxes { AreOutboxes histories.now outboxes.now }
    ensures found { IfOk result (λ o. IfSome o (λ f. IsFoundAt layout.now histories.now node f)) }
    ensures none { result ≡ Ok None → AllSent layout.now histories.now node }
{
    let mut walk = Walk::new(alloc, layout, node);
    let found = walk.first_in(layout, histories, outboxes, node);
    drop(walk);
    found
}

/// How far a node's history was read: how many packets it took from each peer, by slot, and where its client is.
#[derive(Drop)]
struct Walk {
    counts: Counts,
    cluster: u32,
}

impl Model for Walk {
    ghost use Rattle.merge_history.specs.Walks.{WalkView};

    ghost Value = { WalkView };

    ghost view = { λ w. record { counts = w.counts; cluster = w.cluster } };
}

impl Walk {
    /// Nothing was read; takes no memory.
    fn new(alloc: Global, layout: &Layout, node: usize) -> Walk
        ensures { IsWalked layout.now node [] result }
    {
        Walk {
            counts: Counts::new(alloc),
            cluster: layout.home(node).cluster,
        }
    }

    /// The first packet of a node that is not the one that was sent, of a walk that has read nothing; None where each is.
    fn first_in(
        &mut self,
        layout: &Layout,
        histories: &[History<'_>],
        outboxes: &[Outbox<'_>],
        node: usize,
    ) -> Result<Option<Found>, Memory>
        requires node { node < length histories.now }
        requires few { node < 2 ^ 32 }
        requires outboxes { AreOutboxes histories.now outboxes.now }
        requires unread { IsWalked layout.now node [] self.old }
        ensures found { IfOk result (λ o. IfSome o (λ f. IsFoundAt layout.now histories.now node f)) }
        ensures none { result ≡ Ok None → AllSent layout.now histories.now node }
    {
        let events = histories[node].events();
        for (place, done) in events.iter().enumerate() {
            if let Some((peer, index)) = self.differs(layout, outboxes, node, done) {
                return Ok(Some(Found { place, peer, index }));
            }
            self.go_on(done)?;
        }
        Ok(None)
    }

    /// The peer that an event took a packet from, and how many it took from there before, where the packet is not the one that
    /// was sent.
    fn differs(
        &self,
        layout: &Layout,
        outboxes: &[Outbox<'_>],
        node: usize,
        done: &Done,
    ) -> Option<(Peer, usize)>
        requires { node < 2 ^ 32 }
        ensures some { (kept : List (List Kept)) → AreOutboxes kept outboxes.now → IfSome result (λ r. DiffersHere layout.now kept node self.now done.now r.0 r.1) }
        ensures none { (kept : List (List Kept)) → AreOutboxes kept outboxes.now → result ≡ None → IsSentHere layout.now kept node self.now done.now }
    {
        let taken = match &done.taken {
            Some(taken) => taken,
            None => return None,
        };
        let peer = peer_taken(self.cluster, &done.event)?;
        let index = self.counts.at(slot(peer));
        if was_sent(outboxes, layout.end_of(node, peer), index, taken) {
            None
        } else {
            Some((peer, index))
        }
    }

    /// The peer that an event takes a packet from.
    fn asked(&self, done: &Done) -> Option<Peer>
        ensures { result ≡ asked self.now.cluster done.now }
    {
        match &done.taken {
            Some(_) => peer_taken(self.cluster, &done.event),
            None => None,
        }
    }

    /// Goes on after an event.
    #[tactic(auto, using(crate::proofs::Walking::walked_on))]
    fn go_on(&mut self, done: &Done) -> Result<(), Memory>
        ensures { OnOk result ((l : LayoutView) (n : ℕ) (ds : List Kept) → IsWalked l n ds self.old → IsWalked l n (ds ++ done.now ∷ []) self.new) }
    {
        let asked = self.asked(done);
        self.counts.raise_for(asked)?;
        self.cluster = cluster_then(self.cluster, done.sent.as_slice());
        Ok(())
    }
}

/// Whether a packet is the one that was sent at a place.
fn was_sent(outboxes: &[Outbox<'_>], end: FarEnd, place: usize, taken: &WirePacket) -> bool
    ensures { (kept : List (List Kept)) → AreOutboxes kept outboxes.now → WasSent kept end place taken.now result }
{
    if end.node < outboxes.len() {
        match outboxes[end.node].get(end.peer, place) {
            Some(sent) => same_packet(sent, taken),
            None => false,
        }
    } else {
        false
    }
}

/// The peer whose packet an event takes, of a client that is at a cluster.
fn peer_taken(cluster: u32, event: &Event) -> Option<Peer>
    ensures { result ≡ peer_taken cluster event.now }
{
    match *event {
        Event::Get { .. } => Some(Peer::Broker(cluster)),
        Event::Serve { client, .. } => Some(Peer::Client(client)),
        Event::Take { source, .. } => Some(Peer::Back(source)),
        Event::Receipt { target, .. } => Some(Peer::Forward(target)),
        _ => None,
    }
}

/// Where a client is that sent packets from a cluster.
fn cluster_then(cluster: u32, sent: &[Sent]) -> u32
    ensures { result ≡ cluster_then cluster sent.now }
{
    let mut at = cluster;
    for one in sent {
        at = cluster_of(at, one.to);
    }
    at
}

/// Where a client is that sent a packet to a peer.
fn cluster_of(cluster: u32, to: Peer) -> u32
    ensures { result ≡ cluster_of cluster to }
{
    match to {
        Peer::Broker(next) => next,
        Peer::Forward(_) | Peer::Back(_) | Peer::Client(_) => cluster,
    }
}
