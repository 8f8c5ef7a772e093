//! Whether there is room for what a client sends as it connects, and its turn where there is none.
ghost use Rattle.std.specs.Prelude.{◌≡◌, ◌≤◌, IsFalse, IsTrue, true};
ghost use Rattle.actors.specs.Drawing.{Drawing};
ghost use Rattle.actors.specs.Room.{HasPlaces, IsTooFull, IsTurnWithRoom, IsUnconnected, connect_packets, connecting, connects_now, one_if, unconnected_tries};
ghost use Rattle.actors.specs.Turns.{Walks};
ghost use Rattle.geo_base.specs.declared.packet.Peer.TheVariants as peer;
ghost use Rattle.node_log.specs.Acts.{SameLog};

use crate::actor::Actor;
use crate::role::Role;
use crate::turning::{has_waited, run_client, waited_after};
use client::Client;
use geo_base::{Memory, Peer};
use node_log::{NodeLog, NodeState};
use std::alloc::Global;
use wire_ends::End;

/// Where a client connects, and how many packets it sends then.
#[derive(Clone, Copy, Drop)]
pub(crate) struct Reconnection {
    pub to: Peer,
    pub packets: usize,
}

impl Actor {
    /// A turn at a log, as `turn` takes it; but where the actor is a client's that is to connect, and a look finds fewer places at the
    /// end to its broker than its packets take, each at least so many as the caller knows that a packet takes there, the turn leaves
    /// its connection as it is. False exactly where nothing was done. An `Err` is want of memory; then no event was done.
    pub fn turn_with_room<E: End>(
        &mut self,
        alloc: Global,
        log: &mut NodeLog<E>,
        places: usize,
    ) -> Result<bool, Memory>
        ensures { IsTurnWithRoom E.sent E.taken E.shown E.free E.looks E.fits places self.old log.old self.new log.new result }
    {
        if self.waits_for_room(log, places) {
            return self.turn_unconnected(alloc, log);
        }
        self.turn(alloc, log)
    }

    /// Whether the actor is a client's that is to connect in its next turn at the log, and a look finds fewer places at the end to
    /// its broker than its packets take, each at least so many as the caller knows that a packet takes there. To write all these
    /// would be in vain. State, history, clock and what was sent and taken are as they were.
    fn waits_for_room<E: End>(&self, log: &mut NodeLog<E>, places: usize) -> bool
        ensures due { IsTrue result → connects_now self.now self.now.role log.old ≡ true }
        ensures full { IsTrue result → IsTooFull E.free E.looks places log.old log.new }
        ensures enough { IsFalse result → connects_now self.now self.now.role log.old ≡ true → HasPlaces E.free places log.old log.new }
        ensures same { SameLog E.sent E.taken log.old log.new }
    {
        if !self.connects_now(log) {
            return false;
        }
        is_too_full(log, places)
    }

    /// Whether the actor is a client's that is to connect in its next turn at the log.
    fn connects_now<E: End>(&self, log: &NodeLog<E>) -> bool
        ensures { result ≡ connects_now self.now self.now.role log.now }
    {
        match self.role {
            Role::Client { client } => match self.is_connection_due(log, client) {
                Some(is_due) => is_due,
                None => false,
            },
            _ => false,
        }
    }

    /// A turn of a client's actor that leaves its connection as it is: what came for it is tried, and its next line. Any other actor
    /// does nothing in it. False exactly where nothing was done. An `Err` is want of memory; then no event was done.
    #[tactic(auto, using(crate::proofs::Waiting::waited_is))]
    fn turn_unconnected<E: End>(
        &mut self,
        alloc: Global,
        log: &mut NodeLog<E>,
    ) -> Result<bool, Memory>
        ensures { IsUnconnected E.sent E.taken E.shown E.free E.looks E.fits self.old log.old self.new log.new result }
    {
        let is_done = try_unconnected(self.role, alloc, log)?;
        let is_waiting = !is_done && has_waited(self.role, log);
        self.waited = waited_after(self.waited, is_waiting);
        Ok(is_done)
    }
}

/// What came for a client, and its next line.
fn try_unconnected<E: End>(role: Role, alloc: Global, log: &mut NodeLog<E>) -> Result<bool, Memory>
    ensures { (d : Drawing) → Walks E.sent E.taken E.shown E.free E.looks E.fits (unconnected_tries role d) d log.old log.new d result }
{
    match role {
        Role::Client { client } => run_client(alloc, log, client, Some(false)),
        _ => Ok(false),
    }
}

/// Whether a look finds fewer places at the end to a client's broker than its packets take as it connects. False at a broker's log.
#[tactic(auto, using(crate::proofs::Crowding::too_full, crate::proofs::Crowding::same_log, crate::proofs::Crowding::places_nowhere, crate::proofs::Crowding::places_elsewhere, crate::proofs::Crowding::places_there))]
fn is_too_full<E: End>(log: &mut NodeLog<E>, places: usize) -> bool
    ensures full { IsTrue result → IsTooFull E.free E.looks places log.old log.new }
    ensures enough { IsFalse result → HasPlaces E.free places log.old log.new }
    ensures same { SameLog E.sent E.taken log.old log.new }
{
    let Some(connecting) = connecting(log) else {
        return false;
    };
    if !log.has_peer(connecting.to) {
        return false;
    }
    log.free(connecting.to) < places.saturating_mul(connecting.packets)
}

/// Where the client of a log connects; `None` exactly for a broker's.
#[tactic(auto, using(crate::proofs::Crowding::client_connecting, crate::proofs::Crowding::broker_connecting))]
fn connecting<E: End>(log: &NodeLog<E>) -> Option<Reconnection>
    ensures { result ≡ connecting log.now.state }
{
    match log.state() {
        NodeState::Broker(_) => None,
        NodeState::Client(state) => Some(connecting_of(&state.client)),
    }
}

#[tactic(auto, using(crate::proofs::Crowding::connecting_is))]
fn connecting_of(client: &Client) -> Reconnection
    ensures { result ≡ record { to = peer.Broker client.now.cluster; packets = connect_packets client.now } }
{
    let view = client.view();
    let in_force = one_if(view.produce) + one_if(view.sub) + one_if(view.flow);
    Reconnection {
        to: Peer::Broker(view.cluster),
        packets: 1 + in_force + view.unanswered.len(),
    }
}

fn one_if(line: Option<usize>) -> usize
    ensures value { result ≡ one_if line }
    ensures few { result ≤ 1 }
{
    match line {
        Some(_) => 1,
        None => 0,
    }
}
