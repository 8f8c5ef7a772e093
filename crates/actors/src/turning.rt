//! A turn of an actor.
ghost use Rattle.std.specs.Prelude.{◌≡◌, ◌+◌, ◌∷◌, [], if◌then◌else◌, min};
ghost use Rattle.actors.specs.Drawing.{Drawing};
ghost use Rattle.actors.specs.Tries.{client_tries, connection_due, controller_tries, has_waited, most_waited, receiver_tries, replicator_tries, server_tries, session_due, tried, tries_of, try_if};
ghost use Rattle.actors.specs.Turns.{IsTurn, Walks};

use crate::actor::Actor;
use crate::seeing::{
    cluster_of, is_broker, is_client, is_closed, is_connected, replicator_of, waits,
};
use crate::{Draws, Link, Role};
use geo_base::{Event, Memory};
use node_log::NodeLog;
use std::alloc::Global;
use wire_ends::End;

/// For how many turns in a row an actor waits at most before it begins anew (own: enough turns for an answer to come, if it comes).
const MOST_WAITED: u32 = 64;

impl Actor {
    /// A turn at a log: the events of the actor's role at the log's node are tried in order until the log does one. False exactly
    /// where the role has none there, or where each that is tried was not done. An `Err` is want of memory; then no event was done,
    /// and the turn ends with the try in which memory was wanting.
    #[tactic(auto, using(crate::proofs::Waiting::waited_is))]
    pub fn turn<E: End>(&mut self, alloc: Global, log: &mut NodeLog<E>) -> Result<bool, Memory>
        ensures { IsTurn E.sent E.taken E.shown E.free E.looks E.fits self.old log.old self.new log.new result }
    {
        let is_done = self.try_all(alloc, log)?;
        let is_waiting = !is_done && has_waited(self.role, log);
        self.waited = waited_after(self.waited, is_waiting);
        Ok(is_done)
    }

    /// Tries the events of the actor's role.
    fn try_all<E: End>(&mut self, alloc: Global, log: &mut NodeLog<E>) -> Result<bool, Memory>
        ensures walk { Walks E.sent E.taken E.shown E.free E.looks E.fits (tries_of self.old self.old.role log.old) self.old.drawing log.old log.new self.new.drawing result }
        ensures rest { self.new ≡ record self.old { drawing = self.new.drawing } }
    {
        match self.role {
            Role::Replicator(link) => {
                let is_due = self.is_session_due(log, link);
                send(&mut self.draws, alloc, log, link, is_due)
            }
            Role::Receiver(link) => {
                let is_here = is_broker(log, link.topic, link.target);
                receive(&mut self.draws, alloc, log, link, is_here)
            }
            Role::Controller { topic, cluster } => {
                let is_here = is_broker(log, topic, cluster);
                control(&mut self.draws, alloc, log, topic, cluster, is_here)
            }
            Role::Dispatcher {
                topic,
                cluster,
                sub,
            } => {
                let is_here = is_broker(log, topic, cluster);
                let offer = Event::Offer {
                    topic,
                    cluster,
                    sub,
                };
                try_where(is_here, alloc, log, &offer)
            }
            Role::Client { client } => {
                let is_due = self.is_connection_due(log, client);
                run_client(alloc, log, client, is_due)
            }
            Role::Server { topic, client } => {
                let cluster = cluster_of(log, topic);
                serve(alloc, log, client, cluster)
            }
        }
    }

    /// Whether a replicator is to begin a session; `None` exactly where the log is of another node.
    fn is_session_due<E: End>(&self, log: &NodeLog<E>, link: Link) -> Option<bool>
        ensures { result ≡ session_due self.now log.now link }
    {
        match replicator_of(log, link) {
            None => None,
            Some(replicator) => Some(is_closed(replicator) || self.waited >= MOST_WAITED),
        }
    }

    /// Whether a client is to connect; `None` exactly where the log is of another node.
    pub(crate) fn is_connection_due<E: End>(&self, log: &NodeLog<E>, client: u32) -> Option<bool>
        ensures { result ≡ connection_due self.now log.now client }
    {
        if is_client(log, client) {
            Some(!is_connected(log) || self.waited >= MOST_WAITED)
        } else {
            None
        }
    }
}

/// For how many of its turns in a row an actor has waited, one turn later. More than the most are told as the most.
pub(crate) fn waited_after(waited: u32, is_waiting: bool) -> u32
    ensures { result ≡ (if is_waiting then min (waited + 1) most_waited else 0) }
{
    if is_waiting {
        waited.saturating_add(1).min(MOST_WAITED)
    } else {
        0
    }
}

/// A replicator's turn: a new session where it is due, a receipt, a read.
fn send<E: End>(
    draws: &mut Draws,
    alloc: Global,
    log: &mut NodeLog<E>,
    link: Link,
    is_due: Option<bool>,
) -> Result<bool, Memory>
    ensures { Walks E.sent E.taken E.shown E.free E.looks E.fits (replicator_tries is_due draws.old link) draws.old log.old log.new draws.new result }
{
    let Some(is_due) = is_due else {
        return Ok(false);
    };
    if try_where(is_due, alloc, log, &link.reset())? {
        return Ok(true);
    }
    let fate = draws.fate();
    if try_event(alloc, log, &link.receipt(fate))? {
        return Ok(true);
    }
    try_event(alloc, log, &link.read())
}

/// A receiver's turn: the next packet.
fn receive<E: End>(
    draws: &mut Draws,
    alloc: Global,
    log: &mut NodeLog<E>,
    link: Link,
    is_here: bool,
) -> Result<bool, Memory>
    ensures { Walks E.sent E.taken E.shown E.free E.looks E.fits (receiver_tries is_here draws.old link) draws.old log.old log.new draws.new result }
{
    if !is_here {
        return Ok(false);
    }
    let fate = draws.fate();
    try_event(alloc, log, &link.take(fate))
}

/// A controller's turn: a restart by chance, and a snapshot.
fn control<E: End>(
    draws: &mut Draws,
    alloc: Global,
    log: &mut NodeLog<E>,
    topic: u32,
    cluster: u32,
    is_here: bool,
) -> Result<bool, Memory>
    ensures { Walks E.sent E.taken E.shown E.free E.looks E.fits (controller_tries is_here draws.old topic cluster) draws.old log.old log.new draws.new result }
{
    if !is_here {
        return Ok(false);
    }
    let restarts = draws.restart();
    if try_where(restarts, alloc, log, &Event::Restart { topic, cluster })? {
        return Ok(true);
    }
    try_event(alloc, log, &Event::Snap { topic, cluster })
}

/// A client's turn: a new connection where it is due, what came for it, its next line.
pub(crate) fn run_client<E: End>(
    alloc: Global,
    log: &mut NodeLog<E>,
    client: u32,
    is_due: Option<bool>,
) -> Result<bool, Memory>
    ensures { (d : Drawing) → Walks E.sent E.taken E.shown E.free E.looks E.fits (client_tries is_due d client) d log.old log.new d result }
{
    let Some(is_due) = is_due else {
        return Ok(false);
    };
    if try_where(is_due, alloc, log, &Event::Reconnect { client })? {
        return Ok(true);
    }
    if try_event(alloc, log, &Event::Get { client })? {
        return Ok(true);
    }
    try_event(alloc, log, &Event::Go { client })
}

/// A server's turn, at the cluster of the log.
fn serve<E: End>(
    alloc: Global,
    log: &mut NodeLog<E>,
    client: u32,
    cluster: Option<u32>,
) -> Result<bool, Memory>
    ensures { (d : Drawing) → Walks E.sent E.taken E.shown E.free E.looks E.fits (server_tries cluster d client) d log.old log.new d result }
{
    let Some(cluster) = cluster else {
        return Ok(false);
    };
    try_event(alloc, log, &Event::Serve { cluster, client })
}

/// Tries an event, where it is due.
fn try_where<E: End>(
    is_due: bool,
    alloc: Global,
    log: &mut NodeLog<E>,
    event: &Event,
) -> Result<bool, Memory>
    ensures { (d : Drawing) → Walks E.sent E.taken E.shown E.free E.looks E.fits (try_if is_due (tried d event.now)) d log.old log.new d result }
{
    if !is_due {
        return Ok(false);
    }
    try_event(alloc, log, event)
}

/// Tries an event.
#[tactic(auto, using(crate::proofs::Walking::one))]
fn try_event<E: End>(alloc: Global, log: &mut NodeLog<E>, event: &Event) -> Result<bool, Memory>
    ensures { (d after : Drawing) → Walks E.sent E.taken E.shown E.free E.looks E.fits (tried after event.now ∷ []) d log.old log.new after result }
{
    log.act(alloc, event)
}

/// Whether an actor whose turn had no event waited in it.
pub(crate) fn has_waited<E: End>(role: Role, log: &NodeLog<E>) -> bool
    ensures { result ≡ has_waited role log.now }
{
    match role {
        Role::Replicator(link) => match replicator_of(log, link) {
            None => false,
            Some(replicator) => waits(replicator),
        },
        Role::Client { .. } => true,
        _ => false,
    }
}
