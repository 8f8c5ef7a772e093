//! What a file holds of a world: the state that a stop of everything would leave.
ghost use Rattle.std.specs.Prelude.{◌≡◌, ℕ, ◌+◌, ◌<◌, ◌^◌, All, Err, IfOk, None, OnOk, Some, map};
ghost use Rattle.client.specs.State.{stopped};
ghost use Rattle.geo_base.specs.Broker.{Broker as MachineBroker};
ghost use Rattle.geo_base.specs.Client.{unconnected};
ghost use Rattle.geo_base.specs.World.{World as Machine};
ghost use Rattle.state_file.specs.State.{state_of};
ghost use Rattle.state_file.specs.Writing.{CanSave};
ghost use Rattle.state_nodes.specs.Nodes.{broker_of};
ghost use Rattle.state_nodes.specs.Writing.{HaveRests};
ghost use Rattle.world.specs.declared.fault.RunFault.TheVariants as fault;
ghost use Rattle.world.specs.Saving.{Saves, behind_stop};
ghost use Rattle.world.specs.World.{IsAt, IsWithin, brokers_of, kept_of};
ghost use Rattle.kept_laws.specs.Standing.{Stands, limit_of};

use crate::fault::RunFault;
use crate::world::World;
use broker::Broker;
use client::{Client, ClientState};
use geo_base::{EntryStore, Ident, Memory};
use script_text::Scenario;
use state_file::Saved;
use state_nodes::{Counts, NodeParts};
use std::alloc::Global;

/// What a stop of everything leaves of a world: the counts with the stop counted, what is durable of each broker, each client.
#[derive(Drop)]
struct StopParts {
    counts: Counts,
    brokers: Vec<NodeParts>,
    clients: Vec<ClientState>,
}

impl World {
    /// The state that a stop of everything would leave, as a file holds it: the declarations without the schedule, the counts with
    /// the stop counted, what is durable of each broker, each client. The world stays as it is. An `Err` is a limit of the run that
    /// the stop would pass, or want of memory.
    pub fn saved(&self, alloc: Global, scenario: Scenario) -> Result<Saved, RunFault>
        requires at { IsAt scenario.setup self.now }
        ensures saves { (w : Machine) → Stands scenario.setup (kept_of self.now) w → Saves scenario w result }
        ensures can { IfOk result (λ v. CanSave (state_of v)) }
    {
        match self.parts_behind_stop(alloc) {
            Ok(parts) => Ok(Saved {
                scenario: scenario.without_steps(alloc),
                counts: parts.counts,
                brokers: parts.brokers,
                clients: parts.clients,
            }),
            Err(fault) => {
                // by a call, so that the end of a scenario is proved by itself
                drop(scenario);
                Err(fault)
            }
        }
    }

    /// What that stop would leave, but for the declarations.
    fn parts_behind_stop(&self, alloc: Global) -> Result<StopParts, RunFault>
        requires { IsWithin self.now }
        ensures counts { IfOk result (λ v. v.counts ≡ record { events = self.now.events + 1; idle = self.now.idle; rounds = self.now.rounds; frame_bytes = self.now.frame_bytes }) }
        ensures brokers { IfOk result (λ v. map broker_of v.brokers.items ≡ map behind_stop (brokers_of self.now.brokers)) }
        ensures rests { IfOk result (λ v. All (λ (b : MachineBroker). HaveRests b.entries) (map broker_of v.brokers.items)) }
        ensures clients { IfOk result (λ v. map stopped v.clients.items ≡ map unconnected self.now.clients) }
        ensures within { OnOk result (limit_of (self.now.events + 1) self.now.idle self.now.frame_bytes ≡ None) }
        ensures large { (n : ℕ) → result ≡ Err (fault.TooLarge n) → limit_of (self.now.events + 1) self.now.idle self.now.frame_bytes ≡ Some n }
    {
        self.one_more()?;
        let brokers = saved_nodes(alloc, self.brokers.as_slice())?;
        let clients = saved_clients(alloc, self.clients.as_slice())?;
        Ok(StopParts {
            counts: self.counts_behind_stop(),
            brokers,
            clients,
        })
    }

    /// The counts with one event more.
    fn counts_behind_stop(&self) -> Counts
        requires { self.now.events + 1 < 2 ^ 64 }
        ensures { result ≡ record { events = self.now.events + 1; idle = self.now.idle; rounds = self.now.rounds; frame_bytes = self.now.frame_bytes } }
    {
        Counts {
            events: self.counts.events + 1,
            idle: self.counts.idle,
            rounds: self.counts.rounds,
            frame_bytes: self.counts.frame_bytes,
        }
    }
}

/// What is durable of brokers after a stop.
fn saved_nodes(alloc: Global, brokers: &[Broker]) -> Result<Vec<NodeParts>, Memory>
    ensures brokers { IfOk result (λ ps. map broker_of ps.items ≡ map behind_stop (brokers_of brokers.now)) }
    ensures rests { IfOk result (λ ps. All (λ (b : MachineBroker). HaveRests b.entries) (map broker_of ps.items)) }
{
    let mut parts = Vec::new(alloc);
    for node in brokers {
        parts.push(saved_node(alloc, node)?)?;
    }
    Ok(parts)
}

/// What is durable of a broker after a stop: a new ledger is open.
fn saved_node(alloc: Global, node: &Broker) -> Result<NodeParts, Memory>
    ensures node { IfOk result (λ p. broker_of p ≡ behind_stop node.now.broker) }
    ensures rests { IfOk result (λ p. HaveRests p.entries.items) }
{
    let mut durable = node.durable(alloc)?;
    match durable.store.reserve(1) {
        Ok(()) => {
            let _ledger = durable.store.open_ledger();
            NodeParts::of_durable(alloc, durable)
        }
        Err(memory) => {
            // by a call, so that the end of what is durable is proved by itself
            drop(durable);
            Err(memory)
        }
    }
}

/// What a stop leaves of clients.
fn saved_clients(alloc: Global, clients: &[Client]) -> Result<Vec<ClientState>, Memory>
    ensures { IfOk result (λ ks. map stopped ks.items ≡ map unconnected clients.now) }
{
    let mut states = Vec::new(alloc);
    for client in clients {
        states.push(saved_client(alloc, client)?)?;
    }
    Ok(states)
}

/// What a stop leaves of a client.
fn saved_client(alloc: Global, client: &Client) -> Result<ClientState, Memory>
    ensures { IfOk result (λ k. stopped k ≡ unconnected client.now) }
{
    let view = client.view();
    Ok(ClientState {
        cluster: view.cluster,
        connection: view.connection,
        done: view.done,
        produce: view.produce,
        sub: view.sub,
        flow: view.flow,
        unanswered: view.unanswered.to_vec(alloc)?,
        receipts: view.receipts,
        duplicates: view.duplicates,
        errors: view.errors,
        got: copied_idents(alloc, view.got)?,
    })
}

/// Identities once more.
fn copied_idents(alloc: Global, idents: &[Ident]) -> Result<Vec<Ident>, Memory>
    ensures { IfOk result (λ copies. copies.items ≡ idents.now) }
{
    let mut copies = Vec::new(alloc);
    for ident in idents {
        copies.push(ident.copy(alloc)?)?;
    }
    Ok(copies)
}
