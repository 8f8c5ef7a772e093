//! What a broker's state is made of, part by part: each step owns few parts, and none but the last the whole.
ghost use Rattle.std.specs.Prelude.{◌≡◌, ◌<◌, [], ◌∷◌, None, length, replicate, IfOk};
ghost use Rattle.topic_store.specs.Table.{Tells};
ghost use Rattle.geo_base.specs.Broker.{new_broker};
ghost use Rattle.geo_base.specs.Replicator.{new_replicator};
ghost use Rattle.broker_subs.specs.SubView.{subs_of};
ghost use Rattle.durable_parts.specs.Durable.{broker_of};
ghost use Rattle.broker_state.specs.Parts.{AreParts, state_view};
ghost use Rattle.broker_state.specs.State.{marker_number, no_room};

use crate::replicators::ReplicatorTable;
use crate::site::Site;
use crate::state::BrokerState;
use broker_subs::SubTable;
use durable_parts::{Durable, DurableReplicators, DurableSubs, recover};
use geo_base::{Memory, Session};
use replicator::Receiver;
use std::alloc::Global;
use topic_store::{DedupTable, TopicLedger};

/// All that a broker's state is made of beside its site, with no snapshot being made.
#[derive(Drop)]
pub(crate) struct Parts {
    pub(crate) store: TopicLedger,
    pub(crate) tables: Tables,
    pub(crate) memory: InMemory,
}

/// The tables of which a part is durable.
#[derive(Drop)]
pub(crate) struct Tables {
    pub(crate) replicators: ReplicatorTable,
    pub(crate) subs: SubTable,
}

/// What no stop leaves: the table of duplicates and the sequence id of the cluster's next marker, which the topic tells again, and
/// the sessions of the forward links, by cluster, and of the clients.
#[derive(Drop)]
pub(crate) struct InMemory {
    pub(crate) dedup: DedupTable,
    pub(crate) next_marker: u64,
    pub(crate) receivers: Vec<Receiver>,
    pub(crate) sessions: Vec<Option<Session>>,
}

impl BrokerState {
    /// The broker of a site that is made of parts; takes no memory.
    pub(crate) fn of_parts(site: Site, parts: Parts) -> BrokerState
        requires { AreParts site parts }
        ensures { result ≡ state_view site parts }
    {
        let Parts {
            store,
            tables,
            memory,
        } = parts;
        BrokerState {
            site,
            store,
            dedup: memory.dedup,
            next_marker: memory.next_marker,
            replicators: tables.replicators,
            receivers: memory.receivers,
            subs: tables.subs,
            sessions: memory.sessions,
            builder: None,
        }
    }
}

impl Parts {
    /// Those of the broker of a site with an empty topic and no session of so many clients.
    #[tactic(auto, using(topic_store::proofs::Tells::tells_none))]
    pub(crate) fn new(alloc: Global, site: &Site, clients: usize) -> Result<Parts, Memory>
        requires { 0 < site.now.per_ledger }
        ensures parts { IfOk result (AreParts site.now) }
        ensures made { IfOk result (λ p. state_view site.now p ≡ record { site = site.now; broker = new_broker (length site.now.clusters) clients; room = no_room }) }
    {
        let clusters = site.clusters().len();
        let memory = InMemory::new(alloc, clusters, clients)?;
        match empty_topic(alloc, site) {
            Ok((store, tables)) => Ok(Parts {
                store,
                tables,
                memory,
            }),
            Err(fault) => {
                drop(memory);
                Err(fault)
            }
        }
    }

    /// Those of the broker of a site as it is after a restart, with no session of so many clients.
    pub(crate) fn restored(
        alloc: Global,
        site: &Site,
        durable: Durable,
        clients: usize,
    ) -> Result<Parts, Memory>
        requires own { durable.own ≡ site.now.own }
        requires per_ledger { durable.store.per_ledger ≡ site.now.per_ledger }
        requires replicators { length durable.replicators ≡ length site.now.clusters }
        ensures parts { IfOk result (AreParts site.now) }
        ensures broker { IfOk result (λ p. (state_view site.now p).broker ≡ record (broker_of durable) { receivers = replicate (length durable.replicators) None; sessions = replicate clients None }) }
    {
        let memory = InMemory::recovered(alloc, &durable, site.clusters().len(), clients);
        match memory {
            Ok(memory) => Parts::of_durable(alloc, durable, memory),
            Err(fault) => {
                drop(durable);
                Err(fault)
            }
        }
    }

    /// Those of what is durable, with what no stop leaves.
    fn of_durable(alloc: Global, durable: Durable, memory: InMemory) -> Result<Parts, Memory>
        ensures store { IfOk result (λ p. p.store ≡ durable.store) }
        ensures replicators { IfOk result (λ p. p.tables.replicators.replicators ≡ durable.replicators) }
        ensures own { IfOk result (λ p. p.tables.replicators.own ≡ durable.own) }
        ensures subs { IfOk result (λ p. subs_of p.tables.subs.subs ≡ durable.subs) }
        ensures memory { IfOk result (λ p. p.memory ≡ memory) }
    {
        let Durable {
            own,
            store,
            subs,
            replicators,
        } = durable;
        match Tables::restored(alloc, own, subs, replicators) {
            Ok(tables) => Ok(Parts {
                store,
                tables,
                memory,
            }),
            Err(fault) => {
                drop(store);
                drop(memory);
                Err(fault)
            }
        }
    }
}

/// An empty topic, and the tables of a broker of a site that has no session yet.
fn empty_topic(alloc: Global, site: &Site) -> Result<(TopicLedger, Tables), Memory>
    requires { 0 < site.now.per_ledger }
    ensures store { IfOk result (λ t. t.0 ≡ record { entries = []; ledgers = 0 ∷ []; per_ledger = site.now.per_ledger; spare = 0 }) }
    ensures replicators { IfOk result (λ t. t.1.replicators ≡ record { own = site.now.own; replicators = replicate (length site.now.clusters) new_replicator; room = 0 }) }
    ensures subs { IfOk result (λ t. t.1.subs ≡ record { subs = []; room = 0 }) }
{
    let clusters = site.clusters().len() as u32;
    let replicators = ReplicatorTable::new(alloc, site.own(), clusters)?;
    match TopicLedger::new(alloc, site.per_ledger()) {
        Ok(store) => {
            let subs = SubTable::new(alloc);
            Ok((store, Tables { replicators, subs }))
        }
        Err(fault) => {
            drop(replicators);
            Err(fault)
        }
    }
}

impl Tables {
    /// Those of the cluster `own` as they are after a restart, from what is durable of them.
    fn restored(
        alloc: Global,
        own: u32,
        subs: DurableSubs,
        replicators: DurableReplicators,
    ) -> Result<Tables, Memory>
        ensures replicators { IfOk result (λ t. t.replicators.replicators ≡ replicators) }
        ensures own { IfOk result (λ t. t.replicators.own ≡ own) }
        ensures subs { IfOk result (λ t. subs_of t.subs.subs ≡ subs) }
    {
        let replicators = match ReplicatorTable::restored(alloc, own, replicators) {
            Ok(replicators) => replicators,
            Err(fault) => {
                drop(subs);
                return Err(fault);
            }
        };
        match SubTable::restored(alloc, subs) {
            Ok(subs) => Ok(Tables { replicators, subs }),
            Err(fault) => {
                drop(replicators);
                Err(fault)
            }
        }
    }
}

impl InMemory {
    /// That of a broker with an empty topic, among so many clusters, and no session of so many clients.
    fn new(alloc: Global, clusters: usize, clients: usize) -> Result<InMemory, Memory>
        ensures dedup { IfOk result (λ m. m.dedup ≡ record { rows = []; room = 0 }) }
        ensures marker { IfOk result (λ m. m.next_marker ≡ 0) }
        ensures receivers { IfOk result (λ m. m.receivers.items ≡ replicate clusters None) }
        ensures sessions { IfOk result (λ m. m.sessions.items ≡ replicate clients None) }
    {
        let (receivers, sessions) = all_closed(alloc, clusters, clients)?;
        Ok(InMemory {
            dedup: DedupTable::new(alloc),
            next_marker: 0,
            receivers,
            sessions,
        })
    }

    /// That of a broker after a restart, among so many clusters, with no session of so many clients.
    fn recovered(
        alloc: Global,
        durable: &Durable,
        clusters: usize,
        clients: usize,
    ) -> Result<InMemory, Memory>
        ensures told { IfOk result (λ m. Tells m.dedup.rows durable.now.store.entries) }
        ensures marker { IfOk result (λ m. m.next_marker ≡ marker_number durable.now.own durable.now.store.entries) }
        ensures receivers { IfOk result (λ m. m.receivers.items ≡ replicate clusters None) }
        ensures sessions { IfOk result (λ m. m.sessions.items ≡ replicate clients None) }
    {
        let recovered = recover(alloc, durable)?;
        match all_closed(alloc, clusters, clients) {
            Ok((receivers, sessions)) => Ok(InMemory {
                dedup: recovered.dedup,
                next_marker: recovered.next_marker,
                receivers,
                sessions,
            }),
            Err(fault) => {
                drop(recovered);
                Err(fault)
            }
        }
    }
}

/// So many receivers and so many clients, none with a session.
fn all_closed(
    alloc: Global,
    clusters: usize,
    clients: usize,
) -> Result<(Vec<Receiver>, Vec<Option<Session>>), Memory>
    ensures receivers { IfOk result (λ c. c.0.items ≡ replicate clusters None) }
    ensures sessions { IfOk result (λ c. c.1.items ≡ replicate clients None) }
{
    let receivers = closed_receivers(alloc, clusters)?;
    match no_sessions(alloc, clients) {
        Ok(sessions) => Ok((receivers, sessions)),
        Err(fault) => {
            drop(receivers);
            Err(fault)
        }
    }
}

/// So many receivers, none with a session.
fn closed_receivers(alloc: Global, clusters: usize) -> Result<Vec<Receiver>, Memory>
    ensures { IfOk result (λ rs. rs.items ≡ replicate clusters None) }
{
    let mut receivers = Vec::with_capacity(alloc, clusters)?;
    for _cluster in 0..clusters {
        receivers.push_reserved(Receiver::new());
    }
    Ok(receivers)
}

/// So many clients, none with a session.
fn no_sessions(alloc: Global, clients: usize) -> Result<Vec<Option<Session>>, Memory>
    ensures { IfOk result (λ ss. ss.items ≡ replicate clients None) }
{
    let mut sessions = Vec::with_capacity(alloc, clients)?;
    for _client in 0..clients {
        sessions.push_reserved(None);
    }
    Ok(sessions)
}
