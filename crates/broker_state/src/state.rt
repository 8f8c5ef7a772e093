//! A broker's state.
ghost use Rattle.std.specs.Prelude.{◌≡◌, ◌<◌, length, IfOk, IfSome};
ghost use Rattle.std.specs.Option.{option_copied};
ghost use Rattle.geo_base.specs.Broker.{new_broker, receiver_at, replicator_at, session_at};
ghost use Rattle.geo_base.specs.Topic.{accepts, index_of};
ghost use Rattle.broker_subs.specs.SubView.{subs_of};
ghost use Rattle.broker_subs.specs.Table.{rooms_of};
ghost use Rattle.broker_state.specs.Replicators.{ends_to};
ghost use Rattle.broker_state.specs.State.{StateView, marker_number, no_room};
ghost use Rattle.broker_state.specs.Site.{IsSite};

use crate::parts::Parts;
use crate::replicator_row::ReplicatorRow;
use crate::replicators::ReplicatorTable;
use crate::site::Site;
use broker_subs::SubTable;
use geo_base::{EntryStore, Memory, Position, Session};
use replicated_subs::SnapshotBuilder;
use replicator::Receiver;
use std::alloc::Global;
use std::marker::Model;
use topic_store::{DedupTable, Stream, TopicLedger, Verdict};

/// What a broker knows of the setup; its topic, with the table of its duplicates and the sequence id of the cluster's next marker;
/// the replicators and receivers by cluster; the subscriptions; the clients' sessions; and the snapshot that is being made.
#[derive(Drop)]
pub struct BrokerState {
    pub(crate) site: Site,
    pub(crate) store: TopicLedger,
    pub(crate) dedup: DedupTable,
    pub(crate) next_marker: u64,
    pub(crate) replicators: ReplicatorTable,
    pub(crate) receivers: Vec<Receiver>,
    pub(crate) subs: SubTable,
    pub(crate) sessions: Vec<Option<Session>>,
    pub(crate) builder: Option<SnapshotBuilder>,
}

impl Model for BrokerState {
    ghost use Rattle.std.specs.Prelude.{length};
    ghost use Rattle.broker_subs.specs.SubView.{subs_of};
    ghost use Rattle.broker_subs.specs.Table.{rooms_of};
    ghost use Rattle.broker_state.specs.State.{StateHolds, StateView};

    ghost Value = { StateView };

    ghost view = { λ b. record {
      site = b.site;
      broker = record { entries = b.store.entries; ledgers = b.store.ledgers; replicators = b.replicators.replicators; receivers = b.receivers.items; subs = subs_of b.subs.subs; sessions = b.sessions.items; builder = b.builder };
      room = record { entries = b.store.spare; streams = b.dedup.room; places = b.subs.room; subs = rooms_of b.subs.subs; replicators = b.replicators.room };
    } };

    ghost invariant = { λ b. StateHolds b.site b.store.per_ledger b.next_marker b.replicators.own (length b.replicators.replicators) (length b.receivers.items) b.dedup.rows b.store.entries };
}

impl BrokerState {
    /// The broker of a site, with an empty topic and no session of so many clients.
    pub fn new(alloc: Global, site: Site, clients: usize) -> Result<BrokerState, Memory>
        requires { 0 < site.per_ledger }
        ensures { IfOk result (λ b. b ≡ record { site = site; broker = new_broker (length site.clusters) clients; room = no_room }) }
    {
        let parts = Parts::new(alloc, &site, clients);
        match parts {
            Ok(parts) => Ok(BrokerState::of_parts(site, parts)),
            Err(fault) => {
                drop(site);
                Err(fault)
            }
        }
    }

    /// What the broker knows of the setup. There is a replicator and a receiver for each of its clusters.
    pub fn site(&self) -> &Site
        ensures value { result.now ≡ self.now.site }
        ensures known { IsSite self.now.site }
        ensures replicators { length self.now.broker.replicators ≡ length self.now.site.clusters }
        ensures receivers { length self.now.broker.receivers ≡ length self.now.site.clusters }
    {
        let _own = self.site.own();
        &self.site
    }

    /// The topic's entries and ledgers.
    pub fn store(&self) -> &TopicLedger
        ensures entries { result.now.entries ≡ self.now.broker.entries }
        ensures ledgers { result.now.ledgers ≡ self.now.broker.ledgers }
        ensures per_ledger { result.now.per_ledger ≡ self.now.site.per_ledger }
    {
        &self.store
    }

    /// The index that a position counts to; `None` exactly where nothing stands there.
    #[tactic(auto, using(crate::proofs::Indexes::index_within))]
    pub fn index_of(&self, position: Position) -> Option<u64>
        ensures index { result ≡ index_of self.now.broker.ledgers position }
        ensures within { IfSome result (λ i. i < length self.now.broker.entries) }
    {
        let _len = self.store.len();
        match self.store.index_of(position) {
            None => None,
            Some(index) => Some(index as u64),
        }
    }

    /// Whether the topic would store a sequence id of a stream.
    pub fn accepts(&self, stream: &Stream, seq: u64) -> bool
        ensures { result ≡ accepts self.now.broker.entries (record { origin = stream.now.origin; producer = stream.now.producer; seq = seq }) }
    {
        matches!(self.dedup.check(stream, seq), Verdict::New)
    }

    /// The sequence id of the cluster's next own marker; the greatest number where it would pass that.
    pub fn next_marker(&self) -> u64
        ensures { result ≡ marker_number self.now.site.own self.now.broker.entries }
    {
        self.next_marker
    }

    /// The replicator to a cluster.
    pub fn replicator(&self, remote: u32) -> &ReplicatorRow
        requires { remote < length self.now.broker.replicators }
        ensures replicator { result.now.replicator ≡ replicator_at self.now.broker remote }
        ensures ends { result.now.ends ≡ ends_to self.now.site.own remote }
    {
        self.replicators.at(remote)
    }

    /// How many replicators there are: one for each cluster.
    pub fn replicators(&self) -> usize
        ensures { result ≡ length self.now.broker.replicators }
    {
        self.replicators.len()
    }

    /// The session that is open on the forward link from a cluster.
    pub fn receiver(&self, source: u32) -> &Receiver
        requires { source < length self.now.broker.receivers }
        ensures { result.now ≡ receiver_at self.now.broker source }
    {
        &self.receivers[source as usize]
    }

    /// The subscriptions.
    pub fn subs(&self) -> &SubTable
        ensures subs { subs_of result.now.subs ≡ self.now.broker.subs }
        ensures rooms { rooms_of result.now.subs ≡ self.now.room.subs }
    {
        &self.subs
    }

    /// The clients' sessions.
    pub fn sessions(&self) -> &[Option<Session>]
        ensures { result.now ≡ self.now.broker.sessions }
    {
        self.sessions.as_slice()
    }

    /// The session that a client has open.
    pub fn session(&self, client: u32) -> Option<&Session>
        requires { client < length self.now.broker.sessions }
        ensures { option_copied result ≡ session_at self.now.broker client }
    {
        self.sessions[client as usize].as_ref()
    }

    /// The snapshot that is being made.
    pub fn builder(&self) -> Option<&SnapshotBuilder>
        ensures { option_copied result ≡ self.now.broker.builder }
    {
        self.builder.as_ref()
    }
}
