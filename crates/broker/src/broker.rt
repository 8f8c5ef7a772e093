//! The broker of a topic at a cluster, and what may be read of it.
ghost use Rattle.std.specs.Prelude.{◌≡◌, ◌<◌, ◌≤◌, length, slice_get, IfOk, MatchOption, Some, is_some};
ghost use Rattle.geo_base.specs.Broker.{backlog, new_broker, replicator_at};
ghost use Rattle.geo_base.specs.Cursor.{mark};
ghost use Rattle.broker_subs.specs.SubView.{subs_of};
ghost use Rattle.broker_subs.specs.Table.{sub_at};

use broker_state::{BrokerState, ReplicatorRow, Site};
use broker_subs::Sub;
use geo_base::{Memory, SubName};
use std::alloc::Global;
use std::marker::Model;
use topic_store::TopicLedger;

/// A topic's number, the names of the topic's subscriptions by their numbers in events, and the broker's state. All that is kept can be written again as a frame.
#[derive(Drop)]
pub struct Broker {
    pub(crate) topic: u32,
    pub(crate) names: Vec<SubName>,
    pub(crate) state: BrokerState,
}

impl Model for Broker {
    ghost use Rattle.broker.specs.Node.{BrokerView, NodeHolds};

    ghost Value = { BrokerView };

    ghost view = { λ n. record { topic = n.topic; site = n.state.site; names = n.names.items; broker = n.state.broker; room = n.state.room } };

    ghost invariant = { λ n. NodeHolds n.state };
}

impl Broker {
    /// An empty topic, whose broker has no session of so many clients. An `Err` is want of memory.
    #[tactic(auto, using(crate::proofs::Restarts::new_holds))]
    pub fn new(
        alloc: Global,
        topic: u32,
        site: Site,
        names: Vec<SubName>,
        clients: usize,
    ) -> Result<Broker, Memory>
        requires per_ledger { 0 < site.per_ledger }
        requires clusters { 2 ≤ length site.clusters }
        ensures topic { IfOk result (λ v. v.topic ≡ topic) }
        ensures site { IfOk result (λ v. v.site ≡ site) }
        ensures names { IfOk result (λ v. v.names ≡ names.items) }
        ensures broker { IfOk result (λ v. v.broker ≡ new_broker (length site.clusters) clients) }
    {
        let state = BrokerState::new(alloc, site, clients)?;
        Ok(Broker {
            topic,
            names,
            state,
        })
    }

    /// The topic's number.
    pub fn topic(&self) -> u32
        ensures { result ≡ self.now.topic }
    {
        self.topic
    }

    /// The cluster's number.
    pub fn cluster(&self) -> u32
        ensures { result ≡ self.now.site.own }
    {
        self.state.site().own()
    }

    /// What the broker knows of the setup.
    pub fn site(&self) -> &Site
        ensures { result.now ≡ self.now.site }
    {
        self.state.site()
    }

    /// The topic's entries and ledgers.
    pub fn store(&self) -> &TopicLedger
        ensures entries { result.now.entries ≡ self.now.broker.entries }
        ensures ledgers { result.now.ledgers ≡ self.now.broker.ledgers }
        ensures per_ledger { result.now.per_ledger ≡ self.now.site.per_ledger }
    {
        self.state.store()
    }

    /// The replicator to another cluster.
    pub fn replicator(&self, remote: u32) -> &ReplicatorRow
        requires { remote < length self.now.site.clusters }
        ensures { result.now.replicator ≡ replicator_at self.now.broker remote }
    {
        let _site = self.state.site();
        self.state.replicator(remote)
    }

    /// The least index that another cluster has not acknowledged.
    pub fn replicator_mark(&self, remote: u32) -> u64
        requires { remote < length self.now.site.clusters }
        ensures { result ≡ mark (replicator_at self.now.broker remote).cursor }
    {
        self.replicator(remote).cursor().mark_delete()
    }

    /// How many subscriptions there are.
    pub fn subs(&self) -> usize
        ensures { result ≡ length self.now.broker.subs }
    {
        self.state.subs().len()
    }

    /// The subscription at a place in order of creation; None exactly past the last.
    pub fn sub(&self, i: usize) -> Option<&Sub>
        ensures { MatchOption result (length self.now.broker.subs ≤ i) (λ s. slice_get self.now.broker.subs i ≡ Some s.now.sub) }
    {
        if i < self.state.subs().len() {
            Some(self.state.subs().at(i))
        } else {
            None
        }
    }

    /// How many messages the subscription at a place has not acknowledged.
    pub fn backlog(&self, i: usize) -> u64
        requires { i < length self.now.broker.subs }
        ensures { result ≡ backlog self.now.broker (sub_at self.now.broker.subs i) }
    {
        self.state.backlog(self.state.subs().at(i))
    }

    /// Whether a snapshot is in the making, which a broker keeps in memory alone: a restart forgets it.
    pub fn is_making(&self) -> bool
        ensures { result ≡ is_some self.now.broker.builder }
    {
        match self.state.builder() {
            None => false,
            Some(_) => true,
        }
    }

    /// Lets the broker go, as `drop` does: a crate that calls this need not show again how each part of a broker ends.
    pub fn let_go(self) {
        drop(self)
    }
}
