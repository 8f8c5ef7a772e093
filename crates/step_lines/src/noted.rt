//! What a report shows of a node, noted before an event.
ghost use Rattle.std.specs.Prelude.{◌≡◌, ◌<◌, length, map, IfOk, OnErr, OnOk};
ghost use Rattle.broker_subs.specs.Table.{sub_at};
ghost use Rattle.geo_base.specs.Broker.{backlog};
ghost use Rattle.step_lines.specs.Backlogs.{backlogs_of};
ghost use Rattle.step_lines.specs.Noted.{AreReplicators, IsNoted, noted_client, noted_sub, shown_sub};

use crate::replicators::{NotedReplicator, replicator_of};
use broker::Broker;
use client::Client;
use geo_base::{EntryStore, Memory, Text};
use report_lines::SubShown;
use std::alloc::Global;

/// What a report shows of a subscription, by its name.
#[derive(Drop)]
pub struct NotedSub {
    pub name: Text,
    pub shown: SubShown,
}

/// What a report shows of a broker: how many entries there are, of each cluster's replicator, and of each subscription in order of creation.
#[derive(Drop)]
pub struct NotedBroker {
    pub entries: usize,
    pub replicators: Vec<NotedReplicator>,
    pub subs: Vec<NotedSub>,
}

/// What a report shows of a client, and how much it got.
#[derive(Clone, Copy, Drop)]
pub struct NotedClient {
    pub cluster: u32,
    pub done: usize,
    pub receipts: u64,
    pub duplicates: u64,
    pub errors: u64,
    pub got: usize,
}

impl NotedBroker {
    /// Nothing; takes no memory.
    pub(crate) fn new(alloc: Global) -> NotedBroker {
        NotedBroker {
            entries: 0,
            replicators: Vec::new(alloc),
            subs: Vec::new(alloc),
        }
    }

    /// Notes a broker's replicators alone.
    pub(crate) fn note_replicators(&mut self, broker: &Broker) -> Result<(), Memory>
        ensures { OnOk result (AreReplicators (length broker.now.site.clusters) broker.now.broker self.new.replicators.items) }
    {
        note_replicators(&mut self.replicators, broker)
    }

    /// Notes a broker as it is, whose backlogs these are.
    pub(crate) fn note(
        &mut self,
        alloc: Global,
        broker: &Broker,
        backlogs: &[u64],
    ) -> Result<(), Memory>
        requires { backlogs.now ≡ backlogs_of broker.now.broker }
        ensures { OnOk result (IsNoted (length broker.now.site.clusters) broker.now.broker self.new) }
    {
        self.entries = broker.store().len();
        note_replicators(&mut self.replicators, broker)?;
        note_subs(alloc, &mut self.subs, broker, backlogs)
    }
}

/// Notes what is shown of each replicator.
fn note_replicators(replicators: &mut Vec<NotedReplicator>, broker: &Broker) -> Result<(), Memory>
    ensures { OnOk result (AreReplicators (length broker.now.site.clusters) broker.now.broker replicators.new.items) }
{
    replicators.clear();
    for remote in 0..broker.site().clusters().len() {
        replicators.push(replicator_of(broker, remote as u32))?;
    }
    Ok(())
}

/// Notes what is shown of each subscription, by their backlogs.
#[tactic(auto, using(crate::proofs::Counting::backlog_there, crate::proofs::Counting::place_within))]
fn note_subs(
    alloc: Global,
    subs: &mut Vec<NotedSub>,
    broker: &Broker,
    backlogs: &[u64],
) -> Result<(), Memory>
    requires { backlogs.now ≡ backlogs_of broker.now.broker }
    ensures { OnOk result (subs.new.items ≡ map (noted_sub broker.now.broker) broker.now.broker.subs) }
{
    subs.clear();
    for place in 0..broker.subs() {
        subs.push(sub_of(alloc, broker, place, backlogs[place])?)?;
    }
    Ok(())
}

/// What is noted of the subscription at a place, whose backlog this is.
fn sub_of(alloc: Global, broker: &Broker, place: usize, count: u64) -> Result<NotedSub, Memory>
    requires place { place < length broker.now.broker.subs }
    requires count { count ≡ backlog broker.now.broker (sub_at broker.now.broker.subs place) }
    ensures { IfOk result (λ n. n ≡ (noted_sub broker.now.broker (sub_at broker.now.broker.subs place))) }
{
    match broker.sub(place) {
        Some(sub) => {
            let name = Text::from_str(alloc, sub.name().as_str())?;
            let shown = shown_of(broker, place, count);
            Ok(NotedSub { name, shown })
        }
        None => unreachable!(),
    }
}

/// What a report shows of the subscription at a place, whose backlog this is.
pub(crate) fn shown_of(broker: &Broker, place: usize, count: u64) -> SubShown
    requires place { place < length broker.now.broker.subs }
    requires count { count ≡ backlog broker.now.broker (sub_at broker.now.broker.subs place) }
    ensures { result ≡ shown_sub broker.now.broker (sub_at broker.now.broker.subs place) }
{
    match broker.sub(place) {
        Some(sub) => SubShown {
            kind: sub.kind(),
            is_replicated: sub.is_replicated(),
            mark: sub.cursor().mark_delete(),
            backlog: count,
            seeks: sub.durable().seeks,
        },
        None => unreachable!(),
    }
}

/// What is noted of a client as it is.
pub(crate) fn client_of(client: &Client) -> NotedClient
    ensures { result ≡ noted_client client.now }
{
    let view = client.view();
    NotedClient {
        cluster: view.cluster,
        done: view.done,
        receipts: view.receipts,
        duplicates: view.duplicates,
        errors: view.errors,
        got: view.got.len(),
    }
}
