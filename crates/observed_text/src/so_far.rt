//! What the lines up to one say.
ghost use Rattle.std.specs.Prelude.{◌≡◌, ◌<◌, ◌*◌, [], false, true, length, replicate, slice_index_or, slice_set, IfOk, OnOk};
ghost use Rattle.geo_base.specs.Setup.{Setup};
ghost use Rattle.observation.specs.Observed.{is_above_all, seen_at};
ghost use Rattle.observe.specs.Reads.{unread, with_cursor, with_entry, with_received, with_seen};
ghost use Rattle.observed_text.specs.Observing.{is_any_told, is_told, may_name, named, nothing_told, saying, subs_of, told_place, with_said};
ghost use Rattle.observed_text.specs.Sizes.{IsSized};

use crate::named::NamedSubs;
use cursor_acks::Cursor;
use geo_base::{Entry, Memory, Position, Text};
use observation::Said;
use observe::{At, Observed, SeenTopic, cluster_count};
use script_text::Scenario;
use std::alloc::Global;
use std::marker::Model;

/// The observation; by topic the subscriptions that lines name; and by topic, cluster and other cluster whether they tell the cursor of
/// that replicator.
#[derive(Drop)]
pub(crate) struct LinesSoFar {
    observed: Observed,
    subs: Vec<NamedSubs>,
    told: Vec<bool>,
}

impl Model for LinesSoFar {
    ghost use Rattle.observed_text.specs.Observing.{SoFar};

    ghost Value = { SoFar };

    ghost view = { λ r. record { seen = r.observed; subs = r.subs.items; told = r.told.items } };
}

/// No name for each of so many topics.
#[tactic(auto, using(std::proofs::lemmas::List::replicate_more))]
fn no_names(alloc: Global, topics: usize) -> Result<Vec<NamedSubs>, Memory>
    ensures { IfOk result (λ subs. subs.items ≡ replicate topics []) }
{
    let mut subs = Vec::new(alloc);
    for _topic in 0..topics {
        subs.push(NamedSubs::none(alloc))?;
    }
    Ok(subs)
}

/// So many cursors of which none is told.
#[tactic(auto, using(std::proofs::lemmas::List::replicate_more))]
fn none_told(alloc: Global, count: usize) -> Result<Vec<bool>, Memory>
    ensures { IfOk result (λ told. told.items ≡ replicate count false) }
{
    let mut told = Vec::new(alloc);
    for _cursor in 0..count {
        told.push(false)?;
    }
    Ok(told)
}

impl LinesSoFar {
    /// Nothing so far of a scenario's topics. An `Err` is want of memory.
    pub(crate) fn new(alloc: Global, scenario: &Scenario, quiet: bool) -> Result<LinesSoFar, Memory>
        ensures { IfOk result (λ lines. lines ≡ nothing_told scenario.now.setup quiet) }
    {
        let topics = scenario.topics().len();
        let clusters = scenario.clusters().len();
        Ok(LinesSoFar {
            observed: Observed::new(alloc, scenario, quiet)?,
            subs: no_names(alloc, topics)?,
            told: none_told(alloc, topics * (clusters * clusters))?,
        })
    }

    /// The observation, once all lines are read.
    pub(crate) fn observed(self) -> Observed
        ensures { result ≡ self.seen }
    {
        self.observed
    }

    /// What was read of a topic at a cluster.
    pub(crate) fn at(&self, scenario: &Scenario, at: At) -> &SeenTopic
        requires sized { IsSized scenario.now.setup self.now }
        requires topic { at.topic < length scenario.now.setup.topics }
        requires cluster { at.cluster < length scenario.now.setup.clusters }
        ensures { result.now ≡ seen_at scenario.now.setup self.now.seen at.topic at.cluster }
    {
        self.observed.at(scenario, at)
    }

    /// Whether a topic may have a subscription of a name: it has it, or has room for one more.
    pub(crate) fn may_name(&self, topic: u32, name: &Text) -> bool
        requires { topic < length self.now.subs }
        ensures { result ≡ may_name (subs_of self.now topic) name.now }
    {
        self.subs[topic as usize].may_name(name)
    }

    /// Whether the cursor of the replicator from a cluster to another is told.
    #[tactic(auto, using(crate::proofs::Sizes::told_within))]
    pub(crate) fn is_told(&self, scenario: &Scenario, at: At, to: u32) -> bool
        requires sized { IsSized scenario.now.setup self.now }
        requires topic { at.topic < length scenario.now.setup.topics }
        requires cluster { at.cluster < length scenario.now.setup.clusters }
        requires to { to < length scenario.now.setup.clusters }
        ensures { result ≡ is_told scenario.now.setup self.now at.topic at.cluster to }
    {
        self.told[told_place(scenario, at, to)]
    }

    /// Whether that of a replicator to any cluster is.
    pub(crate) fn is_any_told(&self, scenario: &Scenario, at: At) -> bool
        requires sized { IsSized scenario.now.setup self.now }
        requires topic { at.topic < length scenario.now.setup.topics }
        requires cluster { at.cluster < length scenario.now.setup.clusters }
        ensures { result ≡ is_any_told scenario.now.setup self.now at.topic at.cluster }
    {
        for to in 0..cluster_count(scenario) {
            if self.is_told(scenario, at, to) {
                return true;
            }
        }
        false
    }
}

impl LinesSoFar {
    /// A line of the logs that names a subscription of a topic. An `Err` is want of memory.
    pub(crate) fn say(
        &mut self,
        alloc: Global,
        topic: u32,
        name: &Text,
        said: Said,
    ) -> Result<(), Memory>
        requires { topic < length self.old.subs }
        ensures { OnOk result (self.new ≡ saying self.old topic name.now said) }
    {
        match self.subs[topic as usize].add(alloc, name) {
            Ok(()) => self.push_said(said),
            Err(memory) => {
                drop(said);
                Err(memory)
            }
        }
    }

    /// A line of the logs that names none. An `Err` is want of memory.
    pub(crate) fn push_said(&mut self, said: Said) -> Result<(), Memory>
        ensures { OnOk result (self.new ≡ record { seen = with_said self.old.seen said; subs = self.old.subs; told = self.old.told }) }
    {
        self.observed.push_said(said)
    }

    /// One more entry of a topic at a cluster. An `Err` is want of memory.
    pub(crate) fn push_entry(
        &mut self,
        alloc: Global,
        scenario: &Scenario,
        at: At,
        placed: (Position, Entry),
    ) -> Result<(), Memory>
        requires sized { IsSized scenario.now.setup self.old }
        requires topic { at.topic < length scenario.now.setup.topics }
        requires cluster { at.cluster < length scenario.now.setup.clusters }
        requires above { is_above_all placed.0 (seen_at scenario.now.setup self.old.seen at.topic at.cluster).topic.positions ≡ true }
        ensures { OnOk result (self.new ≡ record { seen = with_seen scenario.now.setup self.old.seen at.topic at.cluster (with_entry (seen_at scenario.now.setup self.old.seen at.topic at.cluster) placed.0 placed.1); subs = self.old.subs; told = self.old.told }) }
    {
        self.observed.push_entry(alloc, scenario, at, placed)
    }

    /// The cursor of a subscription of a topic at a cluster. An `Err` is want of memory.
    pub(crate) fn push_cursor(
        &mut self,
        alloc: Global,
        scenario: &Scenario,
        at: At,
        sub: Text,
        cursor: Cursor,
    ) -> Result<(), Memory>
        requires sized { IsSized scenario.now.setup self.old }
        requires topic { at.topic < length scenario.now.setup.topics }
        requires cluster { at.cluster < length scenario.now.setup.clusters }
        ensures { OnOk result (self.new ≡ record { seen = with_seen scenario.now.setup self.old.seen at.topic at.cluster (with_cursor (seen_at scenario.now.setup self.old.seen at.topic at.cluster) sub cursor.indexes); subs = named self.old at.topic sub; told = self.old.told }) }
    {
        match self.subs[at.topic as usize].add(alloc, &sub) {
            Ok(()) => self.observed.push_cursor(scenario, at, sub, cursor),
            Err(memory) => {
                drop(sub);
                drop(cursor);
                Err(memory)
            }
        }
    }

    /// The cursor of the replicator from a cluster to another.
    pub(crate) fn set_received(&mut self, scenario: &Scenario, at: At, to: u32, cursor: Cursor)
        requires sized { IsSized scenario.now.setup self.old }
        requires topic { at.topic < length scenario.now.setup.topics }
        requires cluster { at.cluster < length scenario.now.setup.clusters }
        requires to { to < length scenario.now.setup.clusters }
        ensures { self.new ≡ record { seen = with_seen scenario.now.setup self.old.seen at.topic at.cluster (with_received (seen_at scenario.now.setup self.old.seen at.topic at.cluster) to cursor.indexes); subs = self.old.subs; told = slice_set self.old.told (told_place scenario.now.setup at.topic at.cluster to) true } }
    {
        self.told[told_place(scenario, at, to)] = true;
        self.observed.set_received(scenario, at, to, cursor);
    }

    /// A topic was not read at a cluster.
    pub(crate) fn set_unread(&mut self, scenario: &Scenario, at: At)
        requires sized { IsSized scenario.now.setup self.old }
        requires topic { at.topic < length scenario.now.setup.topics }
        requires cluster { at.cluster < length scenario.now.setup.clusters }
        ensures { self.new ≡ record { seen = with_seen scenario.now.setup self.old.seen at.topic at.cluster (unread (seen_at scenario.now.setup self.old.seen at.topic at.cluster)); subs = self.old.subs; told = self.old.told } }
    {
        self.observed.set_unread(scenario, at);
    }
}

/// The place of what tells whether the cursor of a replicator is told.
#[tactic(auto, using(crate::proofs::Sizes::told_within))]
fn told_place(scenario: &Scenario, at: At, to: u32) -> usize
    requires topic { at.topic < length scenario.now.setup.topics }
    requires cluster { at.cluster < length scenario.now.setup.clusters }
    requires to { to < length scenario.now.setup.clusters }
    ensures place { result ≡ told_place scenario.now.setup at.topic at.cluster to }
    ensures within { result < length scenario.now.setup.topics * (length scenario.now.setup.clusters * length scenario.now.setup.clusters) }
{
    let clusters = scenario.clusters().len();
    (at.topic as usize * clusters + at.cluster as usize) * clusters + to as usize
}
