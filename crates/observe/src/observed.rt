//! All that was read and logged.
ghost use Rattle.std.specs.Prelude.{◌≡◌, ◌<◌, ◌*◌, ◌+◌, ◌^◌, [], ◌∷◌, ◌++◌, length, replicate, true, IfOk, OnOk, OnErr};
ghost use Rattle.observation.specs.Observed.{entries_seen, is_above_all, may_be_later, seen_at};
ghost use Rattle.observe.specs.Reads.{empty_seen, unread, with_cursor, with_entry, with_received, with_seen};
ghost use Rattle.observe.specs.Topics.{AreSized, entries_in};

use crate::seen::SeenTopic;
use cursor_acks::Cursor;
use geo_base::{Entry, Memory, Position, Text};
use observation::Said;
use script_text::Scenario;
use std::alloc::Global;
use std::marker::Model;

/// A topic and a cluster, by their numbers.
#[derive(Clone, Copy, Drop)]
pub struct At {
    pub topic: u32,
    pub cluster: u32,
}

/// What was read of all topics, topic by topic and in each cluster by cluster; what was logged, in the order in which it was read; and
/// whether nothing moved meanwhile.
#[derive(Drop)]
pub struct Observed {
    topics: Vec<SeenTopic>,
    said: Vec<Said>,
    quiet: bool,
}

impl Model for Observed {
    ghost use Rattle.observation.specs.Observed.{Observation};

    ghost Value = { Observation };

    ghost view = { λ o. record { topics = o.topics.items; said = o.said.items; quiet = o.quiet } };
}

/// How many clusters a scenario declares.
pub fn cluster_count(scenario: &Scenario) -> u32
    ensures { result ≡ length scenario.now.setup.clusters }
{
    scenario.clusters().len() as u32
}

/// How many topics a scenario declares.
pub(crate) fn topic_count(scenario: &Scenario) -> u32
    ensures { result ≡ length scenario.now.setup.topics }
{
    scenario.topics().len() as u32
}

/// The number of a topic at a cluster among all.
fn number_of(scenario: &Scenario, at: At) -> usize
    requires topic { at.topic < length scenario.now.setup.topics }
    requires cluster { at.cluster < length scenario.now.setup.clusters }
    ensures number { result ≡ at.topic * length scenario.now.setup.clusters + at.cluster }
    ensures within { result < length scenario.now.setup.topics * length scenario.now.setup.clusters }
{
    at.topic as usize * scenario.clusters().len() + at.cluster as usize
}

/// How many entries some topics have.
#[tactic(auto, using(crate::proofs::Counts::one_counted))]
fn count_entries(topics: &[SeenTopic]) -> u64
    requires { entries_in topics.now < 2 ^ 64 }
    ensures { result ≡ entries_in topics.now }
{
    let mut count: u64 = 0;
    for seen in topics {
        count += seen.entries().len() as u64;
    }
    count
}

/// So many topics of which nothing was read so far, beside so many clusters.
#[tactic(auto, using(std::proofs::lemmas::List::replicate_more))]
fn no_topics(alloc: Global, count: usize, clusters: usize) -> Result<Vec<SeenTopic>, Memory>
    ensures { IfOk result (λ topics. topics.items ≡ replicate count (empty_seen clusters)) }
{
    let mut topics = Vec::new(alloc);
    for _topic in 0..count {
        topics.push(SeenTopic::new(alloc, clusters)?)?;
    }
    Ok(topics)
}

impl Observed {
    /// Nothing so far of a scenario's topics. An `Err` is want of memory.
    pub fn new(alloc: Global, scenario: &Scenario, quiet: bool) -> Result<Observed, Memory>
        ensures { IfOk result (λ o. o ≡ record { topics = replicate (length scenario.now.setup.topics * length scenario.now.setup.clusters) (empty_seen (length scenario.now.setup.clusters)); said = []; quiet = quiet }) }
    {
        let clusters = scenario.clusters().len();
        Ok(Observed {
            topics: no_topics(alloc, scenario.topics().len() * clusters, clusters)?,
            said: Vec::new(alloc),
            quiet,
        })
    }

    /// Whether nothing moved while all was read.
    pub(crate) fn is_quiet(&self) -> bool
        ensures { result ≡ self.now.quiet }
    {
        self.quiet
    }

    /// A topic at a cluster.
    pub fn at(&self, scenario: &Scenario, at: At) -> &SeenTopic
        requires sized { AreSized scenario.now.setup self.now }
        requires topic { at.topic < length scenario.now.setup.topics }
        requires cluster { at.cluster < length scenario.now.setup.clusters }
        ensures { result.now ≡ seen_at scenario.now.setup self.now at.topic at.cluster }
    {
        &self.topics[number_of(scenario, at)]
    }

    /// The entries of a topic at a cluster.
    pub(crate) fn entries_at(&self, scenario: &Scenario, at: At) -> &[Entry]
        requires sized { AreSized scenario.now.setup self.now }
        requires topic { at.topic < length scenario.now.setup.topics }
        requires cluster { at.cluster < length scenario.now.setup.clusters }
        ensures { result.now ≡ entries_seen scenario.now.setup self.now at.topic at.cluster }
    {
        self.at(scenario, at).entries()
    }

    /// One more entry of a topic at a cluster, at a position above the others. An `Err` is want of memory, with no change.
    pub fn push_entry(
        &mut self,
        alloc: Global,
        scenario: &Scenario,
        at: At,
        placed: (Position, Entry),
    ) -> Result<(), Memory>
        requires sized { AreSized scenario.now.setup self.old }
        requires topic { at.topic < length scenario.now.setup.topics }
        requires cluster { at.cluster < length scenario.now.setup.clusters }
        requires above { is_above_all placed.0 (seen_at scenario.now.setup self.old at.topic at.cluster).topic.positions ≡ true }
        ensures ok { OnOk result (self.new ≡ with_seen scenario.now.setup self.old at.topic at.cluster (with_entry (seen_at scenario.now.setup self.old at.topic at.cluster) placed.0 placed.1)) }
    {
        let (position, entry) = placed;
        self.topics[number_of(scenario, at)].push_entry(alloc, position, entry)
    }

    /// The cursor of a subscription of a topic at a cluster. An `Err` is want of memory.
    pub fn push_cursor(
        &mut self,
        scenario: &Scenario,
        at: At,
        name: Text,
        cursor: Cursor,
    ) -> Result<(), Memory>
        requires sized { AreSized scenario.now.setup self.old }
        requires topic { at.topic < length scenario.now.setup.topics }
        requires cluster { at.cluster < length scenario.now.setup.clusters }
        ensures ok { OnOk result (self.new ≡ with_seen scenario.now.setup self.old at.topic at.cluster (with_cursor (seen_at scenario.now.setup self.old at.topic at.cluster) name cursor.indexes)) }
    {
        self.topics[number_of(scenario, at)].push_cursor(name, cursor)
    }

    /// The cursor of the replicator from a cluster to another.
    pub fn set_received(&mut self, scenario: &Scenario, at: At, to: u32, cursor: Cursor)
        requires sized { AreSized scenario.now.setup self.old }
        requires topic { at.topic < length scenario.now.setup.topics }
        requires cluster { at.cluster < length scenario.now.setup.clusters }
        requires to { to < length (seen_at scenario.now.setup self.old at.topic at.cluster).received }
        ensures { self.new ≡ with_seen scenario.now.setup self.old at.topic at.cluster (with_received (seen_at scenario.now.setup self.old at.topic at.cluster) to cursor.indexes) }
    {
        self.topics[number_of(scenario, at)].set_received(to, cursor);
    }

    /// A topic was not read at a cluster.
    pub fn set_unread(&mut self, scenario: &Scenario, at: At)
        requires sized { AreSized scenario.now.setup self.old }
        requires topic { at.topic < length scenario.now.setup.topics }
        requires cluster { at.cluster < length scenario.now.setup.clusters }
        ensures { self.new ≡ with_seen scenario.now.setup self.old at.topic at.cluster (unread (seen_at scenario.now.setup self.old at.topic at.cluster)) }
    {
        self.topics[number_of(scenario, at)].set_unread();
    }

    /// What was logged.
    pub(crate) fn said(&self) -> &[Said]
        ensures { result.now ≡ self.now.said }
    {
        self.said.as_slice()
    }

    /// One more line of the logs. An `Err` is want of memory, with no change.
    pub fn push_said(&mut self, said: Said) -> Result<(), Memory>
        ensures ok { OnOk result (self.new ≡ record { topics = self.old.topics; said = self.old.said ++ said ∷ []; quiet = self.old.quiet }) }
        ensures err { OnErr result (self.new ≡ self.old) }
    {
        self.said.push(said)?;
        Ok(())
    }

    /// How many entries were read.
    pub fn entry_count(&self) -> u64
        requires { entries_in self.now.topics < 2 ^ 64 }
        ensures { result ≡ entries_in self.now.topics }
    {
        count_entries(self.topics.as_slice())
    }

    /// Whether a position tells nothing: it is of a topic that was not read, or above all that was, while all moved.
    #[tactic(auto, unfolding(observation::specs::Observed::may_be_later))]
    pub(crate) fn may_be_later(&self, scenario: &Scenario, at: At, position: &Position) -> bool
        requires sized { AreSized scenario.now.setup self.now }
        requires topic { at.topic < length scenario.now.setup.topics }
        requires cluster { at.cluster < length scenario.now.setup.clusters }
        ensures { result ≡ may_be_later scenario.now.setup self.now at.topic at.cluster position.now }
    {
        let seen = self.at(scenario, at);
        !seen.is_read() || !self.quiet && seen.is_above_all(position)
    }
}
