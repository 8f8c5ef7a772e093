//! What was read of a topic, beside what the logs say of its subscriptions.
ghost use Rattle.std.specs.Prelude.{◌≡◌, ◌<◌, length, IfOk};
ghost use Rattle.audit.specs.Stored.{identity_of};
ghost use Rattle.observation.specs.Observed.{entries_seen, is_dealt_with, may_be_later, seen_at};
ghost use Rattle.observe.specs.Dealt.{LogsOf, may_be};
ghost use Rattle.observe.specs.Kept.{IdentOf};
ghost use Rattle.observe.specs.Topics.{IsOf};

use crate::dealt::Dealt;
use crate::entries::is_message;
use crate::observed::{At, Observed, cluster_count};
use crate::seen::SeenTopic;
use crate::topic_dealt::TopicDealt;
use audit::Identity;
use geo_base::{Entry, Memory, Position, Text};
use script_text::Scenario;
use std::alloc::Global;
use std::marker::Model;

/// An observation of a scenario's topics, and a table of what its logs say of the subscriptions of one of them.
#[derive(Drop)]
pub(crate) struct Logs<'a> {
    scenario: &'a Scenario,
    observed: &'a Observed,
    topic: u32,
    dealt: TopicDealt,
}

impl<'a> Model for Logs<'a> {
    ghost use Rattle.observe.specs.Dealt.{AreLogs, LogsOf};

    ghost Value = { LogsOf };

    ghost view = { λ l. record { setup = l.scenario.now.setup; observed = l.observed.now; topic = l.topic } };

    ghost invariant = { λ l. AreLogs l.scenario.now.setup l.observed.now l.topic l.dealt };
}

impl<'a> Logs<'a> {
    /// The table of a topic's logs. An `Err` is want of memory.
    pub(crate) fn of(
        alloc: Global,
        scenario: &'a Scenario,
        observed: &'a Observed,
        topic: u32,
    ) -> Result<Logs<'a>, Memory>
        requires of { IsOf scenario.now.setup observed.now }
        requires topic { topic < length scenario.now.setup.topics }
        ensures { IfOk result (λ logs. logs ≡ record { setup = scenario.now.setup; observed = observed.now; topic = topic }) }
    {
        let dealt = TopicDealt::of(alloc, scenario, observed, topic)?;
        Ok(Logs {
            scenario,
            observed,
            topic,
            dealt,
        })
    }

    /// The topic.
    pub(crate) fn topic(&self) -> u32
        ensures { result ≡ self.now.topic }
    {
        self.topic
    }

    /// How many clusters there are.
    pub(crate) fn clusters(&self) -> u32
        ensures { result ≡ length self.now.setup.clusters }
    {
        cluster_count(self.scenario)
    }

    /// The topic at a cluster.
    pub(crate) fn at(&self, cluster: u32) -> &'a SeenTopic
        requires { cluster < length self.now.setup.clusters }
        ensures { result.now ≡ seen_at self.now.setup self.now.observed self.now.topic cluster }
    {
        self.observed.at(
            self.scenario,
            At {
                topic: self.topic,
                cluster,
            },
        )
    }

    /// The entries of the topic at a cluster.
    pub(crate) fn entries_at(&self, cluster: u32) -> &'a [Entry]
        requires { cluster < length self.now.setup.clusters }
        ensures { result.now ≡ entries_seen self.now.setup self.now.observed self.now.topic cluster }
    {
        self.at(cluster).entries()
    }

    /// Whether a position of the topic at a cluster tells nothing.
    pub(crate) fn may_be_later(&self, cluster: u32, position: &Position) -> bool
        requires { cluster < length self.now.setup.clusters }
        ensures { result ≡ may_be_later self.now.setup self.now.observed self.now.topic cluster position.now }
    {
        self.observed.may_be_later(
            self.scenario,
            At {
                topic: self.topic,
                cluster,
            },
            position,
        )
    }

    /// Whether a subscription is done with an entry of an identity, or need not be, or may be; one that the logs do not name is done with no
    /// message.
    #[tactic(auto, unfolding(observation::specs::Observed::is_dealt_with), using(crate::proofs::Dealings::dealt_none, crate::proofs::Dealings::dealt_some))]
    pub(crate) fn is_settled(&self, name: &Text, entry: &Entry, identity: &Identity) -> bool
        requires { identity.now ≡ identity_of entry.now.ident }
        ensures { result ≡ is_dealt_with self.now.setup self.now.observed self.now.topic name.now entry.now }
    {
        if !is_message(entry) {
            return true;
        }
        match self.dealt.number_of(name) {
            None => false,
            Some(number) => {
                let dealt = self.dealt.at(number);
                dealt.has(identity) || self.may_be(dealt, identity)
            }
        }
    }

    /// Whether a subscription may be done with a message of an identity, since it does not stand where a line is not sure.
    #[tactic(auto, using(crate::proofs::Dealings::may_on, crate::proofs::Dealings::may_here, crate::proofs::Dealings::may_end))]
    fn may_be(&self, dealt: &Dealt, identity: &Identity) -> bool
        requires { length dealt.now.unsure ≡ length self.now.setup.clusters }
        ensures { (g : IdentOf) → identity.now ≡ identity_of g → result ≡ may_be self.now.setup self.now.observed self.now.topic g dealt.now.unsure }
    {
        for cluster in 0..self.clusters() {
            if dealt.is_unsure(cluster) && self.at(cluster).first_of(identity).is_none() {
                return true;
            }
        }
        false
    }
}
