//! What the logs say of the subscriptions of a topic.
ghost use Rattle.std.specs.Prelude.{◌≡◌, ◌<◌, ◌++◌, ℕ, [], ◌∷◌, List, Some, length, slice_index_or, IfOk, OnOk};
ghost use Rattle.audit.specs.Subs.{slot_in};
ghost use Rattle.geo_base.specs.Setup.{Setup};
ghost use Rattle.observation.specs.Observed.{Observation, entries_seen};
ghost use Rattle.observation.specs.declared.said.Said.{Said};
ghost use Rattle.observation.specs.declared.said.Said.TheVariants as said;
ghost use Rattle.observe.specs.Dealt.{FindsNames, TellsTopic, no_dealt};
ghost use Rattle.observe.specs.Topics.{AreSized, IsOf, IsSaidOf, topic_of};

use crate::dealt::Dealt;
use crate::observed::{At, Observed, cluster_count};
use geo_base::{Entry, Ident, Memory, Text};
use indexmap::IndexMap;
use observation::Said;
use script_text::Scenario;
use std::alloc::Global;
use std::marker::Model;
use std::string::String;

/// The subscriptions of a topic that the logs name. One of a name is found by a table.
#[derive(Drop)]
pub(crate) struct TopicDealt {
    clusters: u32,
    numbers: IndexMap<String, usize>,
    subs: Vec<Dealt>,
}

impl Model for TopicDealt {
    ghost use Rattle.observe.specs.Dealt.{FindsNames, SubsDealt};

    ghost Value = { SubsDealt };

    ghost view = { λ d. record { clusters = d.clusters; numbers = d.numbers.entries; subs = d.subs.items } };

    ghost invariant = { λ d. FindsNames d.clusters d.numbers.entries d.subs.items };
}

/// The topic of a line of the logs.
fn topic_of(said: &Said) -> u32
    ensures { result ≡ topic_of said.now }
{
    match said {
        Said::Receipt { topic, .. } => *topic,
        Said::Done { topic, .. } => *topic,
        Said::Below { topic, .. } => *topic,
        Said::Unsure { topic, .. } => *topic,
    }
}

impl TopicDealt {
    /// None so far, beside so many clusters; takes no memory.
    #[tactic(auto, using(crate::proofs::Names::finds_none))]
    fn new(alloc: Global, clusters: u32) -> TopicDealt
        ensures { result ≡ record { clusters = clusters; numbers = []; subs = [] } }
    {
        TopicDealt {
            clusters,
            numbers: IndexMap::new(alloc),
            subs: Vec::new(alloc),
        }
    }

    /// What the logs of an observation say of a topic. An `Err` is want of memory.
    #[tactic(auto, using(crate::proofs::Names::tells_nothing))]
    pub(crate) fn of(
        alloc: Global,
        scenario: &Scenario,
        observed: &Observed,
        topic: u32,
    ) -> Result<TopicDealt, Memory>
        requires of { IsOf scenario.now.setup observed.now }
        requires topic { topic < length scenario.now.setup.topics }
        ensures clusters { IfOk result (λ dealt. dealt.clusters ≡ length scenario.now.setup.clusters) }
        ensures told { IfOk result (λ dealt. TellsTopic scenario.now.setup observed.now topic observed.now.said dealt) }
    {
        let mut dealt = TopicDealt::new(alloc, cluster_count(scenario));
        let lines = observed.said();
        for said in lines {
            dealt.take(alloc, scenario, observed, topic, said)?;
        }
        Ok(dealt)
    }

    /// The number of a name; None where the logs do not name it.
    pub(crate) fn number_of(&self, name: &Text) -> Option<usize>
        ensures number { result ≡ slot_in name.now self.now.numbers }
        ensures finds { FindsNames self.now.clusters self.now.numbers self.now.subs }
    {
        self.numbers.get(name.as_str()).copied()
    }

    /// The subscription of a number.
    pub(crate) fn at(&self, number: usize) -> &Dealt
        requires { number < length self.now.subs }
        ensures dealt { result.now ≡ slice_index_or self.now.subs number no_dealt }
        ensures sized { length result.now.unsure ≡ self.now.clusters }
    {
        &self.subs[number]
    }

    /// The number of a name, which is a new one where it is not there yet.
    #[tactic(auto, using(crate::proofs::Names::named_there, crate::proofs::Names::finds_more, crate::proofs::Names::named_more, crate::proofs::Names::tells_more))]
    fn number_for(&mut self, alloc: Global, name: &Text) -> Result<usize, Memory>
        ensures clusters { self.new.clusters ≡ self.old.clusters }
        ensures named { IfOk result (λ number. slot_in name.now self.new.numbers ≡ Some number) }
        ensures within { IfOk result (λ number. number < length self.new.subs) }
        ensures told { OnOk result ((s : Setup) (o : Observation) (t : ℕ) (ls : List Said) → TellsTopic s o t ls self.old → TellsTopic s o t ls self.new) }
    {
        match self.number_of(name) {
            Some(number) => Ok(number),
            None => {
                let number = self.subs.len();
                self.subs.reserve(1)?;
                let dealt = Dealt::new(alloc, self.clusters, name.copy(alloc)?)?;
                let key = String::from_str(alloc, name.as_str())?;
                self.numbers.insert(key, number)?;
                self.subs.push_reserved(dealt);
                Ok(number)
            }
        }
    }

    /// One line of the logs; of another topic it says nothing.
    #[tactic(auto, using(crate::proofs::Dealings::other_passes, crate::proofs::Dealings::receipt_passes))]
    fn take(
        &mut self,
        alloc: Global,
        scenario: &Scenario,
        observed: &Observed,
        topic: u32,
        said: &Said,
    ) -> Result<(), Memory>
        requires sized { AreSized scenario.now.setup observed.now }
        requires said { IsSaidOf scenario.now.setup said.now }
        requires clusters { self.old.clusters ≡ length scenario.now.setup.clusters }
        ensures clusters { self.new.clusters ≡ self.old.clusters }
        ensures told { OnOk result ((ls : List Said) → TellsTopic scenario.now.setup observed.now topic ls self.old → TellsTopic scenario.now.setup observed.now topic (ls ++ said.now ∷ []) self.new) }
    {
        if topic_of(said) != topic {
            return Ok(());
        }
        match said {
            Said::Receipt { .. } => Ok(()),
            Said::Done { sub, ident, .. } => self.take_done(alloc, sub, ident),
            Said::Below {
                cluster,
                sub,
                index,
                ..
            } => {
                let at = At {
                    topic,
                    cluster: *cluster,
                };
                let entries = observed.at(scenario, at).entries();
                self.take_below(alloc, *cluster, sub, entries, *index as usize)
            }
            Said::Unsure { cluster, sub, .. } => self.take_unsure(alloc, *cluster, sub),
        }
    }

    /// The subscription of a name is done with a message.
    #[tactic(auto, using(crate::proofs::Dealings::done_told))]
    fn take_done(&mut self, alloc: Global, name: &Text, ident: &Ident) -> Result<(), Memory>
        ensures clusters { self.new.clusters ≡ self.old.clusters }
        ensures told { OnOk result ((s : Setup) (o : Observation) (t : ℕ) (ls : List Said) → TellsTopic s o t ls self.old → TellsTopic s o t (ls ++ said.Done t name.now ident.now ∷ []) self.new) }
    {
        let number = self.number_for(alloc, name)?;
        self.subs[number].add(alloc, ident)
    }

    /// The subscription of a name is done with all messages below an index of the topic at a cluster.
    #[tactic(auto, using(crate::proofs::Dealings::below_told))]
    fn take_below(
        &mut self,
        alloc: Global,
        cluster: u32,
        name: &Text,
        entries: &[Entry],
        index: usize,
    ) -> Result<(), Memory>
        requires { cluster < self.old.clusters }
        ensures clusters { self.new.clusters ≡ self.old.clusters }
        ensures told { OnOk result ((s : Setup) (o : Observation) (t : ℕ) (ls : List Said) → entries.now ≡ entries_seen s o t cluster → TellsTopic s o t ls self.old → TellsTopic s o t (ls ++ said.Below t cluster name.now index ∷ []) self.new) }
    {
        let number = self.number_for(alloc, name)?;
        self.subs[number].add_below(alloc, cluster, entries, index)
    }

    /// The subscription of a name may be done with what does not stand at a cluster.
    #[tactic(auto, using(crate::proofs::Dealings::unsure_told))]
    fn take_unsure(&mut self, alloc: Global, cluster: u32, name: &Text) -> Result<(), Memory>
        requires { cluster < self.old.clusters }
        ensures clusters { self.new.clusters ≡ self.old.clusters }
        ensures told { OnOk result ((s : Setup) (o : Observation) (t : ℕ) (ls : List Said) → TellsTopic s o t ls self.old → TellsTopic s o t (ls ++ said.Unsure t cluster name.now ∷ []) self.new) }
    {
        let number = self.number_for(alloc, name)?;
        self.subs[number].set_unsure(cluster);
        Ok(())
    }
}
