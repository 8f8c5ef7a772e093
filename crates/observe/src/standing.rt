//! The rules of what stands where: what producers have receipts for, once and in order, and what replicators count as brought over.
ghost use Rattle.std.specs.Prelude.{◌≡◌, ◌<◌, ◌==◌, ◌++◌, [], ◌∷◌, List, Some, if◌then◌else◌, length, slice_get, IfOk, OnOk};
ghost use Rattle.geo_base.specs.declared.entry.Entry.{Entry};
ghost use Rattle.geo_base.specs.Topic.{accepts};
ghost use Rattle.topic_store.specs.Table.{Tells};
ghost use Rattle.observation.specs.Findings.{by_other, each_at, is_stored, lost, lost_in, twice, unless, unreceived};
ghost use Rattle.observation.specs.declared.finding.Finding.TheVariants as finding;
ghost use Rattle.observe.specs.Kept.{EntryAt};
ghost use Rattle.observe.specs.Topics.{AreSized, IsOf, IsSaidOf};
ghost use Rattle.observe.specs.Walks.{is_carried};

use crate::entries::is_outbound;
use crate::observed::{At, Observed, cluster_count};
use crate::seen::SeenTopic;
use audit::Identity;
use geo_base::{Entry, Ident, Memory, Position};
use observation::{Finding, Said};
use script_text::Scenario;
use std::alloc::Global;
use topic_store::{DedupTable, Stream, Verdict};

/// An identity in memory of its own.
fn ident_copy(alloc: Global, ident: &Ident) -> Result<Ident, Memory>
    ensures { IfOk result (λ copy. copy ≡ ident.now) }
{
    Ok(Ident {
        origin: ident.origin,
        producer: ident.producer.copy(alloc)?,
        seq: ident.seq,
    })
}

impl Observed {
    /// Whether a message stands in the topic of its cluster, or a position of it there tells nothing.
    #[tactic(auto, using(crate::proofs::Once::stored_first))]
    fn is_stored(
        &self,
        alloc: Global,
        scenario: &Scenario,
        topic: u32,
        ident: &Ident,
        position: &Position,
    ) -> Result<bool, Memory>
        requires sized { AreSized scenario.now.setup self.now }
        requires topic { topic < length scenario.now.setup.topics }
        requires origin { ident.now.origin < length scenario.now.setup.clusters }
        ensures { IfOk result (λ stored. stored ≡ is_stored scenario.now.setup self.now topic ident.now position.now) }
    {
        let at = At {
            topic,
            cluster: ident.origin,
        };
        if self.may_be_later(scenario, at, position) {
            return Ok(true);
        }
        let identity = Identity::of(alloc, ident)?;
        Ok(self.at(scenario, at).first_of(&identity).is_some())
    }

    /// Adds for each receipt of a topic whose message does not stand in the topic of its cluster that it is lost.
    #[tactic(auto, unfolding(observation::specs::Findings::lost))]
    pub(crate) fn find_lost(
        &self,
        alloc: Global,
        scenario: &Scenario,
        topic: u32,
        found: &mut Vec<Finding>,
    ) -> Result<(), Memory>
        requires of { IsOf scenario.now.setup self.now }
        requires topic { topic < length scenario.now.setup.topics }
        ensures { OnOk result (found.new.items ≡ found.old.items ++ lost scenario.now.setup self.now topic) }
    {
        let lines = self.said();
        for said in lines {
            self.find_lost_of(alloc, scenario, topic, said, found)?;
        }
        Ok(())
    }

    /// Adds that of one line of the logs.
    #[tactic(auto, using(crate::proofs::Each::nothing_found, crate::proofs::Each::one_found, crate::proofs::Each::none_found))]
    fn find_lost_of(
        &self,
        alloc: Global,
        scenario: &Scenario,
        topic: u32,
        said: &Said,
        found: &mut Vec<Finding>,
    ) -> Result<(), Memory>
        requires sized { AreSized scenario.now.setup self.now }
        requires said { IsSaidOf scenario.now.setup said.now }
        requires topic { topic < length scenario.now.setup.topics }
        ensures { OnOk result (found.new.items ≡ found.old.items ++ lost_in scenario.now.setup self.now topic said.now) }
    {
        if let Said::Receipt {
            topic: of,
            ident,
            position,
        } = said
        {
            if *of == topic && !self.is_stored(alloc, scenario, topic, ident, position)? {
                let ident = ident_copy(alloc, ident)?;
                found.push(Finding::Lost {
                    topic,
                    ident,
                    position: *position,
                })?;
            }
        }
        Ok(())
    }

    /// Adds for each entry of a topic at a cluster that does not come after those of its producer that it stands twice, or out of order.
    #[tactic(auto, unfolding(observation::specs::Findings::twice))]
    pub(crate) fn find_twice(
        &self,
        alloc: Global,
        scenario: &Scenario,
        at: At,
        found: &mut Vec<Finding>,
    ) -> Result<(), Memory>
        requires sized { AreSized scenario.now.setup self.now }
        requires topic { at.topic < length scenario.now.setup.topics }
        requires cluster { at.cluster < length scenario.now.setup.clusters }
        ensures { OnOk result (found.new.items ≡ found.old.items ++ twice scenario.now.setup self.now at.topic at.cluster) }
    {
        let mut streams = DedupTable::new(alloc);
        let entries = self.entries_at(scenario, at);
        for index in 0..entries.len() {
            find_twice_at(alloc, at, index, &entries[index], &mut streams, found)?;
        }
        Ok(())
    }

    /// Adds for each other cluster what it did not receive from a topic at a cluster.
    pub(crate) fn find_all_unreceived(
        &self,
        scenario: &Scenario,
        at: At,
        found: &mut Vec<Finding>,
    ) -> Result<(), Memory>
        requires sized { AreSized scenario.now.setup self.now }
        requires topic { at.topic < length scenario.now.setup.topics }
        requires cluster { at.cluster < length scenario.now.setup.clusters }
        ensures { OnOk result (found.new.items ≡ found.old.items ++ by_other scenario.now.setup at.cluster (unreceived scenario.now.setup self.now at.topic at.cluster)) }
    {
        for to in 0..cluster_count(scenario) {
            self.find_unreceived(scenario, at, to, found)?;
        }
        Ok(())
    }

    /// Adds for each entry that the cursor of a replicator has, and that does not stand at the cluster to which it goes, that it was not
    /// received; nothing for the cluster itself.
    #[tactic(auto, unfolding(observation::specs::Findings::unreceived), using(crate::proofs::Each::nothing_found))]
    fn find_unreceived(
        &self,
        scenario: &Scenario,
        at: At,
        to: u32,
        found: &mut Vec<Finding>,
    ) -> Result<(), Memory>
        requires sized { AreSized scenario.now.setup self.now }
        requires topic { at.topic < length scenario.now.setup.topics }
        requires cluster { at.cluster < length scenario.now.setup.clusters }
        requires to { to < length scenario.now.setup.clusters }
        ensures { OnOk result (found.new.items ≡ found.old.items ++ (if at.cluster == to then [] else unreceived scenario.now.setup self.now at.topic at.cluster to)) }
    {
        let here = self.at(scenario, at);
        let there = self.at(
            scenario,
            At {
                topic: at.topic,
                cluster: to,
            },
        );
        if at.cluster == to || !here.is_read() || !there.is_read() {
            return Ok(());
        }
        find_unreceived_in(here, there, at, to, found)
    }
}

/// Adds those of what was read at both.
fn find_unreceived_in(
    here: &SeenTopic,
    there: &SeenTopic,
    at: At,
    to: u32,
    found: &mut Vec<Finding>,
) -> Result<(), Memory>
    ensures { OnOk result (found.new.items ≡ found.old.items ++ each_at (λ i (e : Entry). unless (is_carried at.cluster to here.now there.now i e) (finding.Unreceived at.topic at.cluster to i)) 0 here.now.topic.entries) }
{
    let entries = here.entries();
    for index in 0..entries.len() {
        find_unreceived_at(here, there, at, to, index, found)?;
    }
    Ok(())
}

/// Adds that of one entry.
#[tactic(auto, using(crate::proofs::Each::one_found, crate::proofs::Each::none_found))]
fn find_unreceived_at(
    here: &SeenTopic,
    there: &SeenTopic,
    at: At,
    to: u32,
    index: usize,
    found: &mut Vec<Finding>,
) -> Result<(), Memory>
    requires { index < length here.now.topic.entries }
    ensures { OnOk result ((e : EntryAt) → slice_get here.now.topic.entries index ≡ Some e → found.new.items ≡ found.old.items ++ unless (is_carried at.cluster to here.now there.now index e) (finding.Unreceived at.topic at.cluster to index)) }
{
    if !is_carried(here, there, at.cluster, to, index) {
        found.push(Finding::Unreceived {
            topic: at.topic,
            cluster: at.cluster,
            to,
            index: index as u64,
        })?;
    }
    Ok(())
}

/// Whether the entry at an index stands at the cluster to which it goes, where the cursor of the replicator has it.
fn is_carried(here: &SeenTopic, there: &SeenTopic, cluster: u32, to: u32, index: usize) -> bool
    requires { index < length here.now.topic.entries }
    ensures { (e : EntryAt) → slice_get here.now.topic.entries index ≡ Some e → result ≡ is_carried cluster to here.now there.now index e }
{
    let entry = &here.entries()[index];
    !(here.is_received(to, index) && is_outbound(cluster, to, entry))
        || there.place_of(entry, here.identity_at(index)).is_some()
}

/// Adds for an entry that does not come after those of its producer that it stands twice, or out of order; the table then tells it too.
#[tactic(auto, using(topic_store::proofs::Tells::tells_new, topic_store::proofs::Tells::tells_seen, crate::proofs::Once::new_accepted, crate::proofs::Once::seen_refused, crate::proofs::Each::one_found, crate::proofs::Each::none_found))]
fn find_twice_at(
    alloc: Global,
    at: At,
    index: usize,
    entry: &Entry,
    streams: &mut DedupTable,
    found: &mut Vec<Finding>,
) -> Result<(), Memory>
    ensures told { OnOk result ((es : List Entry) → Tells streams.old.rows es → Tells streams.new.rows (es ++ entry.now ∷ [])) }
    ensures found { OnOk result ((es : List Entry) → Tells streams.old.rows es → found.new.items ≡ found.old.items ++ unless (accepts es entry.now.ident) (finding.Twice at.topic at.cluster index)) }
{
    let stream = Stream::of(alloc, &entry.ident)?;
    match streams.check(&stream, entry.ident.seq) {
        Verdict::New => {
            streams.reserve(1)?;
            streams.note(stream, entry.ident.seq);
        }
        Verdict::Seen(_) => {
            found.push(Finding::Twice {
                topic: at.topic,
                cluster: at.cluster,
                index: index as u64,
            })?;
        }
    }
    Ok(())
}
