//! What two clusters have of one that was not read.
ghost use Rattle.std.specs.Prelude.{◌≡◌, ◌<◌, ◌++◌, [], ◌∷◌, List, drop, filter, length, MatchOption, OnOk};
ghost use Rattle.observation.specs.Findings.{Placed, apart, by_cluster, is_judged_apart, parted};
ghost use Rattle.observation.specs.Safe.{is_common};
ghost use Rattle.observe.specs.Topics.{AreSized};
ghost use Rattle.observe.specs.Walks.{EntryIndex, IsNextCommon, after_compared, common_from};

use crate::entries::{is_meant_for, is_message};
use crate::observed::{At, Observed, cluster_count};
use audit::is_same_entry;
use geo_base::{Entry, Memory};
use observation::Finding;
use script_text::Scenario;

/// Two clusters of a topic, and one that was not read.
#[derive(Clone, Copy, Drop)]
pub(crate) struct Pair {
    pub(crate) topic: u32,
    pub(crate) origin: u32,
    pub(crate) cluster: u32,
    pub(crate) other: u32,
}

impl Pair {
    /// The topic at a cluster.
    fn of(&self, cluster: u32) -> At
        ensures { result ≡ record { topic = self.now.topic; cluster = cluster } }
    {
        At {
            topic: self.topic,
            cluster,
        }
    }
}

/// What a message of the one cluster is beside those of the other from an index on.
#[derive(Clone, Copy, Drop)]
pub(crate) enum Compared {
    /// The other has no more.
    Ends,
    /// The one that stands there at this index is another one.
    Differs(usize),
    /// It is the same, or need not stand there; go on from this index.
    Agrees(usize),
}

impl Observed {
    /// Adds where what two clusters have of one that was not read is not the same for the first time.
    pub(crate) fn find_all_apart(
        &self,
        scenario: &Scenario,
        origin: At,
        found: &mut Vec<Finding>,
    ) -> Result<(), Memory>
        requires sized { AreSized scenario.now.setup self.now }
        requires topic { origin.topic < length scenario.now.setup.topics }
        requires cluster { origin.cluster < length scenario.now.setup.clusters }
        ensures { OnOk result (found.new.items ≡ found.old.items ++ by_cluster scenario.now.setup (λ x. by_cluster scenario.now.setup (apart scenario.now.setup self.now origin.topic origin.cluster x))) }
    {
        for cluster in 0..cluster_count(scenario) {
            self.find_apart_from(scenario, origin, cluster, found)?;
        }
        Ok(())
    }

    /// Adds those of one of the two.
    fn find_apart_from(
        &self,
        scenario: &Scenario,
        origin: At,
        cluster: u32,
        found: &mut Vec<Finding>,
    ) -> Result<(), Memory>
        requires sized { AreSized scenario.now.setup self.now }
        requires topic { origin.topic < length scenario.now.setup.topics }
        requires origin { origin.cluster < length scenario.now.setup.clusters }
        requires cluster { cluster < length scenario.now.setup.clusters }
        ensures { OnOk result (found.new.items ≡ found.old.items ++ by_cluster scenario.now.setup (apart scenario.now.setup self.now origin.topic origin.cluster cluster)) }
    {
        for other in 0..cluster_count(scenario) {
            let pair = Pair {
                topic: origin.topic,
                origin: origin.cluster,
                cluster,
                other,
            };
            self.find_apart(scenario, pair, found)?;
        }
        Ok(())
    }

    /// Adds that of both.
    #[tactic(auto, unfolding(observation::specs::Findings::apart), using(crate::proofs::Each::nothing_found))]
    fn find_apart(
        &self,
        scenario: &Scenario,
        pair: Pair,
        found: &mut Vec<Finding>,
    ) -> Result<(), Memory>
        requires sized { AreSized scenario.now.setup self.now }
        requires topic { pair.topic < length scenario.now.setup.topics }
        requires origin { pair.origin < length scenario.now.setup.clusters }
        requires cluster { pair.cluster < length scenario.now.setup.clusters }
        requires other { pair.other < length scenario.now.setup.clusters }
        ensures { OnOk result (found.new.items ≡ found.old.items ++ apart scenario.now.setup self.now pair.topic pair.origin pair.cluster pair.other) }
    {
        if !self.is_judged_apart(scenario, pair) {
            return Ok(());
        }
        let ours = self.at(scenario, pair.of(pair.cluster)).entries();
        let theirs = self.at(scenario, pair.of(pair.other)).entries();
        find_parted(ours, theirs, pair, found)
    }

    /// Whether the two were read and the one was not, each pair once.
    fn is_judged_apart(&self, scenario: &Scenario, pair: Pair) -> bool
        requires sized { AreSized scenario.now.setup self.now }
        requires topic { pair.topic < length scenario.now.setup.topics }
        requires origin { pair.origin < length scenario.now.setup.clusters }
        requires cluster { pair.cluster < length scenario.now.setup.clusters }
        requires other { pair.other < length scenario.now.setup.clusters }
        ensures { result ≡ is_judged_apart scenario.now.setup self.now pair.topic pair.origin pair.cluster pair.other }
    {
        pair.cluster < pair.other
            && pair.cluster != pair.origin
            && pair.other != pair.origin
            && !self.at(scenario, pair.of(pair.origin)).is_read()
            && self.at(scenario, pair.of(pair.cluster)).is_read()
            && self.at(scenario, pair.of(pair.other)).is_read()
    }
}

/// Adds where two lists are not the same for the first time.
fn find_parted(
    ours: &[Entry],
    theirs: &[Entry],
    pair: Pair,
    found: &mut Vec<Finding>,
) -> Result<(), Memory>
    ensures { OnOk result (found.new.items ≡ found.old.items ++ parted pair.topic pair.origin pair.cluster pair.other (common_from pair.origin pair.other 0 ours.now) (common_from pair.origin pair.cluster 0 theirs.now)) }
{
    let mut next = 0;
    for index in 0..ours.len() {
        match compare_entry(&ours[index], theirs, pair, next) {
            Compared::Ends => return Ok(()),
            Compared::Differs(at) => {
                found.push(Finding::Apart {
                    topic: pair.topic,
                    origin: pair.origin,
                    cluster: pair.cluster,
                    index: index as u64,
                    other: pair.other,
                    other_index: at as u64,
                })?;
                return Ok(());
            }
            Compared::Agrees(after) => next = after,
        }
    }
    Ok(())
}

/// What an entry of the one cluster is beside those of the other from an index on.
#[tactic(auto, using(crate::proofs::Comparing::compare_passes, crate::proofs::Comparing::compare_ends, crate::proofs::Comparing::compare_agrees, crate::proofs::Comparing::compare_differs))]
fn compare_entry(entry: &Entry, theirs: &[Entry], pair: Pair, next: usize) -> Compared
    ensures { (i : EntryIndex) (ps : List Placed) → parted pair.topic pair.origin pair.cluster pair.other (filter (λ (p : Placed). is_common pair.origin pair.other p.entry) (record { index = i; entry = entry.now } ∷ ps)) (common_from pair.origin pair.cluster next (drop next theirs.now)) ≡ after_compared pair i theirs.now (filter (λ (p : Placed). is_common pair.origin pair.other p.entry) ps) result }
{
    if !is_common(pair.origin, pair.other, entry) {
        return Compared::Agrees(next);
    }
    match next_common(theirs, pair, next) {
        None => Compared::Ends,
        Some(at) => {
            if is_same_entry(entry, &theirs[at]) {
                Compared::Agrees(at + 1)
            } else {
                Compared::Differs(at)
            }
        }
    }
}

/// The index of the first message from an index on that both could have.
#[tactic(auto, using(crate::proofs::Each::item_at, crate::proofs::Walking::common_passes, crate::proofs::Walking::common_none, crate::proofs::Walking::common_some))]
fn next_common(theirs: &[Entry], pair: Pair, from: usize) -> Option<usize>
    ensures { MatchOption result (common_from pair.origin pair.cluster from (drop from theirs.now) ≡ []) (IsNextCommon pair.origin pair.cluster theirs.now from) }
{
    for index in from..theirs.len() {
        if is_common(pair.origin, pair.cluster, &theirs[index]) {
            return Some(index);
        }
    }
    None
}

/// Whether an entry is a message of an origin that another cluster could have too.
fn is_common(origin: u32, other: u32, entry: &Entry) -> bool
    ensures { result ≡ is_common origin other entry.now }
{
    entry.ident.origin == origin && is_message(entry) && is_meant_for(other, entry)
}
