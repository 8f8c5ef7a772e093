//! What came from another cluster.
ghost use Rattle.std.specs.Prelude.{◌≡◌, ◌<◌, ◌≤◌, ◌==◌, ◌-◌, ◌+◌, ◌++◌, [], ◌∷◌, List, Some, if◌then◌else◌, not, drop, take, length, slice_get, false, IfOk, IfSome, MatchOption, OnOk};
ghost use Rattle.geo_base.specs.declared.entry.Entry.{Entry};
ghost use Rattle.geo_base.specs.Laws.{of_origin, outbound};
ghost use Rattle.observation.specs.Findings.{begins, brought, brought_from, brought_one, by_other, gaps, is_missing, source_of, unless};
ghost use Rattle.observation.specs.Observed.{entries_seen};
ghost use Rattle.observation.specs.declared.finding.Finding.TheVariants as finding;
ghost use Rattle.observe.specs.Kept.{EntryAt};
ghost use Rattle.observe.specs.Topics.{AreSized};
ghost use Rattle.observe.specs.Walks.{IsNextOf};

use crate::entries::is_outbound;
use crate::observed::{At, Observed, cluster_count};
use crate::seen::SeenTopic;
use audit::is_same_entry;
use geo_base::{Entry, Memory};
use observation::Finding;
use script_text::Scenario;

/// A topic at a cluster, and at another one whose entries came here.
#[derive(Clone, Copy, Drop)]
struct Way<'a> {
    at: At,
    origin: u32,
    here: &'a SeenTopic,
    there: &'a SeenTopic,
}

impl Observed {
    /// Adds for each other cluster what is wrong with what came from there to a topic at a cluster.
    pub(crate) fn find_all_brought(
        &self,
        scenario: &Scenario,
        at: At,
        found: &mut Vec<Finding>,
    ) -> Result<(), Memory>
        requires sized { AreSized scenario.now.setup self.now }
        requires topic { at.topic < length scenario.now.setup.topics }
        requires cluster { at.cluster < length scenario.now.setup.clusters }
        ensures { OnOk result (found.new.items ≡ found.old.items ++ by_other scenario.now.setup at.cluster (brought scenario.now.setup self.now at.topic at.cluster)) }
    {
        for origin in 0..cluster_count(scenario) {
            self.find_brought(scenario, at, origin, found)?;
        }
        Ok(())
    }

    /// Adds what is wrong with the entries of another cluster that stand in a topic at a cluster: each stands there, and was meant to go here;
    /// they come in the order there; and what goes here and stands there before one of them is here. Nothing for the cluster itself.
    #[tactic(auto, unfolding(observation::specs::Findings::brought), using(crate::proofs::Each::nothing_found))]
    fn find_brought(
        &self,
        scenario: &Scenario,
        at: At,
        origin: u32,
        found: &mut Vec<Finding>,
    ) -> Result<(), Memory>
        requires sized { AreSized scenario.now.setup self.now }
        requires topic { at.topic < length scenario.now.setup.topics }
        requires cluster { at.cluster < length scenario.now.setup.clusters }
        requires origin { origin < length scenario.now.setup.clusters }
        ensures { OnOk result (found.new.items ≡ found.old.items ++ (if at.cluster == origin then [] else brought scenario.now.setup self.now at.topic at.cluster origin)) }
    {
        let here = self.at(scenario, at);
        let there = self.at(
            scenario,
            At {
                topic: at.topic,
                cluster: origin,
            },
        );
        if at.cluster == origin || !here.is_read() || !there.is_read() {
            return Ok(());
        }
        if !self.is_quiet() && is_ahead(here.entries(), there.entries(), at.cluster, origin) {
            return Ok(());
        }
        let way = Way {
            at,
            origin,
            here,
            there,
        };
        find_on(way, found)
    }
}

/// Adds what is wrong with what came on a way, entry by entry.
fn find_on(way: Way<'_>, found: &mut Vec<Finding>) -> Result<(), Memory>
    ensures { OnOk result (found.new.items ≡ found.old.items ++ brought_from way.entry.at.topic way.entry.origin way.entry.at.cluster way.entry.here.now.topic.entries way.entry.there.now.topic.entries 0 0 way.entry.here.now.topic.entries) }
{
    let mut from = 0;
    let entries = way.here.entries();
    for index in 0..entries.len() {
        from = find_one(way, from, index, found)?;
    }
    Ok(())
}

/// Adds what is wrong with one entry, where all before `from` there is passed: from where on it is then.
#[tactic(auto, using(crate::proofs::Each::nothing_found))]
fn find_one(
    way: Way<'_>,
    from: usize,
    index: usize,
    found: &mut Vec<Finding>,
) -> Result<usize, Memory>
    requires { index < length way.here.now.topic.entries }
    ensures from { IfOk result (λ next. (e : EntryAt) → slice_get way.entry.here.now.topic.entries index ≡ Some e → next ≡ (brought_one way.entry.at.topic way.entry.origin way.entry.at.cluster way.entry.here.now.topic.entries way.entry.there.now.topic.entries from index e).from) }
    ensures found { OnOk result ((e : EntryAt) → slice_get way.entry.here.now.topic.entries index ≡ Some e → found.new.items ≡ found.old.items ++ (brought_one way.entry.at.topic way.entry.origin way.entry.at.cluster way.entry.here.now.topic.entries way.entry.there.now.topic.entries from index e).found) }
{
    let Way { at, origin, .. } = way;
    if way.here.entries()[index].ident.origin != origin {
        return Ok(from);
    }
    // an index there is below this, so that one more than it is a number
    let _len = way.there.entries().len();
    match source_of(way, index) {
        None => {
            found.push(Finding::Nowhere {
                topic: at.topic,
                cluster: at.cluster,
                index: index as u64,
                origin,
            })?;
            Ok(from)
        }
        Some(source) if source < from => {
            found.push(Finding::Order {
                topic: at.topic,
                cluster: at.cluster,
                index: index as u64,
                origin,
            })?;
            Ok(from)
        }
        Some(source) => {
            find_gaps(way, from, source, found)?;
            Ok(source + 1)
        }
    }
}

/// Where an entry stands there, as far as it goes here.
fn source_of(way: Way<'_>, index: usize) -> Option<usize>
    requires { index < length way.here.now.topic.entries }
    ensures source { (e : EntryAt) → slice_get way.entry.here.now.topic.entries index ≡ Some e → result ≡ source_of way.entry.origin way.entry.at.cluster e way.entry.there.now.topic.entries }
    ensures within { IfSome result (λ place. place < length way.entry.there.now.topic.entries) }
{
    let entry = &way.here.entries()[index];
    if !is_outbound(way.origin, way.at.cluster, entry) {
        return None;
    }
    way.there.place_of(entry, way.here.identity_at(index))
}

/// Adds what stands there from an index on and before another one, goes here and is missing here.
fn find_gaps(way: Way<'_>, from: usize, end: usize, found: &mut Vec<Finding>) -> Result<(), Memory>
    requires order { from ≤ end }
    requires end { end < length way.there.now.topic.entries }
    ensures { OnOk result (found.new.items ≡ found.old.items ++ gaps way.entry.at.topic way.entry.origin way.entry.at.cluster way.entry.here.now.topic.entries from (take (end - from) (drop from way.entry.there.now.topic.entries))) }
{
    for index in from..end {
        find_gap_at(way, index, found)?;
    }
    Ok(())
}

/// Adds that of one entry there.
#[tactic(auto, using(crate::proofs::Each::one_found, crate::proofs::Each::none_found))]
fn find_gap_at(way: Way<'_>, index: usize, found: &mut Vec<Finding>) -> Result<(), Memory>
    requires { index < length way.there.now.topic.entries }
    ensures { OnOk result ((f : EntryAt) → slice_get way.entry.there.now.topic.entries index ≡ Some f → found.new.items ≡ found.old.items ++ unless (not (is_missing way.entry.origin way.entry.at.cluster way.entry.here.now.topic.entries f)) (finding.Gap way.entry.at.topic way.entry.at.cluster way.entry.origin index)) }
{
    if is_missing(way, index) {
        found.push(Finding::Gap {
            topic: way.at.topic,
            cluster: way.at.cluster,
            origin: way.origin,
            index: index as u64,
        })?;
    }
    Ok(())
}

/// Whether an entry there goes here and is missing here.
fn is_missing(way: Way<'_>, index: usize) -> bool
    requires { index < length way.there.now.topic.entries }
    ensures { (f : EntryAt) → slice_get way.entry.there.now.topic.entries index ≡ Some f → result ≡ is_missing way.entry.origin way.entry.at.cluster way.entry.here.now.topic.entries f }
{
    let entry = &way.there.entries()[index];
    is_outbound(way.origin, way.at.cluster, entry)
        && way
            .here
            .place_of(entry, way.there.identity_at(index))
            .is_none()
}

/// Whether what an origin has for a cluster is a beginning of what came from there.
#[tactic(auto, using(crate::proofs::Walking::ahead_all))]
fn is_ahead(here: &[Entry], there: &[Entry], cluster: u32, origin: u32) -> bool
    ensures { result ≡ begins (outbound origin cluster there.now) (of_origin origin here.now) }
{
    let mut next = 0;
    for entry in there {
        match ahead_of(here, origin, cluster, entry, next) {
            None => return false,
            Some(after) => next = after,
        }
    }
    true
}

/// From where on what came has still to be compared, after one entry of an origin; None where it is not the next one that came.
#[tactic(auto, using(crate::proofs::Walking::ahead_other, crate::proofs::Walking::ahead_none, crate::proofs::Walking::ahead_differs, crate::proofs::Walking::ahead_same))]
fn ahead_of(here: &[Entry], origin: u32, cluster: u32, entry: &Entry, next: usize) -> Option<usize>
    ensures { (fs : List Entry) → MatchOption result (begins (outbound origin cluster (entry.now ∷ fs)) (of_origin origin (drop next here.now)) ≡ false) (λ after. begins (outbound origin cluster (entry.now ∷ fs)) (of_origin origin (drop next here.now)) ≡ begins (outbound origin cluster fs) (of_origin origin (drop after here.now))) }
{
    if !is_outbound(origin, cluster, entry) {
        return Some(next);
    }
    let at = next_of(here, origin, next)?;
    if is_same_entry(entry, &here[at]) {
        Some(at + 1)
    } else {
        None
    }
}

/// The index of the first entry of an origin from an index on.
#[tactic(auto, using(crate::proofs::Each::item_at, crate::proofs::Walking::next_passes, crate::proofs::Walking::next_none, crate::proofs::Walking::next_some))]
fn next_of(entries: &[Entry], origin: u32, from: usize) -> Option<usize>
    ensures { MatchOption result (of_origin origin (drop from entries.now) ≡ []) (IsNextOf origin entries.now from) }
{
    for index in from..entries.len() {
        if entries[index].ident.origin == origin {
            return Some(index);
        }
    }
    None
}
