//! The snapshots of clusters.
ghost use Rattle.std.specs.Prelude.{◌≡◌, ◌<◌, ◌==◌, ◌++◌, [], ◌∷◌, if◌then◌else◌, length, slice_get, IfOk, MatchOption, OnOk};
ghost use Rattle.geo_base.specs.Audit.{position_named};
ghost use Rattle.observation.specs.Findings.{by_other, covers_one, cuts, cuts_in, cuts_of, unless};
ghost use Rattle.observation.specs.Observed.{entries_seen};
ghost use Rattle.observation.specs.declared.finding.Finding.TheVariants as finding;
ghost use Rattle.observe.specs.Kept.{EntryAt};
ghost use Rattle.observe.specs.Needed.{AreAllNeeds, AreNeeds, ClusterNumber};
ghost use Rattle.observe.specs.Markers.{IsNoSnapshot, IsSnapshot};
ghost use Rattle.observe.specs.Topics.{AreSized};

use crate::needs::Needs;
use crate::observed::{At, Observed, cluster_count};
use audit::{first_position, names_each};
use geo_base::{ClusterPosition, Content, Entry, Marker, Memory, Position};
use observation::Finding;
use script_text::Scenario;
use std::alloc::Global;

/// A snapshot: where it stands, its positions of other clusters, and what the topic needs of each cluster.
#[derive(Clone, Copy, Drop)]
struct Snapshot<'a> {
    at: At,
    index: usize,
    remote: &'a [ClusterPosition],
    needs: &'a [Needs],
}

/// The local position of a snapshot, and those of other clusters; None where an entry is none.
fn snapshot_of(entry: &Entry) -> Option<(&Position, &[ClusterPosition])>
    ensures { MatchOption result (IsNoSnapshot entry.now.content) (λ parts. IsSnapshot entry.now.content parts.0.now parts.1.now) }
{
    match &entry.content {
        Content::Marked(marker) => match marker.get() {
            Marker::Snapshot { local, remote, .. } => Some((local, remote.as_slice())),
            _ => None,
        },
        _ => None,
    }
}

impl Observed {
    /// Adds what is wrong with the snapshots of a cluster in its own topic.
    #[tactic(auto, unfolding(observation::specs::Findings::cuts))]
    pub(crate) fn find_cuts(
        &self,
        alloc: Global,
        scenario: &Scenario,
        at: At,
        found: &mut Vec<Finding>,
    ) -> Result<(), Memory>
        requires sized { AreSized scenario.now.setup self.now }
        requires topic { at.topic < length scenario.now.setup.topics }
        requires cluster { at.cluster < length scenario.now.setup.clusters }
        ensures { OnOk result (found.new.items ≡ found.old.items ++ cuts scenario.now.setup self.now at.topic at.cluster) }
    {
        let needs = self.all_needs(alloc, scenario, at)?;
        let entries = self.entries_at(scenario, at);
        for index in 0..entries.len() {
            self.find_cut_at(scenario, at, index, needs.as_slice(), found)?;
        }
        Ok(())
    }

    /// Adds what is wrong with one entry, where it is a snapshot of the cluster.
    #[tactic(auto, using(crate::proofs::Each::nothing_found, crate::proofs::Cutting::cut_none, crate::proofs::Cutting::cut_some, crate::proofs::Cutting::cut_other))]
    fn find_cut_at(
        &self,
        scenario: &Scenario,
        at: At,
        index: usize,
        needs: &[Needs],
        found: &mut Vec<Finding>,
    ) -> Result<(), Memory>
        requires sized { AreSized scenario.now.setup self.now }
        requires topic { at.topic < length scenario.now.setup.topics }
        requires cluster { at.cluster < length scenario.now.setup.clusters }
        requires index { index < length (entries_seen scenario.now.setup self.now at.topic at.cluster) }
        requires needs { AreAllNeeds scenario.now.setup self.now at.topic at.cluster needs.now }
        ensures { OnOk result ((e : EntryAt) → slice_get (entries_seen scenario.now.setup self.now at.topic at.cluster) index ≡ Some e → found.new.items ≡ found.old.items ++ cuts_of scenario.now.setup self.now at.topic at.cluster index e e.content) }
    {
        let entries = self.entries_at(scenario, at);
        let entry = &entries[index];
        match snapshot_of(entry) {
            None => Ok(()),
            Some((local, remote)) => {
                if entry.ident.origin != at.cluster {
                    return Ok(());
                }
                let snapshot = Snapshot {
                    at,
                    index,
                    remote,
                    needs,
                };
                self.find_cut(scenario, snapshot, local, found)
            }
        }
    }

    /// What the topic at a cluster needs of each cluster.
    fn all_needs(&self, alloc: Global, scenario: &Scenario, at: At) -> Result<Vec<Needs>, Memory>
        requires sized { AreSized scenario.now.setup self.now }
        requires topic { at.topic < length scenario.now.setup.topics }
        requires cluster { at.cluster < length scenario.now.setup.clusters }
        ensures { IfOk result (λ needs. AreAllNeeds scenario.now.setup self.now at.topic at.cluster needs.items) }
    {
        let mut needs = Vec::new(alloc);
        let here = self.at(scenario, at);
        for cluster in 0..cluster_count(scenario) {
            let there = At {
                topic: at.topic,
                cluster,
            };
            needs.push(Needs::of(alloc, at.cluster, here, self.at(scenario, there))?)?;
        }
        Ok(needs)
    }

    /// Adds what is wrong with one.
    fn find_cut(
        &self,
        scenario: &Scenario,
        snapshot: Snapshot<'_>,
        local: &Position,
        found: &mut Vec<Finding>,
    ) -> Result<(), Memory>
        requires sized { AreSized scenario.now.setup self.now }
        requires topic { snapshot.at.topic < length scenario.now.setup.topics }
        requires cluster { snapshot.at.cluster < length scenario.now.setup.clusters }
        requires needs { AreAllNeeds scenario.now.setup self.now snapshot.at.topic snapshot.at.cluster snapshot.needs.now }
        ensures { OnOk result (found.new.items ≡ found.old.items ++ cuts_in scenario.now.setup self.now snapshot.entry.at.topic snapshot.entry.at.cluster snapshot.entry.index local.now snapshot.entry.remote.now) }
    {
        let At { topic, cluster } = snapshot.at;
        if names_each(cluster, cluster_count(scenario), snapshot.remote) {
            if let Some(local) = self.at(scenario, snapshot.at).index_at(local) {
                return self.find_uncovered(scenario, snapshot, local, found);
            }
        }
        found.push(Finding::Unplaced {
            topic,
            cluster,
            index: snapshot.index as u64,
        })?;
        Ok(())
    }

    /// Adds of which clusters it covers what does not stand here at or below an index.
    fn find_uncovered(
        &self,
        scenario: &Scenario,
        snapshot: Snapshot<'_>,
        local: usize,
        found: &mut Vec<Finding>,
    ) -> Result<(), Memory>
        requires sized { AreSized scenario.now.setup self.now }
        requires topic { snapshot.at.topic < length scenario.now.setup.topics }
        requires cluster { snapshot.at.cluster < length scenario.now.setup.clusters }
        requires needs { AreAllNeeds scenario.now.setup self.now snapshot.at.topic snapshot.at.cluster snapshot.needs.now }
        ensures { OnOk result (found.new.items ≡ found.old.items ++ by_other scenario.now.setup snapshot.entry.at.cluster (λ y. unless (covers_one scenario.now.setup self.now snapshot.entry.at.topic snapshot.entry.at.cluster local y (position_named y snapshot.entry.remote.now)) (finding.Cut snapshot.entry.at.topic snapshot.entry.at.cluster snapshot.entry.index y))) }
    {
        for of in 0..cluster_count(scenario) {
            self.find_uncovered_of(scenario, snapshot, local, of, found)?;
        }
        Ok(())
    }

    /// Adds where it does not cover a cluster.
    #[tactic(auto, using(crate::proofs::Each::nothing_found, crate::proofs::Each::one_found, crate::proofs::Each::none_found, crate::proofs::Needing::needs_at, crate::proofs::Needing::needs_sized))]
    fn find_uncovered_of(
        &self,
        scenario: &Scenario,
        snapshot: Snapshot<'_>,
        local: usize,
        of: u32,
        found: &mut Vec<Finding>,
    ) -> Result<(), Memory>
        requires sized { AreSized scenario.now.setup self.now }
        requires topic { snapshot.at.topic < length scenario.now.setup.topics }
        requires of { of < length scenario.now.setup.clusters }
        requires needs { AreAllNeeds scenario.now.setup self.now snapshot.at.topic snapshot.at.cluster snapshot.needs.now }
        ensures { OnOk result (found.new.items ≡ found.old.items ++ (if snapshot.entry.at.cluster == of then [] else unless (covers_one scenario.now.setup self.now snapshot.entry.at.topic snapshot.entry.at.cluster local of (position_named of snapshot.entry.remote.now)) (finding.Cut snapshot.entry.at.topic snapshot.entry.at.cluster snapshot.entry.index of))) }
    {
        let At { topic, cluster } = snapshot.at;
        if cluster == of {
            return Ok(());
        }
        let there = At { topic, cluster: of };
        let position = first_position(of, snapshot.remote);
        if !self.covers(
            scenario,
            there,
            position,
            local,
            &snapshot.needs[of as usize],
        ) {
            found.push(Finding::Cut {
                topic,
                cluster,
                index: snapshot.index as u64,
                of,
            })?;
        }
        Ok(())
    }

    /// Whether a position stands there, and all that is at or below it and needs a place here has one at or below an index; or it tells nothing.
    fn covers(
        &self,
        scenario: &Scenario,
        there: At,
        position: Option<Position>,
        local: usize,
        needs: &Needs,
    ) -> bool
        requires sized { AreSized scenario.now.setup self.now }
        requires topic { there.topic < length scenario.now.setup.topics }
        requires cluster { there.cluster < length scenario.now.setup.clusters }
        requires needs { length needs.now ≡ length (entries_seen scenario.now.setup self.now there.topic there.cluster) }
        ensures { (x : ClusterNumber) → AreNeeds x (entries_seen scenario.now.setup self.now there.topic x) (entries_seen scenario.now.setup self.now there.topic there.cluster) needs.now → result ≡ covers_one scenario.now.setup self.now there.topic x local there.cluster position }
    {
        let Some(position) = position else {
            return false;
        };
        if self.may_be_later(scenario, there, &position) {
            return true;
        }
        match self.at(scenario, there).index_at(&position) {
            None => false,
            Some(index) => needs.are_covered(index, local),
        }
    }
}
