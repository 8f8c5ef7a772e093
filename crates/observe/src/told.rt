//! The rule of updates: what an update tells was dealt with.
ghost use Rattle.std.specs.Prelude.{◌≡◌, ◌<◌, ◌==◌, ◌++◌, [], if◌then◌else◌, length, IfOk, MatchOption, OnOk};
ghost use Rattle.observation.specs.Findings.{each_at, tells_one, told, told_in, told_of, unless};
ghost use Rattle.observation.specs.Observed.{entries_seen};
ghost use Rattle.observation.specs.declared.finding.Finding.TheVariants as finding;
ghost use Rattle.geo_base.specs.Entry.{means_cluster};
ghost use Rattle.observe.specs.Markers.{IsNoUpdate, IsUpdate};
ghost use Rattle.observe.specs.Telling.{first_unsettled};

use crate::asked::Asked;
use crate::entries::{is_meant_for, means_cluster};
use crate::logs::Logs;
use geo_base::{ClusterPosition, Content, Entry, Marker, Memory, Position, Text};
use indexmap::IndexMap;
use observation::Finding;
use std::alloc::Global;
use std::marker::Model;

/// The updates of a topic, judged. Kept is where the first message of a cluster stands that nobody dealt with, once it was looked for.
#[derive(Drop)]
pub(crate) struct Updates<'a> {
    logs: &'a Logs<'a>,
    firsts: IndexMap<Asked, usize>,
}

impl<'a> Model for Updates<'a> {
    ghost use Rattle.observe.specs.Dealt.{LogsOf};
    ghost use Rattle.observe.specs.Telling.{AreFirsts};

    ghost Value = { LogsOf };

    ghost view = { λ u. u.logs.now };

    ghost invariant = { λ u. AreFirsts u.logs.now u.firsts.entries };
}

/// An update: where it stands, its cluster, and its subscription.
#[derive(Clone, Copy, Drop)]
struct Update<'a> {
    cluster: u32,
    index: usize,
    origin: u32,
    sub: &'a Text,
}

/// The subscription of an update, and its positions; None where an entry is none.
fn update_of(entry: &Entry) -> Option<(&Text, &[ClusterPosition])>
    ensures { MatchOption result (IsNoUpdate entry.now.content) (λ parts. IsUpdate entry.now.content parts.0.now parts.1.now) }
{
    match &entry.content {
        Content::Marked(marker) => match marker.get() {
            Marker::Update { sub, remote } => Some((sub, remote.as_slice())),
            _ => None,
        },
        _ => None,
    }
}

impl<'a> Updates<'a> {
    /// Those of the logs' topic; takes no memory.
    #[tactic(auto, using(crate::proofs::Telling::no_firsts))]
    pub(crate) fn new(alloc: Global, logs: &'a Logs<'a>) -> Updates<'a>
        ensures { result ≡ logs.now }
    {
        Updates {
            logs,
            firsts: IndexMap::new(alloc),
        }
    }

    /// Adds for each update in the topic at a cluster, and each cluster of which it names a position that does not stand there, or below which
    /// nobody dealt with a message that is meant for the update's cluster, that it was told.
    #[tactic(auto, unfolding(observation::specs::Findings::told))]
    pub(crate) fn find_told(
        &mut self,
        alloc: Global,
        cluster: u32,
        found: &mut Vec<Finding>,
    ) -> Result<(), Memory>
        requires { cluster < length self.old.setup.clusters }
        ensures same { self.new ≡ self.old }
        ensures found { OnOk result (found.new.items ≡ found.old.items ++ told self.old.setup self.old.observed self.old.topic cluster) }
    {
        let entries = self.logs.entries_at(cluster);
        for index in 0..entries.len() {
            self.find_told_at(alloc, cluster, index, &entries[index], found)?;
        }
        Ok(())
    }

    /// Adds those of one entry, where it is an update.
    #[tactic(auto, using(crate::proofs::Each::nothing_found, crate::proofs::Telling::told_none, crate::proofs::Telling::told_some))]
    fn find_told_at(
        &mut self,
        alloc: Global,
        cluster: u32,
        index: usize,
        entry: &Entry,
        found: &mut Vec<Finding>,
    ) -> Result<(), Memory>
        ensures same { self.new ≡ self.old }
        ensures found { OnOk result (found.new.items ≡ found.old.items ++ told_in self.old.setup self.old.observed self.old.topic cluster index entry.now entry.now.content) }
    {
        match update_of(entry) {
            None => Ok(()),
            Some((sub, remote)) => {
                let update = Update {
                    cluster,
                    index,
                    origin: entry.ident.origin,
                    sub,
                };
                self.find_told_in(alloc, update, remote, found)
            }
        }
    }

    /// Adds where one of its positions tells more than was dealt with.
    fn find_told_in(
        &mut self,
        alloc: Global,
        update: Update<'_>,
        remote: &[ClusterPosition],
        found: &mut Vec<Finding>,
    ) -> Result<(), Memory>
        ensures same { self.new ≡ self.old }
        ensures found { OnOk result (found.new.items ≡ found.old.items ++ each_at (λ k r. told_of self.old.setup self.old.observed self.old.topic update.entry.cluster update.entry.index update.entry.origin update.entry.sub.now r) 0 remote.now) }
    {
        for pair in remote {
            self.find_told_of(alloc, update, pair, found)?;
        }
        Ok(())
    }

    /// Adds where one position tells more.
    fn find_told_of(
        &mut self,
        alloc: Global,
        update: Update<'_>,
        pair: &ClusterPosition,
        found: &mut Vec<Finding>,
    ) -> Result<(), Memory>
        ensures same { self.new ≡ self.old }
        ensures found { OnOk result (found.new.items ≡ found.old.items ++ told_of self.old.setup self.old.observed self.old.topic update.entry.cluster update.entry.index update.entry.origin update.entry.sub.now pair.now) }
    {
        for of in 0..self.logs.clusters() {
            self.find_told_by(alloc, update, pair, of, found)?;
        }
        Ok(())
    }

    /// Adds where it tells more of a cluster.
    #[tactic(auto, using(crate::proofs::Each::nothing_found, crate::proofs::Each::one_found, crate::proofs::Each::none_found))]
    fn find_told_by(
        &mut self,
        alloc: Global,
        update: Update<'_>,
        pair: &ClusterPosition,
        of: u32,
        found: &mut Vec<Finding>,
    ) -> Result<(), Memory>
        requires { of < length self.old.setup.clusters }
        ensures same { self.new ≡ self.old }
        ensures found { OnOk result (found.new.items ≡ found.old.items ++ (if update.entry.origin == of then [] else if means_cluster of pair.now.cluster then unless (tells_one self.old.setup self.old.observed self.old.topic update.entry.origin update.entry.sub.now of pair.now.position) (finding.Told self.old.topic update.entry.cluster update.entry.index of) else [])) }
    {
        if update.origin == of || !means_cluster(of, &pair.cluster) {
            return Ok(());
        }
        if !self.tells(alloc, update, of, &pair.position)? {
            found.push(Finding::Told {
                topic: self.logs.topic(),
                cluster: update.cluster,
                index: update.index as u64,
                of,
            })?;
        }
        Ok(())
    }

    /// Whether an update tells only what was dealt with of a cluster, as far as it is to be seen.
    #[tactic(auto, using(crate::proofs::Telling::tells_upto_first))]
    fn tells(
        &mut self,
        alloc: Global,
        update: Update<'_>,
        of: u32,
        position: &Position,
    ) -> Result<bool, Memory>
        requires { of < length self.old.setup.clusters }
        ensures same { self.new ≡ self.old }
        ensures tells { IfOk result (λ tells. tells ≡ tells_one self.old.setup self.old.observed self.old.topic update.entry.origin update.entry.sub.now of position.now) }
    {
        if self.logs.may_be_later(of, position) {
            return Ok(true);
        }
        match self.logs.at(of).index_at(position) {
            None => Ok(false),
            Some(index) => Ok(index < self.first_unsettled(alloc, update, of)?),
        }
    }

    /// Where the first message of a cluster stands that is meant for the update's cluster and that nobody dealt with; the count of entries where
    /// there is none.
    #[tactic(auto, using(crate::proofs::Telling::firsts_more, crate::proofs::Telling::first_kept))]
    fn first_unsettled(
        &mut self,
        alloc: Global,
        update: Update<'_>,
        of: u32,
    ) -> Result<usize, Memory>
        requires { of < length self.old.setup.clusters }
        ensures same { self.new ≡ self.old }
        ensures first { IfOk result (λ first. first ≡ first_unsettled self.old.setup self.old.observed self.old.topic update.entry.origin update.entry.sub.now 0 (entries_seen self.old.setup self.old.observed self.old.topic of)) }
    {
        let asked = Asked {
            sub: update.sub.copy(alloc)?,
            origin: update.origin,
            of,
        };
        match self.firsts.get(&asked) {
            Some(first) => Ok(*first),
            None => {
                let first = look_for_unsettled(self.logs, update, of);
                self.firsts.insert(asked, first)?;
                Ok(first)
            }
        }
    }
}

/// Looks for it.
#[tactic(auto, using(crate::proofs::Each::item_at, crate::proofs::Telling::first_passes, crate::proofs::Telling::first_here, crate::proofs::Telling::first_past))]
fn look_for_unsettled(logs: &Logs<'_>, update: Update<'_>, of: u32) -> usize
    requires { of < length logs.now.setup.clusters }
    ensures { result ≡ first_unsettled logs.now.setup logs.now.observed logs.now.topic update.entry.origin update.entry.sub.now 0 (entries_seen logs.now.setup logs.now.observed logs.now.topic of) }
{
    let there = logs.at(of);
    let entries = logs.entries_at(of);
    for index in 0..entries.len() {
        let entry = &entries[index];
        if is_meant_for(update.origin, entry)
            && !logs.is_settled(update.sub, entry, there.identity_at(index))
        {
            return index;
        }
    }
    entries.len()
}
