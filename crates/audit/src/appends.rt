//! The rules of entries that are appended.
ghost use Rattle.std.specs.Prelude.{◌≡◌, ◌<◌, None, Some, length, IfOk};
ghost use Rattle.geo_base.specs.Audit.{act_refused, is_cut, may_snapshot, may_stand, may_update, passes_local, tells_entry};
ghost use Rattle.geo_base.specs.Mirror.{index_at, mirror_at, mirror_sub};
ghost use Rattle.geo_base.specs.TraceItems.{Appends};
ghost use Rattle.audit.specs.Appends.{covers_other, marker_refused, place_refused};
ghost use Rattle.audit.specs.Covers.{entries_of};
ghost use Rattle.audit.specs.Numbers.{AreSized};
ghost use Rattle.audit.specs.Strict.{may_follow};

use crate::acks::unless_broken;
use crate::brought::Route;
use crate::covers::Pair;
use crate::entries::is_meant_for;
use crate::mirrors::{AllMirrors, At, cluster_count, number_of};
use crate::named::{first_position, name_same, names_each};
use crate::rule::Rule;
use crate::topic::TopicMirror;
use geo_base::{ClusterPosition, Content, Entry, Marker, Memory, Position, Text};
use script_text::Scenario;
use std::alloc::Global;

/// An update's subscription, and the positions that it names.
#[derive(Clone, Copy, Drop)]
struct UpdateOf<'a> {
    sub: &'a Text,
    remote: &'a [ClusterPosition],
}

/// Whether a subscription's mark-delete has passed the entry at a position.
fn passes_local(topic: &TopicMirror, sub: &Text, local: &Position) -> bool
    ensures { result ≡ passes_local topic.now (mirror_sub topic.now sub.now) (index_at topic.now local.now) }
{
    match (topic.sub(sub), topic.index_at(local)) {
        (Some(sub), Some(index)) => (index as u64) < sub.mark(),
        _ => false,
    }
}

/// Whether an entry is a snapshot of a cluster that names the same positions as an update for a subscription, and that the
/// subscription has passed.
fn is_told(
    alloc: Global,
    scenario: &Scenario,
    topic: &TopicMirror,
    cluster: u32,
    snapshot: &Entry,
    update: UpdateOf<'_>,
) -> Result<bool, Memory>
    ensures { IfOk result (λ told. told ≡ tells_entry cluster (length scenario.now.setup.clusters) topic.now update.entry.sub.now update.entry.remote.now (Some snapshot.now)) }
{
    let Content::Marked(marker) = &snapshot.content else {
        return Ok(false);
    };
    let Marker::Snapshot { local, remote, .. } = marker.get() else {
        return Ok(false);
    };
    if snapshot.ident.origin != cluster || !passes_local(topic, update.sub, local) {
        return Ok(false);
    }
    name_same(
        alloc,
        cluster_count(scenario),
        remote.as_slice(),
        update.remote,
    )
}

/// Whether an update of the own cluster tells the snapshot at a position, which the subscription has passed; another entry may stand
/// anyhow.
fn may_update(
    alloc: Global,
    scenario: &Scenario,
    topic: &TopicMirror,
    cluster: u32,
    entry: &Entry,
    by: &Option<Position>,
) -> Result<bool, Memory>
    ensures { IfOk result (λ may. may ≡ may_update scenario.now.setup topic.now cluster entry.now by.now entry.now.content) }
{
    let Content::Marked(marker) = &entry.content else {
        return Ok(true);
    };
    let Marker::Update { sub, remote } = marker.get() else {
        return Ok(true);
    };
    if entry.ident.origin != cluster {
        return Ok(true);
    }
    let Some(by) = by else {
        return Ok(false);
    };
    let Some(snapshot) = topic.entry_at(by) else {
        return Ok(false);
    };
    let update = UpdateOf {
        sub,
        remote: remote.as_slice(),
    };
    is_told(alloc, scenario, topic, cluster, snapshot, update)
}

impl AllMirrors {
    /// Whether an entry is of the own cluster; or it is meant for it, and stands in the topic of its own cluster.
    fn may_stand(
        &self,
        alloc: Global,
        scenario: &Scenario,
        at: At,
        entry: &Entry,
    ) -> Result<bool, Memory>
        requires sized { AreSized scenario.now.setup self.now }
        requires topic { at.topic < length scenario.now.setup.topics }
        requires origin { entry.now.ident.origin < length scenario.now.setup.clusters }
        ensures { IfOk result (λ may. may ≡ may_stand scenario.now.setup self.now at.topic at.cluster entry.now) }
    {
        if entry.ident.origin == at.cluster {
            return Ok(true);
        }
        let origin = number_of(scenario, at.topic, entry.ident.origin);
        let stands = self.topics()[origin].stored().has(alloc, entry)?;
        Ok(stands && is_meant_for(at.cluster, entry))
    }

    /// Whether an entry is of the own cluster, or the next one of those that its own cluster has for this one.
    pub(crate) fn may_follow(
        &mut self,
        scenario: &Scenario,
        at: At,
        entry: &Entry,
    ) -> Result<bool, Memory>
        requires sized { AreSized scenario.now.setup self.old }
        requires topic { at.topic < length scenario.now.setup.topics }
        requires cluster { at.cluster < length scenario.now.setup.clusters }
        requires origin { entry.now.ident.origin < length scenario.now.setup.clusters }
        ensures same { self.new ≡ self.old }
        ensures follows { IfOk result (λ may. may ≡ may_follow scenario.now.setup self.old at.topic at.cluster entry.now) }
    {
        if entry.ident.origin == at.cluster {
            return Ok(true);
        }
        let route = Route {
            origin: entry.ident.origin,
            own: at.cluster,
            there: number_of(scenario, at.topic, entry.ident.origin),
        };
        self.is_next(number_of(scenario, at.topic, at.cluster), route, entry)
    }

    /// Whether what a snapshot's position of another cluster covers stands in the own topic at or below an index.
    fn covers_other(
        &mut self,
        alloc: Global,
        pair: Pair,
        local: usize,
        remote: Option<Position>,
    ) -> Result<bool, Memory>
        requires here { pair.here < length self.old.topics }
        requires there { pair.there < length self.old.topics }
        requires local { local < length (entries_of self.old.topics pair.here) }
        ensures same { self.new ≡ self.old }
        ensures covers { IfOk result (λ covers. covers ≡ covers_other self.old pair local remote) }
    {
        let Some(remote) = remote else {
            return Ok(false);
        };
        let Some(index) = self.index_in(pair.there, &remote) else {
            return Ok(false);
        };
        // an index is below this, so that one more than it is a number
        let _len = self.len_of(pair.here);
        self.covers(alloc, pair, index, local + 1)
    }

    /// Whether a snapshot of a cluster is a cut: whether what its positions of the other clusters cover stands in the own topic at or
    /// below an index.
    fn is_cut(
        &mut self,
        alloc: Global,
        scenario: &Scenario,
        at: At,
        local: usize,
        remote: &[ClusterPosition],
    ) -> Result<bool, Memory>
        requires sized { AreSized scenario.now.setup self.old }
        requires topic { at.topic < length scenario.now.setup.topics }
        requires cluster { at.cluster < length scenario.now.setup.clusters }
        requires local { local < length (mirror_at scenario.now.setup self.old at.topic at.cluster).entries }
        ensures same { self.new ≡ self.old }
        ensures cut { IfOk result (λ cut. cut ≡ is_cut scenario.now.setup self.old at.topic at.cluster remote.now (Some local)) }
    {
        let here = number_of(scenario, at.topic, at.cluster);
        for other in 0..cluster_count(scenario) {
            let pair = Pair {
                own: at.cluster,
                here,
                there: number_of(scenario, at.topic, other),
            };
            if other != at.cluster
                && !self.covers_other(alloc, pair, local, first_position(other, remote))?
            {
                return Ok(false);
            }
        }
        Ok(true)
    }

    /// Whether a snapshot of the own cluster names each other cluster once, and is a cut; another entry may stand anyhow.
    fn may_snapshot(
        &mut self,
        alloc: Global,
        scenario: &Scenario,
        at: At,
        entry: &Entry,
    ) -> Result<bool, Memory>
        requires sized { AreSized scenario.now.setup self.old }
        requires topic { at.topic < length scenario.now.setup.topics }
        requires cluster { at.cluster < length scenario.now.setup.clusters }
        ensures same { self.new ≡ self.old }
        ensures may { IfOk result (λ may. may ≡ may_snapshot scenario.now.setup self.old at.topic at.cluster entry.now entry.now.content) }
    {
        let Content::Marked(marker) = &entry.content else {
            return Ok(true);
        };
        let Marker::Snapshot { local, remote, .. } = marker.get() else {
            return Ok(true);
        };
        if entry.ident.origin != at.cluster {
            return Ok(true);
        }
        if !names_each(at.cluster, cluster_count(scenario), remote.as_slice()) {
            return Ok(false);
        }
        let number = number_of(scenario, at.topic, at.cluster);
        match self.index_in(number, local) {
            None => Ok(false),
            Some(local) => self.is_cut(alloc, scenario, at, local, remote.as_slice()),
        }
    }

    /// The lowest rule that an appended entry breaks.
    #[tactic(auto, using(crate::proofs::Judging::place_broken, crate::proofs::Judging::place_holds))]
    pub(crate) fn append_refused(
        &mut self,
        alloc: Global,
        scenario: &Scenario,
        at: At,
        position: &Position,
        entry: &Entry,
        by: &Option<Position>,
    ) -> Result<Option<u32>, Memory>
        requires sized { AreSized scenario.now.setup self.old }
        requires topic { at.topic < length scenario.now.setup.topics }
        requires cluster { at.cluster < length scenario.now.setup.clusters }
        requires origin { entry.now.ident.origin < length scenario.now.setup.clusters }
        ensures same { self.new ≡ self.old }
        ensures refused { IfOk result (λ refused. refused ≡ act_refused scenario.now.setup self.old at.topic at.cluster (mirror_at scenario.now.setup self.old at.topic at.cluster) (Appends position.now entry.now by.now)) }
    {
        match self.place_refused(alloc, scenario, at, position, entry)? {
            Some(rule) => Ok(Some(rule)),
            None => self.marker_refused(alloc, scenario, at, entry, by),
        }
    }

    /// The lowest rule that an appended entry breaks where it stands, whatever its marker says.
    fn place_refused(
        &self,
        alloc: Global,
        scenario: &Scenario,
        at: At,
        position: &Position,
        entry: &Entry,
    ) -> Result<Option<u32>, Memory>
        requires sized { AreSized scenario.now.setup self.now }
        requires topic { at.topic < length scenario.now.setup.topics }
        requires cluster { at.cluster < length scenario.now.setup.clusters }
        requires origin { entry.now.ident.origin < length scenario.now.setup.clusters }
        ensures { IfOk result (λ refused. refused ≡ place_refused scenario.now.setup self.now at.topic at.cluster position.now entry.now None) }
    {
        let number = number_of(scenario, at.topic, at.cluster);
        let stored = self.topics()[number].stored();
        if !stored.is_above(position) {
            return Ok(Some(Rule::Position.number()));
        }
        if !stored.accepts(alloc, &entry.ident)? {
            return Ok(Some(Rule::Duplicate.number()));
        }
        Ok(unless_broken(Rule::Origin, self.may_stand(alloc, scenario, at, entry)?))
    }

    /// The lowest rule that an appended entry breaks by what its marker says.
    fn marker_refused(
        &mut self,
        alloc: Global,
        scenario: &Scenario,
        at: At,
        entry: &Entry,
        by: &Option<Position>,
    ) -> Result<Option<u32>, Memory>
        requires sized { AreSized scenario.now.setup self.old }
        requires topic { at.topic < length scenario.now.setup.topics }
        requires cluster { at.cluster < length scenario.now.setup.clusters }
        ensures same { self.new ≡ self.old }
        ensures refused { IfOk result (λ refused. refused ≡ marker_refused scenario.now.setup self.old at.topic at.cluster entry.now by.now) }
    {
        if !self.may_snapshot(alloc, scenario, at, entry)? {
            return Ok(Some(Rule::Snapshot.number()));
        }
        let topic = &self.topics()[number_of(scenario, at.topic, at.cluster)];
        Ok(unless_broken(
            Rule::Update,
            may_update(alloc, scenario, topic, at.cluster, entry, by)?,
        ))
    }
}
