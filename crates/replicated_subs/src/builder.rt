//! The builder of a snapshot.
ghost use Rattle.std.specs.Prelude.{◌≡◌, ◌<◌, ◌≤◌, Some, None, true, replicate, if◌then◌else◌, IfOk};
ghost use Rattle.std.specs.Option.{option_copied};
ghost use Rattle.geo_base.specs.SnapshotBuilder.{counts, current_id, on_response, second_id, started};
ghost use Rattle.geo_base.specs.Cursor.{has};

use geo_base::{Cut, Memory, Position, Progress, Sequence, Text};
use std::alloc::Global;
use std::marker::Model;

/// What a second round's id has after that of the first (own: a repeated answer of round one cannot pass for one of round two).
const SECOND_ROUND: &str = "/2";

/// A snapshot that is being made: a request goes to all other clusters, once where there is one of them and in two rounds
/// where there are more, and each answer names a position (PIP-33). Contracts see the written machine's builder.
///
/// Both ids are made at the start, and `heard`, the clusters that answered in this round, the latest first, has room for all
/// of them: no answer takes memory.
#[derive(Drop)]
pub struct SnapshotBuilder {
    id: Text,
    second_id: Text,
    own: u32,
    clusters: u32,
    second: bool,
    heard: Vec<u32>,
    cut: Cut,
    finished: bool,
}

impl Model for SnapshotBuilder {
    ghost use Rattle.std.specs.Prelude.{vec_len, vec_capacity};
    ghost use Rattle.geo_base.specs.declared.snapshot.SnapshotBuilder.{SnapshotBuilder};
    ghost use Rattle.replicated_subs.specs.Held.{BuilderHolds};

    ghost Value = { SnapshotBuilder };

    ghost view = { λ b. record { id = b.id; own = b.own; clusters = b.clusters; second = b.second; heard = b.heard.items; cut = b.cut; finished = b.finished } };

    ghost invariant = { λ b. BuilderHolds b.id b.second_id b.clusters (vec_len b.heard) (vec_capacity b.heard) b.cut b.finished };
}

impl SnapshotBuilder {
    /// A builder of the cluster `own`, one of so many, in round one with nothing heard; `id` names the snapshot. This and `copy`
    /// are the calls that take memory.
    pub fn start(
        alloc: Global,
        id: &str,
        own: u32,
        clusters: u32,
    ) -> Result<SnapshotBuilder, Memory>
        requires own { own < clusters }
        requires remotes { 2 ≤ clusters }
        ensures { IfOk result (λ b. b ≡ started id.now own clusters) }
    {
        Ok(SnapshotBuilder {
            id: Text::from_str(alloc, id)?,
            second_id: second_round_id(alloc, id)?,
            own,
            clusters,
            second: false,
            heard: Vec::with_capacity(alloc, clusters as usize)?,
            cut: empty_cut(alloc, clusters as usize)?,
            finished: false,
        })
    }

    /// The answer of a cluster: it named its position `remote`, and its response stands at `local` here. Ignored, with no change,
    /// exactly where the snapshot is made, the id is not the current one, the cluster is none of the others, or it was heard in
    /// this round; else Kept, until all were heard.
    pub fn on_response(
        &mut self,
        id: &str,
        cluster: u32,
        remote: Position,
        local: Position,
    ) -> Progress
        ensures heard { record { progress = result; builder = self.new } ≡ on_response self.old id.now cluster remote local }
        ensures made { result ≡ Progress.Done → self.new.finished ≡ true }
    {
        if !self.counts(id, cluster) {
            return Progress::Ignored;
        }
        match self.heard.insert(0, cluster) {
            Ok(()) => {}
            Err(_) => unreachable!(),
        }
        self.cut.local = self.cut.local.later(local);
        if !self.second {
            self.cut.remote.set(cluster as usize, Some(remote));
        }
        if self.heard.len() + 1 < self.clusters as usize {
            return Progress::Kept;
        }
        if self.second || self.clusters == 2 {
            self.finished = true;
            return Progress::Done;
        }
        self.second = true;
        self.heard.clear();
        Progress::SecondRound
    }

    /// What the snapshot stands for; `Some` exactly once it is made.
    pub fn cut(&self) -> Option<&Cut>
        ensures { option_copied result ≡ (if self.now.finished then Some self.now.cut else None) }
    {
        if self.finished { Some(&self.cut) } else { None }
    }

    /// The id that an answer of this round has.
    pub fn current_id(&self) -> &str
        ensures { result.now ≡ current_id self.now }
    {
        if self.second {
            self.second_id.as_str()
        } else {
            self.id.as_str()
        }
    }

    /// The id of round one, which names the snapshot.
    pub fn id(&self) -> &str
        ensures { result.now ≡ self.now.id }
    {
        self.id.as_str()
    }

    /// An equal builder, on which a response can be tried.
    pub fn copy(&self, alloc: Global) -> Result<SnapshotBuilder, Memory>
        ensures { IfOk result (λ b. b ≡ self.now) }
    {
        let mut heard = self.heard.to_vec(alloc)?;
        heard.reserve(self.clusters as usize)?;
        Ok(SnapshotBuilder {
            id: self.id.copy(alloc)?,
            second_id: self.second_id.copy(alloc)?,
            own: self.own,
            clusters: self.clusters,
            second: self.second,
            heard,
            cut: self.cut.copy(alloc)?,
            finished: self.finished,
        })
    }

    /// Whether a response counts.
    fn counts(&self, id: &str, cluster: u32) -> bool
        ensures { result ≡ counts self.now id.now cluster }
    {
        !self.finished
            && id.as_bytes() == self.current_id().as_bytes()
            && cluster != self.own
            && cluster < self.clusters
            && !was_heard(self.heard.as_slice(), cluster)
    }
}

/// Whether a cluster is among those that answered.
fn was_heard(heard: &[u32], cluster: u32) -> bool
    ensures { result ≡ has heard.now cluster }
{
    for other in heard {
        if *other == cluster {
            return true;
        }
    }
    false
}

/// The id of round two.
fn second_round_id(alloc: Global, id: &str) -> Result<Text, Memory>
    ensures { IfOk result (λ text. text ≡ second_id id.now) }
{
    let mut text = String::from_str(alloc, id)?;
    text.push_str(SECOND_ROUND)?;
    Ok(Text::from_string(text))
}

/// A cut among so many clusters that names no position yet.
fn empty_cut(alloc: Global, clusters: usize) -> Result<Cut, Memory>
    ensures { IfOk result (λ c. c ≡ record { local = record { ledger = 0; entry = 0 }; remote = replicate clusters None }) }
{
    let mut remote = Sequence::new(alloc);
    for _cluster in 0..clusters {
        remote.push(None)?;
    }
    Ok(Cut {
        local: Position {
            ledger: 0,
            entry: 0,
        },
        remote,
    })
}
