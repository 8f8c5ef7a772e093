//! The snapshots of a topic by what tells them apart.
ghost use Rattle.std.specs.Prelude.{◌≡◌, ◌++◌, ◌∷◌, ◌<◌, ◌+◌, ◌^◌, [], List, length, IfOk, MatchOption, OnErr, OnOk};
ghost use Rattle.geo_base.specs.Position.{position_lt};
ghost use Rattle.geo_base.specs.declared.entry.Entry.{Entry};
ghost use Rattle.geo_base.specs.Traced.{snapshot_position};
ghost use Rattle.trace_runs.specs.SnapshotTables.{IsNoted, Tells, TellsBeginning, least_at, no_snapshots};
ghost use Rattle.trace_runs.specs.Told.{IsNoSnapshot, IsNoUpdate, IsSnapshot, IsUpdate, lesser, told_by};

use crate::snapshot_key::SnapshotKey;
use geo_base::{ClusterPosition, Content, Entry, EntryStore, Marker, Memory, Position};
use indexmap::IndexMap;
use std::alloc::Global;
use std::marker::Model;
use topic_store::or_first;

/// A snapshot by its local position and its index in the topic.
#[derive(Drop)]
pub(crate) struct SnapshotAt {
    local: Position,
    index: usize,
}

impl Model for SnapshotAt {
    ghost use Rattle.geo_base.specs.Traced.{SnapshotAt};

    ghost Value = { SnapshotAt };

    ghost view = { λ s. record { local = s.local; index = s.index } };
}

/// Of the snapshot markers among the first `seen` entries of a topic, for each key the one with the least local position, and the first
/// of these. So an update's snapshot is told by one look-up, and each entry is seen once, however many updates there are.
#[derive(Drop)]
pub(crate) struct SnapshotTable {
    least: IndexMap<SnapshotKey, SnapshotAt>,
    seen: usize,
}

impl Model for SnapshotTable {
    ghost use Rattle.trace_runs.specs.SnapshotTables.{Snapshots};

    ghost Value = { Snapshots };

    ghost view = { λ t. record { rows = t.least.entries; seen = t.seen } };
}

impl SnapshotTable {
    /// That of a topic of which no entry was seen; takes no memory.
    pub(crate) fn new(alloc: Global) -> SnapshotTable
        ensures { result ≡ no_snapshots }
    {
        SnapshotTable {
            least: IndexMap::new(alloc),
            seen: 0,
        }
    }

    /// Of an update of a cluster, one of so many, which is stored after these entries of its own topic, the position of the snapshot that
    /// it tells: of that cluster's snapshot markers with the same positions of other clusters the one with the least local position, and the
    /// first of these. None of any other entry. The entries that were not seen yet are seen before.
    #[tactic(auto, using(crate::proofs::Tables::told_not, crate::proofs::Tables::told_found))]
    pub(crate) fn told<S: EntryStore>(
        &mut self,
        alloc: Global,
        clusters: u32,
        store: &S,
        entry: &Entry,
    ) -> Result<Option<Position>, Memory>
        requires known { TellsBeginning clusters self.old (S.entries store.now) }
        ensures told { IfOk result (λ by. by ≡ told_by entry.now.ident.origin clusters (S.ledgers store.now) (S.entries store.now) entry.now entry.now.content) }
        ensures known { TellsBeginning clusters self.new (S.entries store.now) }
    {
        match update_in(entry) {
            None => Ok(None),
            Some(remote) => {
                self.catch_up(alloc, clusters, store)?;
                let key = SnapshotKey::of(alloc, entry.ident.origin, clusters, remote)?;
                Ok(position_of(store, self.least_at(&key)))
            }
        }
    }

    /// Sees the entries that were not seen yet.
    fn catch_up<S: EntryStore>(
        &mut self,
        alloc: Global,
        clusters: u32,
        store: &S,
    ) -> Result<(), Memory>
        requires known { TellsBeginning clusters self.old (S.entries store.now) }
        ensures all { OnOk result (self.new.seen ≡ length (S.entries store.now)) }
        ensures known { TellsBeginning clusters self.new (S.entries store.now) }
    {
        for index in self.seen..store.len() {
            self.see_at(alloc, clusters, store, index)?;
        }
        Ok(())
    }

    /// Sees the entry at an index, which is the next one.
    fn see_at<S: EntryStore>(
        &mut self,
        alloc: Global,
        clusters: u32,
        store: &S,
        index: usize,
    ) -> Result<(), Memory>
        requires next { index ≡ self.old.seen }
        requires within { index < length (S.entries store.now) }
        requires fits { index + 1 < 2 ^ 64 }
        requires known { TellsBeginning clusters self.old (S.entries store.now) }
        ensures seen { OnOk result (self.new.seen ≡ index + 1) }
        ensures known { TellsBeginning clusters self.new (S.entries store.now) }
    {
        match store.get(index) {
            Some(entry) => self.see(alloc, clusters, entry, index)?,
            None => unreachable!(),
        }
        self.seen = index + 1;
        Ok(())
    }

    /// Sees an entry, which is the next one, at its index; unchanged where memory is wanting.
    #[tactic(auto, using(crate::proofs::Tables::nothing_more, crate::proofs::Tables::one_more))]
    fn see(
        &mut self,
        alloc: Global,
        clusters: u32,
        entry: &Entry,
        index: usize,
    ) -> Result<(), Memory>
        ensures tells { OnOk result ((es : List Entry) → length es ≡ index → Tells clusters self.old.rows es → Tells clusters self.new.rows (es ++ entry.now ∷ [])) }
        ensures seen { self.new.seen ≡ self.old.seen }
        ensures err { OnErr result (self.new ≡ self.old) }
    {
        match snapshot_in(entry) {
            None => Ok(()),
            Some((local, remote)) => {
                let key = SnapshotKey::of(alloc, entry.ident.origin, clusters, remote)?;
                self.note(key, SnapshotAt { local, index })
            }
        }
    }

    /// Notes a snapshot, unless its key has a lesser one; unchanged where memory is wanting.
    fn note(&mut self, key: SnapshotKey, snapshot: SnapshotAt) -> Result<(), Memory>
        ensures rows { OnOk result (IsNoted self.old.rows self.new.rows key snapshot) }
        ensures seen { self.new.seen ≡ self.old.seen }
        ensures err { OnErr result (self.new ≡ self.old) }
    {
        let least = lesser(self.least_at(&key), snapshot);
        self.least.insert(key, least)?;
        Ok(())
    }

    /// The snapshot of a key.
    fn least_at(&self, key: &SnapshotKey) -> Option<SnapshotAt>
        ensures { result ≡ least_at self.now.rows key.now }
    {
        let least = self.least.get(key)?;
        Some(SnapshotAt {
            local: least.local,
            index: least.index,
        })
    }
}

/// The positions of other clusters that an update names; None of any other entry.
fn update_in(entry: &Entry) -> Option<&[ClusterPosition]>
    ensures { MatchOption result (IsNoUpdate entry.entry.now.content) (λ named. IsUpdate entry.entry.now.content named.now) }
{
    match &entry.content {
        Content::Marked(marker) => match marker.get() {
            Marker::Update { remote, .. } => Some(remote.as_slice()),
            Marker::Request { .. } | Marker::Response { .. } | Marker::Snapshot { .. } => None,
        },
        Content::Data | Content::Unread(_) => None,
    }
}

/// The local position and the positions of other clusters that a snapshot names; None of any other entry.
fn snapshot_in(entry: &Entry) -> Option<(Position, &[ClusterPosition])>
    ensures { MatchOption result (IsNoSnapshot entry.entry.now.content) (λ f. IsSnapshot entry.entry.now.content f.0 f.1.now) }
{
    match &entry.content {
        Content::Marked(marker) => match marker.get() {
            Marker::Snapshot { local, remote, .. } => Some((*local, remote.as_slice())),
            Marker::Request { .. } | Marker::Response { .. } | Marker::Update { .. } => None,
        },
        Content::Data | Content::Unread(_) => None,
    }
}

/// The position of a snapshot in its topic, where there is one.
fn position_of<S: EntryStore>(store: &S, snapshot: Option<SnapshotAt>) -> Option<Position>
    ensures { result ≡ snapshot_position (S.ledgers store.now) snapshot }
{
    match snapshot {
        None => None,
        Some(snapshot) => Some(or_first(store.position_of(snapshot.index))),
    }
}

/// Of two snapshots the one with the lesser local position, and the first one where they have the same.
fn lesser(least: Option<SnapshotAt>, snapshot: SnapshotAt) -> SnapshotAt
    ensures { result ≡ lesser least snapshot }
{
    match least {
        Some(least) if !is_less(snapshot.local, least.local) => least,
        _ => snapshot,
    }
}

fn is_less(position: Position, other: Position) -> bool
    ensures { result ≡ position_lt position other }
{
    position.ledger < other.ledger
        || (position.ledger == other.ledger && position.entry < other.entry)
}
