//! The cache of a subscription.
ghost use Rattle.std.specs.Prelude.{◌≡◌, ◌↔◌, ◌≤◌, ◌<◌, ◌+◌, ◌^◌, [], ◌++◌, nat_lt, if◌then◌else◌, drop, IfOk, IsTrue, OnOk};
ghost use Rattle.std.specs.Option.{option_copied};
ghost use Rattle.std.specs.VecDeque.{deque_capacity, deque_len};
ghost use Rattle.geo_base.specs.Cache.{cached, last_passed, not_passed};
ghost use Rattle.replicated_subs.specs.Counting.{cut_of_last, passed_count};

use geo_base::{CachedSnapshot, Cut, Memory};
use std::alloc::Global;
use std::collections::VecDeque;
use std::marker::Model;

/// How many snapshots are kept (Pulsar's default for `replicatedSubscriptionsSnapshotMaxCachedPerSubscription`).
pub const MOST_SNAPSHOTS: usize = 10;

/// Snapshots, oldest first, at most ten, each with the index of its local position. Contracts see their list.
#[derive(Drop)]
pub struct SnapshotCache {
    items: VecDeque<CachedSnapshot>,
}

impl Model for SnapshotCache {
    ghost use Rattle.std.specs.Prelude.{List};
    ghost use Rattle.std.specs.VecDeque.{deque_len, deque_capacity};
    ghost use Rattle.geo_base.specs.declared.snapshot.CachedSnapshot.{CachedSnapshot};
    ghost use Rattle.replicated_subs.specs.Counting.{CacheHolds};

    ghost Value = { List CachedSnapshot };

    ghost view = { λ c. c.items.items };

    ghost invariant = { λ c. CacheHolds (deque_len c.items) (deque_capacity c.items) };
}

impl SnapshotCache {
    /// No snapshot, and room for ten. This and `copy` are the calls that take memory.
    pub fn new(alloc: Global) -> Result<SnapshotCache, Memory>
        ensures { IfOk result (λ c. c ≡ []) }
    {
        Ok(SnapshotCache {
            items: VecDeque::with_capacity(alloc, MOST_SNAPSHOTS)?,
        })
    }

    /// One more snapshot, whose local position has this index; an eleventh pushes out the oldest.
    pub fn add(&mut self, local: u64, cut: Cut)
        ensures { self.new ≡ cached self.old (record { index = local; cut = cut }) }
    {
        if self.items.len() == MOST_SNAPSHOTS {
            self.items.pop_front();
        }
        self.items
            .push_back_reserved(CachedSnapshot { index: local, cut });
    }

    /// The last snapshot whose local index is below a mark-delete is taken out with all before it, and its cut is answered;
    /// `None`, with no change, exactly where there is none.
    pub fn advance(&mut self, mark: u64) -> Option<Cut>
        ensures passed { result ≡ last_passed mark self.old }
        ensures left { self.new ≡ not_passed mark self.old }
    {
        let count = passed_count(&self.items, mark);
        take_front(&mut self.items, count)
    }

    /// The cut that `advance` would answer.
    pub fn passed(&self, mark: u64) -> Option<&Cut>
        ensures { option_copied result ≡ last_passed mark self.now }
    {
        let count = passed_count(&self.items, mark);
        if count == 0 {
            return None;
        }
        Some(&self.items[count - 1].cut)
    }

    /// Whether no snapshot is kept.
    pub fn is_empty(&self) -> bool
        ensures { IsTrue result ↔ (self.now ≡ []) }
    {
        self.items.is_empty()
    }

    /// No snapshot is kept: what a seek and a restart leave.
    pub fn clear(&mut self)
        ensures { self.new ≡ [] }
    {
        self.items.clear();
    }

    /// A cache with equal snapshots.
    pub fn copy(&self, alloc: Global) -> Result<SnapshotCache, Memory>
        ensures { IfOk result (λ c. c ≡ self.now) }
    {
        let mut items = VecDeque::with_capacity(alloc, MOST_SNAPSHOTS)?;
        copy_all(alloc, &self.items, &mut items)?;
        Ok(SnapshotCache { items })
    }
}

/// How many snapshots stand up to the last one whose local index is below a mark-delete, itself included.
fn passed_count(items: &VecDeque<CachedSnapshot>, mark: u64) -> usize
    ensures count { result ≡ passed_count mark items.now.items }
    ensures within { result ≤ deque_len items.now }
{
    let mut count = 0;
    for place in 0..items.len() {
        count = counted(&items[place], mark, place, count);
    }
    count
}

/// The count once the snapshot at a place is looked at too.
fn counted(snapshot: &CachedSnapshot, mark: u64, place: usize, count: usize) -> usize
    requires { place + 1 < 2 ^ 64 }
    ensures { result ≡ (if nat_lt snapshot.now.index mark then place + 1 else count) }
{
    if snapshot.index < mark {
        place + 1
    } else {
        count
    }
}

/// The first so many snapshots are taken out; answers the cut of the last of them.
fn take_front(items: &mut VecDeque<CachedSnapshot>, count: usize) -> Option<Cut>
    requires { count ≤ deque_len items.old }
    ensures last { result ≡ cut_of_last count items.old.items }
    ensures left { items.new.items ≡ drop count items.old.items }
    ensures len { deque_len items.new ≤ deque_len items.old }
    ensures capacity { deque_capacity items.new ≡ deque_capacity items.old }
{
    let mut last = None;
    for _place in 0..count {
        last = items.pop_front();
    }
    match last {
        Some(snapshot) => Some(snapshot.cut),
        None => None,
    }
}

/// Puts copies of snapshots behind others, in room that is there.
fn copy_all(
    alloc: Global,
    items: &VecDeque<CachedSnapshot>,
    copies: &mut VecDeque<CachedSnapshot>,
) -> Result<(), Memory>
    requires { deque_len copies.old + deque_len items.now ≤ deque_capacity copies.old }
    ensures items { OnOk result (copies.new.items ≡ copies.old.items ++ items.now.items) }
    ensures len { OnOk result (deque_len copies.new ≡ deque_len copies.old + deque_len items.now) }
    ensures capacity { deque_capacity copies.new ≡ deque_capacity copies.old }
{
    for place in 0..items.len() {
        let snapshot = &items[place];
        let copy = CachedSnapshot {
            index: snapshot.index,
            cut: snapshot.cut.copy(alloc)?,
        };
        copies.push_back_reserved(copy);
    }
    Ok(())
}
