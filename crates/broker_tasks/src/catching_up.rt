//! A subscription catches up with a marker: it is acknowledged on the cursor, and a snapshot that it brings enters the cache first, so
//! that the update after the cursor's write may tell of it.
ghost use Rattle.std.specs.Prelude.{◌≡◌, ◌+◌, ◌<◌, ◌^◌, ◌++◌, ◌∷◌, [], length, IfOk, IfSome, OnOk};
ghost use Rattle.geo_base.specs.Cache.{cached};
ghost use Rattle.geo_base.specs.Offering.{skips_marker};
ghost use Rattle.broker_subs.specs.Steps.{SubWriteFits};
ghost use Rattle.broker_subs.specs.Table.{sub_at};
ghost use Rattle.broker_state.specs.Plan.{IsEmptyPlan};
ghost use Rattle.broker_state.specs.Room.{HasRoom};
ghost use Rattle.broker_state.specs.State.{SameState};
ghost use Rattle.broker_plans.specs.Prepared.{CanWrite, IsPrepared, MarkerFits};
ghost use Rattle.broker_plans.specs.Storable.{IsSnapshotOf};
ghost use Rattle.broker_plans.specs.Updates.{update_after};
ghost use Rattle.broker_tasks.specs.Offering.{cache_changes, cached_with, catch_up_changes};

use broker_plans::{begin_write, sub_at, update_after};
use broker_state::{BrokerState, Plan, StateChange, StateWrite};
use broker_subs::{SubChange, SubWrite};
use geo_base::{CachedSnapshot, Memory, Sequence};
use replicated_subs::SnapshotCache;
use std::alloc::Global;

/// The marker at an index is acknowledged by the subscription at a place, to which it brought a snapshot, if it did.
pub(crate) fn catch_up(
    alloc: Global,
    state: &mut BrokerState,
    sub_index: usize,
    index: u64,
    snapshot: Option<CachedSnapshot>,
    plan: &mut Plan,
) -> Result<(), Memory>
    requires can { CanWrite state.old.site state.old.broker }
    requires sub_index { sub_index < length state.old.broker.subs }
    requires index { index < length state.old.broker.entries }
    requires next { index + 1 < 2 ^ 64 }
    requires small { IfSome snapshot (IsSnapshotOf state.old.site) }
    requires empty { IsEmptyPlan plan.old }
    ensures prepared { OnOk result (IsPrepared state.old.site state.old.broker (skips_marker state.old.site state.old.broker (sub_at state.old.broker.subs sub_index) index snapshot) plan.new) }
    ensures room { OnOk result (HasRoom state.new.room plan.new) }
    ensures kept { SameState state.old state.new }
{
    let _site = state.site();
    let _named = sub_at(state, sub_index);
    let indexes = one_index(alloc, index)?;
    let write = SubWrite::Acks(indexes);
    let update = update_with(alloc, state, sub_index, &write, &snapshot)?;
    begin_write(state, sub_index, 0, write, update, plan)?;
    add_changes(plan, index, snapshot)
}

/// One index.
fn one_index(alloc: Global, index: u64) -> Result<Sequence<u64>, Memory>
    ensures { IfOk result (λ is. is ≡ index ∷ []) }
{
    let mut indexes = Sequence::new(alloc);
    indexes.push(index)?;
    Ok(indexes)
}

/// The update that follows a write of the cursor of the subscription at a place, to which a marker brought a snapshot, if it did.
fn update_with(
    alloc: Global,
    state: &BrokerState,
    sub_index: usize,
    write: &SubWrite,
    snapshot: &Option<CachedSnapshot>,
) -> Result<Option<StateWrite>, Memory>
    requires number { MarkerFits state.now.site state.now.broker }
    requires sub_index { sub_index < length state.now.broker.subs }
    requires fits { SubWriteFits state.now.broker.entries (sub_at state.now.broker.subs sub_index) write.now }
    ensures { IfOk result (λ o. o ≡ update_after state.now.site state.now.broker sub_index write.now (cached_with (sub_at state.now.broker.subs sub_index).cache snapshot.now)) }
{
    let cache = sub_at(state, sub_index).cache();
    match snapshot {
        None => update_after(alloc, state, sub_index, write, cache),
        Some(snapshot) => {
            let cache = copy_with(alloc, cache, snapshot)?;
            update_after(alloc, state, sub_index, write, &cache)
        }
    }
}

/// A copy of a cache with one more snapshot.
fn copy_with(
    alloc: Global,
    cache: &SnapshotCache,
    snapshot: &CachedSnapshot,
) -> Result<SnapshotCache, Memory>
    ensures { IfOk result (λ c. c ≡ cached cache.now snapshot.now) }
{
    let mut with = cache.copy(alloc)?;
    with.add(snapshot.index, snapshot.cut.copy(alloc)?);
    Ok(with)
}

/// The changes of an event that catches up with the marker at an index, which brought a snapshot, if it did.
fn add_changes(plan: &mut Plan, index: u64, snapshot: Option<CachedSnapshot>) -> Result<(), Memory>
    ensures { OnOk result (plan.new ≡ record plan.old { changes = plan.old.changes ++ catch_up_changes snapshot index }) }
{
    add_snapshot(plan, snapshot)?;
    plan.change(StateChange::Sub(SubChange::Skipped(index)))?;
    plan.change(StateChange::Sub(SubChange::Acked))
}

/// A snapshot enters the cache, if there is one.
fn add_snapshot(plan: &mut Plan, snapshot: Option<CachedSnapshot>) -> Result<(), Memory>
    ensures { OnOk result (plan.new ≡ record plan.old { changes = plan.old.changes ++ cache_changes snapshot }) }
{
    match snapshot {
        None => Ok(()),
        Some(snapshot) => plan.change(StateChange::Sub(SubChange::Cache(snapshot))),
    }
}
