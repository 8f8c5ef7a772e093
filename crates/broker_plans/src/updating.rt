//! The update that may follow a write of a subscription's cursor (PIP-33).
ghost use Rattle.std.specs.Prelude.{◌≡◌, ◌+◌, ◌<◌, ◌≤◌, true, is_some, length, IfOk, IfSome, OnErr, OnOk, []};
ghost use Rattle.std.specs.List.{All};
ghost use Rattle.geo_base.specs.Cursor.{below, mark, with_indexes};
ghost use Rattle.geo_base.specs.Updating.{updated_indexes};
ghost use Rattle.broker_subs.specs.Steps.{SubWriteFits, acks_needed, sub_written};
ghost use Rattle.broker_subs.specs.Table.{room_at, sub_at};
ghost use Rattle.broker_state.specs.State.{SameState};
ghost use Rattle.broker_state.specs.Plan.{IsEmptyPlan, quiet_view};
ghost use Rattle.broker_state.specs.Room.{WritesHaveRoom};
ghost use Rattle.broker_plans.specs.Prepared.{MarkerFits};
ghost use Rattle.broker_plans.specs.Updates.{IsAppend, cursor_writes, update_after, update_at};

use crate::finding::sub_at;
use crate::marking::{appending, own_marker};
use broker_state::{BrokerState, Plan, StateWrite};
use broker_subs::{Sub, SubWrite};
use cursor_acks::Cursor;
use geo_base::{EntryStore, Memory, Sequence, SubName, Targets};
use replicated_subs::SnapshotCache;
use std::alloc::Global;

/// The update that follows a write of the cursor of the subscription at a place, which has these snapshots then. The cursor is
/// copied, to see how far it comes, only where there is a snapshot that it may pass.
pub fn update_after(
    alloc: Global,
    state: &BrokerState,
    sub_index: usize,
    write: &SubWrite,
    cache: &SnapshotCache,
) -> Result<Option<StateWrite>, Memory>
    requires number { MarkerFits state.now.site state.now.broker }
    requires sub_index { sub_index < length state.now.broker.subs }
    requires fits { SubWriteFits state.now.broker.entries (sub_at state.now.broker.subs sub_index) write.now }
    ensures { IfOk result (λ o. o ≡ update_after state.now.site state.now.broker sub_index write.now cache.now) }
{
    let sub = sub_at(state, sub_index);
    if !sub.is_replicated() || cache.is_empty() {
        return Ok(None);
    }
    let mark = mark_after(alloc, sub, write, state.store())?;
    update_at(alloc, state, sub.name(), mark, cache)
}

/// An event that begins with a write of the cursor of the subscription at a place and the update that follows it, with room for
/// them, and for so many consumers that join or indexes that are given there. Where memory is wanting, the plan has no change and no packet.
#[tactic(auto, using(crate::proofs::Updates::cursor_room))]
pub fn begin_write(
    state: &mut BrokerState,
    sub_index: usize,
    room: usize,
    write: SubWrite,
    update: Option<StateWrite>,
    plan: &mut Plan,
) -> Result<(), Memory>
    requires sub_index { sub_index < length state.old.broker.subs }
    requires update { IfSome update IsAppend }
    requires empty { IsEmptyPlan plan.old }
    ensures prepared { OnOk result (plan.new ≡ record (quiet_view sub_index) { writes = cursor_writes write update }) }
    ensures kept { SameState state.old state.new }
    ensures writes { OnOk result (WritesHaveRoom state.new.room sub_index (cursor_writes write update)) }
    ensures given { OnOk result ((room_at state.new.room.subs sub_index).room ≡ room) }
    ensures replicators { state.new.room.replicators ≡ state.old.room.replicators }
    ensures err { OnErr result ((plan.new.changes ≡ []) × (plan.new.sent ≡ [])) }
{
    let acks = acks_needed(&write);
    let entries = entries_needed(&update);
    match reserve(state, sub_index, room, acks, entries) {
        Ok(()) => {}
        Err(memory) => {
            drop(write);
            drop(update);
            return Err(memory);
        }
    }
    plan.begin(sub_index);
    match plan.write(StateWrite::Sub(write)) {
        Ok(()) => {}
        Err(memory) => {
            drop(update);
            return Err(memory);
        }
    }
    match update {
        None => Ok(()),
        Some(update) => plan.write(update),
    }
}

/// Makes room at the subscription at a place, and for so many entries.
fn reserve(
    state: &mut BrokerState,
    sub_index: usize,
    room: usize,
    acks: usize,
    entries: usize,
) -> Result<(), Memory>
    requires sub_index { sub_index < length state.old.broker.subs }
    ensures kept { SameState state.old state.new }
    ensures given { OnOk result ((room_at state.new.room.subs sub_index).room ≡ room) }
    ensures acks { OnOk result (acks ≤ (room_at state.new.room.subs sub_index).acks) }
    ensures entries { OnOk result (entries ≤ state.new.room.entries) }
    ensures streams { OnOk result (entries ≤ state.new.room.streams) }
    ensures replicators { state.new.room.replicators ≡ state.old.room.replicators }
{
    state.reserve_sub(sub_index, room, acks)?;
    state.reserve_entries(entries)
}

/// For how many entries an update needs room.
fn entries_needed(update: &Option<StateWrite>) -> usize
    ensures { is_some update.now ≡ true → 1 ≤ result }
{
    if update.is_some() { 1 } else { 0 }
}

/// For how many acknowledged indexes a write needs room.
fn acks_needed(write: &SubWrite) -> usize
    ensures { result ≡ acks_needed write.now }
{
    match write {
        SubWrite::Acks(indexes) => indexes.len(),
        SubWrite::AckTo(_) | SubWrite::Seek(_) => 1,
        SubWrite::UpdateTo { runs, .. } => *runs,
        SubWrite::Alter { .. } => 0,
    }
}

/// The write of the update that tells the other clusters of a replicated subscription whose mark-delete has come so far, if it
/// passes one of these snapshots.
fn update_at(
    alloc: Global,
    state: &BrokerState,
    name: &SubName,
    mark: u64,
    cache: &SnapshotCache,
) -> Result<Option<StateWrite>, Memory>
    requires number { MarkerFits state.now.site state.now.broker }
    ensures { IfOk result (λ o. o ≡ update_at state.now.site state.now.broker name.now true mark cache.now) }
{
    match cache.passed(mark) {
        None => Ok(None),
        Some(cut) => {
            let marker = replicated_subs::make(alloc, name, cut)?;
            let names = Sequence::new(alloc);
            let entry = own_marker(alloc, state, marker, Targets::All, names)?;
            Ok(Some(appending(alloc, entry)?))
        }
    }
}

/// The mark-delete of a subscription's cursor after a write, which is not done yet.
fn mark_after<S: EntryStore>(
    alloc: Global,
    sub: &Sub,
    write: &SubWrite,
    store: &S,
) -> Result<u64, Memory>
    requires { SubWriteFits (S.entries store.now) sub.now.sub write.now }
    ensures { IfOk result (λ m. m ≡ mark (sub_written (S.entries store.now) write.now sub.now.sub).cursor) }
{
    match write {
        SubWrite::Acks(indexes) => mark_with_each(alloc, sub.cursor(), indexes.as_slice(), store),
        SubWrite::AckTo(index) => mark_with_all_to(alloc, sub.cursor(), *index, store),
        SubWrite::UpdateTo { index, from, .. } => {
            mark_with_passed(alloc, sub.cursor(), *index, *from, store)
        }
        SubWrite::Seek(index) => Ok(Cursor::all(alloc, *index)?.mark_delete()),
        SubWrite::Alter { .. } => Ok(sub.cursor().mark_delete()),
    }
}

/// With some indexes acknowledged.
fn mark_with_each<S: EntryStore>(
    alloc: Global,
    cursor: &Cursor,
    indexes: &[u64],
    store: &S,
) -> Result<u64, Memory>
    requires { All (λ i. i < length (S.entries store.now)) indexes.now }
    ensures { IfOk result (λ m. m ≡ mark (with_indexes cursor.now.indexes indexes.now)) }
{
    let mut with = cursor.copy(alloc)?;
    for index in indexes {
        with.reserve(1)?;
        match with.ack_one(*index, store.len() as u64) {
            Ok(()) => {}
            Err(_) => unreachable!(),
        }
    }
    Ok(with.mark_delete())
}

/// With all indexes up to one acknowledged.
fn mark_with_all_to<S: EntryStore>(
    alloc: Global,
    cursor: &Cursor,
    index: u64,
    store: &S,
) -> Result<u64, Memory>
    requires { index < length (S.entries store.now) }
    ensures { IfOk result (λ m. m ≡ mark (with_indexes cursor.now.indexes (below (index + 1)))) }
{
    let mut with = cursor.copy(alloc)?;
    with.reserve(1)?;
    match with.ack_to(index, store.len() as u64) {
        Ok(()) => Ok(with.mark_delete()),
        Err(_) => unreachable!(),
    }
}

/// With what an update of a cluster passes over acknowledged.
fn mark_with_passed<S: EntryStore>(
    alloc: Global,
    cursor: &Cursor,
    index: u64,
    from: u32,
    store: &S,
) -> Result<u64, Memory>
    requires { index < length (S.entries store.now) }
    ensures { IfOk result (λ m. m ≡ mark (with_indexes cursor.now.indexes (updated_indexes from 0 (index + 1) (S.entries store.now)))) }
{
    let mut with = cursor.copy(alloc)?;
    with.reserve(replicated_subs::runs(&with, store, index, from))?;
    match replicated_subs::apply(&mut with, store, index, from) {
        Ok(()) => Ok(with.mark_delete()),
        Err(_) => unreachable!(),
    }
}
