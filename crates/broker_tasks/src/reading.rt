//! Read: the replicator to another cluster says what it does with the next entry that its cursor lacks. What the own cluster stored first
//! and is to go there is sent, a marker of the other cluster is acted on, and all else is skipped: a replicated message is never
//! replicated again (geo-replication manual).
ghost use Rattle.std.specs.Prelude.{◌≡◌, ◌≤◌, ◌<◌, [], true, length, slice_get, IfOk, OnOk};
ghost use Rattle.geo_base.specs.Broker.{replicator_at};
ghost use Rattle.geo_base.specs.Forwarding.{is_remote};
ghost use Rattle.geo_base.specs.Reading.{forwards, read};
ghost use Rattle.replicator.specs.declared.reading.ReadOut.TheVariants as reads;
ghost use Rattle.replicator.specs.Events.{plan_of_read};
ghost use Rattle.replicator.specs.Reading.{IsMarkerOf};
ghost use Rattle.broker_state.specs.Plan.{IsEmptyPlan};
ghost use Rattle.broker_state.specs.Room.{HasRoom};
ghost use Rattle.broker_state.specs.State.{SameState};
ghost use Rattle.broker_plans.specs.Prepared.{CanWrite, IsPrepared};
ghost use Rattle.broker_plans.specs.Storable.{IsStorable};
ghost use Rattle.broker_tasks.specs.Reading.{HasMarker, IsRead, IsReadOut, IsReading, ReadRoom};

use crate::act::{ReadAct, ReadAt, entry_at, skip};
use crate::hearing::read_marker;
use crate::updating::acknowledge;
use broker_plans::send_text;
use broker_state::{BrokerState, Plan, StateChange};
use geo_base::{Content, Entry, EntryStore, Marker, Memory, Peer, WireOut};
use replicator::ReadOut;
use std::alloc::Global;

/// What the next read of the replicator to a cluster will do; it is not enabled where there is nothing to read, and where the cluster is
/// none of the others. Only room is made; an `Err` is want of memory.
#[tactic(auto, using(crate::proofs::Entries::nothing_read, crate::proofs::Entries::read_prepared, crate::proofs::Plans::idle_room))]
pub fn prepare_read(
    alloc: Global,
    state: &mut BrokerState,
    remote: u32,
    plan: &mut Plan,
) -> Result<(), Memory>
    requires can { CanWrite state.old.site state.old.broker }
    requires empty { IsEmptyPlan plan.old }
    ensures prepared { OnOk result (IsPrepared state.old.site state.old.broker (read state.old.site state.old.broker remote) plan.new) }
    ensures room { OnOk result (HasRoom state.new.room plan.new) }
    ensures kept { SameState state.old state.new }
{
    if !state.site().is_remote(remote) {
        return Ok(());
    }
    match next_read(state, remote) {
        ReadOut::Idle => Ok(()),
        ReadOut::Skip(index) => skip_entry(state, ReadAt { remote, index }, plan),
        ReadOut::Mark(index) => act_on_marker(alloc, state, ReadAt { remote, index }, plan),
        ReadOut::Send(index, number) => {
            send_entry(alloc, state, ReadAt { remote, index }, number, plan)
        }
    }
}

/// What the replicator to another cluster reads next.
#[tactic(auto, using(crate::proofs::Entries::as_read, crate::proofs::Entries::fits))]
fn next_read(state: &BrokerState, remote: u32) -> ReadOut
    requires other { is_remote state.now.site remote ≡ true }
    requires replicator { remote < length state.now.broker.replicators }
    ensures read { read state.now.site state.now.broker remote ≡ plan_of_read state.now.site state.now.broker remote result }
    ensures fits { IsReadOut state.now.site state.now.broker remote result }
{
    let row = state.replicator(remote);
    row.replicator().next_read(state.store(), row.cursor())
}

/// The entry at an index is skipped.
fn skip_entry(state: &mut BrokerState, at: ReadAt, plan: &mut Plan) -> Result<(), Memory>
    requires reading { IsReading state.old.site state.old.broker at.remote at.index }
    requires empty { IsEmptyPlan plan.old }
    ensures prepared { OnOk result (IsPrepared state.old.site state.old.broker (plan_of_read state.old.site state.old.broker at.remote (reads.Skip at.index)) plan.new) }
    ensures room { OnOk result (HasRoom state.new.room plan.new) }
    ensures kept { SameState state.old state.new }
{
    state.reserve_replicators(1)?;
    skip(state, at, plan)
}

/// The marker of the other cluster at an index is acted on.
#[tactic(auto, using(crate::proofs::Entries::ready_from, crate::proofs::Entries::ready_room, crate::proofs::Entries::acknowledges_from, crate::proofs::Entries::acknowledges_empty, crate::proofs::Entries::acknowledges_within))]
fn act_on_marker(
    alloc: Global,
    state: &mut BrokerState,
    at: ReadAt,
    plan: &mut Plan,
) -> Result<(), Memory>
    requires can { CanWrite state.old.site state.old.broker }
    requires reading { IsReading state.old.site state.old.broker at.remote at.index }
    requires marker { IsMarkerOf at.remote (slice_get state.old.broker.entries at.index) }
    requires empty { IsEmptyPlan plan.old }
    ensures prepared { OnOk result (IsPrepared state.old.site state.old.broker (plan_of_read state.old.site state.old.broker at.remote (reads.Mark at.index)) plan.new) }
    ensures room { OnOk result (HasRoom state.new.room plan.new) }
    ensures kept { SameState state.old state.new }
{
    state.reserve_replicators(1)?;
    state.reserve_entries(1)?;
    match look(alloc, state, at, plan)? {
        ReadAct::Ready => Ok(()),
        ReadAct::Acknowledges { sub, to } => acknowledge(alloc, state, at, sub, to, plan),
    }
}

/// What is to be done with the marker of the other cluster at an index, whose text is no longer than an entry.
#[tactic(auto, using(crate::proofs::Entries::looked_at, crate::proofs::Entries::short_marker))]
fn look(alloc: Global, state: &BrokerState, at: ReadAt, plan: &mut Plan) -> Result<ReadAct, Memory>
    requires can { CanWrite state.now.site state.now.broker }
    requires reading { IsReading state.now.site state.now.broker at.remote at.index }
    requires marker { IsMarkerOf at.remote (slice_get state.now.broker.entries at.index) }
    requires room { ReadRoom state.now.room }
    requires empty { IsEmptyPlan plan.old }
    ensures { IfOk result (λ a. IsRead state.now.site state.now.broker state.now.room at.remote at.index (plan_of_read state.now.site state.now.broker at.remote (reads.Mark at.index)) a plan.new) }
{
    let act = read_marker(alloc, state, at, marker_at(state, at), plan)?;
    Ok(act)
}

/// The marker of the other cluster at an index.
#[tactic(auto, using(crate::proofs::Entries::no_entry, crate::proofs::Entries::no_message, crate::proofs::Entries::no_unread, crate::proofs::Entries::marker_there))]
fn marker_at(state: &BrokerState, at: ReadAt) -> &Marker
    requires { IsMarkerOf at.remote (slice_get state.now.broker.entries at.index) }
    ensures { HasMarker (slice_get state.now.broker.entries at.index) result.now }
{
    let Some(entry) = state.store().get(at.index as usize) else {
        unreachable!();
    };
    match &entry.content {
        Content::Marked(marker) => marker.get(),
        Content::Data | Content::Unread(_) => unreachable!(),
    }
}

/// The entry at an index is sent under a number of the session.
#[tactic(auto, using(broker_plans::proofs::Packets::stored_at, crate::proofs::Entries::sent_from))]
fn send_entry(
    alloc: Global,
    state: &mut BrokerState,
    at: ReadAt,
    number: u64,
    plan: &mut Plan,
) -> Result<(), Memory>
    requires can { CanWrite state.old.site state.old.broker }
    requires reading { IsReading state.old.site state.old.broker at.remote at.index }
    requires within { at.index < length state.old.broker.entries }
    requires number { number ≡ (replicator_at state.old.broker at.remote).next }
    requires empty { IsEmptyPlan plan.old }
    ensures prepared { OnOk result (IsPrepared state.old.site state.old.broker (plan_of_read state.old.site state.old.broker at.remote (reads.Send at.index number)) plan.new) }
    ensures room { OnOk result (HasRoom state.new.room plan.new) }
    ensures kept { SameState state.old state.new }
{
    state.reserve_replicators(1)?;
    let entry = entry_at(state, at.index);
    forward(alloc, state, at, number, entry, plan)
}

/// An entry of the own cluster is sent under the next number of the session, and awaits its receipt.
#[tactic(auto, using(crate::proofs::Plans::forwarded, crate::proofs::Plans::forwarded_room))]
fn forward(
    alloc: Global,
    state: &BrokerState,
    at: ReadAt,
    number: u64,
    entry: &Entry,
    plan: &mut Plan,
) -> Result<(), Memory>
    requires reading { IsReading state.now.site state.now.broker at.remote at.index }
    requires number { number ≡ (replicator_at state.now.broker at.remote).next }
    requires room { 1 ≤ state.now.room.replicators }
    requires storable { IsStorable state.now.site entry.now }
    requires empty { IsEmptyPlan plan.old }
    ensures prepared { OnOk result (IsPrepared state.now.site state.now.broker (forwards state.now.site at.remote (replicator_at state.now.broker at.remote) at.index entry.now) plan.new) }
    ensures room { OnOk result (HasRoom state.now.room plan.new) }
{
    let ReadAt { remote, index } = at;
    let session = state.replicator(remote).replicator().session();
    plan.begin(0);
    plan.change(StateChange::Pend { remote, index })?;
    let frame = send_text(alloc, state, session, number, entry)?;
    plan.send(WireOut {
        to: Peer::Forward(remote),
        session,
        frame,
    })?;
    Ok(())
}
