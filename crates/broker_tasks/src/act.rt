//! What a replicator does with what it reads.
ghost use Rattle.std.specs.Prelude.{◌≡◌, ◌≤◌, ◌<◌, ◌+◌, ◌^◌, [], Some, length, slice_get, OnOk};
ghost use Rattle.geo_base.specs.Updating.{handled};
ghost use Rattle.broker_state.specs.Plan.{IsEmptyPlan};
ghost use Rattle.broker_state.specs.Room.{HasRoom};
ghost use Rattle.broker_plans.specs.Prepared.{IsPrepared};
ghost use Rattle.broker_tasks.specs.Reading.{IsReading, handled_view, marker_view};

use broker_plans::appending;
use broker_state::{BrokerState, Plan, StateChange, StateWrite};
use geo_base::{Entry, EntryStore, Memory, SubName};
use std::alloc::Global;

/// The replicator to a cluster reads the entry at an index.
#[derive(Clone, Copy, Drop)]
pub(crate) struct ReadAt {
    pub remote: u32,
    pub index: u64,
}

/// What a replicator does with what it reads.
#[derive(Drop)]
pub(crate) enum ReadAct {
    /// All of it is prepared.
    Ready,
    /// The subscription of a name acknowledges what the other cluster could have had up to an index.
    Acknowledges { sub: SubName, to: u64 },
}

/// The entry at an index.
pub(crate) fn entry_at(state: &BrokerState, index: u64) -> &Entry
    requires { index < length state.now.broker.entries }
    ensures { slice_get state.now.broker.entries index ≡ Some result.now }
{
    match state.store().get(index as usize) {
        Some(entry) => entry,
        None => unreachable!(),
    }
}

/// An event after which what was read is acknowledged on the replicator's cursor.
pub(crate) fn acknowledge_read(plan: &mut Plan, at: ReadAt) -> Result<(), Memory>
    requires { at.index + 1 < 2 ^ 64 }
    ensures { OnOk result (plan.new ≡ handled_view at.remote at.index plan.old) }
{
    let ReadAt { remote, index } = at;
    plan.write(StateWrite::ReplicatorAck { remote, index })?;
    plan.change(StateChange::ReadTo {
        remote,
        index: index + 1,
    })?;
    Ok(())
}

/// An event that begins with the write of a marker.
pub(crate) fn begin_marker(alloc: Global, marker: Entry, plan: &mut Plan) -> Result<(), Memory>
    requires { IsEmptyPlan plan.old }
    ensures { OnOk result (plan.new ≡ marker_view marker) }
{
    plan.begin(0);
    plan.write(appending(alloc, marker)?)
}

/// What was read is skipped: it has no other effect.
#[tactic(auto, using(crate::proofs::Plans::skipped, crate::proofs::Plans::skipped_room))]
pub(crate) fn skip(state: &BrokerState, at: ReadAt, plan: &mut Plan) -> Result<(), Memory>
    requires reading { IsReading state.now.site state.now.broker at.remote at.index }
    requires room { 1 ≤ state.now.room.replicators }
    requires empty { IsEmptyPlan plan.old }
    ensures prepared { OnOk result (IsPrepared state.now.site state.now.broker (handled at.remote at.index [] []) plan.new) }
    ensures room { OnOk result (HasRoom state.now.room plan.new) }
{
    plan.begin(0);
    acknowledge_read(plan, at)
}
