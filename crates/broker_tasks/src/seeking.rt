//! seek: an operator sets a subscription's cursor to a position or to the end (Pulsar admin: reset-cursor). Other clusters learn of
//! what the mark has passed by an update alone. restart: a broker starts again, with a new ledger and nothing in memory.
ghost use Rattle.std.specs.Prelude.{◌≡◌, ◌+◌, ◌<◌, ◌≤◌, ◌^◌, ◌∷◌, [], length, IfSome, OnOk};
ghost use Rattle.geo_base.specs.declared.change.Change.TheVariants as change;
ghost use Rattle.geo_base.specs.declared.write.Write.TheVariants as write;
ghost use Rattle.geo_base.specs.Plan.{plan_of};
ghost use Rattle.geo_base.specs.Seeking.{restart, seek, seek_index};
ghost use Rattle.geo_base.specs.Storing.{cursor_write};
ghost use Rattle.broker_subs.specs.Table.{sub_at};
ghost use Rattle.broker_state.specs.Plan.{IsEmptyPlan};
ghost use Rattle.broker_state.specs.Room.{HasRoom};
ghost use Rattle.broker_state.specs.State.{SameState};
ghost use Rattle.broker_plans.specs.Prepared.{CanWrite, IsPrepared};
ghost use Rattle.broker_tasks.specs.Seeking.{SeekFits};

use broker_plans::{begin_write, sub_at, sub_index_named, update_after};
use broker_state::{BrokerState, Plan, StateChange, StateWrite};
use broker_subs::{SubChange, SubWrite};
use geo_base::{EntryStore, Memory, Position};
use std::alloc::Global;

/// What a seek of the subscription of a name will do, to a position or to the end; idle where there is no such subscription, and
/// where the position is not stored. Only room is made; an `Err` is want of memory.
pub fn prepare_seek(
    alloc: Global,
    state: &mut BrokerState,
    name: &[u8],
    to: Option<Position>,
    plan: &mut Plan,
) -> Result<(), Memory>
    requires can { CanWrite state.old.site state.old.broker }
    requires counted { SeekFits state.old.broker name.now }
    requires empty { IsEmptyPlan plan.old }
    ensures prepared { OnOk result (IsPrepared state.old.site state.old.broker (seek state.old.site state.old.broker name.now to) plan.new) }
    ensures room { OnOk result (HasRoom state.new.room plan.new) }
    ensures kept { SameState state.old state.new }
{
    let Some(sub_index) = sub_index_named(state, name) else {
        return Ok(());
    };
    let Some(index) = seek_index(state, to) else {
        return Ok(());
    };
    seek_to(alloc, state, sub_index, index, plan)
}

/// The index that a seek leads to: that of a position, or as many as there are entries.
fn seek_index(state: &BrokerState, to: Option<Position>) -> Option<u64>
    ensures index { result ≡ seek_index state.now.broker to }
    ensures within { IfSome result (λ i. i ≤ length state.now.broker.entries) }
{
    match to {
        None => Some(state.store().len() as u64),
        Some(position) => state.index_of(position),
    }
}

/// The cursor of the subscription at a place becomes all below an index, and what is in its memory is lost.
fn seek_to(
    alloc: Global,
    state: &mut BrokerState,
    sub_index: usize,
    index: u64,
    plan: &mut Plan,
) -> Result<(), Memory>
    requires can { CanWrite state.old.site state.old.broker }
    requires sub_index { sub_index < length state.old.broker.subs }
    requires within { index ≤ length state.old.broker.entries }
    requires counted { (sub_at state.old.broker.subs sub_index).seeks + 1 < 2 ^ 64 }
    requires empty { IsEmptyPlan plan.old }
    ensures prepared { OnOk result (IsPrepared state.old.site state.old.broker (plan_of (cursor_write state.old.site state.old.broker (sub_at state.old.broker.subs sub_index) (write.Seek (sub_at state.old.broker.subs sub_index).name index)) (change.Cleared (sub_at state.old.broker.subs sub_index).name ∷ []) []) plan.new) }
    ensures room { OnOk result (HasRoom state.new.room plan.new) }
    ensures kept { SameState state.old state.new }
{
    let _site = state.site();
    let write = SubWrite::Seek(index);
    let update = update_after(
        alloc,
        state,
        sub_index,
        &write,
        sub_at(state, sub_index).cache(),
    )?;
    begin_write(state, sub_index, 0, write, update, plan)?;
    plan.change(StateChange::Sub(SubChange::Cleared))
}

/// What a restart will do: a ledger opens, and what is in memory is lost. Only room is made; an `Err` is want of memory.
#[tactic(auto, using(crate::proofs::Seeks::restarts, crate::proofs::Seeks::restart_room))]
pub fn prepare_restart(state: &mut BrokerState, plan: &mut Plan) -> Result<(), Memory>
    requires empty { IsEmptyPlan plan.old }
    ensures prepared { OnOk result (IsPrepared state.old.site state.old.broker restart plan.new) }
    ensures room { OnOk result (HasRoom state.new.room plan.new) }
    ensures kept { SameState state.old state.new }
{
    state.reserve_entries(1)?;
    plan.begin(0);
    plan.write(StateWrite::Ledger)?;
    plan.change(StateChange::Forget)?;
    Ok(())
}
