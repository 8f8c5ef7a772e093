//! A broker and its clients' consumers: FLOW, UNSUBSCRIBE and CLOSE_CONSUMER.
ghost use Rattle.std.specs.Prelude.{◌≡◌, ◌<◌, [], ◌∷◌, Some, length, OnOk};
ghost use Rattle.geo_base.specs.declared.change.Change.TheVariants as change;
ghost use Rattle.geo_base.specs.declared.write.Write.TheVariants as write;
ghost use Rattle.geo_base.specs.Answers.{succeeds};
ghost use Rattle.geo_base.specs.Plan.{plan_of, quiet_plan};
ghost use Rattle.geo_base.specs.Subscribing.{consumed_by, serve_close_consumer, serve_flow, serve_unsubscribe};
ghost use Rattle.broker_subs.specs.Table.{sub_at};
ghost use Rattle.broker_state.specs.Plan.{IsEmptyPlan};
ghost use Rattle.broker_state.specs.Room.{HasRoom, Room};
ghost use Rattle.broker_plans.specs.Prepared.{IsPrepared};
ghost use Rattle.broker_packets.specs.Serving.{IsOpen, open_at};

use crate::answering::{CONSUMER_NOT_FOUND, UNKNOWN_ERROR, also_answer, ignore, refuse};
use broker_plans::{sub_at, sub_index_consumed};
use broker_state::{BrokerState, Plan, StateChange, StateWrite};
use broker_subs::SubChange;
use geo_base::{Frame, Memory};
use std::alloc::Global;

/// What FLOW will do: the consumer gains permits, if it is here.
pub(crate) fn serve_flow(
    state: &BrokerState,
    client: u32,
    id: u64,
    permits: u64,
    plan: &mut Plan,
) -> Result<(), Memory>
    requires empty { IsEmptyPlan plan.old }
    ensures prepared { OnOk result (IsPrepared state.now.site state.now.broker (serve_flow client permits (consumed_by state.now.broker.subs client id)) plan.new) }
    ensures room { (room : Room) → OnOk result (HasRoom room plan.new) }
{
    match sub_index_consumed(state, client, id) {
        None => {
            ignore(state, plan);
            Ok(())
        }
        Some(sub_index) => permit(state, client, sub_index, permits, plan),
    }
}

/// A consumer of the subscription at a place gains permits.
fn permit(
    state: &BrokerState,
    client: u32,
    sub_index: usize,
    permits: u64,
    plan: &mut Plan,
) -> Result<(), Memory>
    requires sub_index { sub_index < length state.now.broker.subs }
    requires empty { IsEmptyPlan plan.old }
    ensures prepared { OnOk result (IsPrepared state.now.site state.now.broker (quiet_plan (change.Permit (sub_at state.now.broker.subs sub_index).name client permits ∷ [])) plan.new) }
    ensures room { (room : Room) → OnOk result (HasRoom room plan.new) }
{
    plan.begin(sub_index);
    plan.change(StateChange::Sub(SubChange::Permit { client, permits }))?;
    Ok(())
}

/// What UNSUBSCRIBE will do.
pub(crate) fn serve_unsubscribe(
    alloc: Global,
    state: &BrokerState,
    client: u32,
    id: u64,
    request: u64,
    plan: &mut Plan,
) -> Result<(), Memory>
    requires open { IsOpen state.now.broker client }
    requires empty { IsEmptyPlan plan.old }
    ensures prepared { OnOk result (IsPrepared state.now.site state.now.broker (serve_unsubscribe client (open_at state.now.broker client) request (consumed_by state.now.broker.subs client id)) plan.new) }
    ensures room { (room : Room) → OnOk result (HasRoom room plan.new) }
{
    match sub_index_consumed(state, client, id) {
        None => refuse(alloc, state, client, request, CONSUMER_NOT_FOUND, plan),
        Some(sub_index) => unsubscribe(alloc, state, client, sub_index, request, plan),
    }
}

/// The subscription at a place ends with its last consumer's wish alone.
fn unsubscribe(
    alloc: Global,
    state: &BrokerState,
    client: u32,
    sub_index: usize,
    request: u64,
    plan: &mut Plan,
) -> Result<(), Memory>
    requires open { IsOpen state.now.broker client }
    requires sub_index { sub_index < length state.now.broker.subs }
    requires empty { IsEmptyPlan plan.old }
    ensures prepared { OnOk result (IsPrepared state.now.site state.now.broker (serve_unsubscribe client (open_at state.now.broker client) request (Some (sub_at state.now.broker.subs sub_index))) plan.new) }
    ensures room { (room : Room) → OnOk result (HasRoom room plan.new) }
{
    if sub_at(state, sub_index).consumers().len() > 1 {
        return refuse(alloc, state, client, request, UNKNOWN_ERROR, plan);
    }
    delete(state, sub_index, plan)?;
    also_answer(alloc, state, client, plan, Frame::Success { request })?;
    Ok(())
}

/// The subscription at a place is deleted.
#[tactic(auto, using(crate::proofs::Shapes::deletes, crate::proofs::Shapes::delete_room))]
fn delete(state: &BrokerState, sub_index: usize, plan: &mut Plan) -> Result<(), Memory>
    requires sub_index { sub_index < length state.now.broker.subs }
    requires empty { IsEmptyPlan plan.old }
    ensures prepared { OnOk result (IsPrepared state.now.site state.now.broker (plan_of (write.Delete (sub_at state.now.broker.subs sub_index).name ∷ []) [] []) plan.new) }
    ensures room { (room : Room) → OnOk result (HasRoom room plan.new) }
{
    plan.begin(sub_index);
    plan.write(StateWrite::Delete)?;
    Ok(())
}

/// What CLOSE_CONSUMER will do.
pub(crate) fn serve_close_consumer(
    alloc: Global,
    state: &BrokerState,
    client: u32,
    id: u64,
    request: u64,
    plan: &mut Plan,
) -> Result<(), Memory>
    requires open { IsOpen state.now.broker client }
    requires empty { IsEmptyPlan plan.old }
    ensures prepared { OnOk result (IsPrepared state.now.site state.now.broker (serve_close_consumer client (open_at state.now.broker client) request (consumed_by state.now.broker.subs client id)) plan.new) }
    ensures room { (room : Room) → OnOk result (HasRoom room plan.new) }
{
    match sub_index_consumed(state, client, id) {
        None => refuse(alloc, state, client, request, CONSUMER_NOT_FOUND, plan),
        Some(_) => close_consumer(alloc, state, client, request, plan),
    }
}

/// A client's consumers leave, and it is told.
fn close_consumer(
    alloc: Global,
    state: &BrokerState,
    client: u32,
    request: u64,
    plan: &mut Plan,
) -> Result<(), Memory>
    requires open { IsOpen state.now.broker client }
    requires empty { IsEmptyPlan plan.old }
    ensures prepared { OnOk result (IsPrepared state.now.site state.now.broker (plan_of [] (change.Detach client ∷ []) (succeeds client (open_at state.now.broker client) request)) plan.new) }
    ensures room { (room : Room) → OnOk result (HasRoom room plan.new) }
{
    detach_client(state, client, plan)?;
    also_answer(alloc, state, client, plan, Frame::Success { request })?;
    Ok(())
}

/// A client's consumers leave.
#[tactic(auto, using(crate::proofs::Shapes::detaches, crate::proofs::Shapes::detach_room))]
fn detach_client(state: &BrokerState, client: u32, plan: &mut Plan) -> Result<(), Memory>
    requires empty { IsEmptyPlan plan.old }
    ensures prepared { OnOk result (IsPrepared state.now.site state.now.broker (plan_of [] (change.Detach client ∷ []) []) plan.new) }
    ensures room { (room : Room) → OnOk result (HasRoom room plan.new) }
{
    plan.begin(0);
    plan.change(StateChange::Detach { client })?;
    Ok(())
}
