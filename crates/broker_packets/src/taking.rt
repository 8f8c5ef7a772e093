//! The receiving end of a forward link: take.
ghost use Rattle.std.specs.Prelude.{◌<◌, [], ◌∷◌, length, IfSome, OnOk};
ghost use Rattle.geo_base.specs.declared.change.Change.TheVariants as change;
ghost use Rattle.geo_base.specs.Forwarding.{take_fate, take_frame, take_packet};
ghost use Rattle.geo_base.specs.Plan.{quiet_plan, twice};
ghost use Rattle.broker_state.specs.Plan.{IsEmptyPlan};
ghost use Rattle.broker_state.specs.Room.{HasRoom, Room};
ghost use Rattle.broker_state.specs.State.{SameState};
ghost use Rattle.broker_plans.specs.Prepared.{IsPrepared};
ghost use Rattle.broker_plans.specs.Storable.{IsReadFrame, IsStorable};
ghost use Rattle.broker_packets.specs.Acts.{ActStorable, acted, opening_plan, packet_acted, receiving_plan, times};

use crate::act::{TakeAct, act_of};
use crate::answers::{Arrival, also_receipt, also_succeed};
use broker_plans::storing;
use broker_state::{BrokerState, Plan, StateChange};
use geo_base::{Entry, Fate, Memory, Packet};
use std::alloc::Global;

/// What the next packet of the forward link from a cluster will do. Only room is made; an `Err` is want of memory.
#[tactic(auto, unfolding(geo_base::specs::Forwarding::take_packet), using(crate::proofs::Plans::idle, crate::proofs::Plans::idle_room))]
pub fn prepare_take(
    alloc: Global,
    state: &mut BrokerState,
    source: u32,
    fate: Fate,
    input: Option<Packet>,
    plan: &mut Plan,
) -> Result<(), Memory>
    requires source { source < length state.old.broker.receivers }
    requires read { IfSome input (λ p. IsReadFrame p.frame) }
    requires empty { IsEmptyPlan plan.old }
    ensures prepared { OnOk result (IsPrepared state.old.site state.old.broker (take_packet state.old.site state.old.broker source fate input) plan.new) }
    ensures room { OnOk result (HasRoom state.new.room plan.new) }
    ensures kept { SameState state.old state.new }
{
    match input {
        None => Ok(()),
        Some(packet) => take(alloc, state, source, fate, packet, plan),
    }
}

/// A lost packet closes the session, since entries after it would be stored without it.
fn take(
    alloc: Global,
    state: &mut BrokerState,
    source: u32,
    fate: Fate,
    packet: Packet,
    plan: &mut Plan,
) -> Result<(), Memory>
    requires source { source < length state.old.broker.receivers }
    requires read { IsReadFrame packet.frame }
    requires empty { IsEmptyPlan plan.old }
    ensures prepared { OnOk result (IsPrepared state.old.site state.old.broker (take_fate state.old.site state.old.broker source packet fate) plan.new) }
    ensures room { OnOk result (HasRoom state.new.room plan.new) }
    ensures kept { SameState state.old state.new }
{
    match fate {
        Fate::Lost => {
            drop(packet);
            set_session(state, source, None, plan)
        }
        Fate::Good => take_once(alloc, state, source, packet, plan),
        Fate::Twice => take_twice(alloc, state, source, packet, plan),
    }
}

/// A packet is acted on.
fn take_once(
    alloc: Global,
    state: &mut BrokerState,
    source: u32,
    packet: Packet,
    plan: &mut Plan,
) -> Result<(), Memory>
    requires source { source < length state.old.broker.receivers }
    requires read { IsReadFrame packet.frame }
    requires empty { IsEmptyPlan plan.old }
    ensures prepared { OnOk result (IsPrepared state.old.site state.old.broker (take_frame state.old.site state.old.broker source packet packet.frame) plan.new) }
    ensures room { OnOk result (HasRoom state.new.room plan.new) }
    ensures kept { SameState state.old state.new }
{
    take_times(alloc, state, source, packet, false, plan)
}

/// A packet is acted on two times in a row.
fn take_twice(
    alloc: Global,
    state: &mut BrokerState,
    source: u32,
    packet: Packet,
    plan: &mut Plan,
) -> Result<(), Memory>
    requires source { source < length state.old.broker.receivers }
    requires read { IsReadFrame packet.frame }
    requires empty { IsEmptyPlan plan.old }
    ensures prepared { OnOk result (IsPrepared state.old.site state.old.broker (twice state.old.site.per_ledger state.old.broker (λ now. take_frame state.old.site now source packet packet.frame)) plan.new) }
    ensures room { OnOk result (HasRoom state.new.room plan.new) }
    ensures kept { SameState state.old state.new }
{
    take_times(alloc, state, source, packet, true, plan)
}

/// What the act of a packet will do, once or two times in a row.
fn take_times(
    alloc: Global,
    state: &mut BrokerState,
    source: u32,
    packet: Packet,
    again: bool,
    plan: &mut Plan,
) -> Result<(), Memory>
    requires source { source < length state.old.broker.receivers }
    requires read { IsReadFrame packet.frame }
    requires empty { IsEmptyPlan plan.old }
    ensures prepared { OnOk result (IsPrepared state.old.site state.old.broker (packet_acted state.old.site state.old.broker source again packet) plan.new) }
    ensures room { OnOk result (HasRoom state.new.room plan.new) }
    ensures kept { SameState state.old state.new }
{
    let arrival = Arrival {
        source,
        session: packet.session,
        again,
    };
    let todo = act_of(state, source, packet.session, packet.frame);
    act(alloc, state, arrival, todo, plan)
}

/// What an act will do.
fn act(
    alloc: Global,
    state: &mut BrokerState,
    arrival: Arrival,
    todo: TakeAct,
    plan: &mut Plan,
) -> Result<(), Memory>
    requires source { arrival.source < length state.old.broker.receivers }
    requires storable { ActStorable state.old.site todo }
    requires empty { IsEmptyPlan plan.old }
    ensures prepared { OnOk result (IsPrepared state.old.site state.old.broker (acted state.old.site state.old.broker arrival.source arrival.session arrival.again todo) plan.new) }
    ensures room { OnOk result (HasRoom state.new.room plan.new) }
    ensures kept { SameState state.old state.new }
{
    let source = arrival.source;
    match todo {
        TakeAct::Unreadable => set_session_times(state, source, None, arrival.again, plan),
        TakeAct::Opens { id, request } => open_session(alloc, state, arrival, id, request, plan),
        TakeAct::Discards => {
            plan.begin(0);
            Ok(())
        }
        TakeAct::Refuses => set_session(state, source, None, plan),
        TakeAct::Receives { seq, entry } => receive_entry(alloc, state, arrival, seq, entry, plan),
    }
}

/// Another session is open on the link from a cluster, or none.
fn set_session(
    state: &BrokerState,
    source: u32,
    session: Option<u64>,
    plan: &mut Plan,
) -> Result<(), Memory>
    requires source { source < length state.now.broker.receivers }
    requires empty { IsEmptyPlan plan.old }
    ensures prepared { OnOk result (IsPrepared state.now.site state.now.broker (quiet_plan (change.Receiver source session ∷ [])) plan.new) }
    ensures room { (room : Room) → OnOk result (HasRoom room plan.new) }
{
    plan.begin(0);
    plan.change(StateChange::Receiver { source, session })?;
    Ok(())
}

/// The same two times in a row.
fn set_session_twice(
    state: &BrokerState,
    source: u32,
    session: Option<u64>,
    plan: &mut Plan,
) -> Result<(), Memory>
    requires source { source < length state.now.broker.receivers }
    requires empty { IsEmptyPlan plan.old }
    ensures prepared { OnOk result (IsPrepared state.now.site state.now.broker (quiet_plan (change.Receiver source session ∷ change.Receiver source session ∷ [])) plan.new) }
    ensures room { (room : Room) → OnOk result (HasRoom room plan.new) }
{
    plan.begin(0);
    plan.change(StateChange::Receiver { source, session })?;
    plan.change(StateChange::Receiver { source, session })?;
    Ok(())
}

/// Once, or two times in a row.
fn set_session_times(
    state: &BrokerState,
    source: u32,
    session: Option<u64>,
    again: bool,
    plan: &mut Plan,
) -> Result<(), Memory>
    requires source { source < length state.now.broker.receivers }
    requires empty { IsEmptyPlan plan.old }
    ensures prepared { OnOk result (IsPrepared state.now.site state.now.broker (quiet_plan (times again (change.Receiver source session))) plan.new) }
    ensures room { (room : Room) → OnOk result (HasRoom room plan.new) }
{
    if again {
        set_session_twice(state, source, session, plan)
    } else {
        set_session(state, source, session, plan)
    }
}

/// A session opens, and any earlier one ends; the packet is answered.
fn open_session(
    alloc: Global,
    state: &BrokerState,
    arrival: Arrival,
    id: u64,
    request: u64,
    plan: &mut Plan,
) -> Result<(), Memory>
    requires source { arrival.source < length state.now.broker.receivers }
    requires empty { IsEmptyPlan plan.old }
    ensures prepared { OnOk result (IsPrepared state.now.site state.now.broker (opening_plan state.now.site arrival.source arrival.again id request) plan.new) }
    ensures room { (room : Room) → OnOk result (HasRoom room plan.new) }
{
    set_session_times(state, arrival.source, Some(id), arrival.again, plan)?;
    also_succeed(alloc, state, plan, arrival, id, request)?;
    Ok(())
}

/// An entry is stored unless it is a duplicate, and answered either way.
fn receive_entry(
    alloc: Global,
    state: &mut BrokerState,
    arrival: Arrival,
    seq: u64,
    entry: Entry,
    plan: &mut Plan,
) -> Result<(), Memory>
    requires storable { IsStorable state.old.site entry }
    requires empty { IsEmptyPlan plan.old }
    ensures prepared { OnOk result (IsPrepared state.old.site state.old.broker (receiving_plan state.old.site state.old.broker arrival.source arrival.session arrival.again seq entry) plan.new) }
    ensures room { OnOk result (HasRoom state.new.room plan.new) }
    ensures kept { SameState state.old state.new }
{
    let position = storing(alloc, state, entry, plan)?;
    also_receipt(alloc, state, plan, arrival, seq, position)?;
    Ok(())
}
