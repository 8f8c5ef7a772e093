//! The events that take a packet, with what its bytes say. Most packets have the usual form: what they say is looked at in its place
//! then, and what an event stores is made once.
ghost use Rattle.std.specs.Prelude.{◌≡◌, ◌<◌, Some, length, OnOk};
ghost use Rattle.geo_base.specs.declared.event.Fate.TheVariants as fate;
ghost use Rattle.geo_base.specs.Forwarding.{receipt, take_packet};
ghost use Rattle.geo_base.specs.Serving.{serve};
ghost use Rattle.broker_state.specs.Plan.{IsEmptyPlan};
ghost use Rattle.broker_state.specs.Room.{HasRoom};
ghost use Rattle.broker_state.specs.State.{SameState};
ghost use Rattle.broker_plans.specs.Prepared.{CanWrite};
ghost use Rattle.broker.specs.Input.{IsInputPrepared, IsReceiptOf};

use crate::reading::{Receipt, read_packet, usual_receipt, usual_send};
use broker_packets::{
    prepare_publish, prepare_receipt, prepare_receive, prepare_serve, prepare_take, publishes,
    receives,
};
use broker_state::{BrokerState, Plan};
use geo_base::{Fate, Frame, Memory, Packet};
use std::alloc::Global;
use wire_ends::WirePacket;

/// A broker takes a packet of a client.
pub(crate) fn serve(
    alloc: Global,
    state: &mut BrokerState,
    client: u32,
    packet: &WirePacket,
    plan: &mut Plan,
) -> Result<(), Memory>
    requires client { client < length state.old.broker.sessions }
    requires can { CanWrite state.old.site state.old.broker }
    requires empty { IsEmptyPlan plan.old }
    ensures prepared { OnOk result (IsInputPrepared state.old.site state.old.broker (serve state.old.site state.old.broker client) (Some packet.now) plan.new) }
    ensures room { OnOk result (HasRoom state.new.room plan.new) }
    ensures kept { SameState state.old state.new }
{
    match usual_send(packet) {
        Some(came) if publishes(state, client, came) => {
            prepare_publish(alloc, state, client, came, plan)
        }
        _ => serve_read(alloc, state, client, packet, plan),
    }
}

/// A packet of a client, read by all its parts.
fn serve_read(
    alloc: Global,
    state: &mut BrokerState,
    client: u32,
    packet: &WirePacket,
    plan: &mut Plan,
) -> Result<(), Memory>
    requires client { client < length state.old.broker.sessions }
    requires can { CanWrite state.old.site state.old.broker }
    requires empty { IsEmptyPlan plan.old }
    ensures prepared { OnOk result (IsInputPrepared state.old.site state.old.broker (serve state.old.site state.old.broker client) (Some packet.now) plan.new) }
    ensures room { OnOk result (HasRoom state.new.room plan.new) }
    ensures kept { SameState state.old state.new }
{
    let said = read_packet(alloc, state.site(), packet)?;
    prepare_serve(alloc, state, client, Some(said), plan)
}

/// A broker takes a packet of the forward link from a cluster.
pub(crate) fn take(
    alloc: Global,
    state: &mut BrokerState,
    source: u32,
    fate: Fate,
    packet: &WirePacket,
    plan: &mut Plan,
) -> Result<(), Memory>
    requires source { source < length state.old.broker.receivers }
    requires empty { IsEmptyPlan plan.old }
    ensures prepared { OnOk result (IsInputPrepared state.old.site state.old.broker (take_packet state.old.site state.old.broker source fate) (Some packet.now) plan.new) }
    ensures room { OnOk result (HasRoom state.new.room plan.new) }
    ensures kept { SameState state.old state.new }
{
    match fate {
        Fate::Good => take_once(alloc, state, source, packet, plan),
        Fate::Lost | Fate::Twice => take_read(alloc, state, source, fate, packet, plan),
    }
}

/// A packet of a forward link is acted on once.
fn take_once(
    alloc: Global,
    state: &mut BrokerState,
    source: u32,
    packet: &WirePacket,
    plan: &mut Plan,
) -> Result<(), Memory>
    requires source { source < length state.old.broker.receivers }
    requires empty { IsEmptyPlan plan.old }
    ensures prepared { OnOk result (IsInputPrepared state.old.site state.old.broker (take_packet state.old.site state.old.broker source fate.Good) (Some packet.now) plan.new) }
    ensures room { OnOk result (HasRoom state.new.room plan.new) }
    ensures kept { SameState state.old state.new }
{
    match usual_send(packet) {
        Some(came) if receives(state, source, came) => {
            prepare_receive(alloc, state, source, came, plan)
        }
        _ => take_read(alloc, state, source, Fate::Good, packet, plan),
    }
}

/// A packet of a forward link, read by all its parts.
fn take_read(
    alloc: Global,
    state: &mut BrokerState,
    source: u32,
    fate: Fate,
    packet: &WirePacket,
    plan: &mut Plan,
) -> Result<(), Memory>
    requires source { source < length state.old.broker.receivers }
    requires empty { IsEmptyPlan plan.old }
    ensures prepared { OnOk result (IsInputPrepared state.old.site state.old.broker (take_packet state.old.site state.old.broker source fate) (Some packet.now) plan.new) }
    ensures room { OnOk result (HasRoom state.new.room plan.new) }
    ensures kept { SameState state.old state.new }
{
    let said = read_packet(alloc, state.site(), packet)?;
    prepare_take(alloc, state, source, fate, Some(said), plan)
}

/// A broker receives a packet of the back link from a cluster.
pub(crate) fn receive(
    alloc: Global,
    state: &mut BrokerState,
    target: u32,
    fate: Fate,
    packet: &WirePacket,
    plan: &mut Plan,
) -> Result<(), Memory>
    requires target { target < length state.old.broker.replicators }
    requires empty { IsEmptyPlan plan.old }
    ensures prepared { OnOk result (IsInputPrepared state.old.site state.old.broker (receipt state.old.site state.old.broker target fate) (Some packet.now) plan.new) }
    ensures room { OnOk result (HasRoom state.new.room plan.new) }
    ensures kept { SameState state.old state.new }
{
    match usual_receipt(packet) {
        Some(answer) => receive_usual(state, target, fate, packet, answer, plan),
        None => receive_read(alloc, state, target, fate, packet, plan),
    }
}

/// A receipt of the usual form.
#[tactic(auto, using(crate::proofs::Inputs::receipt_prepared))]
fn receive_usual(
    state: &mut BrokerState,
    target: u32,
    fate: Fate,
    packet: &WirePacket,
    answer: Receipt,
    plan: &mut Plan,
) -> Result<(), Memory>
    requires target { target < length state.old.broker.replicators }
    requires said { IsReceiptOf packet.now answer }
    requires empty { IsEmptyPlan plan.old }
    ensures prepared { OnOk result (IsInputPrepared state.old.site state.old.broker (receipt state.old.site state.old.broker target fate) (Some packet.now) plan.new) }
    ensures room { OnOk result (HasRoom state.new.room plan.new) }
    ensures kept { SameState state.old state.new }
{
    let Receipt { id, seq, position } = answer;
    let said = Packet {
        session: packet.session,
        stamp: packet.stamp,
        frame: Frame::SendReceipt {
            id,
            seq,
            position: Some(position),
        },
    };
    let prepared = prepare_receipt(state, target, fate, Some(&said), plan);
    drop(said);
    prepared
}

/// A packet of a back link, read by all its parts.
fn receive_read(
    alloc: Global,
    state: &mut BrokerState,
    target: u32,
    fate: Fate,
    packet: &WirePacket,
    plan: &mut Plan,
) -> Result<(), Memory>
    requires target { target < length state.old.broker.replicators }
    requires empty { IsEmptyPlan plan.old }
    ensures prepared { OnOk result (IsInputPrepared state.old.site state.old.broker (receipt state.old.site state.old.broker target fate) (Some packet.now) plan.new) }
    ensures room { OnOk result (HasRoom state.new.room plan.new) }
    ensures kept { SameState state.old state.new }
{
    let said = read_packet(alloc, state.site(), packet)?;
    let prepared = prepare_receipt(state, target, fate, Some(&said), plan);
    // by a call, so that the end of a packet is proved by itself
    drop(said);
    prepared
}
