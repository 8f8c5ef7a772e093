//! A broker and its clients: CONNECT, PING, and the way to every other command; and a client that is dropped.
ghost use Rattle.std.specs.Prelude.{◌≡◌, ◌<◌, false, None, length, IfSome, OnOk};
ghost use Rattle.geo_base.specs.Broker.{session_at};
ghost use Rattle.geo_base.specs.Plan.{quiet_plan};
ghost use Rattle.geo_base.specs.Serving.{drop_client, serve, serve_command, serve_frame, session_becomes};
ghost use Rattle.broker_state.specs.Plan.{IsEmptyPlan};
ghost use Rattle.broker_state.specs.Room.{HasRoom, Room};
ghost use Rattle.broker_state.specs.State.{SameState};
ghost use Rattle.broker_plans.specs.Prepared.{CanWrite, IsPrepared};
ghost use Rattle.broker_plans.specs.Storable.{IsReadFrame};
ghost use Rattle.broker_packets.specs.Serving.{IsOpen, connects, is_consumers, is_in, is_producers, open_at, serves_in};

use crate::acknowledging::{Acked, serve_ack};
use crate::answering::{answer, ignore};
use crate::consuming::{serve_close_consumer, serve_flow, serve_unsubscribe};
use crate::producing::{Attaching, serve_close_producer, serve_producer};
use crate::publishing::{Publish, serve_send};
use crate::subscribing::{Joining, serve_subscribe};
use broker_plans::also_send;
use broker_state::{BrokerState, Plan, StateChange};
use geo_base::{Frame, Memory, Packet, Peer, Sequence, Session};
use std::alloc::Global;

/// Fills an empty plan with what the next packet of a client will do; without a packet the event is not enabled, and the plan stays
/// empty. The broker's state is as it was, with other room. An `Err` is want of memory: the plan is then for its caller to clear.
#[tactic(auto, unfolding(geo_base::specs::Serving::serve), using(crate::proofs::Shapes::idle, crate::proofs::Shapes::idle_room))]
pub fn prepare_serve(
    alloc: Global,
    state: &mut BrokerState,
    client: u32,
    packet: Option<Packet>,
    plan: &mut Plan,
) -> Result<(), Memory>
    requires client { client < length state.old.broker.sessions }
    requires can { CanWrite state.old.site state.old.broker }
    requires read { IfSome packet (λ p. IsReadFrame p.frame) }
    requires empty { IsEmptyPlan plan.old }
    ensures prepared { OnOk result (IsPrepared state.old.site state.old.broker (serve state.old.site state.old.broker client packet) plan.new) }
    ensures room { OnOk result (HasRoom state.new.room plan.new) }
    ensures kept { SameState state.old state.new }
{
    match packet {
        None => Ok(()),
        Some(packet) => serve_packet(alloc, state, client, packet, plan),
    }
}

/// Fills an empty plan with what the end of a client's connection will do; where the client has no session open the event is not
/// enabled, and the plan stays empty. An `Err` is want of memory: the plan is then for its caller to clear.
#[tactic(auto, unfolding(geo_base::specs::Serving::drop_client), using(crate::proofs::Shapes::idle, crate::proofs::Shapes::idle_room))]
pub fn prepare_drop(state: &BrokerState, client: u32, plan: &mut Plan) -> Result<(), Memory>
    requires client { client < length state.now.broker.sessions }
    requires empty { IsEmptyPlan plan.old }
    ensures prepared { OnOk result (IsPrepared state.now.site state.now.broker (drop_client state.now.broker client) plan.new) }
    ensures room { (room : Room) → OnOk result (HasRoom room plan.new) }
{
    match state.session(client) {
        None => Ok(()),
        Some(_) => change_session(state, client, None, plan),
    }
}

/// A session ends, or another one begins, and what the client had is detached.
#[tactic(auto, using(crate::proofs::Shapes::session_changes, crate::proofs::Shapes::session_room))]
fn change_session(
    state: &BrokerState,
    client: u32,
    session: Option<Session>,
    plan: &mut Plan,
) -> Result<(), Memory>
    requires client { client < length state.now.broker.sessions }
    requires empty { IsEmptyPlan plan.old }
    ensures prepared { OnOk result (IsPrepared state.now.site state.now.broker (quiet_plan (session_becomes client session)) plan.new) }
    ensures room { (room : Room) → OnOk result (HasRoom room plan.new) }
{
    plan.begin(0);
    plan.change(StateChange::Detach { client })?;
    plan.change(StateChange::Client { client, session })?;
    Ok(())
}

/// CONNECT opens the packet's session, a frame that can't be read closes the open one, and what comes in another session is
/// discarded.
fn serve_packet(
    alloc: Global,
    state: &mut BrokerState,
    client: u32,
    packet: Packet,
    plan: &mut Plan,
) -> Result<(), Memory>
    requires client { client < length state.old.broker.sessions }
    requires can { CanWrite state.old.site state.old.broker }
    requires read { IsReadFrame packet.frame }
    requires empty { IsEmptyPlan plan.old }
    ensures prepared { OnOk result (IsPrepared state.old.site state.old.broker (serve_frame state.old.site state.old.broker client packet packet.frame) plan.new) }
    ensures room { OnOk result (HasRoom state.new.room plan.new) }
    ensures kept { SameState state.old state.new }
{
    match packet.frame {
        Frame::Connect => connect(alloc, state, client, packet.session, plan),
        Frame::Unreadable => change_session(state, client, None, plan),
        frame => serve_in(alloc, state, client, packet.session, frame, plan),
    }
}

/// CONNECT opens a session.
fn connect(
    alloc: Global,
    state: &BrokerState,
    client: u32,
    number: u64,
    plan: &mut Plan,
) -> Result<(), Memory>
    requires client { client < length state.now.broker.sessions }
    requires empty { IsEmptyPlan plan.old }
    ensures prepared { OnOk result (IsPrepared state.now.site state.now.broker (connects client number) plan.new) }
    ensures room { (room : Room) → OnOk result (HasRoom room plan.new) }
{
    let session = Session {
        number,
        producers: Sequence::new(alloc),
    };
    change_session(state, client, Some(session), plan)?;
    let to = Peer::Client(client);
    also_send(alloc, state, plan, to, number, &Frame::Connected)?;
    Ok(())
}

/// A command in a session.
fn serve_in(
    alloc: Global,
    state: &mut BrokerState,
    client: u32,
    session: u64,
    frame: Frame,
    plan: &mut Plan,
) -> Result<(), Memory>
    requires client { client < length state.old.broker.sessions }
    requires can { CanWrite state.old.site state.old.broker }
    requires read { IsReadFrame frame }
    requires empty { IsEmptyPlan plan.old }
    ensures prepared { OnOk result (IsPrepared state.old.site state.old.broker (serves_in state.old.site state.old.broker client session frame) plan.new) }
    ensures room { OnOk result (HasRoom state.new.room plan.new) }
    ensures kept { SameState state.old state.new }
{
    if is_open(state, client, session) {
        serve_command(alloc, state, client, frame, plan)
    } else {
        drop(frame);
        ignore(state, plan);
        Ok(())
    }
}

/// Whether a client's open session has a number.
pub(crate) fn is_open(state: &BrokerState, client: u32, session: u64) -> bool
    requires { client < length state.now.broker.sessions }
    ensures { result ≡ is_in session (session_at state.now.broker client) }
{
    match state.session(client) {
        None => false,
        Some(open) => open.number == session,
    }
}

/// A command of the open session: one of a producer, or another one.
fn serve_command(
    alloc: Global,
    state: &mut BrokerState,
    client: u32,
    frame: Frame,
    plan: &mut Plan,
) -> Result<(), Memory>
    requires open { IsOpen state.old.broker client }
    requires can { CanWrite state.old.site state.old.broker }
    requires read { IsReadFrame frame }
    requires empty { IsEmptyPlan plan.old }
    ensures prepared { OnOk result (IsPrepared state.old.site state.old.broker (serve_command state.old.site state.old.broker client (open_at state.old.broker client) frame) plan.new) }
    ensures room { OnOk result (HasRoom state.new.room plan.new) }
    ensures kept { SameState state.old state.new }
{
    match frame {
        Frame::Producer {
            topic,
            id,
            request,
            name,
        } => {
            let asked = Attaching {
                topic,
                id,
                request,
                name,
            };
            let served = serve_producer(alloc, state, client, &asked, plan);
            drop(asked);
            served
        }
        Frame::Send {
            id,
            seq,
            source,
            entry,
        } => {
            let publish = Publish {
                id,
                seq,
                source,
                entry,
            };
            serve_send(alloc, state, client, publish, plan)
        }
        Frame::CloseProducer { id, request } => {
            drop(frame);
            serve_close_producer(alloc, state, client, id, request, plan)
        }
        frame => serve_consumer(alloc, state, client, frame, plan),
    }
}

/// A command by which a consumer comes or goes, or another one.
fn serve_consumer(
    alloc: Global,
    state: &mut BrokerState,
    client: u32,
    frame: Frame,
    plan: &mut Plan,
) -> Result<(), Memory>
    requires open { IsOpen state.old.broker client }
    requires can { CanWrite state.old.site state.old.broker }
    requires other { is_producers frame ≡ false }
    requires empty { IsEmptyPlan plan.old }
    ensures prepared { OnOk result (IsPrepared state.old.site state.old.broker (serve_command state.old.site state.old.broker client (open_at state.old.broker client) frame) plan.new) }
    ensures room { OnOk result (HasRoom state.new.room plan.new) }
    ensures kept { SameState state.old state.new }
{
    match frame {
        Frame::Subscribe {
            topic,
            sub,
            kind,
            id,
            request,
            consumer,
            earliest,
            replicated,
        } => {
            drop(consumer);
            let asked = Joining {
                topic,
                sub,
                kind,
                id,
                request,
                earliest,
                replicated,
            };
            let served = serve_subscribe(alloc, state, client, &asked, plan);
            drop(asked);
            served
        }
        Frame::Unsubscribe { id, request } => {
            drop(frame);
            serve_unsubscribe(alloc, state, client, id, request, plan)
        }
        Frame::CloseConsumer { id, request } => {
            drop(frame);
            serve_close_consumer(alloc, state, client, id, request, plan)
        }
        frame => serve_other(alloc, state, client, frame, plan),
    }
}

/// FLOW, ACK and PING. A command that a client's link does not carry closes the session, without an answer.
fn serve_other(
    alloc: Global,
    state: &mut BrokerState,
    client: u32,
    frame: Frame,
    plan: &mut Plan,
) -> Result<(), Memory>
    requires open { IsOpen state.old.broker client }
    requires can { CanWrite state.old.site state.old.broker }
    requires producers { is_producers frame ≡ false }
    requires consumers { is_consumers frame ≡ false }
    requires empty { IsEmptyPlan plan.old }
    ensures prepared { OnOk result (IsPrepared state.old.site state.old.broker (serve_command state.old.site state.old.broker client (open_at state.old.broker client) frame) plan.new) }
    ensures room { OnOk result (HasRoom state.new.room plan.new) }
    ensures kept { SameState state.old state.new }
{
    match frame {
        Frame::Flow { id, permits } => {
            drop(frame);
            serve_flow(state, client, id, permits, plan)
        }
        Frame::Ack {
            id,
            kind,
            positions,
        } => {
            let acked = Acked {
                id,
                kind,
                positions,
            };
            let served = serve_ack(alloc, state, client, &acked, plan);
            drop(acked);
            served
        }
        Frame::Ping => {
            drop(frame);
            answer(alloc, state, client, Frame::Pong, plan)
        }
        Frame::Pong => {
            drop(frame);
            ignore(state, plan);
            Ok(())
        }
        frame => close_session(state, client, frame, plan),
    }
}

/// A frame that nothing is done with closes the session.
fn close_session(
    state: &BrokerState,
    client: u32,
    frame: Frame,
    plan: &mut Plan,
) -> Result<(), Memory>
    requires client { client < length state.now.broker.sessions }
    requires empty { IsEmptyPlan plan.old }
    ensures prepared { OnOk result (IsPrepared state.now.site state.now.broker (quiet_plan (session_becomes client None)) plan.new) }
    ensures room { (room : Room) → OnOk result (HasRoom room plan.new) }
{
    drop(frame);
    change_session(state, client, None, plan)
}
