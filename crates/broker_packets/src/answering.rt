//! What a broker answers to a client.
ghost use Rattle.std.specs.Prelude.{◌≡◌, true, false, [], ◌∷◌, OnOk};
ghost use Rattle.geo_base.specs.declared.frame.Frame.TheVariants as frame;
ghost use Rattle.geo_base.specs.declared.packet.Peer.TheVariants as peer;
ghost use Rattle.geo_base.specs.Answers.{answers, refuses};
ghost use Rattle.geo_base.specs.Plan.{quiet_plan};
ghost use Rattle.broker_state.specs.Plan.{IsEmptyPlan};
ghost use Rattle.broker_state.specs.Room.{HasRoom, Room};
ghost use Rattle.broker_plans.specs.Prepared.{AlsoSends, IsPrepared};
ghost use Rattle.broker_packets.specs.Serving.{IsOpen, open_at};
ghost use Rattle.frame_values.specs.Coded.{carries_entry};
ghost use Rattle.frame_values.specs.Fitting.{IsSmall};
ghost use Rattle.frame_values.specs.Texts.{is_readable};

use broker_plans::also_send;
use broker_state::{BrokerState, Plan};
use geo_base::{AttachedProducer, Frame, Memory, Peer, Session};
use std::alloc::Global;

/// UnknownError of ServerError in PulsarApi.proto.
pub(crate) const UNKNOWN_ERROR: u64 = 0;

/// ConsumerBusy of ServerError in PulsarApi.proto.
pub(crate) const CONSUMER_BUSY: u64 = 5;

/// ConsumerNotFound of ServerError in PulsarApi.proto.
pub(crate) const CONSUMER_NOT_FOUND: u64 = 13;

/// ProducerBusy of ServerError in PulsarApi.proto.
pub(crate) const PRODUCER_BUSY: u64 = 16;

/// The session that a client has open.
pub(crate) fn open_session(state: &BrokerState, client: u32) -> &Session
    requires { IsOpen state.now.broker client }
    ensures { result.now ≡ open_at state.now.broker client }
{
    match state.session(client) {
        Some(session) => session,
        None => unreachable!(),
    }
}

/// The producers of the session that a client has open.
pub(crate) fn open_producers(state: &BrokerState, client: u32) -> &[AttachedProducer]
    requires { IsOpen state.now.broker client }
    ensures { result.now ≡ (open_at state.now.broker client).producers }
{
    open_session(state, client).producers.as_slice()
}

/// Also answers a client, in its open session, after all that the event does.
pub(crate) fn also_answer(
    alloc: Global,
    state: &BrokerState,
    client: u32,
    plan: &mut Plan,
    frame: Frame,
) -> Result<(), Memory>
    requires open { IsOpen state.now.broker client }
    requires simple { carries_entry frame ≡ false }
    requires readable { is_readable frame ≡ true }
    requires small { IsSmall state.now.site.clusters frame }
    ensures { OnOk result (AlsoSends state.now.site.clusters (record { to = peer.Client client; session = (open_at state.now.broker client).number; frame = frame }) plan.old plan.new) }
{
    let session = open_session(state, client).number;
    let to = Peer::Client(client);
    let sent = also_send(alloc, state, plan, to, session, &frame);
    drop(frame);
    sent
}

/// Answers a client, and changes nothing.
#[tactic(auto, using(crate::proofs::Shapes::nothing, broker_plans::proofs::Keeping::sends_more, broker_plans::proofs::Keeping::room_more, broker_plans::proofs::Keeping::no_room))]
pub(crate) fn answer(
    alloc: Global,
    state: &BrokerState,
    client: u32,
    frame: Frame,
    plan: &mut Plan,
) -> Result<(), Memory>
    requires open { IsOpen state.now.broker client }
    requires simple { carries_entry frame ≡ false }
    requires readable { is_readable frame ≡ true }
    requires small { IsSmall state.now.site.clusters frame }
    requires empty { IsEmptyPlan plan.old }
    ensures prepared { OnOk result (IsPrepared state.now.site state.now.broker (answers client (open_at state.now.broker client) frame) plan.new) }
    ensures room { (room : Room) → OnOk result (HasRoom room plan.new) }
{
    plan.begin(0);
    also_answer(alloc, state, client, plan, frame)?;
    Ok(())
}

/// Refuses a request.
pub(crate) fn refuse(
    alloc: Global,
    state: &BrokerState,
    client: u32,
    request: u64,
    code: u64,
    plan: &mut Plan,
) -> Result<(), Memory>
    requires open { IsOpen state.now.broker client }
    requires empty { IsEmptyPlan plan.old }
    ensures prepared { OnOk result (IsPrepared state.now.site state.now.broker (refuses client (open_at state.now.broker client) request code) plan.new) }
    ensures room { (room : Room) → OnOk result (HasRoom room plan.new) }
{
    let frame = Frame::Error { request, code };
    answer(alloc, state, client, frame, plan)
}

/// An event that is enabled, and does nothing.
#[tactic(auto, using(crate::proofs::Shapes::nothing, broker_plans::proofs::Keeping::no_room))]
pub(crate) fn ignore(state: &BrokerState, plan: &mut Plan)
    requires { IsEmptyPlan plan.old }
    ensures prepared { IsPrepared state.now.site state.now.broker (quiet_plan []) plan.new }
    ensures room { (room : Room) → HasRoom room plan.new }
{
    plan.begin(0);
}
