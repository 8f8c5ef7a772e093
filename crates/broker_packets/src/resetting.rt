//! A session to another cluster begins.
ghost use Rattle.std.specs.Prelude.{◌≡◌, ◌<◌, ◌+◌, [], ◌∷◌, length, IfOk, OnOk};
ghost use Rattle.geo_base.specs.declared.change.Change.TheVariants as change;
ghost use Rattle.geo_base.specs.declared.write.Write.TheVariants as write;
ghost use Rattle.geo_base.specs.Broker.{replicator_at};
ghost use Rattle.geo_base.specs.Forwarding.{reset, resets};
ghost use Rattle.geo_base.specs.Plan.{plan_of};
ghost use Rattle.broker_state.specs.Plan.{IsEmptyPlan};
ghost use Rattle.broker_state.specs.Room.{HasRoom, Room};
ghost use Rattle.broker_plans.specs.Prepared.{AlsoSends, IsPrepared};
ghost use Rattle.broker_packets.specs.Answers.{IsBrief, opening, opening_out};
ghost use Rattle.broker_packets.specs.Ready.{SessionFits};

use broker_plans::also_send;
use broker_state::{BrokerState, Plan, StateChange, StateWrite};
use geo_base::{Frame, Memory, Peer, Text};
use std::alloc::Global;

/// What the begin of a new session to a cluster will do; idle where that is no other cluster. It needs no room.
#[tactic(auto, using(crate::proofs::Plans::idle_room, crate::proofs::Resets::remote_within))]
pub fn prepare_reset(
    alloc: Global,
    state: &BrokerState,
    remote: u32,
    plan: &mut Plan,
) -> Result<(), Memory>
    requires session { SessionFits state.now.broker remote }
    requires empty { IsEmptyPlan plan.old }
    ensures prepared { OnOk result (IsPrepared state.now.site state.now.broker (reset state.now.site state.now.broker remote) plan.new) }
    ensures room { (room : Room) → OnOk result (HasRoom room plan.new) }
{
    if !state.site().is_remote(remote) {
        return Ok(());
    }
    let session = next_session(state, remote);
    begin_session(alloc, state, remote, session, plan)
}

/// The number of the next session to a cluster.
fn next_session(state: &BrokerState, remote: u32) -> u64
    requires within { remote < length state.now.broker.replicators }
    requires fits { SessionFits state.now.broker remote }
    ensures { result ≡ (replicator_at state.now.broker remote).session + 1 }
{
    state.replicator(remote).replicator().session() + 1
}

/// The session's number is written, and the session is to be opened.
fn begin_session(
    alloc: Global,
    state: &BrokerState,
    remote: u32,
    session: u64,
    plan: &mut Plan,
) -> Result<(), Memory>
    requires remote { remote < length state.now.broker.replicators }
    requires empty { IsEmptyPlan plan.old }
    ensures prepared { OnOk result (IsPrepared state.now.site state.now.broker (resets state.now.site remote session) plan.new) }
    ensures room { (room : Room) → OnOk result (HasRoom room plan.new) }
{
    write_session(state, remote, session, plan)?;
    also_open(alloc, state, plan, remote, session)?;
    Ok(())
}

/// The same before its packet is sent.
#[tactic(auto, using(crate::proofs::Plans::begins_prepared, crate::proofs::Plans::begins_room))]
fn write_session(
    state: &BrokerState,
    remote: u32,
    session: u64,
    plan: &mut Plan,
) -> Result<(), Memory>
    requires remote { remote < length state.now.broker.replicators }
    requires empty { IsEmptyPlan plan.old }
    ensures prepared { OnOk result (IsPrepared state.now.site state.now.broker (plan_of (write.SessionNumber remote session ∷ []) (change.Opening remote ∷ []) []) plan.new) }
    ensures room { (room : Room) → OnOk result (HasRoom room plan.new) }
{
    plan.begin(0);
    plan.write(StateWrite::SessionNumber { remote, session })?;
    plan.change(StateChange::Opening { remote })?;
    Ok(())
}

/// An event that also sends the packet that opens a session.
fn also_open(
    alloc: Global,
    state: &BrokerState,
    plan: &mut Plan,
    remote: u32,
    session: u64,
) -> Result<(), Memory>
    ensures { OnOk result (AlsoSends state.now.site.clusters (opening_out state.now.site remote session) plan.old plan.new) }
{
    let frame = opening_frame(alloc, state, session)?;
    let to = Peer::Forward(remote);
    let sent = also_send(alloc, state, plan, to, session, &frame);
    drop(frame);
    sent?;
    Ok(())
}

/// The packet that opens a session has its number as producer id and as request id.
fn opening_frame(alloc: Global, state: &BrokerState, session: u64) -> Result<Frame, Memory>
    ensures frame { IfOk result (λ f. f ≡ opening state.now.site session) }
    ensures brief { IfOk result (IsBrief state.now.site.clusters) }
{
    let site = state.site();
    let topic = Text::from_str(alloc, site.topic().as_str())?;
    let name = site.link_producer(alloc, site.own())?;
    Ok(Frame::Producer {
        topic,
        id: session,
        request: session,
        name: Some(name),
    })
}
