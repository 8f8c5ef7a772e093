//! What comes back over the back link: that a session is open, and receipts.
ghost use Rattle.std.specs.Prelude.{◌≤◌, ◌<◌, length, OnOk};
ghost use Rattle.std.specs.Option.{option_copied};
ghost use Rattle.geo_base.specs.Forwarding.{receipt, receipt_fate, receipt_packet};
ghost use Rattle.broker_state.specs.Plan.{IsEmptyPlan};
ghost use Rattle.broker_state.specs.Room.{HasRoom};
ghost use Rattle.broker_state.specs.State.{SameState};
ghost use Rattle.broker_plans.specs.Prepared.{IsPrepared};

use broker_state::{BrokerState, Plan, StateChange, StateWrite};
use geo_base::{Fate, Memory, Packet};
use replicator::Heard;
use std::alloc::Global;

/// What the next packet of the back link from a cluster will do. Only room is made; an `Err` is want of memory.
#[tactic(auto, unfolding(geo_base::specs::Forwarding::receipt), using(crate::proofs::Plans::idle, crate::proofs::Plans::idle_room))]
pub fn prepare_receipt(
    state: &mut BrokerState,
    remote: u32,
    fate: Fate,
    input: Option<&Packet>,
    plan: &mut Plan,
) -> Result<(), Memory>
    requires remote { remote < length state.old.broker.replicators }
    requires empty { IsEmptyPlan plan.old }
    ensures prepared { OnOk result (IsPrepared state.old.site state.old.broker (receipt state.old.site state.old.broker remote fate (option_copied input.entry)) plan.new) }
    ensures room { OnOk result (HasRoom state.new.room plan.new) }
    ensures kept { SameState state.old state.new }
{
    state.reserve_replicators(1)?;
    match input {
        None => Ok(()),
        Some(packet) => receive(state, remote, fate, packet, plan),
    }
}

/// An answer that comes twice has the effect of one: a session is opened once, and a number's receipt is awaited once.
#[tactic(auto, using(crate::proofs::Plans::quiet, crate::proofs::Plans::quiet_room, crate::proofs::ReceivedTwice::twice_prepared))]
fn receive(
    state: &BrokerState,
    remote: u32,
    fate: Fate,
    packet: &Packet,
    plan: &mut Plan,
) -> Result<(), Memory>
    requires remote { remote < length state.now.broker.replicators }
    requires some { 1 ≤ state.now.room.replicators }
    requires empty { IsEmptyPlan plan.old }
    ensures prepared { OnOk result (IsPrepared state.now.site state.now.broker (receipt_fate state.now.site state.now.broker remote packet.now fate) plan.new) }
    ensures room { OnOk result (HasRoom state.now.room plan.new) }
{
    match fate {
        Fate::Lost => {
            plan.begin(0);
            Ok(())
        }
        Fate::Good => receive_once(state, remote, packet, plan),
        Fate::Twice => {
            let _once = state.replicator(remote).replicator().pending_len();
            receive_once(state, remote, packet, plan)
        }
    }
}

/// What an answer does, by what the replicator makes of it.
#[tactic(auto, using(crate::proofs::Plans::quiet_heard, crate::proofs::Plans::quiet_room, crate::proofs::Plans::opened_heard, crate::proofs::Plans::opened_room, crate::proofs::Plans::received_heard, crate::proofs::Plans::received_room))]
fn receive_once(
    state: &BrokerState,
    remote: u32,
    packet: &Packet,
    plan: &mut Plan,
) -> Result<(), Memory>
    requires remote { remote < length state.now.broker.replicators }
    requires some { 1 ≤ state.now.room.replicators }
    requires empty { IsEmptyPlan plan.old }
    ensures prepared { OnOk result (IsPrepared state.now.site state.now.broker (receipt_packet state.now.broker remote packet.now) plan.new) }
    ensures room { OnOk result (HasRoom state.now.room plan.new) }
{
    let replicator = state.replicator(remote).replicator();
    plan.begin(0);
    match replicator.next_answer(packet.session, &packet.frame) {
        Heard::Nothing => Ok(()),
        Heard::Opened => {
            plan.change(StateChange::Opened { remote })?;
            Ok(())
        }
        Heard::Receipt { number, index } => {
            plan.write(StateWrite::ReplicatorAck { remote, index })?;
            plan.change(StateChange::Unpend { remote, number })?;
            Ok(())
        }
    }
}
