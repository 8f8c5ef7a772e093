//! What an event will do at a broker.
ghost use Rattle.std.specs.Prelude.{◌≡◌, ◌≤◌, IfSome, List, None, OnErr, OnOk, Option, Some, length};
ghost use Rattle.std.specs.Option.{option_copied};
ghost use Rattle.geo_base.specs.declared.packet.Packet.{Packet};
ghost use Rattle.broker_state.specs.State.{SameState};
ghost use Rattle.broker_state.specs.Plan.{IsEmptyPlan};
ghost use Rattle.broker_state.specs.Room.{HasRoom};
ghost use Rattle.broker_plans.specs.Prepared.{IsPrepared};
ghost use Rattle.broker_plans.specs.Storable.{IsWritable};
ghost use Rattle.broker.specs.Events.{IsInRange, IsOfNode, MarkerRises, NumbersRise, SeekRises, SessionRises, name_at, plan_at, plan_at_node};
ghost use Rattle.broker.specs.Input.{IsInputPrepared, IsSaid, StandsForInput};
ghost use Rattle.broker.specs.Node.{IsReady, SameNode};

use crate::broker::Broker;
use crate::reading::read_packet;
use crate::taking::{receive, serve, take};
use broker_packets::{prepare_drop, prepare_reset};
use broker_state::{BrokerState, Plan};
use broker_tasks::{prepare_offer, prepare_read, prepare_restart, prepare_seek, prepare_snap};
use geo_base::{Event, Memory, SubName};
use std::alloc::Global;
use wire_ends::WirePacket;

impl Broker {
    /// What an event will do, with the next packet of the link that it takes from, whatever its bytes are: it fills a plan. All memory
    /// is taken here; an `Err` is want of it, and then the plan is empty again. The state is as it was.
    #[tactic(auto, using(crate::proofs::Inputs::said_for, crate::proofs::Prepares::ready_for, crate::proofs::Prepares::same_holds))]
    pub fn prepare(
        &mut self,
        alloc: Global,
        event: &Event,
        input: Option<&WirePacket>,
        plan: &mut Plan,
    ) -> Result<(), Memory>
        requires node { IsOfNode self.old event.now }
        requires numbers { NumbersRise self.old event.now }
        requires empty { IsEmptyPlan plan.old }
        ensures prepared { (v : Option Packet) → StandsForInput self.old.site.clusters (option_copied input.entry) v
            → OnOk result (IsPrepared self.old.site self.old.broker (plan_at_node self.old event.now v) plan.new) }
        ensures said { OnOk result (IsSaid self.old.site.clusters (option_copied input.entry)) }
        ensures ready { OnOk result (IsReady self.new plan.new) }
        ensures broker { self.new.broker ≡ self.old.broker }
        ensures node { SameNode self.old self.new }
        ensures err { OnErr result (IsEmptyPlan plan.new) }
    {
        let names = self.names.as_slice();
        prepare_or_empty(alloc, &mut self.state, names, event, input, plan)
    }
}

/// The machine's plan of an event, with what the packet says that it takes, if there is one; where memory is wanting, the plan is
/// empty again.
fn prepare_or_empty(
    alloc: Global,
    state: &mut BrokerState,
    names: &[SubName],
    event: &Event,
    input: Option<&WirePacket>,
    plan: &mut Plan,
) -> Result<(), Memory>
    requires several { 2 ≤ length state.old.site.clusters }
    requires range { IsInRange state.old.site state.old.broker event.now }
    requires session { SessionRises state.old.broker event.now }
    requires seeks { SeekRises names.now state.old.broker event.now }
    requires number { MarkerRises state.old.site state.old.broker event.now }
    requires stored { IsWritable state.old.site state.old.broker }
    requires empty { IsEmptyPlan plan.old }
    ensures prepared { OnOk result (IsInputPrepared state.old.site state.old.broker (plan_at state.old.site names.now state.old.broker event.now) (option_copied input.entry) plan.new) }
    ensures room { OnOk result (HasRoom state.new.room plan.new) }
    ensures kept { SameState state.old state.new }
    ensures err { OnErr result (IsEmptyPlan plan.new) }
{
    match prepare_with(alloc, state, names, event, input, plan) {
        Ok(()) => Ok(()),
        Err(memory) => {
            plan.clear();
            Err(memory)
        }
    }
}

/// The machine's plan of an event, with what the packet says that it takes, if there is one.
#[tactic(auto, using(crate::proofs::Inputs::alone))]
fn prepare_with(
    alloc: Global,
    state: &mut BrokerState,
    names: &[SubName],
    event: &Event,
    input: Option<&WirePacket>,
    plan: &mut Plan,
) -> Result<(), Memory>
    requires several { 2 ≤ length state.old.site.clusters }
    requires range { IsInRange state.old.site state.old.broker event.now }
    requires session { SessionRises state.old.broker event.now }
    requires seeks { SeekRises names.now state.old.broker event.now }
    requires number { MarkerRises state.old.site state.old.broker event.now }
    requires stored { IsWritable state.old.site state.old.broker }
    requires empty { IsEmptyPlan plan.old }
    ensures prepared { OnOk result (IsInputPrepared state.old.site state.old.broker (plan_at state.old.site names.now state.old.broker event.now) (option_copied input.entry) plan.new) }
    ensures room { OnOk result (HasRoom state.new.room plan.new) }
    ensures kept { SameState state.old state.new }
{
    match input {
        None => prepare(alloc, state, names, event, plan),
        Some(packet) => prepare_taking(alloc, state, names, event, packet, plan),
    }
}

/// The machine's plan of an event, with what a packet says. No other event looks at one than these three.
#[tactic(auto, using(crate::proofs::Prepares::can_write))]
fn prepare_taking(
    alloc: Global,
    state: &mut BrokerState,
    names: &[SubName],
    event: &Event,
    packet: &WirePacket,
    plan: &mut Plan,
) -> Result<(), Memory>
    requires several { 2 ≤ length state.old.site.clusters }
    requires range { IsInRange state.old.site state.old.broker event.now }
    requires session { SessionRises state.old.broker event.now }
    requires seeks { SeekRises names.now state.old.broker event.now }
    requires number { MarkerRises state.old.site state.old.broker event.now }
    requires stored { IsWritable state.old.site state.old.broker }
    requires empty { IsEmptyPlan plan.old }
    ensures prepared { OnOk result (IsInputPrepared state.old.site state.old.broker (plan_at state.old.site names.now state.old.broker event.now) (Some packet.now) plan.new) }
    ensures room { OnOk result (HasRoom state.new.room plan.new) }
    ensures kept { SameState state.old state.new }
{
    let _site = state.site();
    match *event {
        Event::Serve { client, .. } => serve(alloc, state, client, packet, plan),
        Event::Take { source, fate, .. } => take(alloc, state, source, fate, packet, plan),
        Event::Receipt { target, fate, .. } => receive(alloc, state, target, fate, packet, plan),
        _ => {
            let said = read_packet(alloc, state.site(), packet)?;
            // by a call, so that the end of a packet is proved by itself
            drop(said);
            prepare(alloc, state, names, event, plan)
        }
    }
}

/// The machine's plan of an event without a packet: one that takes one is not enabled. A client's event is none of a broker.
#[tactic(auto, unfolding(geo_base::specs::Serving::serve, geo_base::specs::Forwarding::take_packet, geo_base::specs::Forwarding::receipt), using(crate::proofs::Ready::idle_prepared, crate::proofs::Ready::idle_room, crate::proofs::Prepares::can_write))]
fn prepare(
    alloc: Global,
    state: &mut BrokerState,
    names: &[SubName],
    event: &Event,
    plan: &mut Plan,
) -> Result<(), Memory>
    requires several { 2 ≤ length state.old.site.clusters }
    requires range { IsInRange state.old.site state.old.broker event.now }
    requires session { SessionRises state.old.broker event.now }
    requires seeks { SeekRises names.now state.old.broker event.now }
    requires number { MarkerRises state.old.site state.old.broker event.now }
    requires stored { IsWritable state.old.site state.old.broker }
    requires empty { IsEmptyPlan plan.old }
    ensures prepared { OnOk result (IsPrepared state.old.site state.old.broker (plan_at state.old.site names.now state.old.broker event.now None) plan.new) }
    ensures room { OnOk result (HasRoom state.new.room plan.new) }
    ensures kept { SameState state.old state.new }
{
    let _site = state.site();
    match *event {
        Event::Drop { client, .. } => prepare_drop(state, client, plan),
        Event::Reset { target, .. } => prepare_reset(alloc, state, target, plan),
        Event::Read { target, .. } => prepare_read(alloc, state, target, plan),
        Event::Snap { .. } => prepare_snap(alloc, state, plan),
        Event::Offer { sub, .. } => prepare_offer(alloc, state, name_at(names, sub), plan),
        Event::Seek { sub, to, .. } => prepare_seek(alloc, state, name_at(names, sub), to, plan),
        Event::Restart { .. } => prepare_restart(state, plan),
        Event::Serve { .. }
        | Event::Take { .. }
        | Event::Receipt { .. }
        | Event::Go { .. }
        | Event::Get { .. }
        | Event::Reconnect { .. } => Ok(()),
    }
}

/// The name of a subscription by its number; no bytes past the end, which are no subscription's name.
pub(crate) fn name_at(names: &[SubName], number: u32) -> &[u8]
    ensures { result.now ≡ name_at names.now number }
{
    if (number as usize) < names.len() {
        names[number as usize].as_str().as_bytes()
    } else {
        b""
    }
}
