//! offer: the dispatcher of a subscription chooses. A message goes to a consumer that has a permit; a marker needs none, and the
//! subscription catches up with it.
ghost use Rattle.std.specs.Prelude.{◌≡◌, ◌+◌, ◌<◌, ◌≤◌, ◌^◌, [], ◌∷◌, length, IfOk, OnOk};
ghost use Rattle.geo_base.specs.Broker.{session_at};
ghost use Rattle.geo_base.specs.Dispatcher.{pick};
ghost use Rattle.geo_base.specs.Offering.{message, number_of, offer};
ghost use Rattle.geo_base.specs.Topic.{position_at};
ghost use Rattle.dispatcher.specs.declared.offering.Choice.TheVariants as does;
ghost use Rattle.dispatcher.specs.Dispatch.{dispatch_of};
ghost use Rattle.dispatcher.specs.Events.{plan_of_choice};
ghost use Rattle.dispatcher.specs.Offers.{ChoiceFits, choice};
ghost use Rattle.broker_subs.specs.Table.{room_at, sub_at};
ghost use Rattle.broker_state.specs.Plan.{IsEmptyPlan};
ghost use Rattle.broker_state.specs.Room.{HasRoom};
ghost use Rattle.broker_state.specs.State.{SameState};
ghost use Rattle.broker_plans.specs.Prepared.{ArePackets, CanWrite, IsPrepared};
ghost use Rattle.broker_plans.specs.Storable.{IsStorable};
ghost use Rattle.broker_tasks.specs.Offering.{gives};

use crate::act::entry_at;
use crate::caching::own_snapshot;
use crate::catching_up::catch_up;
use broker_plans::{message_text, sub_at, sub_index_named};
use broker_state::{BrokerState, Plan, StateChange};
use broker_subs::SubChange;
use dispatcher::Choice;
use geo_base::{Consumer, Entry, EntryStore, Memory, Peer, Position, WireOut};
use std::alloc::Global;
use topic_store::or_first;

/// The message at an index goes to the consumer at a place in the order, `to`, of the subscription at a place.
#[derive(Clone, Copy, Drop)]
struct Giving {
    sub_index: usize,
    index: u64,
    to: usize,
}

/// What an offer of the subscription of a name will do; idle where there is none, where nothing is due, and where a message is due
/// and no consumer for it has a permit. Only room is made; an `Err` is want of memory.
pub fn prepare_offer(
    alloc: Global,
    state: &mut BrokerState,
    name: &[u8],
    plan: &mut Plan,
) -> Result<(), Memory>
    requires can { CanWrite state.old.site state.old.broker }
    requires empty { IsEmptyPlan plan.old }
    ensures prepared { OnOk result (IsPrepared state.old.site state.old.broker (offer state.old.site state.old.broker name.now) plan.new) }
    ensures room { OnOk result (HasRoom state.new.room plan.new) }
    ensures kept { SameState state.old state.new }
{
    let Some(sub_index) = sub_index_named(state, name) else {
        return Ok(());
    };
    match choice(state, sub_index) {
        Choice::Idle => Ok(()),
        Choice::Skip(index) => pass_by(alloc, state, sub_index, index, plan),
        Choice::Give { index, place: to } => {
            give_message(
                alloc,
                state,
                Giving {
                    sub_index,
                    index,
                    to,
                },
                plan,
            )
        }
    }
}

/// What the dispatcher of the subscription at a place chooses.
fn choice(state: &BrokerState, sub_index: usize) -> Choice
    requires { sub_index < length state.now.broker.subs }
    ensures choice { result ≡ choice pick (dispatch_of (sub_at state.now.broker.subs sub_index)) (sub_at state.now.broker.subs sub_index).cursor state.now.broker.entries }
    ensures fits { ChoiceFits (length (sub_at state.now.broker.subs sub_index).consumers) (length state.now.broker.entries) result }
{
    sub_at(state, sub_index).choice(state.store())
}

/// The subscription at a place catches up with the marker at an index.
fn pass_by(
    alloc: Global,
    state: &mut BrokerState,
    sub_index: usize,
    index: u64,
    plan: &mut Plan,
) -> Result<(), Memory>
    requires can { CanWrite state.old.site state.old.broker }
    requires sub_index { sub_index < length state.old.broker.subs }
    requires index { index < length state.old.broker.entries }
    requires next { index + 1 < 2 ^ 64 }
    requires empty { IsEmptyPlan plan.old }
    ensures prepared { OnOk result (IsPrepared state.old.site state.old.broker (plan_of_choice state.old.site state.old.broker (sub_at state.old.broker.subs sub_index) (does.Skip index)) plan.new) }
    ensures room { OnOk result (HasRoom state.new.room plan.new) }
    ensures kept { SameState state.old state.new }
{
    let snapshot = own_snapshot(alloc, state, sub_index, entry_at(state, index))?;
    catch_up(alloc, state, sub_index, index, snapshot, plan)
}

/// A message is given to its consumer.
fn give_message(
    alloc: Global,
    state: &mut BrokerState,
    giving: Giving,
    plan: &mut Plan,
) -> Result<(), Memory>
    requires can { CanWrite state.old.site state.old.broker }
    requires sub_index { giving.sub_index < length state.old.broker.subs }
    requires index { giving.index < length state.old.broker.entries }
    requires next { giving.index + 1 < 2 ^ 64 }
    requires to { giving.to < length (sub_at state.old.broker.subs giving.sub_index).consumers }
    requires empty { IsEmptyPlan plan.old }
    ensures prepared { OnOk result (IsPrepared state.old.site state.old.broker (plan_of_choice state.old.site state.old.broker (sub_at state.old.broker.subs giving.sub_index) (does.Give giving.index giving.to)) plan.new) }
    ensures room { OnOk result (HasRoom state.new.room plan.new) }
    ensures kept { SameState state.old state.new }
{
    state.reserve_sub(giving.sub_index, 1, 0)?;
    give_entry(alloc, state, giving, entry_at(state, giving.index), plan)
}

/// An entry is given to its consumer in a packet.
#[tactic(auto, using(crate::proofs::Shapes::given_room))]
fn give_entry(
    alloc: Global,
    state: &BrokerState,
    giving: Giving,
    entry: &Entry,
    plan: &mut Plan,
) -> Result<(), Memory>
    requires storable { IsStorable state.now.site entry.now }
    requires sub_index { giving.sub_index < length state.now.broker.subs }
    requires next { giving.index + 1 < 2 ^ 64 }
    requires to { giving.to < length (sub_at state.now.broker.subs giving.sub_index).consumers }
    requires some { 1 ≤ (room_at state.now.room.subs giving.sub_index).room }
    requires empty { IsEmptyPlan plan.old }
    ensures prepared { OnOk result (IsPrepared state.now.site state.now.broker (gives state.now.site state.now.broker (sub_at state.now.broker.subs giving.sub_index) giving.index giving.to entry.now) plan.new) }
    ensures room { OnOk result (HasRoom state.now.room plan.new) }
{
    let Giving {
        sub_index,
        index,
        to,
    } = giving;
    let consumer = &sub_at(state, sub_index).consumers()[to];
    let packet = message(alloc, state, index, entry, consumer)?;
    plan.begin(sub_index);
    plan.change(StateChange::Sub(SubChange::Given {
        index,
        consumer_index: to,
    }))?;
    plan.send(packet)?;
    Ok(())
}

/// The packet that gives the entry at an index to a consumer.
fn message(
    alloc: Global,
    state: &BrokerState,
    index: u64,
    entry: &Entry,
    consumer: &Consumer,
) -> Result<WireOut, Memory>
    requires { IsStorable state.now.site entry.now }
    ensures { IfOk result (λ o. ArePackets state.now.site.clusters (message state.now.site state.now.broker index entry.now consumer.now) (o ∷ [])) }
{
    let position = position_at(state, index);
    let frame = message_text(alloc, state, consumer.id, position, entry)?;
    Ok(WireOut {
        to: Peer::Client(consumer.client),
        session: session_number(state, consumer.client),
        frame,
    })
}

/// The position of the entry at an index.
fn position_at(state: &BrokerState, index: u64) -> Position
    ensures { result ≡ position_at state.now.broker.ledgers index }
{
    or_first(state.store().position_of(index as usize))
}

/// The number of the session that a client has open; 0 where it has none.
fn session_number(state: &BrokerState, client: u32) -> u64
    ensures { result ≡ number_of (session_at state.now.broker client) }
{
    match state.sessions().get(client as usize) {
        Some(Some(session)) => session.number,
        _ => 0,
    }
}
