//! A broker and its clients' consumers: ACK.
ghost use Rattle.std.specs.Prelude.{◌≡◌, ◌<◌, ◌++◌, ◌∷◌, [], true, length, IfOk, IfSome, OnOk};
ghost use Rattle.std.specs.List.{All};
ghost use Rattle.geo_base.specs.declared.change.Change.TheVariants as change;
ghost use Rattle.geo_base.specs.Acknowledging.{acked_indexes, cumulative_indexes, serve_ack, stored_indexes, up_to, with_stored};
ghost use Rattle.geo_base.specs.Plan.{plan_of};
ghost use Rattle.geo_base.specs.Storing.{cursor_write};
ghost use Rattle.geo_base.specs.Subscribing.{consumed_by};
ghost use Rattle.geo_base.specs.Subscription.{has_consumer};
ghost use Rattle.broker_subs.specs.Steps.{SubWriteFits, machine_sub_write};
ghost use Rattle.broker_subs.specs.Table.{sub_at};
ghost use Rattle.broker_state.specs.Plan.{IsEmptyPlan};
ghost use Rattle.broker_state.specs.Room.{HasRoom};
ghost use Rattle.broker_state.specs.State.{SameState};
ghost use Rattle.broker_plans.specs.Prepared.{CanWrite, IsPrepared};
ghost use Rattle.broker_packets.specs.Acknowledging.{WritesAcks};

use crate::answering::ignore;
use broker_plans::{begin_write, sub_at, sub_index_consumed, update_after};
use broker_state::{BrokerState, Plan, StateChange};
use broker_subs::{SubChange, SubWrite};
use geo_base::{AckKind, Memory, Position, Sequence};
use std::alloc::Global;

/// What ACK names.
#[derive(Drop)]
pub(crate) struct Acked {
    pub id: u64,
    pub kind: AckKind,
    pub positions: Sequence<Position>,
}

/// What ACK will do: the consumer's subscription acknowledges the positions that are stored, or all up to the one position.
#[tactic(auto, using(crate::proofs::Acks::consumed, crate::proofs::Acks::no_acks, crate::proofs::Acks::some_acks))]
pub(crate) fn serve_ack(
    alloc: Global,
    state: &mut BrokerState,
    client: u32,
    acked: &Acked,
    plan: &mut Plan,
) -> Result<(), Memory>
    requires can { CanWrite state.old.site state.old.broker }
    requires empty { IsEmptyPlan plan.old }
    ensures prepared { OnOk result (IsPrepared state.old.site state.old.broker (serve_ack state.old.site state.old.broker acked.now.kind acked.now.positions (consumed_by state.old.broker.subs client acked.now.id)) plan.new) }
    ensures room { OnOk result (HasRoom state.new.room plan.new) }
    ensures kept { SameState state.old state.new }
{
    let Some(sub_index) = sub_index_consumed(state, client, acked.id) else {
        ignore(state, plan);
        return Ok(());
    };
    match acks(alloc, state, client, sub_index, acked)? {
        None => {
            ignore(state, plan);
            Ok(())
        }
        Some(write) => acknowledge(alloc, state, sub_index, write, plan),
    }
}

/// A write of the cursor of the subscription at a place, the update that follows it, and nothing acknowledged is out or due from
/// then on.
fn acknowledge(
    alloc: Global,
    state: &mut BrokerState,
    sub_index: usize,
    write: SubWrite,
    plan: &mut Plan,
) -> Result<(), Memory>
    requires can { CanWrite state.old.site state.old.broker }
    requires sub_index { sub_index < length state.old.broker.subs }
    requires fits { SubWriteFits state.old.broker.entries (sub_at state.old.broker.subs sub_index) write }
    requires empty { IsEmptyPlan plan.old }
    ensures prepared { OnOk result (IsPrepared state.old.site state.old.broker (plan_of (cursor_write state.old.site state.old.broker (sub_at state.old.broker.subs sub_index) (machine_sub_write (sub_at state.old.broker.subs sub_index).name state.old.broker.entries write)) (change.Acked (sub_at state.old.broker.subs sub_index).name ∷ []) []) plan.new) }
    ensures room { OnOk result (HasRoom state.new.room plan.new) }
    ensures kept { SameState state.old state.new }
{
    let _site = state.site();
    let update = update_after(
        alloc,
        state,
        sub_index,
        &write,
        sub_at(state, sub_index).cache(),
    )?;
    begin_write(state, sub_index, 0, write, update, plan)?;
    plan.change(StateChange::Sub(SubChange::Acked))?;
    Ok(())
}

/// The write that an ACK asks of the subscription at a place, where it names what is stored and the kind allows it.
fn acks(
    alloc: Global,
    state: &BrokerState,
    client: u32,
    sub_index: usize,
    acked: &Acked,
) -> Result<Option<SubWrite>, Memory>
    requires sub_index { sub_index < length state.now.broker.subs }
    requires consumed { has_consumer client acked.now.id (sub_at state.now.broker.subs sub_index) ≡ true }
    ensures { IfOk result (WritesAcks state.now.broker.entries (sub_at state.now.broker.subs sub_index) (acked_indexes state.now.broker.ledgers (sub_at state.now.broker.subs sub_index).kind acked.now.positions acked.now.kind)) }
{
    if sub_at(state, sub_index)
        .on_ack(client, acked.id, acked.kind)
        .is_err()
    {
        return Ok(None);
    }
    let positions = acked.positions.as_slice();
    match acked.kind {
        AckKind::Individual => acks_each(alloc, state, sub_index, positions),
        AckKind::Cumulative => Ok(acks_to(state, sub_index, positions)),
    }
}

/// Each of some positions that are stored.
#[tactic(auto, using(crate::proofs::Acks::writes_some))]
fn acks_each(
    alloc: Global,
    state: &BrokerState,
    sub_index: usize,
    positions: &[Position],
) -> Result<Option<SubWrite>, Memory>
    requires { sub_index < length state.now.broker.subs }
    ensures { IfOk result (WritesAcks state.now.broker.entries (sub_at state.now.broker.subs sub_index) (stored_indexes state.now.broker.ledgers positions.now)) }
{
    let indexes = stored_indexes(alloc, state, positions)?;
    Ok(some_acks(state, sub_index, indexes))
}

/// Some indexes, if there are any.
#[tactic(auto, using(crate::proofs::Acks::writes_none, crate::proofs::Acks::each_of))]
fn some_acks(state: &BrokerState, sub_index: usize, indexes: Sequence<u64>) -> Option<SubWrite>
    requires { All (λ i. i < length state.now.broker.entries) indexes }
    ensures { WritesAcks state.now.broker.entries (sub_at state.now.broker.subs sub_index) indexes result }
{
    if indexes.len() == 0 {
        return None;
    }
    Some(SubWrite::Acks(indexes))
}

/// All up to a position, if it is the only one and is stored.
fn acks_to(state: &BrokerState, sub_index: usize, positions: &[Position]) -> Option<SubWrite>
    ensures { WritesAcks state.now.broker.entries (sub_at state.now.broker.subs sub_index) (cumulative_indexes state.now.broker.ledgers positions.now) result }
{
    up_to(state, sub_index, only_index(state, positions))
}

/// All up to an index, if there is one.
#[tactic(auto, using(crate::proofs::Acks::writes_none, crate::proofs::Acks::writes_to))]
fn up_to(state: &BrokerState, sub_index: usize, index: Option<u64>) -> Option<SubWrite>
    requires { IfSome index (λ i. i < length state.now.broker.entries) }
    ensures { WritesAcks state.now.broker.entries (sub_at state.now.broker.subs sub_index) (up_to index) result }
{
    match index {
        None => None,
        Some(index) => Some(SubWrite::AckTo(index)),
    }
}

/// The index of the one position, if there is only one and it is stored.
fn only_index(state: &BrokerState, positions: &[Position]) -> Option<u64>
    ensures only { cumulative_indexes state.now.broker.ledgers positions.now ≡ up_to result }
    ensures within { IfSome result (λ i. i < length state.now.broker.entries) }
{
    let [position] = positions else {
        return None;
    };
    state.index_of(*position)
}

/// The indexes of the positions that are stored.
fn stored_indexes(
    alloc: Global,
    state: &BrokerState,
    positions: &[Position],
) -> Result<Sequence<u64>, Memory>
    ensures indexes { IfOk result (λ is. is ≡ stored_indexes state.now.broker.ledgers positions.now) }
    ensures within { IfOk result (λ is. All (λ i. i < length state.now.broker.entries) is) }
{
    let mut indexes = Sequence::new(alloc);
    for position in positions {
        add(&mut indexes, state.index_of(*position), state)?;
    }
    Ok(indexes)
}

/// One more index, if there is one.
#[tactic(auto, using(crate::proofs::Acks::all_with))]
fn add(indexes: &mut Sequence<u64>, index: Option<u64>, state: &BrokerState) -> Result<(), Memory>
    requires old { All (λ i. i < length state.now.broker.entries) indexes.old }
    requires one { IfSome index (λ i. i < length state.now.broker.entries) }
    ensures indexes { OnOk result (indexes.new ≡ indexes.old ++ with_stored index []) }
    ensures within { OnOk result (All (λ i. i < length state.now.broker.entries) indexes.new) }
{
    match index {
        None => Ok(()),
        Some(index) => indexes.push(index),
    }
}
