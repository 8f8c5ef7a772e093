//! An update of another cluster (PIP-33): a subscription acknowledges what its mark there has passed.
ghost use Rattle.std.specs.Prelude.{◌≡◌, ◌<◌, ◌≤◌, ◌+◌, ◌^◌, ◌∷◌, [], None, true, length, IfOk, IfSome, OnOk};
ghost use Rattle.geo_base.specs.declared.change.Change.TheVariants as change;
ghost use Rattle.geo_base.specs.declared.frame.SubKind.TheVariants as sub_kind;
ghost use Rattle.geo_base.specs.declared.write.Write.TheVariants as write;
ghost use Rattle.geo_base.specs.Broker.{sub_named};
ghost use Rattle.geo_base.specs.Name.{is_name};
ghost use Rattle.geo_base.specs.Storing.{cursor_write};
ghost use Rattle.geo_base.specs.Subscribing.{has_room};
ghost use Rattle.geo_base.specs.Subscription.{new_subscription};
ghost use Rattle.geo_base.specs.Updating.{handled, only_index, updated_indexes, update_writes, positions_for, read_update};
ghost use Rattle.broker_subs.specs.Table.{sub_at};
ghost use Rattle.broker_subs.specs.declared.writing.SubWrite.TheVariants as sub_write;
ghost use Rattle.broker_state.specs.Plan.{IsEmptyPlan};
ghost use Rattle.broker_state.specs.Room.{HasRoom};
ghost use Rattle.broker_state.specs.State.{SameState};
ghost use Rattle.broker_plans.specs.Prepared.{CanWrite, IsPrepared};
ghost use Rattle.broker_tasks.specs.Reading.{IsRead, IsReading, ReadRoom, handled_view};
ghost use Rattle.broker_tasks.specs.Updating.{acked_view, creating_writes, listed, update_acks};

use crate::act::{ReadAct, ReadAt, acknowledge_read, skip};
use crate::hearing::means_cluster;
use broker_plans::{begin_write, sub_at, sub_index_named, update_after};
use broker_state::{BrokerState, Plan, StateChange, StateWrite};
use broker_subs::{Sub, SubChange, SubWrite};
use cursor_acks::Cursor;
use geo_base::limits::SUBSCRIPTIONS;
use geo_base::{ClusterPosition, Memory, NameFault, Position, SubKind, SubName, Text, name_text};
use std::alloc::Global;

/// What is to be done with an update. It has no effect unless it names exactly one position for the own cluster and that is stored, and
/// its name is a name of a subscription that is here or may be made (own).
pub(crate) fn read_update(
    alloc: Global,
    state: &BrokerState,
    at: ReadAt,
    sub: &Text,
    remote: &[ClusterPosition],
    plan: &mut Plan,
) -> Result<ReadAct, Memory>
    requires reading { IsReading state.now.site state.now.broker at.remote at.index }
    requires room { ReadRoom state.now.room }
    requires empty { IsEmptyPlan plan.old }
    ensures { IfOk result (λ a. IsRead state.now.site state.now.broker state.now.room at.remote at.index (read_update state.now.site state.now.broker at.remote at.index sub.now remote.now) a plan.new) }
{
    let Some(to) = only_index(state, remote) else {
        skip(state, at, plan)?;
        return Ok(ReadAct::Ready);
    };
    if !is_name(sub.as_bytes()) || !has_room(state, sub) {
        skip(state, at, plan)?;
        return Ok(ReadAct::Ready);
    }
    let sub = sub_name(alloc, sub)?;
    Ok(ReadAct::Acknowledges { sub, to })
}

/// The index of the one position that an update names for the own cluster, where it names exactly one and that is stored.
fn only_index(state: &BrokerState, remote: &[ClusterPosition]) -> Option<u64>
    ensures index { result ≡ only_index state.now.broker.ledgers (positions_for state.now.site.own remote.now) }
    ensures within { IfSome result (λ j. j < length state.now.broker.entries) }
{
    let mut only = None;
    for named in remote {
        if means_cluster(state.site().own(), &named.cluster) {
            if only.is_some() {
                return None;
            }
            only = Some(named.position);
        }
    }
    index_of(state, only)
}

/// The index of a position, if there is one and it is stored.
fn index_of(state: &BrokerState, position: Option<Position>) -> Option<u64>
    ensures index { result ≡ only_index state.now.broker.ledgers (listed position) }
    ensures within { IfSome result (λ j. j < length state.now.broker.entries) }
{
    match position {
        None => None,
        Some(position) => state.index_of(position),
    }
}

/// Whether bytes are a name.
fn is_name(word: &[u8]) -> bool
    ensures { result ≡ is_name word.now }
{
    name_text(word).is_some()
}

/// Whether a subscription of a name is here or may be made.
#[tactic(auto, using(broker_plans::proofs::Places::many))]
fn has_room(state: &BrokerState, sub: &Text) -> bool
    ensures { result ≡ has_room state.now.broker sub.now }
{
    sub_index_named(state, sub.as_bytes()).is_some() || state.subs().len() < SUBSCRIPTIONS
}

/// The name that a text is.
fn sub_name(alloc: Global, text: &Text) -> Result<SubName, Memory>
    requires { is_name text.now ≡ true }
    ensures { IfOk result (λ name. name ≡ text.now) }
{
    match SubName::read(alloc, text.as_str()) {
        Ok(name) => Ok(name),
        Err(NameFault::Memory) => Err(Memory),
        Err(_) => unreachable!(),
    }
}

/// What an update will do to the subscription of a name, which is created at Earliest, replicated and Exclusive, where it is missing;
/// one that is here is not changed otherwise, and need not be marked replicated (own).
#[tactic(auto, using(crate::proofs::Acknowledged::missing_prepared, crate::proofs::Acknowledged::there_prepared))]
pub(crate) fn acknowledge(
    alloc: Global,
    state: &mut BrokerState,
    at: ReadAt,
    sub: SubName,
    to: u64,
    plan: &mut Plan,
) -> Result<(), Memory>
    requires can { CanWrite state.old.site state.old.broker }
    requires reading { IsReading state.old.site state.old.broker at.remote at.index }
    requires replicators { 1 ≤ state.old.room.replicators }
    requires to { to < length state.old.broker.entries }
    requires empty { IsEmptyPlan plan.old }
    ensures prepared { OnOk result (IsPrepared state.old.site state.old.broker (handled at.remote at.index (update_writes state.old.site state.old.broker sub (updated_indexes at.remote 0 (to + 1) state.old.broker.entries) (sub_named state.old.broker.subs sub)) (change.Acked sub ∷ [])) plan.new) }
    ensures room { OnOk result (HasRoom state.new.room plan.new) }
    ensures kept { SameState state.old state.new }
{
    match sub_index_named(state, sub.as_str().as_bytes()) {
        None => create(alloc, state, at, sub, to, plan),
        Some(sub_index) => acknowledge_at(alloc, state, at, sub_index, to, plan),
    }
}

/// The subscription at a place acknowledges what the other cluster could have had up to an index.
fn acknowledge_at(
    alloc: Global,
    state: &mut BrokerState,
    at: ReadAt,
    sub_index: usize,
    to: u64,
    plan: &mut Plan,
) -> Result<(), Memory>
    requires can { CanWrite state.old.site state.old.broker }
    requires reading { IsReading state.old.site state.old.broker at.remote at.index }
    requires replicators { 1 ≤ state.old.room.replicators }
    requires sub_index { sub_index < length state.old.broker.subs }
    requires to { to < length state.old.broker.entries }
    requires empty { IsEmptyPlan plan.old }
    ensures prepared { OnOk result (IsPrepared state.old.site state.old.broker (handled at.remote at.index (cursor_write state.old.site state.old.broker (sub_at state.old.broker.subs sub_index) (write.Acks (sub_at state.old.broker.subs sub_index).name (updated_indexes at.remote 0 (to + 1) state.old.broker.entries))) (change.Acked (sub_at state.old.broker.subs sub_index).name ∷ [])) plan.new) }
    ensures room { OnOk result (HasRoom state.new.room plan.new) }
    ensures kept { SameState state.old state.new }
{
    let _site = state.site();
    let write = update_acks(state, sub_at(state, sub_index).cursor(), at.remote, to);
    let update = update_after(
        alloc,
        state,
        sub_index,
        &write,
        sub_at(state, sub_index).cache(),
    )?;
    begin_write(state, sub_index, 0, write, update, plan)?;
    plan.change(StateChange::Sub(SubChange::Acked))?;
    acknowledge_read(plan, at)
}

/// The write of a cursor by an update of a cluster.
fn update_acks(state: &BrokerState, cursor: &Cursor, remote: u32, to: u64) -> SubWrite
    ensures { result ≡ update_acks state.now.broker.entries cursor.now.indexes remote to }
{
    SubWrite::UpdateTo {
        index: to,
        from: remote,
        runs: replicated_subs::runs(cursor, state.store(), to, remote),
    }
}

/// A subscription of this name is created, and acknowledges what the other cluster could have had up to an index.
fn create(
    alloc: Global,
    state: &mut BrokerState,
    at: ReadAt,
    sub: SubName,
    to: u64,
    plan: &mut Plan,
) -> Result<(), Memory>
    requires reading { IsReading state.old.site state.old.broker at.remote at.index }
    requires replicators { 1 ≤ state.old.room.replicators }
    requires missing { sub_named state.old.broker.subs sub ≡ None }
    requires to { to < length state.old.broker.entries }
    requires empty { IsEmptyPlan plan.old }
    ensures prepared { OnOk result (IsPrepared state.old.site state.old.broker (handled at.remote at.index (update_writes state.old.site state.old.broker sub (updated_indexes at.remote 0 (to + 1) state.old.broker.entries) None) (change.Acked sub ∷ [])) plan.new) }
    ensures room { OnOk result (HasRoom state.new.room plan.new) }
    ensures kept { SameState state.old state.new }
{
    let runs = replicated_subs::runs(&Cursor::none(alloc), state.store(), to, at.remote);
    state.reserve_places(1)?;
    let sub = created(alloc, sub, runs)?;
    begin_created(state.subs().len(), at, sub, to, runs, plan)
}

/// A replicated subscription of this name at Earliest, with room for what it acknowledges.
fn created(alloc: Global, name: SubName, runs: usize) -> Result<Sub, Memory>
    ensures sub { IfOk result (λ s. s.sub ≡ new_subscription name sub_kind.Exclusive true []) }
    ensures acks { IfOk result (λ s. runs + 1 ≤ s.acks) }
{
    match runs.checked_add(1) {
        Some(acks) => Sub::new(alloc, name, SubKind::Exclusive, true, 0, acks),
        None => {
            drop(name);
            Err(Memory)
        }
    }
}

/// An event that creates a subscription at a place and writes its cursor.
fn begin_created(
    sub_index: usize,
    at: ReadAt,
    sub: Sub,
    to: u64,
    runs: usize,
    plan: &mut Plan,
) -> Result<(), Memory>
    requires fits { at.index + 1 < 2 ^ 64 }
    requires empty { IsEmptyPlan plan.old }
    ensures { OnOk result (plan.new ≡ handled_view at.remote at.index (acked_view sub_index (creating_writes sub (sub_write.UpdateTo to at.remote runs)))) }
{
    plan.begin(sub_index);
    plan.write(StateWrite::Create { sub, latest: false })?;
    plan.write(StateWrite::Sub(SubWrite::UpdateTo {
        index: to,
        from: at.remote,
        runs,
    }))?;
    plan.change(StateChange::Sub(SubChange::Acked))?;
    acknowledge_read(plan, at)
}
