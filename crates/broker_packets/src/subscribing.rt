//! A broker and its clients' consumers: SUBSCRIBE.
ghost use Rattle.std.specs.Prelude.{◌≡◌, ◌<◌, ◌∷◌, [], ◌&&◌, true, false, None, Some, not, length, IfOk, OnOk};
ghost use Rattle.std.specs.List.{list_any};
ghost use Rattle.std.specs.Str.{bytes_eq};
ghost use Rattle.geo_base.specs.declared.write.Write.TheVariants as write;
ghost use Rattle.geo_base.specs.Broker.{sub_named};
ghost use Rattle.geo_base.specs.Name.{is_name};
ghost use Rattle.geo_base.specs.Subscribing.{altering, has_room, is_busy, joins, same_kind, serve_subscribe, subscribes};
ghost use Rattle.geo_base.specs.Subscription.{is_attached};
ghost use Rattle.broker_subs.specs.Table.{room_at, sub_at};
ghost use Rattle.broker_state.specs.Plan.{IsEmptyPlan, quiet_view};
ghost use Rattle.broker_state.specs.Room.{HasRoom};
ghost use Rattle.broker_state.specs.State.{SameState};
ghost use Rattle.broker_plans.specs.Prepared.{IsPrepared};
ghost use Rattle.broker_packets.specs.Serving.{IsOpen, open_at};
ghost use Rattle.broker_packets.specs.Subscribing.{alter_writes, altered, attach, denial, joining};

use crate::answering::{CONSUMER_BUSY, UNKNOWN_ERROR, also_answer, refuse};
use broker_plans::{sub_at, sub_index_named};
use broker_state::{BrokerState, Plan, StateChange, StateWrite};
use broker_subs::{Sub, SubChange, SubWrite};
use geo_base::limits::SUBSCRIPTIONS;
use geo_base::{Consumer, Frame, Memory, NameFault, SubKind, SubName, Text, name_text};
use std::alloc::Global;

/// What SUBSCRIBE asks for.
#[derive(Drop)]
pub(crate) struct Joining {
    pub topic: Text,
    pub sub: Text,
    pub kind: SubKind,
    pub id: u64,
    pub request: u64,
    pub earliest: bool,
    pub replicated: bool,
}

/// What SUBSCRIBE will do.
pub(crate) fn serve_subscribe(
    alloc: Global,
    state: &mut BrokerState,
    client: u32,
    asked: &Joining,
    plan: &mut Plan,
) -> Result<(), Memory>
    requires open { IsOpen state.old.broker client }
    requires empty { IsEmptyPlan plan.old }
    ensures prepared { OnOk result (IsPrepared state.old.site state.old.broker (serve_subscribe state.old.site state.old.broker client (open_at state.old.broker client) asked.now.topic asked.now.sub asked.now.kind asked.now.id asked.now.request asked.now.earliest asked.now.replicated) plan.new) }
    ensures room { OnOk result (HasRoom state.new.room plan.new) }
    ensures kept { SameState state.old state.new }
{
    match denial(state, client, asked) {
        Some(code) => refuse(alloc, state, client, asked.request, code, plan),
        None => subscribe(alloc, state, client, asked, plan),
    }
}

/// Why a client may not subscribe, as a ServerError, if it may not: unknown for another topic, for a name that is none, and for a
/// subscription beyond the most that a topic has; busy for a client that has a consumer.
fn denial(state: &BrokerState, client: u32, asked: &Joining) -> Option<u64>
    ensures denial { result ≡ denial state.now.site state.now.broker client asked.now.topic asked.now.sub }
    ensures named { result ≡ None → is_name asked.now.sub ≡ true }
    ensures apart { result ≡ None → list_any (is_attached client) state.now.broker.subs ≡ false }
{
    if !admits(state, asked) {
        return Some(UNKNOWN_ERROR);
    }
    if state.subs().is_attached(client) {
        return Some(CONSUMER_BUSY);
    }
    None
}

/// Whether a subscription of this name and topic is here or may be made.
fn admits(state: &BrokerState, asked: &Joining) -> bool
    ensures admits { result ≡ (bytes_eq asked.now.topic state.now.site.topic && is_name asked.now.sub && has_room state.now.broker asked.now.sub) }
    ensures named { result ≡ true → is_name asked.now.sub ≡ true }
{
    asked.topic.as_bytes() == state.site().topic().as_str().as_bytes()
        && is_name(asked.sub.as_bytes())
        && has_room(state, &asked.sub)
}

/// Whether bytes are a name.
fn is_name(word: &[u8]) -> bool
    ensures { result ≡ is_name word.now }
{
    name_text(word).is_some()
}

#[tactic(auto, using(broker_plans::proofs::Places::many))]
fn has_room(state: &BrokerState, sub: &Text) -> bool
    ensures { result ≡ has_room state.now.broker sub.now }
{
    sub_index_named(state, sub.as_bytes()).is_some() || state.subs().len() < SUBSCRIPTIONS
}

/// A consumer joins a subscription, which is created where there is none.
#[tactic(auto, using(crate::proofs::Joins::apart_named))]
fn subscribe(
    alloc: Global,
    state: &mut BrokerState,
    client: u32,
    asked: &Joining,
    plan: &mut Plan,
) -> Result<(), Memory>
    requires open { IsOpen state.old.broker client }
    requires named { is_name asked.now.sub ≡ true }
    requires apart { list_any (is_attached client) state.old.broker.subs ≡ false }
    requires empty { IsEmptyPlan plan.old }
    ensures prepared { OnOk result (IsPrepared state.old.site state.old.broker (subscribes client (open_at state.old.broker client) asked.now.sub asked.now.kind asked.now.id asked.now.request asked.now.earliest asked.now.replicated (sub_named state.old.broker.subs asked.now.sub)) plan.new) }
    ensures room { OnOk result (HasRoom state.new.room plan.new) }
    ensures kept { SameState state.old state.new }
{
    match sub_index_named(state, asked.sub.as_bytes()) {
        None => create_and_join(alloc, state, client, asked, plan),
        Some(sub_index) => join_unless_busy(alloc, state, client, sub_index, asked, plan),
    }
}

/// A consumer joins the subscription of its name, which is at a place, unless it is busy.
fn join_unless_busy(
    alloc: Global,
    state: &mut BrokerState,
    client: u32,
    sub_index: usize,
    asked: &Joining,
    plan: &mut Plan,
) -> Result<(), Memory>
    requires open { IsOpen state.old.broker client }
    requires sub_index { sub_index < length state.old.broker.subs }
    requires there { sub_named state.old.broker.subs asked.now.sub ≡ Some (sub_at state.old.broker.subs sub_index) }
    requires apart { is_attached client (sub_at state.old.broker.subs sub_index) ≡ false }
    requires empty { IsEmptyPlan plan.old }
    ensures prepared { OnOk result (IsPrepared state.old.site state.old.broker (subscribes client (open_at state.old.broker client) asked.now.sub asked.now.kind asked.now.id asked.now.request asked.now.earliest asked.now.replicated (Some (sub_at state.old.broker.subs sub_index))) plan.new) }
    ensures room { OnOk result (HasRoom state.new.room plan.new) }
    ensures kept { SameState state.old state.new }
{
    if is_busy(state, client, sub_index, asked.kind) {
        refuse(alloc, state, client, asked.request, CONSUMER_BUSY, plan)
    } else {
        join(alloc, state, client, sub_index, asked, plan)
    }
}

/// Whether consumers are at the subscription at a place that one of a kind can't join, of a client that has none there.
#[tactic(auto, using(crate::proofs::Joins::turned_away))]
fn is_busy(state: &BrokerState, client: u32, sub_index: usize, kind: SubKind) -> bool
    requires sub_index { sub_index < length state.now.broker.subs }
    requires apart { is_attached client (sub_at state.now.broker.subs sub_index) ≡ false }
    ensures { result ≡ is_busy kind (sub_at state.now.broker.subs sub_index) }
{
    sub_at(state, sub_index).busy(client, kind)
}

/// A consumer joins a subscription that is created first.
fn create_and_join(
    alloc: Global,
    state: &mut BrokerState,
    client: u32,
    asked: &Joining,
    plan: &mut Plan,
) -> Result<(), Memory>
    requires open { IsOpen state.old.broker client }
    requires named { is_name asked.now.sub ≡ true }
    requires missing { sub_named state.old.broker.subs asked.now.sub ≡ None }
    requires empty { IsEmptyPlan plan.old }
    ensures prepared { OnOk result (IsPrepared state.old.site state.old.broker (joins client (open_at state.old.broker client) asked.now.sub asked.now.id asked.now.request (write.Create asked.now.sub asked.now.kind asked.now.replicated (not asked.now.earliest) ∷ [])) plan.new) }
    ensures room { OnOk result (HasRoom state.new.room plan.new) }
    ensures kept { SameState state.old state.new }
{
    state.reserve_places(1)?;
    prepare_create(alloc, state, client, asked, plan)?;
    let success = Frame::Success {
        request: asked.request,
    };
    also_answer(alloc, state, client, plan, success)?;
    Ok(())
}

/// The subscription is created, and the consumer joins it.
fn prepare_create(
    alloc: Global,
    state: &BrokerState,
    client: u32,
    asked: &Joining,
    plan: &mut Plan,
) -> Result<(), Memory>
    requires named { is_name asked.now.sub ≡ true }
    requires missing { sub_named state.now.broker.subs asked.now.sub ≡ None }
    requires places { state.now.room.places ≡ 1 }
    requires empty { IsEmptyPlan plan.old }
    ensures prepared { OnOk result (IsPrepared state.now.site state.now.broker (joining client asked.now.sub asked.now.id (write.Create asked.now.sub asked.now.kind asked.now.replicated (not asked.now.earliest) ∷ [])) plan.new) }
    ensures room { OnOk result (HasRoom state.now.room plan.new) }
{
    let name = sub_name(alloc, &asked.sub)?;
    let sub = Sub::new(alloc, name, asked.kind, asked.replicated, 1, 1)?;
    plan.begin(state.subs().len());
    plan.write(StateWrite::Create {
        sub,
        latest: !asked.earliest,
    })?;
    plan.change(attach(client, asked.id))?;
    Ok(())
}

/// A consumer joins the subscription at a place.
fn join(
    alloc: Global,
    state: &mut BrokerState,
    client: u32,
    sub_index: usize,
    asked: &Joining,
    plan: &mut Plan,
) -> Result<(), Memory>
    requires open { IsOpen state.old.broker client }
    requires sub_index { sub_index < length state.old.broker.subs }
    requires free { is_busy asked.now.kind (sub_at state.old.broker.subs sub_index) ≡ false }
    requires empty { IsEmptyPlan plan.old }
    ensures prepared { OnOk result (IsPrepared state.old.site state.old.broker (joins client (open_at state.old.broker client) (sub_at state.old.broker.subs sub_index).name asked.now.id asked.now.request (altering (sub_at state.old.broker.subs sub_index) asked.now.kind asked.now.replicated)) plan.new) }
    ensures room { OnOk result (HasRoom state.new.room plan.new) }
    ensures kept { SameState state.old state.new }
{
    state.reserve_sub(sub_index, 1, 0)?;
    prepare_join(state, client, sub_index, asked, plan)?;
    let success = Frame::Success {
        request: asked.request,
    };
    also_answer(alloc, state, client, plan, success)?;
    Ok(())
}

/// The subscription at a place takes the kind that came, where it has another one, and the consumer joins it.
fn prepare_join(
    state: &BrokerState,
    client: u32,
    sub_index: usize,
    asked: &Joining,
    plan: &mut Plan,
) -> Result<(), Memory>
    requires sub_index { sub_index < length state.now.broker.subs }
    requires free { is_busy asked.now.kind (sub_at state.now.broker.subs sub_index) ≡ false }
    requires given { (room_at state.now.room.subs sub_index).room ≡ 1 }
    requires empty { IsEmptyPlan plan.old }
    ensures prepared { OnOk result (IsPrepared state.now.site state.now.broker (joining client (sub_at state.now.broker.subs sub_index).name asked.now.id (altering (sub_at state.now.broker.subs sub_index) asked.now.kind asked.now.replicated)) plan.new) }
    ensures room { OnOk result (HasRoom state.now.room plan.new) }
{
    let altered = alter_write(sub_at(state, sub_index), asked.kind, asked.replicated);
    prepare_alter(sub_index, altered, plan)?;
    plan.change(attach(client, asked.id))?;
    Ok(())
}

/// The consumer comes last in order, without permits.
fn attach(client: u32, id: u64) -> StateChange
    ensures { result ≡ attach client id }
{
    StateChange::Sub(SubChange::Attach(Consumer {
        client,
        id,
        permits: 0,
    }))
}

/// The event that alters the subscription at a place, where it is altered.
fn prepare_alter(sub_index: usize, altered: Option<SubWrite>, plan: &mut Plan) -> Result<(), Memory>
    requires empty { IsEmptyPlan plan.old }
    ensures { OnOk result (plan.new ≡ record (quiet_view sub_index) { writes = alter_writes altered }) }
{
    plan.begin(sub_index);
    if let Some(write) = altered {
        plan.write(StateWrite::Sub(write))?;
    }
    Ok(())
}

/// The write that gives a subscription the kind that came, and the mark that it is replicated, where that changes it.
fn alter_write(sub: &Sub, kind: SubKind, replicated: bool) -> Option<SubWrite>
    ensures { result ≡ altered sub.now.sub kind replicated }
{
    let now = sub.is_replicated();
    if is_same_kind(kind, sub.kind()) && (now || !replicated) {
        return None;
    }
    Some(SubWrite::Alter {
        kind,
        replicated: now || replicated,
    })
}

fn is_same_kind(one: SubKind, other: SubKind) -> bool
    ensures { result ≡ same_kind one other }
{
    one == other
}

/// The name that a text is.
fn sub_name(alloc: Global, text: &Text) -> Result<SubName, Memory>
    requires { is_name text.now ≡ true }
    ensures { IfOk result (λ name. name ≡ text.now) }
{
    match SubName::read(alloc, text.as_str()) {
        Ok(name) => Ok(name),
        Err(NameFault::Memory) => Err(Memory),
        Err(_) => unreachable!(),
    }
}
