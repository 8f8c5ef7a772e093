//! A broker and its clients' producers: PRODUCER and CLOSE_PRODUCER.
ghost use Rattle.std.specs.Prelude.{◌≡◌, ◌<◌, ◌≤◌, ◌++◌, ◌∷◌, ◌&&◌, [], true, None, Some, length, IfOk, OnOk};
ghost use Rattle.std.specs.List.{list_any};
ghost use Rattle.std.specs.Option.{option_copied};
ghost use Rattle.std.specs.Str.{bytes_eq};
ghost use Rattle.geo_base.specs.Answers.{succeeds};
ghost use Rattle.geo_base.specs.Plan.{plan_of};
ghost use Rattle.geo_base.specs.Producing.{attaches, is_taken, may_attach, name_with, serve_close_producer, serve_producer, uses_name, with_producers, without_producer};
ghost use Rattle.broker_state.specs.Plan.{IsEmptyPlan};
ghost use Rattle.broker_state.specs.Room.{HasRoom, Room};
ghost use Rattle.broker_plans.specs.Prepared.{IsPrepared};
ghost use Rattle.broker_packets.specs.Producing.{has_id, refusal};
ghost use Rattle.broker_packets.specs.Serving.{IsOpen, open_at};

use crate::answering::{
    PRODUCER_BUSY, UNKNOWN_ERROR, also_answer, open_producers, open_session, refuse,
};
use broker_state::{BrokerState, Plan, StateChange};
use geo_base::limits::PRODUCER_NAME_BYTES;
use geo_base::{AttachedProducer, Frame, Memory, Sequence, Session, Text};
use std::alloc::Global;

/// What PRODUCER asks for.
#[derive(Drop)]
pub(crate) struct Attaching {
    pub topic: Text,
    pub id: u64,
    pub request: u64,
    pub name: Option<Text>,
}

/// What PRODUCER will do: the producer attaches, or is refused.
pub(crate) fn serve_producer(
    alloc: Global,
    state: &BrokerState,
    client: u32,
    asked: &Attaching,
    plan: &mut Plan,
) -> Result<(), Memory>
    requires open { IsOpen state.now.broker client }
    requires empty { IsEmptyPlan plan.old }
    ensures prepared { OnOk result (IsPrepared state.now.site state.now.broker (serve_producer state.now.site state.now.broker client (open_at state.now.broker client) asked.now.topic asked.now.id asked.now.request asked.now.name) plan.new) }
    ensures room { (room : Room) → OnOk result (HasRoom room plan.new) }
{
    match &asked.name {
        None => refuse(alloc, state, client, asked.request, UNKNOWN_ERROR, plan),
        Some(name) => attach_unless_refused(alloc, state, client, asked, name, plan),
    }
}

/// What PRODUCER with a name will do.
fn attach_unless_refused(
    alloc: Global,
    state: &BrokerState,
    client: u32,
    asked: &Attaching,
    name: &Text,
    plan: &mut Plan,
) -> Result<(), Memory>
    requires open { IsOpen state.now.broker client }
    requires empty { IsEmptyPlan plan.old }
    ensures prepared { OnOk result (IsPrepared state.now.site state.now.broker (serve_producer state.now.site state.now.broker client (open_at state.now.broker client) asked.now.topic asked.now.id asked.now.request (Some name.now)) plan.new) }
    ensures room { (room : Room) → OnOk result (HasRoom room plan.new) }
{
    match refusal(state, client, &asked.topic, name) {
        Some(code) => refuse(alloc, state, client, asked.request, code, plan),
        None => attach_producer(alloc, state, client, asked, name, plan),
    }
}

/// Why a producer may not attach, as a ServerError, if it may not.
fn refusal(state: &BrokerState, client: u32, topic: &Text, name: &Text) -> Option<u64>
    ensures refusal { result ≡ refusal state.now.site state.now.broker client topic.now name.now }
    ensures allowed { result ≡ None → may_attach name.now ≡ true }
{
    if !is_allowed(state, topic, name) {
        return Some(UNKNOWN_ERROR);
    }
    if is_taken(name.as_bytes(), client, state.sessions()) {
        return Some(PRODUCER_BUSY);
    }
    None
}

/// Whether the topic is the broker's, and the name may be a producer's.
fn is_allowed(state: &BrokerState, topic: &Text, name: &Text) -> bool
    ensures { result ≡ (bytes_eq topic.now state.now.site.topic && may_attach name.now) }
{
    topic.as_bytes() == state.site().topic().as_str().as_bytes() && may_attach(name.as_bytes())
}

/// A producer attaches.
fn attach_producer(
    alloc: Global,
    state: &BrokerState,
    client: u32,
    asked: &Attaching,
    name: &Text,
    plan: &mut Plan,
) -> Result<(), Memory>
    requires open { IsOpen state.now.broker client }
    requires allowed { may_attach name.now ≡ true }
    requires empty { IsEmptyPlan plan.old }
    ensures prepared { OnOk result (IsPrepared state.now.site state.now.broker (attaches client (open_at state.now.broker client) asked.now.id asked.now.request name.now) plan.new) }
    ensures room { (room : Room) → OnOk result (HasRoom room plan.new) }
{
    let kept = without_producer(alloc, asked.id, open_producers(state, client))?;
    let producers = with_producer(alloc, kept, asked.id, name)?;
    set_producers(state, client, producers, plan)?;
    let success = Frame::ProducerSuccess {
        request: asked.request,
        name: name.copy(alloc)?,
    };
    also_answer(alloc, state, client, plan, success)?;
    Ok(())
}

/// A client's session has these producers.
#[tactic(auto, using(crate::proofs::Shapes::client_changes, crate::proofs::Shapes::change_room_none))]
fn set_producers(
    state: &BrokerState,
    client: u32,
    producers: Sequence<AttachedProducer>,
    plan: &mut Plan,
) -> Result<(), Memory>
    requires open { IsOpen state.now.broker client }
    requires empty { IsEmptyPlan plan.old }
    ensures prepared { OnOk result (IsPrepared state.now.site state.now.broker (plan_of [] (with_producers client (open_at state.now.broker client) producers ∷ []) []) plan.new) }
    ensures room { (room : Room) → OnOk result (HasRoom room plan.new) }
{
    let number = open_session(state, client).number;
    plan.begin(0);
    plan.change(StateChange::Client {
        client,
        session: Some(Session { number, producers }),
    })?;
    Ok(())
}

/// What CLOSE_PRODUCER will do.
pub(crate) fn serve_close_producer(
    alloc: Global,
    state: &BrokerState,
    client: u32,
    id: u64,
    request: u64,
    plan: &mut Plan,
) -> Result<(), Memory>
    requires open { IsOpen state.now.broker client }
    requires empty { IsEmptyPlan plan.old }
    ensures prepared { OnOk result (IsPrepared state.now.site state.now.broker (serve_close_producer client (open_at state.now.broker client) id request) plan.new) }
    ensures room { (room : Room) → OnOk result (HasRoom room plan.new) }
{
    if has_id(id, open_producers(state, client)) {
        close_producer(alloc, state, client, id, request, plan)
    } else {
        refuse(alloc, state, client, request, UNKNOWN_ERROR, plan)
    }
}

/// The producer of an id leaves the session.
fn close_producer(
    alloc: Global,
    state: &BrokerState,
    client: u32,
    id: u64,
    request: u64,
    plan: &mut Plan,
) -> Result<(), Memory>
    requires open { IsOpen state.now.broker client }
    requires empty { IsEmptyPlan plan.old }
    ensures prepared { OnOk result (IsPrepared state.now.site state.now.broker (plan_of [] (with_producers client (open_at state.now.broker client) (without_producer id (open_at state.now.broker client).producers) ∷ []) (succeeds client (open_at state.now.broker client) request)) plan.new) }
    ensures room { (room : Room) → OnOk result (HasRoom room plan.new) }
{
    let kept = without_producer(alloc, id, open_producers(state, client))?;
    set_producers(state, client, kept, plan)?;
    also_answer(alloc, state, client, plan, Frame::Success { request })?;
    Ok(())
}

/// The name of the producer of an id.
pub(crate) fn name_with(id: u64, producers: &[AttachedProducer]) -> Option<&Text>
    ensures { option_copied result ≡ name_with id producers.now }
{
    for producer in producers {
        if producer.id == id {
            return Some(&producer.name);
        }
    }
    None
}

/// Whether there is a producer of an id.
fn has_id(id: u64, producers: &[AttachedProducer]) -> bool
    ensures { result ≡ has_id id producers.now }
{
    producers.iter().any(|producer| producer.id == id)
}

/// The producers of a session but for that of an id.
fn without_producer(
    alloc: Global,
    id: u64,
    producers: &[AttachedProducer],
) -> Result<Sequence<AttachedProducer>, Memory>
    ensures { IfOk result (λ ps. ps ≡ without_producer id producers.now) }
{
    let mut kept = Sequence::new(alloc);
    for producer in producers {
        if producer.id != id {
            add_producer(alloc, &mut kept, producer.id, &producer.name)?;
        }
    }
    Ok(kept)
}

/// With one more producer.
fn with_producer(
    alloc: Global,
    producers: Sequence<AttachedProducer>,
    id: u64,
    name: &Text,
) -> Result<Sequence<AttachedProducer>, Memory>
    ensures { IfOk result (λ ps. ps ≡ producers ++ record { id = id; name = name.now } ∷ []) }
{
    let mut with = producers;
    add_producer(alloc, &mut with, id, name)?;
    Ok(with)
}

/// One more producer.
fn add_producer(
    alloc: Global,
    producers: &mut Sequence<AttachedProducer>,
    id: u64,
    name: &Text,
) -> Result<(), Memory>
    ensures { OnOk result (producers.new ≡ producers.old ++ record { id = id; name = name.now } ∷ []) }
{
    let name = name.copy(alloc)?;
    producers.push(AttachedProducer { id, name })
}

/// Whether a name may be a producer's: it is not too long, and none of the system's own.
fn may_attach(name: &[u8]) -> bool
    ensures { result ≡ may_attach name.now }
{
    name.len() <= PRODUCER_NAME_BYTES && !name.starts_with(b"pulsar.")
}

/// Whether another client's open session has a producer of this name.
fn is_taken(name: &[u8], client: u32, sessions: &[Option<Session>]) -> bool
    ensures { result ≡ is_taken name.now client 0 sessions.now }
{
    for (other, session) in sessions.iter().enumerate() {
        if other != client as usize && uses_name(name, session) {
            return true;
        }
    }
    false
}

fn uses_name(name: &[u8], session: &Option<Session>) -> bool
    ensures { result ≡ uses_name name.now session.now }
{
    match session {
        None => false,
        Some(session) => has_name(name, session.producers.as_slice()),
    }
}

fn has_name(name: &[u8], producers: &[AttachedProducer]) -> bool
    ensures { result ≡ list_any (λ p. bytes_eq p.name name.now) producers.now }
{
    producers
        .iter()
        .any(|producer| producer.name.as_bytes() == name)
}
