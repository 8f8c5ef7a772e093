//! What the back link answers to a packet of the forward link.
ghost use Rattle.std.specs.Prelude.{◌≡◌, IfOk, IfSome, OnOk};
ghost use Rattle.geo_base.specs.Position.{no_position};
ghost use Rattle.broker_packets.specs.Answers.{AlsoAnswers, IsBrief, outs_of, receipt, receipt_answer, second_of, success, success_answer};

use broker_plans::{NO_POSITION, also_send};
use broker_state::{BrokerState, Plan};
use geo_base::{Frame, Memory, Peer, Position};
use std::alloc::Global;

/// The session of the link from a cluster in which a packet came, and whether it is acted on two times in a row.
#[derive(Clone, Copy, Drop)]
pub(crate) struct Arrival {
    pub(crate) source: u32,
    pub(crate) session: u64,
    pub(crate) again: bool,
}

/// The answer to a packet in a session of the link from a cluster, and the one to its second coming.
#[derive(Drop)]
struct Answer {
    source: u32,
    session: u64,
    first: Frame,
    second: Option<Frame>,
}

/// An event that sends, after all that it does, an answer.
fn also_answer(
    alloc: Global,
    state: &BrokerState,
    plan: &mut Plan,
    answer: &Answer,
) -> Result<(), Memory>
    requires first { IsBrief state.now.site.clusters answer.now.first }
    requires second { IfSome answer.now.second (IsBrief state.now.site.clusters) }
    ensures { OnOk result (AlsoAnswers state.now.site.clusters (outs_of answer.now) plan.old plan.new) }
{
    let to = Peer::Back(answer.source);
    also_send(alloc, state, plan, to, answer.session, &answer.first)?;
    match &answer.second {
        None => Ok(()),
        Some(second) => {
            also_send(alloc, state, plan, to, answer.session, second)?;
            Ok(())
        }
    }
}

/// An event that also answers the packet that opened the session of a number.
pub(crate) fn also_succeed(
    alloc: Global,
    state: &BrokerState,
    plan: &mut Plan,
    arrival: Arrival,
    id: u64,
    request: u64,
) -> Result<(), Memory>
    ensures { OnOk result (AlsoAnswers state.now.site.clusters (outs_of (success_answer state.now.site arrival.source arrival.again id request)) plan.old plan.new) }
{
    let answer = success_answer(alloc, state, arrival, id, request)?;
    let answered = also_answer(alloc, state, plan, &answer);
    let_go(answer);
    answered
}

/// An event that also answers an entry. The second time it is a duplicate, whose receipt names no position.
pub(crate) fn also_receipt(
    alloc: Global,
    state: &BrokerState,
    plan: &mut Plan,
    arrival: Arrival,
    seq: u64,
    position: Position,
) -> Result<(), Memory>
    ensures { OnOk result (AlsoAnswers state.now.site.clusters (outs_of (receipt_answer arrival.source arrival.session arrival.again seq position)) plan.old plan.new) }
{
    let answer = receipt_answer(state, arrival, seq, position);
    let answered = also_answer(alloc, state, plan, &answer);
    let_go(answer);
    answered
}

/// An answer that was written: its frames are let go apart, where nothing else is to be shown.
fn let_go(answer: Answer) {
    let Answer { first, second, .. } = answer;
    drop(first);
    drop(second);
}

fn success_answer(
    alloc: Global,
    state: &BrokerState,
    arrival: Arrival,
    id: u64,
    request: u64,
) -> Result<Answer, Memory>
    ensures answer { IfOk result (λ a. a ≡ success_answer state.now.site arrival.source arrival.again id request) }
    ensures first { IfOk result (λ a. IsBrief state.now.site.clusters a.first) }
    ensures second { IfOk result (λ a. IfSome a.second (IsBrief state.now.site.clusters)) }
{
    let Arrival { source, again, .. } = arrival;
    let first = success(alloc, state, source, request)?;
    match second_success(alloc, state, source, request, again) {
        Ok(second) => Ok(Answer {
            source,
            session: id,
            first,
            second,
        }),
        Err(why) => {
            drop(first);
            Err(why)
        }
    }
}

/// The frame that says that a session is open.
fn success(alloc: Global, state: &BrokerState, source: u32, request: u64) -> Result<Frame, Memory>
    ensures frame { IfOk result (λ f. f ≡ success state.now.site source request) }
    ensures brief { IfOk result (IsBrief state.now.site.clusters) }
{
    let site = state.site();
    let name = site.link_producer(alloc, source)?;
    Ok(Frame::ProducerSuccess { request, name })
}

fn second_success(
    alloc: Global,
    state: &BrokerState,
    source: u32,
    request: u64,
    again: bool,
) -> Result<Option<Frame>, Memory>
    ensures frame { IfOk result (λ o. o ≡ second_of again (success state.now.site source request)) }
    ensures brief { IfOk result (λ o. IfSome o (IsBrief state.now.site.clusters)) }
{
    if !again {
        return Ok(None);
    }
    let second = success(alloc, state, source, request)?;
    Ok(Some(second))
}

fn receipt_answer(state: &BrokerState, arrival: Arrival, seq: u64, position: Position) -> Answer
    ensures answer { result ≡ receipt_answer arrival.source arrival.session arrival.again seq position }
    ensures first { IsBrief state.now.site.clusters result.first }
    ensures second { IfSome result.second (IsBrief state.now.site.clusters) }
{
    let Arrival {
        source,
        session,
        again,
    } = arrival;
    Answer {
        source,
        session,
        first: receipt(state, session, seq, position),
        second: second_receipt(state, session, seq, again),
    }
}

#[tactic(auto, using(crate::proofs::Small::receipt_brief))]
fn receipt(state: &BrokerState, session: u64, seq: u64, position: Position) -> Frame
    ensures frame { result ≡ receipt session seq position }
    ensures brief { IsBrief state.now.site.clusters result }
{
    Frame::SendReceipt {
        id: session,
        seq,
        position: Some(position),
    }
}

fn second_receipt(state: &BrokerState, session: u64, seq: u64, again: bool) -> Option<Frame>
    ensures frame { result ≡ second_of again (receipt session seq no_position) }
    ensures brief { IfSome result (IsBrief state.now.site.clusters) }
{
    if !again {
        return None;
    }
    Some(receipt(state, session, seq, NO_POSITION))
}
