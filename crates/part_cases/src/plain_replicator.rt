//! A replicator against a plain one, which searches lists: both answer the same to random calls.
ghost use Rattle.std.specs.Prelude.{◌<◌};

use crate::replicating::{Answer, Call, OWN, REMOTE, TOPIC, answer_to, topic};
use cursor_acks::Cursor;
use geo_base::{Memory, Pending, ReplicatorState};
use rand_core::utils::NextWord;
use rand_pcg::Pcg32;
use replicator::*;
use std::alloc::Global;
use topic_store::ListStore;

/// A replicator over the table's topic that searches plain lists.
#[derive(Drop)]
struct Plain {
    session: u64,
    state: ReplicatorState,
    read_index: usize,
    next: u64,
    pending: Vec<Pending>,
    acked: [bool; 7],
}

impl Plain {
    fn new(alloc: Global) -> Plain {
        Plain {
            session: 0,
            state: ReplicatorState::Closed,
            read_index: 0,
            next: 0,
            pending: Vec::new(alloc),
            acked: [false; 7],
        }
    }

    fn begin(&mut self, state: ReplicatorState) {
        self.state = state;
        self.read_index = 0;
        self.next = 0;
        self.pending.clear();
    }

    fn receipt(&mut self, session: u64, number: u64) -> Option<u64> {
        if session != self.session {
            return None;
        }
        let at = self.pending.iter().position(|p| p.number == number)?;
        let index = self.pending.remove(at).index;
        if index < 7 {
            self.acked[index as usize] = true;
        }
        Some(index)
    }

    fn read(&mut self) -> Result<ReadOut, Memory> {
        if self.state != ReplicatorState::Open {
            return Ok(ReadOut::Idle);
        }
        for at in self.read_index..7 {
            if !self.acked[at] {
                self.read_index = at + 1;
                return self.read_at(at);
            }
        }
        Ok(ReadOut::Idle)
    }

    fn read_at(&mut self, at: usize) -> Result<ReadOut, Memory>
        requires { at < 7 }
    {
        let index = at as u64;
        if TOPIC[at].origin == OWN && TOPIC[at].to.contains(REMOTE) {
            let number = self.next;
            self.next = number.saturating_add(1);
            self.pending.reserve(1)?;
            self.pending.push_reserved(Pending { number, index });
            return Ok(ReadOut::Send(index, number));
        }
        self.acked[at] = true;
        if TOPIC[at].origin == REMOTE && TOPIC[at].marker {
            Ok(ReadOut::Mark(index))
        } else {
            Ok(ReadOut::Skip(index))
        }
    }

    fn answer(&mut self, call: Call) -> Result<Answer, Memory> {
        match call {
            Call::Reset => {
                self.session = self.session.saturating_add(1);
                self.begin(ReplicatorState::Opening);
                Ok(Answer::Began(self.session))
            }
            Call::Success(session) => {
                if session == self.session && self.state == ReplicatorState::Opening {
                    self.state = ReplicatorState::Open;
                }
                Ok(Answer::State(self.state))
            }
            Call::Receipt(session, number) => Ok(Answer::Receipt(self.receipt(session, number))),
            Call::Read => Ok(Answer::Read(self.read()?)),
            Call::Restart => {
                self.begin(ReplicatorState::Closed);
                Ok(Answer::Restarted)
            }
        }
    }
}

/// A random call, most of them reads and receipts of the session.
fn random_call(random: &mut Pcg32, session: u64) -> Call {
    match random.next_word() % 16 {
        0 => Call::Reset,
        1 => Call::Restart,
        2 => Call::Success(session.saturating_sub(1)),
        3 | 4 | 5 => Call::Success(session),
        6 => Call::Receipt(session.saturating_sub(1), 0),
        7 | 8 | 9 => Call::Receipt(session, (random.next_word() % 4) as u64),
        _ => Call::Read,
    }
}

/// Whether a replicator and a plain one answer the same to a call.
fn is_same_answer(
    replicator: &mut Replicator,
    cursor: &mut Cursor,
    store: &ListStore,
    plain: &mut Plain,
    call: Call,
) -> Result<bool, Memory> {
    let answer = answer_to(replicator, cursor, store, call)?;
    Ok(answer == plain.answer(call)? && replicator.pending_len() == plain.pending.len())
}

/// Whether a replicator and a plain one answer the same to 60 random calls.
fn answer_alike(
    replicator: &mut Replicator,
    cursor: &mut Cursor,
    store: &ListStore,
    plain: &mut Plain,
    random: &mut Pcg32,
) -> Result<bool, Memory> {
    for _ in 0..60 {
        let call = random_call(random, plain.session);
        if !is_same_answer(replicator, cursor, store, plain, call)? {
            return Ok(false);
        }
    }
    Ok(true)
}

/// Whether a new replicator over a topic and a plain one answer the same to random calls.
fn are_same_answers(alloc: Global, store: &ListStore, seed: u64) -> Result<bool, Memory> {
    let mut random = Pcg32::new(seed, 7);
    let mut replicator = Replicator::new(alloc, OWN, REMOTE);
    let mut cursor = Cursor::none(alloc);
    let mut plain = Plain::new(alloc);
    let alike = answer_alike(&mut replicator, &mut cursor, store, &mut plain, &mut random);
    drop(replicator);
    drop(cursor);
    drop(plain);
    alike
}

/// Whether they do for each of 40 numbers of chance.
fn are_all_same(alloc: Global, store: &ListStore) -> Result<bool, Memory> {
    for seed in 0..40 {
        if !are_same_answers(alloc, store, seed)? {
            return Ok(false);
        }
    }
    Ok(true)
}

#[test]
fn a_replicator_answers_as_a_plain_one(rt: HostRuntime) -> Result<(), Memory> {
    let store = topic(rt.alloc())?;
    let are_same = are_all_same(rt.alloc(), &store);
    drop(store);
    assert!(rt; are_same?);
    Ok(())
}
