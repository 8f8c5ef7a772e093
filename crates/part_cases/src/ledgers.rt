//! Stores of a topic.
ghost use Rattle.std.specs.Prelude.{◌<◌};

use crate::entries::{entry, ident};
use crate::telling::{add_number, add_pair, add_word};
use geo_base::{Content, EntryStore, Memory, Position, Targets};
use rand_core::utils::NextWord;
use rand_pcg::Pcg32;
use std::alloc::Global;
use topic_store::*;

/// What is done to a store.
#[derive(Clone, Copy)]
enum Step {
    Message,
    Marker,
    Open,
}

/// Steps on a store whose ledgers take `per_ledger` entries, and what it then says.
struct Row {
    per_ledger: u64,
    steps: &'static [Step],
    said: &'static str,
}

const TABLE: &[Row] = &[
    Row {
        per_ledger: 2,
        steps: &[],
        said: "next 0:0 last none 1:1 none",
    },
    Row {
        per_ledger: 2,
        steps: &[
            Step::Message,
            Step::Message,
            Step::Marker,
            Step::Open,
            Step::Message,
        ],
        said: "0:0 0:1 1:0 ledger 2:0 next 2:1 last 2:0 1:1 none",
    },
    // two ledgers stay empty
    Row {
        per_ledger: 1,
        steps: &[
            Step::Message,
            Step::Open,
            Step::Open,
            Step::Open,
            Step::Marker,
        ],
        said: "0:0 ledger ledger ledger 3:0 next 4:0 last 3:0 1:1 none",
    },
    Row {
        per_ledger: 3,
        steps: &[
            Step::Open,
            Step::Message,
            Step::Message,
            Step::Message,
            Step::Message,
        ],
        said: "ledger 1:0 1:1 1:2 2:0 next 2:1 last 2:0 1:1 1",
    },
];

/// A step; the position of an entry more, a message or a marker that has no reading.
fn done<S: EntryStore>(
    alloc: Global,
    store: &mut S,
    step: Step,
) -> Result<Option<Position>, Memory> {
    store.reserve(1)?;
    if let Step::Open = step {
        store.open_ledger();
        return Ok(None);
    }
    let ident = ident(alloc, 0, "p", 0)?;
    let content = match step {
        Step::Marker => Content::Unread(0),
        _ => Content::Data,
    };
    Ok(Some(store.append(entry(alloc, ident, content, Targets::All))))
}

/// Adds a position, or a word where there is none.
fn add_position(text: &mut String, position: Option<Position>, none: &str) -> Result<(), Memory> {
    match position {
        Some(position) => {
            add_pair(text, position.ledger, ":", position.entry)?;
            add_word(text, " ")
        }
        None => add_word(text, none),
    }
}

/// Adds the positions that steps gave, the next and the last one, and the index of 1:1.
fn add_steps<S: EntryStore>(
    alloc: Global,
    text: &mut String,
    store: &mut S,
    steps: &[Step],
) -> Result<(), Memory> {
    for step in steps {
        add_position(text, done(alloc, store, *step)?, "ledger ")?;
    }
    add_ends(text, store)
}

fn add_ends<S: EntryStore>(text: &mut String, store: &S) -> Result<(), Memory> {
    add_word(text, "next ")?;
    add_position(text, Some(store.next()), "")?;
    add_word(text, "last ")?;
    add_position(text, store.last(), "none ")?;
    match store.index_of(Position {
        ledger: 1,
        entry: 1,
    }) {
        Some(index) => add_number(text, "1:1 ", index as u64, ""),
        None => add_word(text, "1:1 none"),
    }
}

/// The store of what another one is made of.
fn taken_apart(alloc: Global, per_ledger: u64, ledger: TopicLedger) -> Result<TopicLedger, Memory> {
    let (lengths, entries) = ledger.into_parts(alloc)?;
    TopicLedger::from_parts(alloc, per_ledger, lengths.as_slice(), entries)
}

/// Whether a plain store says after steps what it is to say.
fn is_said_by_plain(alloc: Global, row: &Row) -> Result<bool, Memory>
    requires { 0 < row.now.per_ledger }
{
    let mut plain = ListStore::new(alloc, row.per_ledger)?;
    let mut text = String::new(alloc);
    let added = add_steps(alloc, &mut text, &mut plain, row.steps);
    drop(plain);
    let is_said = text.as_str() == row.said;
    drop(text);
    added?;
    Ok(is_said)
}

/// Whether two ledgers have the same ends.
fn are_same_ends(again: &TopicLedger, ledger: &TopicLedger) -> bool {
    again.next() == ledger.next()
        && again.last() == ledger.last()
        && again.len() == ledger.len()
        && again.ledgers() == ledger.ledgers()
}

/// Whether the store of what a copy of a ledger is made of is like it.
fn is_made_again(alloc: Global, per_ledger: u64, ledger: &TopicLedger) -> Result<bool, Memory>
    requires { 0 < per_ledger }
{
    let again = taken_apart(alloc, per_ledger, ledger.copy(alloc)?)?;
    let is_same = are_same_ends(&again, ledger);
    drop(again);
    Ok(is_same)
}

/// Whether a ledger says after steps what it is to say, and the store of what a copy of it is made of is like it.
fn is_said_by_ledger(alloc: Global, row: &Row) -> Result<bool, Memory>
    requires { 0 < row.now.per_ledger }
{
    let mut ledger = TopicLedger::new(alloc, row.per_ledger)?;
    let mut text = String::new(alloc);
    let added = add_steps(alloc, &mut text, &mut ledger, row.steps);
    let is_made_again = is_made_again(alloc, row.per_ledger, &ledger);
    drop(ledger);
    let is_said = text.as_str() == row.said;
    drop(text);
    added?;
    Ok(is_said && is_made_again?)
}

#[test]
fn steps_give_their_positions(rt: HostRuntime) -> Result<(), Memory> {
    for row in TABLE.iter() {
        assert!(rt; row.per_ledger > 0);
        assert!(rt; is_said_by_plain(rt.alloc(), row)?);
        assert!(rt; is_said_by_ledger(rt.alloc(), row)?);
    }
    Ok(())
}

/// How many of the first entries are messages, one after another.
fn counted(store: &TopicLedger, end: usize) -> u64 {
    let mut count: u64 = 0;
    for i in 0..end {
        if let Some(entry) = store.get(i) {
            count = count.wrapping_add(matches!(entry.content, Content::Data) as u64);
        }
    }
    count
}

/// Whether two stores answer alike on an index and a position.
fn are_alike(plain: &ListStore, ledger: &TopicLedger, index: usize, at: Position) -> bool {
    plain.next() == ledger.next()
        && plain.len() == ledger.len()
        && plain.ledgers() == ledger.ledgers()
        && plain.last() == ledger.last()
        && plain.position_of(index) == ledger.position_of(index)
        && plain.index_of(at) == ledger.index_of(at)
}

/// A random step, every second a message.
fn random_step(random: &mut Pcg32) -> Step {
    match random.next_word() % 4 {
        0 => Step::Open,
        1 => Step::Marker,
        _ => Step::Message,
    }
}

/// One random step on both, and whether they answer alike then.
fn is_same_step(
    alloc: Global,
    random: &mut Pcg32,
    plain: &mut ListStore,
    ledger: &mut TopicLedger,
) -> Result<bool, Memory> {
    let step = random_step(random);
    let alike = done(alloc, plain, step)? == done(alloc, ledger, step)?;
    let index = (random.next_word() % 30) as usize;
    let at = Position {
        ledger: (random.next_word() % 20) as u64,
        entry: (random.next_word() % 4) as u64,
    };
    let end = index.min(ledger.len());
    Ok(
        alike
            && are_alike(plain, ledger, index, at)
            && ledger.messages_before(end) == counted(ledger, end),
    )
}

/// Whether a plain store and a ledger answer alike after each of 40 random steps.
fn are_same_on(
    alloc: Global,
    random: &mut Pcg32,
    plain: &mut ListStore,
    ledger: &mut TopicLedger,
) -> Result<bool, Memory> {
    for _ in 0..40 {
        if !is_same_step(alloc, random, plain, ledger)? {
            return Ok(false);
        }
    }
    Ok(true)
}

/// Whether a new plain store and a ledger answer alike to random steps.
fn are_same_steps(alloc: Global, seed: u64) -> Result<bool, Memory> {
    let mut random = Pcg32::new(seed, 7);
    let per_ledger = (random.next_word() % 3 + 1) as u64;
    let mut plain = ListStore::new(alloc, per_ledger)?;
    let mut ledger = TopicLedger::new(alloc, per_ledger)?;
    let are_same = are_same_on(alloc, &mut random, &mut plain, &mut ledger);
    drop(plain);
    drop(ledger);
    are_same
}

#[test]
fn a_ledger_is_a_plain_store(rt: HostRuntime) -> Result<(), Memory> {
    for seed in 0..8 {
        assert!(rt; are_same_steps(rt.alloc(), seed)?);
    }
    Ok(())
}
