//! Replicators and receivers, against tables.
use crate::entries::{entry, ident};
use crate::telling::{add_number, add_pair, add_word};
use cursor_acks::Cursor;
use geo_base::{
    BoxedMarker, ClusterRef, Content, EntryStore, Marker, Memory, ReplicatorState, Targets, Text,
};
use replicator::*;
use std::alloc::Global;
use topic_store::ListStore;

/// The sending cluster, and the one to which it sends.
pub const OWN: u32 = 0;

pub const REMOTE: u32 = 1;

/// An entry of the topic: the cluster that stored it first, whether it is a marker, and the clusters that it is meant for.
pub struct Stored {
    pub origin: u32,
    pub marker: bool,
    pub to: Targets,
}

/// How many entries the topic of the table has.
const LEN: u64 = 7;

pub const TOPIC: &[Stored] = &[
    Stored {
        origin: OWN,
        marker: false,
        to: Targets::All,
    },
    // replicated here by the other cluster
    Stored {
        origin: REMOTE,
        marker: false,
        to: Targets::All,
    },
    Stored {
        origin: REMOTE,
        marker: true,
        to: Targets::All,
    },
    // meant for cluster 2 alone
    Stored {
        origin: OWN,
        marker: false,
        to: Targets::Only(4),
    },
    // replicated here by a third one
    Stored {
        origin: 2,
        marker: false,
        to: Targets::All,
    },
    Stored {
        origin: OWN,
        marker: false,
        to: Targets::Only(2),
    },
    Stored {
        origin: OWN,
        marker: true,
        to: Targets::All,
    },
];

/// A call of a replicator.
#[derive(Clone, Copy)]
pub enum Call {
    Reset,
    /// The other side opened a session.
    Success(u64),
    /// A receipt of a session and a number.
    Receipt(u64, u64),
    Read,
    Restart,
}

/// Calls on a new replicator, and what it answers.
struct Row {
    calls: &'static [Call],
    said: &'static str,
}

const TABLE: &[Row] = &[
    // nothing is read while the session is closed or opening; only its own success opens it
    Row {
        calls: &[
            Call::Read,
            Call::Success(0),
            Call::Reset,
            Call::Read,
            Call::Success(0),
            Call::Success(1),
            Call::Success(1),
            Call::Read,
        ],
        said: "idle closed session-1 idle opening open open 0-as-0",
    },
    // a message of this cluster is sent where it is meant to go; a marker of the other one is handed over; a replicated entry is
    // not replicated again. Reading goes on after what awaits a receipt
    Row {
        calls: &[
            Call::Reset,
            Call::Success(1),
            Call::Read,
            Call::Read,
            Call::Receipt(1, 0),
            Call::Read,
            Call::Read,
            Call::Read,
            Call::Read,
            Call::Read,
            Call::Read,
        ],
        said: "session-1 open 0-as-0 skip-1 acks-0 mark-2 skip-3 skip-4 5-as-1 6-as-2 idle",
    },
    // a reset while entries are under way: all without a receipt go again, under numbers from 0, and receipts of the session before
    // no longer count
    Row {
        calls: &[
            Call::Reset,
            Call::Success(1),
            Call::Read,
            Call::Read,
            Call::Read,
            Call::Read,
            Call::Read,
            Call::Read,
            Call::Receipt(1, 1),
            Call::Reset,
            Call::Receipt(1, 0),
            Call::Success(1),
            Call::Success(2),
            Call::Read,
            Call::Read,
            Call::Receipt(1, 0),
            Call::Receipt(2, 0),
            Call::Read,
        ],
        said: "session-1 open 0-as-0 skip-1 mark-2 skip-3 skip-4 5-as-1 acks-5 session-2 none opening open 0-as-0 6-as-1 none acks-0 idle",
    },
    // a receipt of an unknown number, twice, and out of order
    Row {
        calls: &[
            Call::Reset,
            Call::Success(1),
            Call::Read,
            Call::Read,
            Call::Read,
            Call::Read,
            Call::Read,
            Call::Read,
            Call::Read,
            Call::Receipt(1, 3),
            Call::Receipt(1, 2),
            Call::Receipt(1, 2),
            Call::Receipt(1, 0),
            Call::Receipt(1, 1),
        ],
        said: "session-1 open 0-as-0 skip-1 mark-2 skip-3 skip-4 5-as-1 6-as-2 none acks-6 none acks-0 acks-5",
    },
    // a restart keeps the session's number
    Row {
        calls: &[
            Call::Reset,
            Call::Success(1),
            Call::Read,
            Call::Restart,
            Call::Receipt(1, 0),
            Call::Success(1),
            Call::Read,
            Call::Reset,
            Call::Success(2),
            Call::Read,
        ],
        said: "session-1 open 0-as-0 restarts none closed idle session-2 open 0-as-0",
    },
];

/// The content of an entry.
fn content(alloc: Global, marker: bool) -> Result<Content, Memory> {
    if !marker {
        return Ok(Content::Data);
    }
    let marker = Marker::Request {
        id: Text::from_str(alloc, "a:0")?,
        source: ClusterRef::Known(REMOTE),
    };
    Ok(Content::Marked(BoxedMarker::new(alloc, marker)?))
}

/// Appends what is to stand in the topic of the table.
fn fill(alloc: Global, store: &mut ListStore) -> Result<(), Memory> {
    for stored in TOPIC.iter() {
        store.reserve(1)?;
        let ident = ident(alloc, stored.origin, "p", 0)?;
        let content = content(alloc, stored.marker)?;
        store.append(entry(alloc, ident, content, stored.to));
    }
    Ok(())
}

/// The topic of the table.
pub fn topic(alloc: Global) -> Result<ListStore, Memory> {
    let mut store = ListStore::new(alloc, 50_000)?;
    fill(alloc, &mut store)?;
    Ok(store)
}

/// What a call answers.
#[derive(Clone, Copy, PartialEq, Eq)]
pub enum Answer {
    Began(u64),
    State(ReplicatorState),
    Receipt(Option<u64>),
    Read(ReadOut),
    Restarted,
}

/// Adds the word of what was read.
fn say_read(text: &mut String, read: ReadOut) -> Result<(), Memory> {
    match read {
        ReadOut::Idle => add_word(text, "idle"),
        ReadOut::Skip(index) => add_number(text, "skip-", index, ""),
        ReadOut::Mark(index) => add_number(text, "mark-", index, ""),
        ReadOut::Send(index, number) => add_pair(text, index, "-as-", number),
    }
}

/// The word of a state.
fn state_word(state: ReplicatorState) -> &'static str {
    match state {
        ReplicatorState::Closed => "closed",
        ReplicatorState::Opening => "opening",
        ReplicatorState::Open => "open",
    }
}

/// Adds the word of an answer to a text.
fn say(text: &mut String, answer: Answer) -> Result<(), Memory> {
    match answer {
        Answer::Began(session) => add_number(text, "session-", session, ""),
        Answer::State(state) => add_word(text, state_word(state)),
        Answer::Receipt(None) => add_word(text, "none"),
        Answer::Receipt(Some(index)) => add_number(text, "acks-", index, ""),
        Answer::Read(read) => say_read(text, read),
        Answer::Restarted => add_word(text, "restarts"),
    }
}

/// Acknowledges an index of the table's topic, where there is one.
fn acknowledge(cursor: &mut Cursor, index: Option<u64>) -> Result<(), Memory> {
    if let Some(index) = index {
        cursor.reserve(1)?;
        let _acked = cursor.ack_one(index, LEN);
    }
    Ok(())
}

/// What a replicator reads, which is acknowledged where it is not sent.
fn read(
    replicator: &mut Replicator,
    cursor: &mut Cursor,
    store: &ListStore,
) -> Result<ReadOut, Memory> {
    replicator.reserve(1)?;
    let read = replicator.read(store, cursor);
    if let ReadOut::Skip(index) | ReadOut::Mark(index) = read {
        acknowledge(cursor, Some(index))?;
    }
    Ok(read)
}

/// Does a call, and acknowledges what its answer names, as the replicator's owner does.
pub fn answer_to(
    replicator: &mut Replicator,
    cursor: &mut Cursor,
    store: &ListStore,
    call: Call,
) -> Result<Answer, Memory> {
    match call {
        Call::Reset if replicator.session() == u64::MAX => Ok(Answer::Began(u64::MAX)),
        Call::Reset => Ok(Answer::Began(replicator.reset())),
        Call::Success(session) => {
            replicator.on_success(session);
            Ok(Answer::State(replicator.state()))
        }
        Call::Receipt(session, number) => {
            let index = replicator.on_receipt(session, number);
            acknowledge(cursor, index)?;
            Ok(Answer::Receipt(index))
        }
        Call::Read => Ok(Answer::Read(read(replicator, cursor, store)?)),
        Call::Restart => {
            replicator.restart();
            Ok(Answer::Restarted)
        }
    }
}

/// Adds what a replicator answers to calls, with a space between two words.
fn add_answers(
    text: &mut String,
    replicator: &mut Replicator,
    cursor: &mut Cursor,
    store: &ListStore,
    calls: &[Call],
) -> Result<(), Memory> {
    for call in calls {
        if !text.is_empty() {
            add_word(text, " ")?;
        }
        say(text, answer_to(replicator, cursor, store, *call)?)?;
    }
    Ok(())
}

/// Whether a new replicator over a topic answers to calls what it is to answer.
fn is_said(alloc: Global, store: &ListStore, row: &Row) -> Result<bool, Memory> {
    let mut replicator = Replicator::new(alloc, OWN, REMOTE);
    let mut cursor = Cursor::none(alloc);
    let mut text = String::new(alloc);
    let added = add_answers(&mut text, &mut replicator, &mut cursor, store, row.calls);
    drop(replicator);
    drop(cursor);
    let is_said = text.as_str() == row.said;
    drop(text);
    added?;
    Ok(is_said)
}

/// The place of the first row that says something else.
fn first_other(alloc: Global, store: &ListStore) -> Result<Option<usize>, Memory> {
    for (place, row) in TABLE.iter().enumerate() {
        if !is_said(alloc, store, row)? {
            return Ok(Some(place));
        }
    }
    Ok(None)
}

#[test]
fn a_replicator_answers_as_in_the_table(rt: HostRuntime) -> Result<(), Memory> {
    let store = topic(rt.alloc())?;
    let other = first_other(rt.alloc(), &store);
    drop(store);
    assert_eq!(rt; other?, None);
    Ok(())
}

#[test]
fn a_receiver_takes_its_session_alone(rt: HostRuntime) {
    let mut receiver = Receiver::new();
    let first = [
        receiver.on_packet(1, false),
        receiver.on_packet(1, true),
        receiver.on_packet(1, false),
        receiver.on_packet(2, false),
    ];
    // a packet was lost: what follows it in the session would be stored without it
    receiver.close();
    let closed = [receiver.on_packet(1, false), receiver.next_packet(2, true)];
    receiver.open(2);
    let opened = [receiver.on_packet(1, false), receiver.on_packet(2, false)];
    assert!(rt;
        first
            == [
                Taken::Discard,
                Taken::Opened,
                Taken::Process,
                Taken::Discard
            ]
    );
    assert!(rt; closed == [Taken::Discard, Taken::Opened]);
    assert!(rt; opened == [Taken::Discard, Taken::Process]);
}
