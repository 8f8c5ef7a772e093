//! Dispatchers.
use crate::entries::{entry, ident};
use crate::telling::{add_number, add_pair, add_word};
use cursor_acks::Cursor;
use dispatcher::*;
use geo_base::{AckKind, Content, Entry, EntryStore, Memory, SubKind, Targets};
use std::alloc::Global;
use topic_store::ListStore;

/// A call of a dispatcher, and what it is to answer.
enum Call {
    /// A client's consumer of id 0 asks to join.
    Attach(u32, SubKind),
    /// A client's consumers leave.
    Detach(u32),
    /// A client's consumer of id 0 gains permits.
    Permits(u32, u32),
    /// The next entry is offered.
    Offer,
    /// A client's consumer of id 0 acknowledges an index, which is then forgotten.
    Ack(u32, AckKind, u64),
    /// All up to an index is acknowledged and forgotten.
    AckTo(u64),
    /// What the cursor has is forgotten.
    Forget,
    /// What was out with a client is due again.
    Redeliver(u32),
    /// Reading begins at the first entry, with no consumer.
    Seek,
}

/// Calls on a new dispatcher, and the words that they answer.
struct Row {
    calls: &'static [Call],
    said: &'static str,
}

/// The topic of the table: five messages but for a marker at index 3.
const LEN: u64 = 5;

const MARKER: u64 = 3;

const TABLE: &[Row] = &[
    // an exclusive consumer leaves no place for another
    Row {
        calls: &[
            Call::Attach(2, SubKind::Exclusive),
            Call::Attach(3, SubKind::Exclusive),
            Call::Attach(3, SubKind::Shared),
            Call::Detach(2),
            Call::Attach(3, SubKind::Shared),
        ],
        said: "joins busy busy leaves joins",
    },
    // what was out with a consumer that leaves comes again, to the next one, the least index first
    Row {
        calls: &[
            Call::Attach(2, SubKind::Failover),
            Call::Attach(3, SubKind::Failover),
            Call::Permits(2, 5),
            Call::Permits(3, 5),
            Call::Offer,
            Call::Offer,
            Call::Detach(2),
            Call::Offer,
            Call::Offer,
            Call::Offer,
        ],
        said: "joins joins gains gains 0>2 1>2 leaves 0>3 1>3 2>3",
    },
    // shared consumers take turns while both have permits, and acknowledge one by one
    Row {
        calls: &[
            Call::Attach(2, SubKind::Shared),
            Call::Attach(3, SubKind::Shared),
            Call::Offer,
            Call::Permits(2, 1),
            Call::Permits(3, 4),
            Call::Offer,
            Call::Offer,
            Call::Offer,
            Call::Ack(3, AckKind::Cumulative, 1),
            Call::Ack(3, AckKind::Individual, 1),
            Call::Detach(3),
            Call::Permits(2, 1),
            Call::Offer,
            Call::Offer,
        ],
        said: "joins joins idle gains gains 0>2 1>3 2>3 one-by-one acked leaves gains 2>2 marker-3",
    },
    // strangers
    Row {
        calls: &[
            Call::Permits(4, 1),
            Call::Detach(4),
            Call::Ack(4, AckKind::Cumulative, 0),
            Call::Offer,
        ],
        said: "absent absent absent idle",
    },
    // a marker is passed over without a permit; what is acknowledged is not offered
    Row {
        calls: &[
            Call::Attach(2, SubKind::Exclusive),
            Call::Ack(2, AckKind::Individual, 0),
            Call::AckTo(2),
            Call::Offer,
            Call::Offer,
            Call::Permits(2, 2),
            Call::Offer,
            Call::Offer,
        ],
        said: "joins acked acked marker-3 idle gains 4>2 idle",
    },
    // a plain rule serves no Key_Shared consumer
    Row {
        calls: &[
            Call::Attach(2, SubKind::KeyShared),
            Call::Permits(2, 2),
            Call::Offer,
            Call::Ack(2, AckKind::Cumulative, 0),
        ],
        said: "joins gains idle one-by-one",
    },
    // redelivery and a seek
    Row {
        calls: &[
            Call::Attach(2, SubKind::Exclusive),
            Call::Permits(2, 9),
            Call::Offer,
            Call::Offer,
            Call::Ack(2, AckKind::Individual, 0),
            Call::Redeliver(2),
            Call::Offer,
            Call::Forget,
            Call::Seek,
            Call::Offer,
            Call::Attach(3, SubKind::Shared),
            Call::Permits(3, 1),
            Call::Offer,
        ],
        said: "joins gains 0>2 1>2 acked due-again 1>2 forgets seeks idle joins gains 1>3",
    },
];

/// A message without a key, or a marker.
fn entry_at(alloc: Global, index: u64) -> Result<Entry, Memory> {
    let ident = ident(alloc, 0, "p", index)?;
    let content = if index == MARKER {
        Content::Unread(10)
    } else {
        Content::Data
    };
    Ok(entry(alloc, ident, content, Targets::All))
}

/// Appends what is to stand in the topic of the table.
fn fill(alloc: Global, store: &mut ListStore) -> Result<(), Memory> {
    for index in 0..LEN {
        store.reserve(1)?;
        store.append(entry_at(alloc, index)?);
    }
    Ok(())
}

/// The topic of the table.
fn topic(alloc: Global) -> Result<ListStore, Memory> {
    let mut store = ListStore::new(alloc, 50_000)?;
    fill(alloc, &mut store)?;
    Ok(store)
}

type Plain = Dispatcher<PlainPick>;

/// Adds what an offer answers.
fn add_offered(text: &mut String, offer: Offer) -> Result<(), Memory> {
    match offer {
        Offer::Idle => add_word(text, "idle"),
        Offer::Marker(index) => add_number(text, "marker-", index, ""),
        Offer::Data(index, client, _id) => add_pair(text, index, ">", client as u64),
    }
}

/// Offers, and adds what that answers; `next_offer` answers the same before it.
fn add_offer(
    text: &mut String,
    dispatcher: &mut Plain,
    cursor: &Cursor,
    store: &ListStore,
) -> Result<(), Memory> {
    dispatcher.reserve(1)?;
    let looked = dispatcher.next_offer(store, cursor);
    let offer = dispatcher.offer(store, cursor);
    if looked != offer {
        return add_word(text, "differs");
    }
    add_offered(text, offer)
}

/// What an acknowledgement of one index answers.
fn ack(
    dispatcher: &mut Plain,
    cursor: &mut Cursor,
    client: u32,
    kind: AckKind,
    index: u64,
) -> Result<&'static str, Memory> {
    match dispatcher.on_ack(client, 0, kind) {
        Err(AckFault::ConsumerNotFound) => Ok("absent"),
        Err(AckFault::CumulativeNotAllowed) => Ok("one-by-one"),
        Ok(()) => {
            cursor.reserve(1)?;
            let _acked = cursor.ack_one(index, LEN);
            dispatcher.forget_each(&[index]);
            Ok("acked")
        }
    }
}

/// What acknowledging all up to an index answers.
fn ack_to(dispatcher: &mut Plain, cursor: &mut Cursor, index: u64) -> Result<&'static str, Memory> {
    cursor.reserve(1)?;
    let _acked = cursor.ack_to(index, LEN);
    dispatcher.forget_to(index);
    Ok("acked")
}

/// What a consumer that asks to join is answered.
fn attach(dispatcher: &mut Plain, client: u32, kind: SubKind) -> Result<&'static str, Memory> {
    dispatcher.reserve(1)?;
    match dispatcher.attach(client, 0, kind) {
        Ok(()) => Ok("joins"),
        Err(AttachFault::ConsumerBusy) => Ok("busy"),
    }
}

/// The word that a call answers which takes no memory and is no offer.
fn step(dispatcher: &mut Plain, cursor: &Cursor, call: &Call) -> &'static str {
    match call {
        Call::Detach(client) => match dispatcher.detach(*client, cursor) {
            Ok(()) => "leaves",
            Err(ConsumerNotFound) => "absent",
        },
        Call::Permits(client, permits) => match dispatcher.permits(*client, 0, *permits) {
            Ok(()) => "gains",
            Err(ConsumerNotFound) => "absent",
        },
        Call::Forget => {
            dispatcher.forget(cursor);
            "forgets"
        }
        Call::Redeliver(client) => {
            dispatcher.redeliver(*client, cursor);
            "due-again"
        }
        Call::Seek => {
            dispatcher.seek();
            "seeks"
        }
        _ => "",
    }
}

/// The word that a call answers which is no offer.
fn word(dispatcher: &mut Plain, cursor: &mut Cursor, call: &Call) -> Result<&'static str, Memory> {
    match call {
        Call::Attach(client, kind) => attach(dispatcher, *client, *kind),
        Call::Ack(client, kind, index) => ack(dispatcher, cursor, *client, *kind, *index),
        Call::AckTo(index) => ack_to(dispatcher, cursor, *index),
        _ => Ok(step(dispatcher, cursor, call)),
    }
}

/// Adds the word that a call answers.
fn add_called(
    text: &mut String,
    dispatcher: &mut Plain,
    cursor: &mut Cursor,
    store: &ListStore,
    call: &Call,
) -> Result<(), Memory> {
    if let Call::Offer = call {
        return add_offer(text, dispatcher, cursor, store);
    }
    add_word(text, word(dispatcher, cursor, call)?)
}

/// Adds the words that calls answer, with a space between two.
fn add_words(
    text: &mut String,
    dispatcher: &mut Plain,
    cursor: &mut Cursor,
    store: &ListStore,
    calls: &[Call],
) -> Result<(), Memory> {
    for call in calls {
        if !text.is_empty() {
            add_word(text, " ")?;
        }
        add_called(text, dispatcher, cursor, store, call)?;
    }
    Ok(())
}

/// Adds the words that calls on a new dispatcher answer.
fn add_said(
    alloc: Global,
    text: &mut String,
    store: &ListStore,
    calls: &[Call],
) -> Result<(), Memory> {
    let mut dispatcher = Dispatcher::new(alloc, PlainPick);
    let mut cursor = Cursor::none(alloc);
    let added = add_words(text, &mut dispatcher, &mut cursor, store, calls);
    drop(dispatcher);
    drop(cursor);
    added
}

/// Whether calls on a new dispatcher answer what they are to answer.
fn is_said(alloc: Global, row: &Row) -> Result<bool, Memory> {
    let store = topic(alloc)?;
    let mut text = String::new(alloc);
    let added = add_said(alloc, &mut text, &store, row.calls);
    drop(store);
    let is_said = text.as_str() == row.said;
    drop(text);
    added?;
    Ok(is_said)
}

/// The place of the first row that says something else.
fn first_other(alloc: Global) -> Result<Option<usize>, Memory> {
    for (place, row) in TABLE.iter().enumerate() {
        if !is_said(alloc, row)? {
            return Ok(Some(place));
        }
    }
    Ok(None)
}

#[test]
fn calls_answer_as_in_the_table(rt: HostRuntime) -> Result<(), Memory> {
    assert_eq!(rt; first_other(rt.alloc())?, None);
    Ok(())
}
