//! Key_Shared.
use crate::entries::ident;
use crate::telling::{add_number, add_word};
use cursor_acks::Cursor;
use dispatcher::{Dispatcher, Offer, *};
use geo_base::{Blob, Content, Entry, EntryStore, Memory, Metadata, SubKind, Targets, Text};
use std::alloc::Global;
use topic_store::ListStore;

/// Clients in the order in which their consumers attach, with their permits; the keys of a topic's messages; and which client is
/// given each message in turn, with the number of its key.
struct Row {
    kind: SubKind,
    clients: &'static [(u32, u32)],
    keys: &'static [Option<&'static str>],
    given: &'static str,
}

const TABLE: &[Row] = &[
    Row {
        kind: SubKind::KeyShared,
        clients: &[(0, 9), (1, 9)],
        keys: &[Some("a"), Some("b"), Some("a"), Some("ab"), None],
        given: "1:97 0:98 1:97 1:3105 0:0 idle ",
    },
    // the third message has no permit where it belongs, and no other consumer stands in, nor does a message overtake it
    Row {
        kind: SubKind::KeyShared,
        clients: &[(0, 9), (1, 1)],
        keys: &[Some("a"), Some("b"), Some("a"), Some("b")],
        given: "1:97 0:98 idle idle idle ",
    },
    // no key is as good as one without a byte
    Row {
        kind: SubKind::KeyShared,
        clients: &[(0, 9), (1, 9)],
        keys: &[None, Some("")],
        given: "0:0 0:0 idle ",
    },
    Row {
        kind: SubKind::KeyShared,
        clients: &[(0, 9), (1, 9), (2, 9)],
        keys: &[Some("a"), Some("b"), Some("ab"), Some("a")],
        given: "1:97 2:98 0:3105 1:97 idle ",
    },
    Row {
        kind: SubKind::KeyShared,
        clients: &[],
        keys: &[Some("a")],
        given: "idle idle ",
    },
    // the other kinds have no keys
    Row {
        kind: SubKind::Shared,
        clients: &[(0, 1), (1, 2)],
        keys: &[Some("a"), Some("a"), Some("a"), Some("a")],
        given: "0:97 1:97 1:97 idle idle ",
    },
    Row {
        kind: SubKind::Failover,
        clients: &[(0, 1), (1, 9)],
        keys: &[Some("a"), Some("b")],
        given: "0:97 idle idle ",
    },
    Row {
        kind: SubKind::Exclusive,
        clients: &[(0, 9)],
        keys: &[Some("a"), Some("b")],
        given: "0:97 0:98 idle ",
    },
];

/// The text of a key.
fn key_text(alloc: Global, key: &Option<&'static str>) -> Result<Option<Text>, Memory> {
    match key {
        None => Ok(None),
        Some(text) => Ok(Some(Text::from_str(alloc, text)?)),
    }
}

/// A message of a key.
fn message(alloc: Global, key: &Option<&'static str>, seq: u64) -> Result<Entry, Memory> {
    let ident = ident(alloc, 0, "p", seq)?;
    Ok(Entry {
        ident,
        content: Content::Data,
        to: Targets::All,
        meta: Metadata::usual(0, key_text(alloc, key)?),
        payload: Blob::new(alloc),
    })
}

/// The bytes of the key at an index: none past the end, where there is no message.
fn key_at(keys: &[Option<&'static str>], index: usize) -> &'static [u8] {
    if index >= keys.len() {
        return b"";
    }
    match keys[index] {
        None => b"",
        Some(text) => text.as_bytes(),
    }
}

/// Appends the messages of some keys.
fn fill(alloc: Global, store: &mut ListStore, keys: &[Option<&'static str>]) -> Result<(), Memory> {
    for (seq, key) in keys.iter().enumerate() {
        store.reserve(1)?;
        store.append(message(alloc, key, seq as u64)?);
    }
    Ok(())
}

/// The store of the messages of some keys.
fn topic(alloc: Global, keys: &[Option<&'static str>]) -> Result<ListStore, Memory> {
    let mut store = ListStore::new(alloc, 50_000)?;
    fill(alloc, &mut store, keys)?;
    Ok(store)
}

/// Some clients' consumers join, and have some permits.
fn join(
    dispatcher: &mut Dispatcher<KeyPick>,
    kind: SubKind,
    clients: &[(u32, u32)],
) -> Result<(), Memory> {
    for (client, permits) in clients {
        dispatcher.reserve(1)?;
        let _joined = dispatcher.attach(*client, 0, kind);
        let _gained = dispatcher.permits(*client, 0, *permits);
    }
    Ok(())
}

/// Adds what an offer answers: who is given the message, with the number of its key.
fn add_offer(text: &mut String, offer: Offer, keys: &[Option<&'static str>]) -> Result<(), Memory> {
    match offer {
        Offer::Data(index, client, _id) => {
            add_number(text, "", client as u64, ":")?;
            let key = key_at(keys, index as usize);
            add_number(text, "", key_number(key) as u64, " ")
        }
        Offer::Marker(index) => add_number(text, "marker ", index, " "),
        Offer::Idle => add_word(text, "idle "),
    }
}

/// Offers the next message, and adds to a text who is given it.
fn add_given(
    text: &mut String,
    dispatcher: &mut Dispatcher<KeyPick>,
    store: &ListStore,
    cursor: &Cursor,
    keys: &[Option<&'static str>],
) -> Result<(), Memory> {
    dispatcher.reserve(1)?;
    let offer = dispatcher.offer(store, cursor);
    add_offer(text, offer, keys)
}

/// Adds who is given what, with one offer more than there are messages.
fn add_all(
    text: &mut String,
    dispatcher: &mut Dispatcher<KeyPick>,
    store: &ListStore,
    cursor: &Cursor,
    row: &Row,
) -> Result<(), Memory> {
    join(dispatcher, row.kind, row.clients)?;
    for _offer in 0..=row.keys.len() {
        add_given(text, dispatcher, store, cursor, row.keys)?;
    }
    Ok(())
}

/// Adds who is given what by a new dispatcher.
fn add_said(alloc: Global, text: &mut String, store: &ListStore, row: &Row) -> Result<(), Memory> {
    let cursor = Cursor::none(alloc);
    let mut dispatcher = Dispatcher::new(alloc, KeyPick::new());
    let added = add_all(text, &mut dispatcher, store, &cursor, row);
    drop(dispatcher);
    drop(cursor);
    added
}

/// Whether messages are given as they are to be.
fn is_said(alloc: Global, row: &Row) -> Result<bool, Memory> {
    let store = topic(alloc, row.keys)?;
    let mut text = String::new(alloc);
    let added = add_said(alloc, &mut text, &store, row);
    drop(store);
    let is_said = text.as_str() == row.given;
    drop(text);
    added?;
    Ok(is_said)
}

/// The place of the first row that gives something else.
fn first_other(alloc: Global) -> Result<Option<usize>, Memory> {
    for (place, row) in TABLE.iter().enumerate() {
        if !is_said(alloc, row)? {
            return Ok(Some(place));
        }
    }
    Ok(None)
}

#[test]
fn keys_name_consumers(rt: HostRuntime) -> Result<(), Memory> {
    law_keys();
    assert_eq!(rt; first_other(rt.alloc())?, None);
    Ok(())
}
