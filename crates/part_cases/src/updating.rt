//! Updates of subscriptions.
use crate::entries::{entry, ident, sub_name};
use crate::telling::{add_number, add_ranges};
use cursor_acks::{Cursor, PastEnd};
use geo_base::{
    ClusterPosition, ClusterRef, Content, Cut, Entry, EntryStore, Marker, Memory, Position,
    Sequence, SubName, Targets,
};
use replicated_subs::*;
use std::alloc::Global;
use topic_store::ListStore;

/// What stands in a topic: a message of a cluster for all or for some clusters, or a marker that has no reading.
enum Stored {
    ForAll(u32),
    ForSome(u32, u8),
    Marker(u32),
}

/// A topic, which indexes of it are acknowledged, an update of a cluster that names an index; then how many places it needs,
/// and what the cursor has.
struct Row {
    topic: &'static [Stored],
    acked: &'static [u64],
    from: u32,
    index: u64,
    said: &'static str,
}

const MIXED: &[Stored] = &[
    Stored::ForAll(0),
    Stored::ForSome(0, 0b100),
    Stored::Marker(2),
    Stored::ForSome(1, 0b001),
    Stored::ForSome(0, 0b010),
    Stored::ForAll(2),
];

const TABLE: &[Row] = &[
    // a message of cluster 0 for cluster 2 alone is not passed over by an update of cluster 1
    Row {
        topic: MIXED,
        acked: &[],
        from: 1,
        index: 5,
        said: "2: 0-0 2-5 mark 1",
    },
    // an update of cluster 2 passes over it, and not over those of the others for others
    Row {
        topic: MIXED,
        acked: &[],
        from: 2,
        index: 5,
        said: "2: 0-2 5-5 mark 3",
    },
    // the index that is named is passed over too, and nothing above it
    Row {
        topic: MIXED,
        acked: &[],
        from: 1,
        index: 0,
        said: "1: 0-0 mark 1",
    },
    // what joins acknowledged indexes needs no place
    Row {
        topic: MIXED,
        acked: &[1, 4],
        from: 1,
        index: 3,
        said: "0: 0-4 mark 5",
    },
    // what could not have been had is left out, also where it is the one that is named
    Row {
        topic: &[Stored::ForSome(1, 0b001)],
        acked: &[],
        from: 2,
        index: 0,
        said: "0: mark 0",
    },
    // nothing stands at the index
    Row {
        topic: &[Stored::ForAll(0)],
        acked: &[],
        from: 1,
        index: 1,
        said: "1: past mark 0",
    },
];

/// What stands in a topic, as an entry of producer p.
fn stored_entry(alloc: Global, stored: &Stored, seq: u64) -> Result<Entry, Memory> {
    let (origin, to) = match stored {
        Stored::ForAll(origin) => (*origin, Targets::All),
        Stored::ForSome(origin, clusters) => (*origin, Targets::Only(*clusters)),
        Stored::Marker(origin) => {
            let ident = ident(alloc, *origin, "p", seq)?;
            return Ok(entry(alloc, ident, Content::Unread(10), Targets::Only(0)));
        }
    };
    let ident = ident(alloc, origin, "p", seq)?;
    Ok(entry(alloc, ident, Content::Data, to))
}

/// Appends what is to stand in a topic.
fn fill(alloc: Global, store: &mut ListStore, stored: &[Stored]) -> Result<(), Memory> {
    for (seq, one) in stored.iter().enumerate() {
        store.reserve(1)?;
        store.append(stored_entry(alloc, one, seq as u64)?);
    }
    Ok(())
}

fn topic(alloc: Global, stored: &[Stored]) -> Result<ListStore, Memory> {
    let mut store = ListStore::new(alloc, 4)?;
    fill(alloc, &mut store, stored)?;
    Ok(store)
}

/// Acknowledges some indexes of a topic of so many entries.
fn acknowledge(cursor: &mut Cursor, indexes: &[u64], len: u64) -> Result<(), Memory> {
    for index in indexes {
        cursor.reserve(1)?;
        let _acked = cursor.ack_one(*index, len);
    }
    Ok(())
}

/// Updates a cursor: how many places that needs, and what it is answered.
fn updated(
    cursor: &mut Cursor,
    store: &ListStore,
    index: u64,
    from: u32,
) -> Result<(usize, Result<(), PastEnd>), Memory> {
    let places = runs(cursor, store, index, from);
    cursor.reserve(places)?;
    Ok((places, apply(cursor, store, index, from)))
}

/// Adds how many places an update of a cursor needs, `past` where it names an index past the end, and what the cursor has then.
fn add_update(
    text: &mut String,
    cursor: &mut Cursor,
    store: &ListStore,
    row: &Row,
) -> Result<(), Memory> {
    acknowledge(cursor, row.acked, store.len() as u64)?;
    let (places, answer) = updated(cursor, store, row.index, row.from)?;
    let behind = if answer.is_err() { ": past " } else { ": " };
    add_number(text, "", places as u64, behind)?;
    add_ranges(text, cursor, "", " ")?;
    add_number(text, "mark ", cursor.mark_delete(), "")
}

/// Whether an update of a new cursor says what it is to say.
fn is_said(alloc: Global, row: &Row) -> Result<bool, Memory> {
    let store = topic(alloc, row.topic)?;
    let mut cursor = Cursor::none(alloc);
    let mut text = String::new(alloc);
    let added = add_update(&mut text, &mut cursor, &store, row);
    drop(cursor);
    drop(store);
    let is_said = text.as_str() == row.said;
    drop(text);
    added?;
    Ok(is_said)
}

/// The place of the first row that says something else.
fn first_other(alloc: Global) -> Result<Option<usize>, Memory> {
    for (place, row) in TABLE.iter().enumerate() {
        if !is_said(alloc, row)? {
            return Ok(Some(place));
        }
    }
    Ok(None)
}

/// Whether an update of a new cursor that names index 6 of a topic of six entries is past the end.
fn is_past_the_end(alloc: Global) -> Result<bool, Memory> {
    let store = topic(alloc, MIXED)?;
    let mut cursor = Cursor::none(alloc);
    let updated = updated(&mut cursor, &store, 6, 1);
    drop(cursor);
    drop(store);
    let (_places, answer) = updated?;
    Ok(answer == Err(PastEnd { index: 6, len: 6 }))
}

#[test]
fn updates_acknowledge_what_could_be_had(rt: HostRuntime) -> Result<(), Memory> {
    assert_eq!(rt; first_other(rt.alloc())?, None);
    assert!(rt; is_past_the_end(rt.alloc())?);
    Ok(())
}

/// The remote positions of a cut, by cluster.
const REMOTE: &[Option<Position>] = &[
    None,
    Some(Position {
        ledger: 0,
        entry: 1,
    }),
    Some(Position {
        ledger: 2,
        entry: 0,
    }),
];

/// The clusters that an update of that cut names, each with a ledger and an entry.
const NAMED: &[(u32, u64, u64)] = &[(1, 0, 1), (2, 2, 0)];

/// Adds these remote positions.
fn add_remote(remote: &mut Sequence<Option<Position>>) -> Result<(), Memory> {
    for position in REMOTE.iter() {
        remote.push(*position)?;
    }
    Ok(())
}

/// A cut with these remote positions.
fn cut(alloc: Global) -> Result<Cut, Memory> {
    let mut remote = Sequence::new(alloc);
    add_remote(&mut remote)?;
    let local = Position {
        ledger: 0,
        entry: 7,
    };
    Ok(Cut { local, remote })
}

/// The update of a subscription at that cut.
fn update(alloc: Global, sub: &SubName) -> Result<Marker, Memory> {
    let cut = cut(alloc)?;
    make(alloc, sub, &cut)
}

/// Whether a marker's cluster and position are those of a row.
fn is_named(one: &ClusterPosition, row: &(u32, u64, u64)) -> bool {
    match one.cluster {
        ClusterRef::Known(cluster) => (cluster, one.position.ledger, one.position.entry) == *row,
        ClusterRef::Stranger(_) => false,
    }
}

/// Whether a marker's clusters and positions are those of the rows, in their order.
fn are_named(remote: &[ClusterPosition]) -> bool {
    for (place, row) in NAMED.iter().enumerate() {
        if place >= remote.len() || !is_named(&remote[place], row) {
            return false;
        }
    }
    remote.len() == NAMED.len()
}

/// Whether a marker is an update of subscription s1 that names the rows.
fn is_update(marker: &Marker) -> bool {
    match marker {
        Marker::Update { sub, remote } => sub.as_str() == "s1" && are_named(remote.as_slice()),
        _ => false,
    }
}

/// Whether the update of a subscription names s1 and the rows.
fn is_told(alloc: Global, sub: SubName) -> Result<bool, Memory> {
    let marker = update(alloc, &sub);
    drop(sub);
    let marker = marker?;
    let is_told = is_update(&marker);
    drop(marker);
    Ok(is_told)
}

/// An update names the remote positions of the cut, in cluster order, and no other.
#[test]
fn an_update_names_the_cut(rt: HostRuntime) -> Result<(), Memory> {
    let sub = sub_name(rt.alloc(), "s1")?;
    assert!(rt; is_told(rt.alloc(), sub)?);
    Ok(())
}
