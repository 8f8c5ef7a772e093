//! Writes and restarts.
use crate::entries::{entry, ident, sub_name};
use crate::telling::{add_number, add_pair, add_ranges, add_word};
use cursor_acks::Cursor;
use durable_parts::*;
use geo_base::{Content, EntryStore, Memory, SubKind, Targets};
use std::alloc::Global;
use std::mem::replace;
use topic_store::{Stream, Verdict};

/// A write, with what it carries told in short: an entry by origin, producer and sequence id, a cursor by its indexes.
enum Told {
    Append(u32, &'static str, u64),
    Create(&'static str, SubKind, bool),
    Change(&'static str, SubKind, bool),
    Delete(&'static str),
    Acks(&'static str, &'static [u64]),
    Seek(&'static str, &'static [u64], u64),
    ReplicatorAcks(u32, &'static [u64]),
    Session(u32, u64),
    Ledger,
}

/// Writes of a topic at cluster 1 of 3 whose ledgers take two entries; what is then durable, and what a start makes of it.
struct Row {
    writes: &'static [Told],
    said: &'static str,
}

const TABLE: &[Row] = &[
    Row {
        writes: &[],
        said: "next 0:0; senders 0 0 0; p new, marker 0",
    },
    Row {
        writes: &[
            Told::Append(0, "p", 4),
            Told::Append(1, "p", 6),
            Told::Append(0, "p", 5),
        ],
        said: "next 1:1; senders 0 0 0; p 5, marker 0",
    },
    // the markers of another cluster have numbers of their own
    Row {
        writes: &[
            Told::Append(1, "pulsar.marker", 0),
            Told::Append(1, "pulsar.marker", 1),
            Told::Append(0, "pulsar.marker", 7),
        ],
        said: "next 1:1; senders 0 0 0; p new, marker 2",
    },
    // a foreign broker's number
    Row {
        writes: &[Told::Append(1, "pulsar.marker", u64::MAX)],
        said: "next 0:1; senders 0 0 0; p new, marker 18446744073709551615",
    },
    Row {
        writes: &[Told::Append(0, "p", 1), Told::Ledger, Told::Ledger],
        said: "next 2:0; senders 0 0 0; p 1, marker 0",
    },
    Row {
        writes: &[
            Told::Append(0, "p", 1),
            Told::Create("s", SubKind::Exclusive, true),
            Told::Create("r", SubKind::Shared, false),
            Told::Create("s", SubKind::Shared, true),
        ],
        said: "next 0:1; s 0-0 seeks 0; r seeks 0; senders 0 0 0; p 1, marker 0",
    },
    Row {
        writes: &[
            Told::Create("s", SubKind::Exclusive, false),
            Told::Create("r", SubKind::Shared, false),
            Told::Acks("r", &[0, 1, 3]),
            Told::Acks("q", &[2]),
        ],
        said: "next 0:0; s seeks 0; r 0-1 3-3 seeks 0; senders 0 0 0; p new, marker 0",
    },
    Row {
        writes: &[
            Told::Create("s", SubKind::Exclusive, false),
            Told::Acks("s", &[0, 1, 3]),
            Told::Seek("s", &[0], 1),
            Told::Change("s", SubKind::Failover, true),
        ],
        said: "next 0:0; s failover 0-0 seeks 1; senders 0 0 0; p new, marker 0",
    },
    Row {
        writes: &[
            Told::Create("s", SubKind::Exclusive, false),
            Told::Create("r", SubKind::Shared, false),
            Told::Delete("s"),
            Told::Delete("q"),
        ],
        said: "next 0:0; r seeks 0; senders 0 0 0; p new, marker 0",
    },
    // cluster 3 is not here
    Row {
        writes: &[
            Told::Session(0, 3),
            Told::ReplicatorAcks(2, &[0, 1]),
            Told::Session(2, 1),
            Told::Session(3, 9),
            Told::ReplicatorAcks(3, &[0]),
        ],
        said: "next 0:0; senders 3 0 1 0-1; p new, marker 0",
    },
];

/// Acknowledges some indexes of a topic of ten entries.
fn acknowledge(cursor: &mut Cursor, indexes: &[u64]) -> Result<(), Memory> {
    for index in indexes {
        cursor.reserve(1)?;
        let _acked = cursor.ack_one(*index, 10);
    }
    Ok(())
}

/// A cursor that has some indexes of a topic of ten entries.
fn cursor(alloc: Global, indexes: &[u64]) -> Result<Cursor, Memory> {
    let mut cursor = Cursor::none(alloc);
    acknowledge(&mut cursor, indexes)?;
    Ok(cursor)
}

/// Stores an entry.
fn append(
    alloc: Global,
    durable: &mut Durable,
    origin: u32,
    producer: &str,
    seq: u64,
) -> Result<(), Memory> {
    let ident = ident(alloc, origin, producer, seq)?;
    let entry = entry(alloc, ident, Content::Unread(0), Targets::All);
    apply_write(alloc, durable, Write::Append(entry))
}

/// Does a write of a subscription's cursor, with the seeks that it counts if it is one of a seek.
fn write_cursor(
    alloc: Global,
    durable: &mut Durable,
    name: &str,
    indexes: &[u64],
    seeks: Option<u64>,
) -> Result<(), Memory> {
    let sub = sub_name(alloc, name)?;
    let cursor = cursor(alloc, indexes)?;
    let write = match seeks {
        None => Write::Acks { sub, cursor },
        Some(seeks) => Write::Seek { sub, cursor, seeks },
    };
    apply_write(alloc, durable, write)
}

/// Does a write that names a subscription and no cursor; any other is none.
fn write_sub(alloc: Global, durable: &mut Durable, told: &Told) -> Result<(), Memory> {
    match told {
        Told::Create(name, kind, latest) => {
            let write = Write::Create {
                sub: sub_name(alloc, name)?,
                kind: *kind,
                replicated: false,
                latest: *latest,
            };
            apply_write(alloc, durable, write)
        }
        Told::Change(name, kind, replicated) => {
            let write = Write::Change {
                sub: sub_name(alloc, name)?,
                kind: *kind,
                replicated: *replicated,
            };
            apply_write(alloc, durable, write)
        }
        Told::Delete(name) => apply_write(alloc, durable, Write::Delete(sub_name(alloc, name)?)),
        _ => Ok(()),
    }
}

/// Does a write of a replicator, or opens a ledger; any other is none.
fn write_replicator(alloc: Global, durable: &mut Durable, told: &Told) -> Result<(), Memory> {
    match told {
        Told::ReplicatorAcks(remote, indexes) => {
            let write = Write::ReplicatorAcks {
                remote: *remote,
                cursor: cursor(alloc, indexes)?,
            };
            apply_write(alloc, durable, write)
        }
        Told::Session(remote, session) => {
            let write = Write::Session {
                remote: *remote,
                session: *session,
            };
            apply_write(alloc, durable, write)
        }
        Told::Ledger => apply_write(alloc, durable, Write::Ledger),
        _ => Ok(()),
    }
}

/// Does the write that is told.
fn write(alloc: Global, durable: &mut Durable, told: &Told) -> Result<(), Memory> {
    match told {
        Told::Append(origin, producer, seq) => append(alloc, durable, *origin, producer, *seq),
        Told::Create(..) | Told::Change(..) | Told::Delete(..) => write_sub(alloc, durable, told),
        Told::Acks(name, indexes) => write_cursor(alloc, durable, name, indexes, None),
        Told::Seek(name, indexes, seeks) => {
            write_cursor(alloc, durable, name, indexes, Some(*seeks))
        }
        Told::ReplicatorAcks(..) | Told::Session(..) | Told::Ledger => {
            write_replicator(alloc, durable, told)
        }
    }
}

/// Adds a subscription.
fn add_sub(text: &mut String, sub: &DurableSub) -> Result<(), Memory> {
    add_word(text, "; ")?;
    add_word(text, sub.name.as_str())?;
    if sub.kind == SubKind::Failover && sub.replicated {
        add_word(text, " failover")?;
    }
    add_ranges(text, &sub.cursor, " ", "")?;
    add_number(text, " seeks ", sub.seeks, "")
}

/// Adds a replicator.
fn add_replicator(text: &mut String, replicator: &DurableReplicator) -> Result<(), Memory> {
    add_number(text, " ", replicator.session, "")?;
    add_ranges(text, &replicator.cursor, " ", "")
}

/// Adds the next position, the subscriptions and the replicators.
fn add_durable(text: &mut String, durable: &Durable) -> Result<(), Memory> {
    let next = durable.store.next();
    add_word(text, "next ")?;
    add_pair(text, next.ledger, ":", next.entry)?;
    for sub in durable.subs.as_slice() {
        add_sub(text, sub)?;
    }
    add_word(text, "; senders")?;
    for replicator in durable.replicators.as_slice() {
        add_replicator(text, replicator)?;
    }
    Ok(())
}

/// What a start has of producer p of cluster 0, and the number of the next marker.
fn recovered(alloc: Global, durable: &Durable, p: &Stream) -> Result<(Verdict, u64), Memory> {
    let recovered = recover(alloc, durable)?;
    Ok((recovered.dedup.check(p, 0), recovered.next_marker))
}

fn add_recovered(alloc: Global, text: &mut String, durable: &Durable) -> Result<(), Memory> {
    let p = Stream::of(alloc, &ident(alloc, 0, "p", 0)?)?;
    let recovered = recovered(alloc, durable, &p);
    drop(p);
    let (verdict, marker) = recovered?;
    match verdict {
        Verdict::New => add_word(text, "; p new")?,
        Verdict::Seen(highest) => add_number(text, "; p ", highest, "")?,
    }
    add_number(text, ", marker ", marker, "")
}

/// Adds a copy of each subscription that has a name of its own.
fn copy_subs(alloc: Global, copied: &mut DurableSubs, subs: &[DurableSub]) -> Result<(), Memory> {
    for sub in subs {
        if copied.named(&sub.name).is_none() {
            copied.add(sub.copy(alloc)?)?;
        }
    }
    Ok(())
}

fn copied_subs(alloc: Global, subs: DurableSubs) -> Result<DurableSubs, Memory> {
    let subs = subs.into_vec();
    let mut copied = DurableSubs::new(alloc);
    let done = copy_subs(alloc, &mut copied, &subs);
    drop(subs);
    done?;
    Ok(copied)
}

/// Puts a copy of each subscription in its place.
fn copy_all_subs(alloc: Global, durable: &mut Durable) -> Result<(), Memory> {
    let subs = replace(&mut durable.subs, DurableSubs::new(alloc));
    durable.subs = copied_subs(alloc, subs)?;
    Ok(())
}

/// Does some writes, one after another.
fn write_all(alloc: Global, durable: &mut Durable, writes: &[Told]) -> Result<(), Memory> {
    for told in writes {
        write(alloc, durable, told)?;
    }
    Ok(())
}

/// Adds what some writes leave.
fn add_said(
    alloc: Global,
    text: &mut String,
    durable: &mut Durable,
    writes: &[Told],
) -> Result<(), Memory> {
    write_all(alloc, durable, writes)?;
    copy_all_subs(alloc, durable)?;
    add_durable(text, durable)?;
    add_recovered(alloc, text, durable)?;
    Ok(())
}

/// Whether some writes leave what they are to leave.
fn is_said(alloc: Global, row: &Row) -> Result<bool, Memory> {
    let mut durable = Durable::new(alloc, 1, 3, 2)?;
    let mut text = String::new(alloc);
    let added = add_said(alloc, &mut text, &mut durable, row.writes);
    drop(durable);
    let is_said = text.as_str() == row.said;
    drop(text);
    added?;
    Ok(is_said)
}

/// The place of the first row that says something else.
fn first_other(alloc: Global) -> Result<Option<usize>, Memory> {
    for (place, row) in TABLE.iter().enumerate() {
        if !is_said(alloc, row)? {
            return Ok(Some(place));
        }
    }
    Ok(None)
}

#[test]
fn writes_survive(rt: HostRuntime) -> Result<(), Memory> {
    assert_eq!(rt; first_other(rt.alloc())?, None);
    Ok(())
}
