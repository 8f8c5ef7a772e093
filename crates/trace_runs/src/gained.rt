//! The indexes that are new to a cursor.
ghost use Rattle.std.specs.Prelude.{◌≡◌, ◌<◌, ◌+◌, if◌then◌else◌, length, slice_get, IfOk, OnOk};
ghost use Rattle.std.specs.List.{All};
ghost use Rattle.geo_base.specs.Cursor.{below, with_index};
ghost use Rattle.geo_base.specs.Traced.{gained};
ghost use Rattle.geo_base.specs.Updating.{updated_indexes, is_updated};
ghost use Rattle.replicated_subs.specs.Alone.{is_some_updated};

use cursor_acks::Cursor;
use geo_base::{Content, Entry, EntryStore, Memory};
use std::alloc::Global;

/// Those of some indexes of a topic of so many entries.
pub fn gained_each(
    alloc: Global,
    cursor: &Cursor,
    indexes: &[u64],
    len: u64,
) -> Result<Cursor, Memory>
    requires within { All (λ i. i < len) indexes.now }
    ensures { IfOk result (λ c. c.indexes ≡ gained cursor.now.indexes indexes.now) }
{
    let mut gained = Cursor::none(alloc);
    for index in indexes {
        if !cursor.is_acked(*index) {
            add(&mut gained, *index, len)?;
        }
    }
    Ok(gained)
}

/// Those up to an index, itself included, of a topic of so many entries.
pub fn gained_to(alloc: Global, cursor: &Cursor, index: u64, len: u64) -> Result<Cursor, Memory>
    requires within { index < len }
    ensures { IfOk result (λ c. c.indexes ≡ gained cursor.now.indexes (below (index + 1))) }
{
    let mut gained = Cursor::none(alloc);
    let mut at = cursor.next_open(0);
    while at <= index {
        add(&mut gained, at, len)?;
        at = cursor.next_open(at + 1);
    }
    Ok(gained)
}

/// Those that an update of the cluster `from` passes over up to an index of the topic.
pub fn gained_by_update<S: EntryStore>(
    alloc: Global,
    cursor: &Cursor,
    store: &S,
    index: u64,
    from: u32,
) -> Result<Cursor, Memory>
    requires within { index < length (S.entries store.now) }
    ensures { IfOk result (λ c. c.indexes ≡ gained cursor.now.indexes (updated_indexes from 0 (index + 1) (S.entries store.now))) }
{
    let len = store.len() as u64;
    let mut gained = Cursor::none(alloc);
    let mut at = cursor.next_open(0);
    while at <= index {
        add_updated(&mut gained, store, at, len, from)?;
        at = cursor.next_open(at + 1);
    }
    Ok(gained)
}

/// Adds an index of a topic of so many entries, if an update passes over the entry there.
fn add_updated<S: EntryStore>(
    gained: &mut Cursor,
    store: &S,
    at: u64,
    len: u64,
    from: u32,
) -> Result<(), Memory>
    requires within { at < len }
    ensures { OnOk result (gained.new.indexes ≡ (if is_some_updated from (slice_get (S.entries store.now) at) then with_index gained.old.indexes at else gained.old.indexes)) }
{
    match store.get(at as usize) {
        Some(entry) if is_updated(entry, from) => add(gained, at, len),
        _ => Ok(()),
    }
}

/// Whether an update of a cluster passes over an entry.
fn is_updated(entry: &Entry, from: u32) -> bool
    ensures { result ≡ is_updated from entry.now }
{
    match entry.content {
        Content::Data => entry.ident.origin == from || entry.to.contains(from),
        Content::Marked(_) | Content::Unread(_) => true,
    }
}

/// Adds an index of a topic of so many entries.
fn add(gained: &mut Cursor, index: u64, len: u64) -> Result<(), Memory>
    requires { index < len }
    ensures { OnOk result (gained.new.indexes ≡ with_index gained.old.indexes index) }
{
    if gained.spare() == 0 {
        gained.reserve(1)?;
    }
    match gained.ack_one(index, len) {
        Ok(()) => Ok(()),
        Err(_) => unreachable!(),
    }
}
