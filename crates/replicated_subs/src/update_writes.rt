//! What an update of another cluster does to a cursor.
ghost use Rattle.std.specs.Prelude.{◌≡◌, ◌≤◌, ◌<◌, ◌+◌, ◌^◌, ◌&&◌, true, if◌then◌else◌, length, slice_get, OnOk, IfErr, OnErr};
ghost use Rattle.cursor_acks.specs.Acks.{stands_alone};
ghost use Rattle.geo_base.specs.Cursor.{with_index, with_indexes};
ghost use Rattle.geo_base.specs.Updating.{updated_indexes, is_updated};
ghost use Rattle.replicated_subs.specs.Alone.{alone, is_some_updated, reaches_none};

use cursor_acks::{Cursor, PastEnd};
use geo_base::{Content, Entry, EntryStore};

/// How many places `apply` takes in the cursor: the indexes that it passes over and that stand alone when their turn comes,
/// neither they nor a neighbour being acknowledged by then.
pub fn runs<S: EntryStore>(cursor: &Cursor, store: &S, index: u64, from: u32) -> usize
    ensures { result ≡ alone cursor.now.indexes (updated_indexes from 0 (index + 1) (S.entries store.now)) }
{
    let end = index.saturating_add(1).min(store.len() as u64);
    let mut count = 0;
    let mut at = cursor.next_open(0);
    while at < end {
        count += places_at(cursor, store, at, from);
        at = cursor.next_open(at + 1);
    }
    count
}

/// An update of the cluster `from`, which names the entry at an index: what the cluster could have had up to it, and every
/// marker, is acknowledged, so that no message is passed over that was kept from that cluster (own). `PastEnd` exactly
/// where no entry stands at the index, with no change. Takes no memory: the cursor's spare is at least `runs`.
pub fn apply<S: EntryStore>(
    cursor: &mut Cursor,
    store: &S,
    index: u64,
    from: u32,
) -> Result<(), PastEnd>
    requires room { alone cursor.old.indexes (updated_indexes from 0 (index + 1) (S.entries store.now)) ≤ cursor.old.spare }
    ensures ok { OnOk result (index < length (S.entries store.now)) }
    ensures indexes { OnOk result (cursor.new.indexes ≡ with_indexes cursor.old.indexes (updated_indexes from 0 (index + 1) (S.entries store.now))) }
    ensures past_end { IfErr result (λ e. (length (S.entries store.now) ≤ index) × (e ≡ record { index = index; len = length (S.entries store.now) })) }
    ensures err { OnErr result (cursor.new ≡ cursor.old) }
{
    let len = store.len() as u64;
    if index >= len {
        return Err(PastEnd { index, len });
    }
    update_to(cursor, store, index, from);
    Ok(())
}

/// Acknowledges what an update passes over up to an index of the topic.
fn update_to<S: EntryStore>(cursor: &mut Cursor, store: &S, index: u64, from: u32)
    requires within { index < length (S.entries store.now) }
    requires fits { index + 1 < 2 ^ 64 }
    requires room { alone cursor.old.indexes (updated_indexes from 0 (index + 1) (S.entries store.now)) ≤ cursor.old.spare }
    ensures { cursor.new.indexes ≡ with_indexes cursor.old.indexes (updated_indexes from 0 (index + 1) (S.entries store.now)) }
{
    let mut at = cursor.next_open(0);
    while at <= index {
        update_one(cursor, store, at, from);
        at = cursor.next_open(at + 1);
    }
}

/// Acknowledges an index, if an update passes over the entry there.
fn update_one<S: EntryStore>(cursor: &mut Cursor, store: &S, at: u64, from: u32)
    requires within { at < length (S.entries store.now) }
    requires room { (is_some_updated from (slice_get (S.entries store.now) at) && stands_alone cursor.old.indexes at) ≡ true → 0 < cursor.old.spare }
    ensures indexes { cursor.new.indexes ≡ (if is_some_updated from (slice_get (S.entries store.now) at) then with_index cursor.old.indexes at else cursor.old.indexes) }
    ensures spare { cursor.old.spare ≤ cursor.new.spare + (if is_some_updated from (slice_get (S.entries store.now) at) && stands_alone cursor.old.indexes at then 1 else 0) }
{
    if is_updated_at(store, at, from) {
        match cursor.ack_one(at, store.len() as u64) {
            Ok(()) => {}
            Err(_) => unreachable!(),
        }
    }
}

/// How many places an index takes that the cursor lacks, where all below it were passed over that are to be.
fn places_at<S: EntryStore>(cursor: &Cursor, store: &S, at: u64, from: u32) -> usize
    requires within { at < length (S.entries store.now) }
    requires fits { at + 1 < 2 ^ 64 }
    ensures { result ≡ (if is_some_updated from (slice_get (S.entries store.now) at) && reaches_none from (S.entries store.now) cursor.now.indexes at then 1 else 0) }
{
    if is_updated_at(store, at, from) && is_alone(cursor, store, at, from) {
        1
    } else {
        0
    }
}

/// Whether an index that the cursor lacks stands alone, where all below it were passed over that are to be.
fn is_alone<S: EntryStore>(cursor: &Cursor, store: &S, at: u64, from: u32) -> bool
    requires within { at < length (S.entries store.now) }
    requires fits { at + 1 < 2 ^ 64 }
    ensures { result ≡ reaches_none from (S.entries store.now) cursor.now.indexes at }
{
    let joins_below = at > 0 && (cursor.is_acked(at - 1) || is_updated_at(store, at - 1, from));
    !joins_below && !cursor.is_acked(at + 1)
}

/// Whether an update of a cluster passes over the entry at an index, if one stands there.
fn is_updated_at<S: EntryStore>(store: &S, at: u64, from: u32) -> bool
    ensures { result ≡ is_some_updated from (slice_get (S.entries store.now) at) }
{
    match store.get(at as usize) {
        None => false,
        Some(entry) => is_updated(entry, from),
    }
}

/// Whether an update of a cluster passes over an entry.
fn is_updated(entry: &Entry, from: u32) -> bool
    ensures { result ≡ is_updated from entry.now }
{
    match entry.content {
        Content::Data => entry.ident.origin == from || entry.to.contains(from),
        Content::Marked(_) | Content::Unread(_) => true,
    }
}
