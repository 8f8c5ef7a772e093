//! The backlog of a subscription after a write of it, by what the write acknowledges: no walk over the topic, and none over the cursor.
ghost use Rattle.std.specs.Prelude.{◌≡◌, ◌<◌, ◌+◌, true, ◌&&◌, ◌||◌, not, length, slice_get, IfOk, IfSome, OnOk};
ghost use Rattle.broker_subs.specs.Steps.{sub_written};
ghost use Rattle.geo_base.specs.Broker.{backlog};
ghost use Rattle.geo_base.specs.Cursor.{below, has, with_index, with_indexes};
ghost use Rattle.geo_base.specs.Entry.{is_data};
ghost use Rattle.geo_base.specs.Updating.{is_updated};
ghost use Rattle.step_lines.specs.Counting.{ascend, is_message_at, open_messages, passed, passes, passes_entry};

use broker::Broker;
use broker_subs::{Sub, SubWrite};
use cursor_acks::Cursor;
use geo_base::{Content, Entry, EntryStore, Memory};
use std::alloc::Global;
use topic_store::TopicLedger;

/// How many messages stand from an index on.
#[tactic(auto, using(crate::proofs::OpenMessages::all_from, crate::proofs::OpenMessages::none_from))]
pub(crate) fn messages_from(store: &TopicLedger, index: u64) -> u64
    ensures { result ≡ open_messages store.now.entries (below index) }
{
    let len = store.len();
    if index >= len as u64 {
        return 0;
    }
    let all = store.messages_before(len);
    all.saturating_sub(store.messages_before(index as usize))
}

/// A backlog without each of some indexes; None where one is not stored. An index that is named again counts once.
fn without_each(
    alloc: Global,
    store: &TopicLedger,
    cursor: &Cursor,
    indexes: &[u64],
    backlog: u64,
) -> Result<Option<u64>, Memory>
    requires { backlog ≡ open_messages store.now.entries cursor.now.indexes }
    ensures { IfOk result (λ o. IfSome o (λ c. c ≡ open_messages store.now.entries (with_indexes cursor.now.indexes indexes.now))) }
{
    let len = store.len() as u64;
    let may_repeat = !ascend(indexes, len);
    let mut acked = Cursor::none(alloc);
    let mut left = backlog;
    for index in indexes {
        if *index >= len {
            return Ok(None);
        }
        if is_open(store, cursor, &acked, *index) {
            left = left.saturating_sub(1);
        }
        if may_repeat {
            add(&mut acked, *index, len)?;
        }
    }
    Ok(Some(left))
}

/// Whether each of some indexes of a topic of so many entries is above those before it.
#[tactic(auto, using(crate::proofs::OpenMessages::ascend_not, crate::proofs::OpenMessages::ascend_next, crate::proofs::OpenMessages::ascend_end))]
fn ascend(indexes: &[u64], len: u64) -> bool
    ensures { result ≡ true → ascend 0 indexes.now ≡ true }
{
    let mut low = 0;
    for index in indexes {
        if *index < low || *index >= len {
            return false;
        }
        low = *index + 1;
    }
    true
}

/// Whether a message stands at an index that neither of two cursors has.
fn is_open(store: &TopicLedger, cursor: &Cursor, acked: &Cursor, index: u64) -> bool
    ensures { result ≡ (is_message_at store.now.entries index && not (has acked.now.indexes index || has cursor.now.indexes index)) }
{
    !acked.is_acked(index) && !cursor.is_acked(index) && is_message_at(store, index)
}

/// Adds an index of a topic of so many entries.
fn add(cursor: &mut Cursor, index: u64, len: u64) -> Result<(), Memory>
    requires { index < len }
    ensures { OnOk result (cursor.new.indexes ≡ with_index cursor.old.indexes index) }
{
    cursor.reserve(1)?;
    match cursor.ack_one(index, len) {
        Ok(()) => Ok(()),
        Err(_) => unreachable!(),
    }
}

/// A backlog without what is passed over up to an index: all, or what an update of a cluster passes over; None where nothing is stored
/// at the index.
fn without_passed(
    store: &TopicLedger,
    cursor: &Cursor,
    index: u64,
    from: Option<u32>,
    backlog: u64,
) -> Option<u64>
    requires { backlog ≡ open_messages store.now.entries cursor.now.indexes }
    ensures { IfSome result (λ c. c ≡ open_messages store.now.entries (with_indexes cursor.now.indexes (passed from store.now.entries (index + 1)))) }
{
    if index >= store.len() as u64 {
        return None;
    }
    let mut left = backlog;
    let mut at = cursor.next_open(0);
    while at <= index {
        if is_passed_message(store, at, from) {
            left = left.saturating_sub(1);
        }
        at = cursor.next_open(at + 1);
    }
    Some(left)
}

/// Whether a message stands at an index that is passed over.
fn is_passed_message(store: &TopicLedger, index: u64, from: Option<u32>) -> bool
    ensures { result ≡ (is_message_at store.now.entries index && passes from store.now.entries index) }
{
    match store.get(index as usize) {
        Some(entry) => is_message(entry) && is_passed(entry, from),
        None => false,
    }
}

/// Whether an entry is passed over.
fn is_passed(entry: &Entry, from: Option<u32>) -> bool
    ensures { result ≡ passes_entry from entry.now }
{
    match from {
        None => true,
        Some(from) => is_updated(entry, from),
    }
}

/// Whether an update of a cluster passes over an entry.
fn is_updated(entry: &Entry, from: u32) -> bool
    ensures { result ≡ is_updated from entry.now }
{
    match entry.content {
        Content::Data => entry.ident.origin == from || entry.to.contains(from),
        Content::Marked(_) | Content::Unread(_) => true,
    }
}

/// Whether a message stands at an index.
pub(crate) fn is_message_at(store: &TopicLedger, index: u64) -> bool
    ensures { result ≡ is_message_at store.now.entries index }
{
    match store.get(index as usize) {
        Some(entry) => is_message(entry),
        None => false,
    }
}

/// Whether an entry is a message.
pub(crate) fn is_message(entry: &Entry) -> bool
    ensures { result ≡ is_data entry.now.content }
{
    match entry.content {
        Content::Data => true,
        Content::Marked(_) | Content::Unread(_) => false,
    }
}

/// The backlog of a subscription, which this was, after a write of it; None where the write names what is not stored.
pub(crate) fn backlog_after(
    alloc: Global,
    broker: &Broker,
    sub: &Sub,
    write: &SubWrite,
    count: u64,
) -> Result<Option<u64>, Memory>
    requires { count ≡ backlog broker.now.broker sub.now.sub }
    ensures { IfOk result (λ o. IfSome o (λ c. c ≡ backlog broker.now.broker (sub_written broker.now.broker.entries write.now sub.now.sub))) }
{
    let store = broker.store();
    let cursor = sub.cursor();
    match write {
        SubWrite::Acks(indexes) => { without_each(alloc, store, cursor, indexes.as_slice(), count) }
        SubWrite::AckTo(index) => Ok(without_passed(store, cursor, *index, None, count)),
        SubWrite::UpdateTo { index, from, .. } => {
            Ok(without_passed(store, cursor, *index, Some(*from), count))
        }
        SubWrite::Seek(index) => Ok(Some(messages_from(store, *index))),
        SubWrite::Alter { .. } => Ok(Some(count)),
    }
}
