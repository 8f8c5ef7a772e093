//! The snapshots of a cluster that no update of it told, and one that is asked for.
ghost use Rattle.std.specs.Prelude.{◌≡◌, ◌<◌, ◌≤◌, ◌+◌, ◌^◌, None, Some, false};
ghost use Rattle.std.specs.Option.{option_copied};
ghost use Rattle.geo_base.specs.Topic.{index_of};
ghost use Rattle.loss_laws.specs.Lost.{asked_behind, asked_from, counted, is_told, last_update, passed_in, passes_index, untold, update_in};
ghost use Rattle.world_measures.specs.Snapshots.{told_at};

use crate::pairs::are_same_pairs;
use broker::Broker;
use broker_subs::Sub;
use geo_base::{ClusterPosition, Content, Entry, EntryStore, Marker, Position, Sequence};
use topic_store::TopicLedger;

/// How many snapshots of a cluster a subscription's mark-delete has passed there, after the last one that an update of it tells.
pub(crate) fn untold(source: u32, broker: &Broker, sub: &Sub) -> u64
    ensures { result ≡ untold source broker.now.broker sub.now.sub }
{
    let store = broker.store();
    let mark = sub.cursor().mark_delete();
    let told = last_update(source, sub.name().as_str().as_bytes(), store);
    let mut count = 0;
    for index in 0..store.len() {
        match store.get(index) {
            Some(entry) => count = counted(told, count, passed_in(source, mark, store, entry)),
            None => unreachable!(),
        }
    }
    count
}

/// What the last update of a cluster for a subscription names.
fn last_update<'a>(
    source: u32,
    name: &[u8],
    store: &'a TopicLedger,
) -> Option<&'a Sequence<ClusterPosition>>
    ensures { option_copied result ≡ last_update source name.now None store.entry.now.entries }
{
    let mut index = store.len();
    while index > 0 {
        index -= 1;
        if let Some(remote) = update_at(source, name, store, index) {
            return Some(remote);
        }
    }
    None
}

/// What the entry at an index names, if it is an update of a cluster for a subscription.
fn update_at<'a>(
    source: u32,
    name: &[u8],
    store: &'a TopicLedger,
    index: usize,
) -> Option<&'a Sequence<ClusterPosition>>
    ensures { option_copied result ≡ told_at source name.now store.entry.now.entries (Some index) }
{
    match store.get(index) {
        Some(entry) => update_in(source, name, entry),
        None => None,
    }
}

fn update_in<'a>(
    source: u32,
    name: &[u8],
    entry: &'a Entry,
) -> Option<&'a Sequence<ClusterPosition>>
    ensures { option_copied result ≡ update_in source name.now entry.entry.now entry.entry.now.content }
{
    let Content::Marked(marker) = &entry.content else {
        return None;
    };
    let Marker::Update { sub, remote } = marker.get() else {
        return None;
    };
    if entry.ident.origin == source && sub.as_bytes() == name {
        Some(remote)
    } else {
        None
    }
}

/// What an entry names, if it is a snapshot of a cluster whose local position a mark-delete has passed.
fn passed_in<'a>(
    source: u32,
    mark: u64,
    store: &TopicLedger,
    entry: &'a Entry,
) -> Option<&'a Sequence<ClusterPosition>>
    ensures { option_copied result ≡ passed_in source store.now.ledgers mark entry.entry.now entry.entry.now.content }
{
    let Content::Marked(marker) = &entry.content else {
        return None;
    };
    let Marker::Snapshot { local, remote, .. } = marker.get() else {
        return None;
    };
    if entry.ident.origin == source && is_passed(store, mark, *local) {
        Some(remote)
    } else {
        None
    }
}

/// Whether a mark-delete has passed a position.
fn is_passed(store: &TopicLedger, mark: u64, position: Position) -> bool
    ensures { result ≡ passes_index mark (index_of store.now.ledgers position) }
{
    match store.index_of(position) {
        Some(index) => (index as u64) < mark,
        None => false,
    }
}

/// The count with one more snapshot, if one is passed.
fn counted(
    told: Option<&Sequence<ClusterPosition>>,
    count: u64,
    passed: Option<&Sequence<ClusterPosition>>,
) -> u64
    requires { count + 1 < 2 ^ 64 }
    ensures count { result ≡ counted (option_copied told.entry) count (option_copied passed.entry) }
    ensures few { result ≤ count + 1 }
{
    match passed {
        None => count,
        Some(remote) => { if is_told(told, remote) { 0 } else { count + 1 } }
    }
}

/// Whether an update tells a snapshot.
fn is_told(told: Option<&Sequence<ClusterPosition>>, remote: &Sequence<ClusterPosition>) -> bool
    ensures { result ≡ is_told (option_copied told.entry) remote.now }
{
    match told {
        Some(named) => are_same_pairs(named.as_slice(), remote.as_slice()),
        None => false,
    }
}

/// Whether the last of a cluster's requests and snapshots is a request.
pub(crate) fn is_asked(source: u32, store: &TopicLedger) -> bool
    ensures { result ≡ asked_from source false store.now.entries }
{
    let mut is_asked = false;
    for index in 0..store.len() {
        match store.get(index) {
            Some(entry) => is_asked = is_asked_behind(source, is_asked, entry),
            None => unreachable!(),
        }
    }
    is_asked
}

fn is_asked_behind(source: u32, before: bool, entry: &Entry) -> bool
    ensures { result ≡ asked_behind source before entry.now entry.now.content }
{
    let Content::Marked(marker) = &entry.content else {
        return before;
    };
    match marker.get() {
        Marker::Request { .. } => before || entry.ident.origin == source,
        Marker::Snapshot { .. } => before && entry.ident.origin != source,
        Marker::Response { .. } | Marker::Update { .. } => before,
    }
}
