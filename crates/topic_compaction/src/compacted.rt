//! A compacted view.
ghost use Rattle.std.specs.Prelude.{◌≡◌, ◌<◌, ◌≤◌, ◌-◌, List, ℕ, IfOk, OnOk, OnErr, length, take, drop, vec_len};
ghost use Rattle.std.specs.Option.{option_or};
ghost use Rattle.topic_compaction.specs.Faults.{Comes, fault_of};
ghost use Rattle.topic_compaction.specs.Last.{IsCompacted, if_of_key, index_in, is_at, is_kept, last_from};
ghost use Rattle.topic_compaction.specs.View.{IsLeast, is_shown};
ghost use Rattle.geo_base.specs.Entry.{is_data};
ghost use Rattle.indexmap.specs.IndexMap.{spare};

use crate::fault::CompactFault;
use geo_base::{Content, Entry, EntryStore, Memory};
use indexmap::IndexMap;
use std::alloc::Global;
use std::marker::Model;

/// The compacted view of the entries below a horizon: the index of the last message of each key among them.
#[derive(Drop)]
pub struct Compacted {
    last: IndexMap<String, u64>,
    horizon: u64,
}

impl Model for Compacted {
    ghost use Rattle.topic_compaction.specs.Last.{Rows};

    ghost Value = { Rows };

    ghost view = { λ c. record { horizon = c.horizon; rows = c.last.entries } };
}

impl Compacted {
    /// The view of the entries below a horizon, which is at most the store's length. A fault comes exactly where it is not
    /// (`PastEnd`), or for want of memory.
    pub fn build<S: EntryStore>(
        alloc: Global,
        store: &S,
        horizon: u64,
    ) -> Result<Compacted, CompactFault>
        ensures ok { IfOk result (IsCompacted (S.entries store.now)) }
        ensures at { IfOk result (λ c. c.horizon ≡ horizon) }
        ensures cause { Comes (fault_of 0 horizon (length (S.entries store.now))) result }
    {
        let mut compacted = Compacted {
            last: IndexMap::new(alloc),
            horizon: 0,
        };
        compacted.advance(alloc, store, horizon)?;
        Ok(compacted)
    }

    /// Moves the horizon on, to the view that `build` makes there. It looks at the entries between the two horizons alone, and
    /// needs memory for their keys. A horizon past the store's end is refused (`PastEnd`), then one below the horizon that is
    /// kept (`Backward`); a refusal changes nothing. The store's first entries are those that were compacted.
    pub fn advance<S: EntryStore>(
        &mut self,
        alloc: Global,
        store: &S,
        horizon: u64,
    ) -> Result<(), CompactFault>
        requires known { IsCompacted (S.entries store.now) self.old }
        ensures ok { OnOk result (IsCompacted (S.entries store.now) self.new) }
        ensures at { OnOk result (self.new.horizon ≡ horizon) }
        ensures err { OnErr result (self.new ≡ self.old) }
        ensures cause { Comes (fault_of self.old.horizon horizon (length (S.entries store.now))) result }
    {
        let len = store.len() as u64;
        if horizon > len {
            return Err(CompactFault::PastEnd { horizon, len });
        }
        if horizon < self.horizon {
            return Err(CompactFault::Backward {
                kept: self.horizon,
                given: horizon,
            });
        }
        let rows = rows_between(alloc, store, self.horizon, horizon)?;
        self.last.reserve(rows.len())?;
        note(&mut self.last, rows);
        self.horizon = horizon;
        Ok(())
    }

    /// The least index of the view at or after one; `None` exactly where there is none. It takes no memory, and looks up one
    /// key for each message below the horizon that it passes.
    pub fn next<S: EntryStore>(&self, store: &S, from: u64) -> Option<u64>
        requires known { IsCompacted (S.entries store.now) self.now }
        ensures { IsLeast (is_shown self.now.horizon (S.entries store.now)) from result }
    {
        for index in from..store.len() as u64 {
            if self.shows(store, index) {
                return Some(index);
            }
        }
        None
    }

    /// Whether an index is in the view.
    #[tactic(auto, using(crate::proofs::Shown::shown_by))]
    fn shows<S: EntryStore>(&self, store: &S, index: u64) -> bool
        requires known { IsCompacted (S.entries store.now) self.now }
        ensures { result ≡ is_shown self.now.horizon (S.entries store.now) index }
    {
        match store.get(index as usize) {
            Some(entry) => is_message(entry) && (index >= self.horizon || self.keeps(entry, index)),
            None => false,
        }
    }

    /// Whether a message below the horizon is the last of its key and has a payload, or has no key.
    fn keeps(&self, entry: &Entry, index: u64) -> bool
        ensures { result ≡ is_kept self.now.rows index entry.now.meta.key entry.now.payload }
    {
        match entry.meta.key() {
            None => true,
            Some(key) => {
                !entry.payload.as_slice().is_empty() && is_row(&self.last, key.as_str(), index)
            }
        }
    }
}

/// Whether a map has an index for a key.
fn is_row(last: &IndexMap<String, u64>, key: &str, index: u64) -> bool
    ensures { result ≡ is_at index (index_in key.now last.now.entries) }
{
    match last.get(key) {
        Some(last) => *last == index,
        None => false,
    }
}

/// Whether an entry is a message.
fn is_message(entry: &Entry) -> bool
    ensures { result ≡ is_data entry.now.content }
{
    matches!(entry.content, Content::Data)
}

/// The keys of the messages between two indexes, each with the message's index, the last one first.
fn rows_between<S: EntryStore>(
    alloc: Global,
    store: &S,
    from: u64,
    to: u64,
) -> Result<Vec<(String, u64)>, Memory>
    requires order { from ≤ to }
    requires within { to ≤ length (S.entries store.now) }
    ensures { IfOk result (λ v. (k : List ℕ) → index_in k v.items ≡ last_from k from (drop from (take to (S.entries store.now)))) }
{
    let mut rows = Vec::new(alloc);
    let mut index = to;
    while index > from {
        index -= 1;
        if let Some(entry) = store.get(index as usize) {
            add_row(alloc, &mut rows, entry, index)?;
        }
    }
    Ok(rows)
}

/// The row of a message with a key, after others.
fn add_row(
    alloc: Global,
    rows: &mut Vec<(String, u64)>,
    entry: &Entry,
    index: u64,
) -> Result<(), Memory>
    ensures { OnOk result ((k : List ℕ) → index_in k rows.new.items ≡ option_or (index_in k rows.old.items) (if_of_key k index entry.now)) }
{
    if let (Content::Data, Some(key)) = (&entry.content, entry.meta.key()) {
        rows.push((String::from_str(alloc, key.as_str())?, index))?;
    }
    Ok(())
}

/// Notes rows in a map, the last one of them first, so that of two of one key that which stands before the other stays.
fn note(last: &mut IndexMap<String, u64>, mut rows: Vec<(String, u64)>)
    requires room { vec_len rows ≤ spare last.old }
    ensures { (k : List ℕ) → index_in k last.new.entries ≡ option_or (index_in k rows.items) (index_in k last.old.entries) }
{
    while let Some((key, index)) = rows.pop() {
        match last.insert(key, index) {
            Ok(_) => {}
            Err(_) => unreachable!(),
        }
    }
}
