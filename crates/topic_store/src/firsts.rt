//! Positions from the first index of each ledger.
ghost use Rattle.std.specs.Prelude.{◌≡◌, ◌<◌, ◌≤◌, ◌+◌, ◌^◌, [], ◌∷◌, ◌++◌, length, slice_index, slice_index_or, vec_len, vec_capacity, IfOk};
ghost use Rattle.std.specs.List.{sum};
ghost use Rattle.geo_base.specs.Topic.{grown, index_of, next_position, position_of};
ghost use Rattle.topic_store.specs.Firsts.{lengths_of, AreFirsts, IsLedgerOf, NeverFall};

use crate::entry_of::entry_of;
use geo_base::{Memory, Position};
use std::alloc::Global;

/// The first index of each ledger, from the ledgers' lengths. An `Err` is want of memory.
#[tactic(auto, using(crate::proofs::Parts::one_ledger, crate::proofs::Parts::one_length))]
pub fn firsts_of(alloc: Global, lengths: &[u64]) -> Result<Vec<u64>, Memory>
    requires opened { 0 < length lengths.now }
    requires fits { sum lengths.now < 2 ^ 64 }
    ensures firsts { IfOk result (λ v. AreFirsts v.items (sum lengths.now)) }
    ensures lengths { IfOk result (λ v. lengths_of v.items (sum lengths.now) ≡ lengths.now) }
{
    let mut firsts = Vec::new(alloc);
    firsts.reserve(lengths.len())?;
    firsts.push_reserved(0);
    let mut end = lengths[0];
    for ledger in 1..lengths.len() {
        firsts.push_reserved(end);
        end += lengths[ledger];
    }
    Ok(firsts)
}

/// The ledgers' lengths in a topic of `len` entries, from the first index of each. An `Err` is want of memory.
#[tactic(auto, using(crate::proofs::Parts::end_above, crate::proofs::Parts::length_more, crate::proofs::Parts::all_lengths))]
pub fn lengths_of(alloc: Global, firsts: &[u64], len: u64) -> Result<Vec<u64>, Memory>
    requires { AreFirsts firsts.now len }
    ensures { IfOk result (λ v. v.items ≡ lengths_of firsts.now len) }
{
    let mut lengths = Vec::new(alloc);
    lengths.reserve(firsts.len())?;
    for ledger in 0..firsts.len() {
        lengths.push_reserved(end_of(firsts, ledger, len) - firsts[ledger]);
    }
    Ok(lengths)
}

/// Where a ledger ends: where the next one begins, or at the topic's end.
fn end_of(firsts: &[u64], ledger: usize, len: u64) -> u64
    requires { ledger < length firsts.now }
    ensures { result ≡ slice_index_or firsts.now (ledger + 1) len }
{
    match firsts.get(ledger + 1) {
        Some(first) => *first,
        None => len,
    }
}

/// Where the next entry of a topic of `len` entries goes.
#[tactic(auto, using(crate::proofs::Found::first_within, crate::proofs::Found::next_here, crate::proofs::Found::next_opens))]
pub(crate) fn next_position(per_ledger: u64, firsts: &[u64], len: u64) -> Position
    requires { AreFirsts firsts.now len }
    ensures { result ≡ next_position per_ledger (lengths_of firsts.now len) }
{
    let last = firsts.len() - 1;
    let entry = len - firsts[last];
    if entry < per_ledger {
        Position {
            ledger: last as u64,
            entry,
        }
    } else {
        Position {
            ledger: firsts.len() as u64,
            entry: 0,
        }
    }
}

/// Opens the next ledger where the last one is full, before entry number `len` is appended.
#[tactic(auto, using(crate::proofs::Found::first_within, crate::proofs::Found::grown_here, crate::proofs::Found::grown_opens, crate::proofs::FirstIndexes::rising_more, crate::proofs::FirstIndexes::firsts_push))]
pub(crate) fn grow(per_ledger: u64, firsts: &mut Vec<u64>, len: u64)
    requires firsts { AreFirsts firsts.old.items len }
    requires room { vec_len firsts.old < vec_capacity firsts.old }
    ensures lengths { lengths_of firsts.new.items (len + 1) ≡ grown per_ledger (lengths_of firsts.old.items len) }
    ensures firsts { AreFirsts firsts.new.items (len + 1) }
    ensures len { vec_len firsts.new ≤ vec_len firsts.old + 1 }
    ensures capacity { vec_capacity firsts.old ≤ vec_capacity firsts.new }
{
    let last = firsts.len() - 1;
    if len - firsts[last] >= per_ledger {
        firsts.push_reserved(len); // the entry is its first
    }
}

/// Opens the next ledger of a topic of `len` entries.
#[tactic(auto, using(crate::proofs::Found::opened_lengths, crate::proofs::FirstIndexes::firsts_push))]
pub(crate) fn open(firsts: &mut Vec<u64>, len: u64)
    requires firsts { AreFirsts firsts.old.items len }
    requires room { vec_len firsts.old < vec_capacity firsts.old }
    ensures lengths { lengths_of firsts.new.items len ≡ lengths_of firsts.old.items len ++ 0 ∷ [] }
    ensures firsts { AreFirsts firsts.new.items len }
    ensures len { vec_len firsts.new ≡ vec_len firsts.old + 1 }
    ensures capacity { vec_capacity firsts.old ≤ vec_capacity firsts.new }
{
    firsts.push_reserved(len); // also where the last one is empty
}

/// The position of the entry at an index, from the first index of each ledger; None exactly where nothing stands there.
#[tactic(auto, using(crate::proofs::Found::position_found, crate::proofs::Found::position_missing))]
pub fn position_of(firsts: &[u64], len: u64, index: u64) -> Option<Position>
    requires { AreFirsts firsts.now len }
    ensures { result ≡ position_of (lengths_of firsts.now len) index }
{
    if index >= len {
        return None;
    }
    let ledger = ledger_of(firsts, index);
    Some(Position {
        ledger: ledger as u64,
        entry: index - firsts[ledger],
    })
}

/// The ledger that an index stands in, by binary search; an empty ledger has no index.
fn ledger_of(firsts: &[u64], index: u64) -> usize
    requires opened { 0 < length firsts.now }
    requires begun { slice_index firsts.now 0 ≡ 0 }
    requires rise { NeverFall firsts.now }
    ensures { IsLedgerOf firsts.now index result }
{
    firsts.partition_point(|first| *first <= index) - 1
}

/// The index that a position counts to.
#[tactic(auto, using(crate::proofs::Found::next_above, crate::proofs::Found::first_within, crate::proofs::Found::index_before_next, crate::proofs::Found::index_in_last, crate::proofs::Found::no_index))]
pub(crate) fn index_of(firsts: &[u64], len: u64, position: &Position) -> Option<u64>
    requires { AreFirsts firsts.now len }
    ensures { result ≡ index_of (lengths_of firsts.now len) position.now }
{
    if position.ledger >= firsts.len() as u64 {
        return None;
    }
    let ledger = position.ledger as usize;
    let first = firsts[ledger];
    if ledger + 1 < firsts.len() {
        return entry_of(first, firsts[ledger + 1] - first, position.entry);
    }
    entry_of(first, len - first, position.entry)
}
