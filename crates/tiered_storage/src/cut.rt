//! A store's entries, ledger by ledger.
ghost use Rattle.std.specs.Prelude.{◌≡◌, ◌<◌, ◌^◌, IfOk, map, slice_get};
ghost use Rattle.std.specs.List.{sum};
ghost use Rattle.std.specs.Option.{option_copied};
ghost use Rattle.geo_base.specs.Topic.{position_of};
ghost use Rattle.tiered_storage.specs.Ledgers.{AreFirstsIfAny, entries_in};
ghost use Rattle.tiered_storage.specs.Tiered.{all_here, part_length};
ghost use Rattle.topic_store.specs.Firsts.{lengths_of};

use crate::part::Part;
use geo_base::{Entry, EntryStore, Memory, Position, Sequence};
use std::alloc::Global;
use topic_store::firsts;

/// All ledgers of a store, each with copies of its entries. An `Err` is want of memory.
pub fn parts_of<S: EntryStore>(alloc: Global, store: &S) -> Result<Vec<Part>, Memory>
    ensures { IfOk result (λ v. v.items ≡ all_here (S.ledgers store.now) (S.entries store.now)) }
{
    let mut parts = Vec::new(alloc);
    for ledger in 0..store.ledgers() {
        let entries = copied_ledger(alloc, store, ledger)?;
        parts.push(Part::Here(entries))?;
    }
    Ok(parts)
}

/// Copies of the entries of a ledger.
fn copied_ledger<S: EntryStore>(
    alloc: Global,
    store: &S,
    ledger: u64,
) -> Result<Sequence<Entry>, Memory>
    ensures { IfOk result (λ s. s ≡ entries_in (S.ledgers store.now) (S.entries store.now) ledger) }
{
    let mut copies = Sequence::new(alloc);
    while let Some(entry) = entry_of(store, ledger, copies.len() as u64) {
        copies.push(entry.copy(alloc)?)?;
    }
    Ok(copies)
}

/// The entry at a place of a ledger; `None` exactly where nothing stands there.
#[tactic(auto, using(crate::proofs::Standing::entry_found, crate::proofs::Standing::no_entry))]
fn entry_of<S: EntryStore>(store: &S, ledger: u64, entry: u64) -> Option<&Entry>
    ensures { option_copied result ≡ slice_get (entries_in (S.ledgers store.now) (S.entries store.now) ledger) entry }
{
    match store.index_of(Position { ledger, entry }) {
        Some(index) => store.get(index),
        None => None,
    }
}

/// The lengths of ledgers that are all here. An `Err` is want of memory.
pub fn lengths_of(alloc: Global, parts: &[Part]) -> Result<Vec<u64>, Memory>
    ensures { IfOk result (λ v. v.items ≡ map part_length parts.now) }
{
    let mut lengths = Vec::new(alloc);
    for part in parts {
        lengths.push(length_of(part))?;
    }
    Ok(lengths)
}

/// How many entries of a ledger are here.
fn length_of(part: &Part) -> u64
    ensures { result ≡ part_length part.now }
{
    match part {
        Part::Here(entries) => entries.len() as u64,
        Part::Away => 0,
    }
}

/// The first index of each ledger, from the ledgers' lengths. An `Err` is want of memory.
pub fn firsts_of(alloc: Global, lengths: &[u64]) -> Result<Vec<u64>, Memory>
    requires { sum lengths.now < 2 ^ 64 }
    ensures firsts { IfOk result (λ v. AreFirstsIfAny v.items (sum lengths.now)) }
    ensures lengths { IfOk result (λ v. lengths_of v.items (sum lengths.now) ≡ lengths.now) }
{
    if lengths.is_empty() {
        return Ok(Vec::new(alloc));
    }
    firsts::firsts_of(alloc, lengths)
}

/// The position of the entry at an index, from the first index of each ledger; `None` exactly where nothing stands there.
pub fn position_of(firsts: &[u64], len: u64, index: u64) -> Option<Position>
    requires { AreFirstsIfAny firsts.now len }
    ensures { result ≡ position_of (lengths_of firsts.now len) index }
{
    if firsts.is_empty() {
        return None;
    }
    firsts::position_of(firsts, len, index)
}
