//! Ledgers that move to a tier.
ghost use Rattle.std.specs.Prelude.{◌≡◌, ◌≤◌, ℕ, List, length, IfOk};
ghost use Rattle.geo_base.specs.declared.entry.Entry.{Entry};
ghost use Rattle.tiered_storage.specs.Readable.{AreTellable};
ghost use Rattle.tiered_storage.specs.Tiered.{Holds};

use crate::texts::{clusters, is_same, ledger};
use geo_base::limits::CLUSTERS;
use geo_base::{ClusterName, Entry, EntryStore, Memory};
use std::alloc::Global;
use std::test::Fail;
use tiered_storage::*;
use topic_store::TopicLedger;

/// A topic of five entries in ledgers of two, of which the third is open.
fn topic(alloc: Global) -> Result<TopicLedger, Memory>
    ensures { IfOk result (λ t. (names : List (List ℕ)) → AreTellable names 0 t.entries) }
{
    TopicLedger::from_parts(alloc, 2, &[2, 2, 1], ledger(alloc)?)
}

/// Moves a ledger, a second time where the first fails; whether it moved.
fn moves<T: Tier + Drop>(
    alloc: Global,
    names: &[ClusterName],
    tiered: &mut TieredLedger<T>,
    ledger: u64,
) -> bool
    ghost entries: { List Entry }
    requires { Holds names.now T.kept entries tiered.old }
    ensures { Holds names.now T.kept entries tiered.new }
{
    tiered.offload(alloc, names, ledger).is_ok() || tiered.offload(alloc, names, ledger).is_ok()
}

/// Whether a store has an entry at an index.
fn has<S: EntryStore>(store: &S, i: usize, entry: &Option<Entry>) -> bool {
    match (store.get(i), entry) {
        (Some(kept), Some(entry)) => is_same(kept, entry),
        (None, None) => true,
        _ => false,
    }
}

/// Whether an index is read as the store has it; none where it is not read.
fn read_once<S: EntryStore, T: Tier + Drop>(
    alloc: Global,
    names: &[ClusterName],
    store: &S,
    tiered: &mut TieredLedger<T>,
    i: usize,
) -> Option<bool>
    ghost entries: { List Entry }
    requires clusters { length names.now ≤ CLUSTERS }
    requires holds { Holds names.now T.kept entries tiered.old }
    ensures { Holds names.now T.kept entries tiered.new }
{
    match tiered.read(alloc, names, i) {
        Ok(entry) => {
            let is_same = has(store, i, &entry);
            drop(entry);
            Some(is_same)
        }
        Err(_) => None,
    }
}

/// The same, a second time where the first fails.
fn reads<S: EntryStore, T: Tier + Drop>(
    alloc: Global,
    names: &[ClusterName],
    store: &S,
    tiered: &mut TieredLedger<T>,
    i: usize,
) -> Option<bool>
    ghost entries: { List Entry }
    requires clusters { length names.now ≤ CLUSTERS }
    requires holds { Holds names.now T.kept entries tiered.old }
    ensures { Holds names.now T.kept entries tiered.new }
{
    match read_once(alloc, names, store, tiered, i) {
        Some(is) => Some(is),
        None => read_once(alloc, names, store, tiered, i),
    }
}

/// Whether all is read as the store has it, once two ledgers have moved.
fn are_kept<S: EntryStore, T: Tier + Drop>(
    alloc: Global,
    names: &[ClusterName],
    store: &S,
    tiered: &mut TieredLedger<T>,
) -> bool
    ghost entries: { List Entry }
    requires clusters { length names.now ≤ CLUSTERS }
    requires holds { Holds names.now T.kept entries tiered.old }
{
    for ledger in 0..2 {
        if !moves(alloc, names, tiered, ledger) {
            return false;
        }
    }
    for i in 0..6 {
        if reads(alloc, names, store, tiered, i) != Some(true) {
            return false;
        }
    }
    tiered.offloaded() == 2
}

/// Whether a topic is kept where the tier fails at some calls.
fn is_kept<S: EntryStore>(alloc: Global, store: &S, fails: &[u64]) -> Result<bool, Memory>
    requires { (names : List (List ℕ)) → AreTellable names 0 (S.entries store.now) }
{
    let names = clusters(alloc)?;
    let mut tiered = TieredLedger::new(alloc, 0, store, MemTier::new(alloc, fails)?)?;
    Ok(are_kept(alloc, names.as_slice(), store, &mut tiered))
}

/// Rows are the calls that fail, and whether all is read then as the store has it: a call that is made again fails again.
const FAILS: &[(&[u64], bool)] = &[
    (&[], true),
    (&[1], true),
    (&[2], true),
    (&[3], true),
    (&[4], true),
    (&[5], true),
    (&[1, 2], false),
];

/// The first row of calls at whose failing a topic is kept otherwise.
fn wrong_calls<S: EntryStore>(alloc: Global, store: &S) -> Result<Option<usize>, Memory>
    requires { (names : List (List ℕ)) → AreTellable names 0 (S.entries store.now) }
{
    for (row, &(fails, kept)) in FAILS.iter().enumerate() {
        if is_kept(alloc, store, fails)? != kept {
            return Ok(Some(row));
        }
    }
    Ok(None)
}

#[test]
fn nothing_is_lost_where_a_tier_fails(rt: HostRuntime) -> Result<(), Fail> {
    let store = topic(rt.alloc())?;
    let wrong = wrong_calls(rt.alloc(), &store);
    drop(store);
    assert_eq!(rt; wrong?, None);
    Ok(())
}

/// Whether moves of ledgers are answered as rows say.
fn are_moved<T: Tier + Drop>(
    alloc: Global,
    names: &[ClusterName],
    tiered: &mut TieredLedger<T>,
    rows: &[(u64, Result<(), OffloadFault>)],
) -> bool
    ghost entries: { List Entry }
    requires { Holds names.now T.kept entries tiered.old }
    ensures { Holds names.now T.kept entries tiered.new }
{
    for row in rows {
        if tiered.offload(alloc, names, row.0) != row.1 {
            return false;
        }
    }
    true
}

/// Whether indexes are read as rows say.
fn are_read<S: EntryStore, T: Tier + Drop>(
    alloc: Global,
    names: &[ClusterName],
    store: &S,
    tiered: &mut TieredLedger<T>,
    rows: &[(usize, Option<bool>)],
) -> bool
    ghost entries: { List Entry }
    requires clusters { length names.now ≤ CLUSTERS }
    requires holds { Holds names.now T.kept entries tiered.old }
    ensures { Holds names.now T.kept entries tiered.new }
{
    for row in rows {
        if read_once(alloc, names, store, tiered, row.0) != row.1 {
            return false;
        }
    }
    true
}

/// Rows are a ledger, and what its move is answered: the first call is that of the ledger that moves.
const FIRST: &[(u64, Result<(), OffloadFault>)] = &[
    (2, Err(OffloadFault::Open(2))),
    (3, Err(OffloadFault::Unknown(3))),
    (0, Ok(())),
];

/// Rows are an index, and whether it is read as the store has it: the second call fails, and a ledger that was read last takes none.
const THEN: &[(usize, Option<bool>)] = &[
    (0, None),
    (0, Some(true)),
    (1, Some(true)),
    (2, Some(true)),
];

/// The fourth call fails.
const LAST: &[(u64, Result<(), OffloadFault>)] = &[(1, Err(OffloadFault::Failed))];

/// Whether all is answered as the rows say where the second and the fourth call fail.
fn is_story<S: EntryStore, T: Tier + Drop>(
    alloc: Global,
    names: &[ClusterName],
    store: &S,
    tiered: &mut TieredLedger<T>,
) -> bool
    ghost entries: { List Entry }
    requires clusters { length names.now ≤ CLUSTERS }
    requires holds { Holds names.now T.kept entries tiered.old }
{
    are_moved(alloc, names, tiered, FIRST)
        && are_read(alloc, names, store, tiered, THEN)
        && are_moved(alloc, names, tiered, LAST)
}

/// Whether a tier is called where it must be.
fn is_told<S: EntryStore>(alloc: Global, store: &S) -> Result<bool, Memory>
    requires { (names : List (List ℕ)) → AreTellable names 0 (S.entries store.now) }
{
    let names = clusters(alloc)?;
    let mut tiered = TieredLedger::new(alloc, 0, store, MemTier::new(alloc, &[2, 4])?)?;
    Ok(is_story(alloc, names.as_slice(), store, &mut tiered) && tiered.offloaded() == 1)
}

#[test]
fn a_tier_is_called_where_it_must_be(rt: HostRuntime) -> Result<(), Fail> {
    let store = topic(rt.alloc())?;
    let told = is_told(rt.alloc(), &store);
    drop(store);
    assert!(rt; told?);
    Ok(())
}
