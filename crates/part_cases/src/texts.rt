//! The text of a ledger.
ghost use Rattle.std.specs.Prelude.{◌≡◌, ◌+◌, ℕ, List, length, IfOk, OnOk};
ghost use Rattle.tiered_storage.specs.Readable.{AreTellable, IsTellable};

use crate::stored_entries::{message, update};
use geo_base::{Blob, ClusterName, Entry, Memory};
use std::alloc::Global;
use std::test::Fail;
use tiered_storage::{put_ledger, read_ledger};

/// One message of producer `p` with payload `hi` that cluster 0 stored first, by hand: a count; an origin, a producer, a sequence id,
/// no marker, all clusters; metadata (producer_name, sequence_id and publish_time) and the payload.
const ONE: &[u8] =
    b"\0\0\0\0\0\0\0\x01\0\0\0\0\0\0\0\x01p\0\0\0\0\0\0\0\0\0\0\0\0\0\x07\x0a\x01p\x10\0\x18\0\0\0\0\x02hi";

/// A cluster's name.
fn cluster(alloc: Global, text: &str) -> Result<ClusterName, Memory> {
    match ClusterName::read(alloc, text) {
        Ok(name) => Ok(name),
        Err(_) => Err(Memory),
    }
}

/// One name more.
fn add_name(alloc: Global, names: &mut Vec<ClusterName>, text: &str) -> Result<(), Memory>
    ensures { OnOk result (length names.new.items ≡ length names.old.items + 1) }
{
    let name = cluster(alloc, text)?;
    names.push(name)?;
    Ok(())
}

/// Two names more.
fn add_names(alloc: Global, names: &mut Vec<ClusterName>) -> Result<(), Memory>
    ensures { OnOk result (length names.new.items ≡ length names.old.items + 2) }
{
    add_name(alloc, names, "a")?;
    add_name(alloc, names, "b")
}

/// The names of two clusters.
pub fn clusters(alloc: Global) -> Result<Vec<ClusterName>, Memory>
    ensures { IfOk result (λ v. length v.items ≡ 2) }
{
    let mut names = Vec::new(alloc);
    add_names(alloc, &mut names)?;
    Ok(names)
}

/// One entry more.
#[tactic(auto, using(crate::proofs::Told::told_push))]
fn add(entries: &mut Vec<Entry>, entry: Entry) -> Result<(), Memory>
    requires before { (names : List (List ℕ)) → AreTellable names 0 entries.old.items }
    requires entry { (names : List (List ℕ)) → IsTellable names 0 entry }
    ensures told { OnOk result ((names : List (List ℕ)) → AreTellable names 0 entries.new.items) }
    ensures len { OnOk result (length entries.new.items ≡ length entries.old.items + 1) }
{
    entries.push(entry)?;
    Ok(())
}

/// One message more.
fn add_message(
    alloc: Global,
    entries: &mut Vec<Entry>,
    seq: u64,
    key: Option<&str>,
    payload: &[u8],
) -> Result<(), Memory>
    requires before { (names : List (List ℕ)) → AreTellable names 0 entries.old.items }
    ensures told { OnOk result ((names : List (List ℕ)) → AreTellable names 0 entries.new.items) }
    ensures len { OnOk result (length entries.new.items ≡ length entries.old.items + 1) }
{
    let message = message(alloc, seq, key, payload)?;
    add(entries, message)
}

/// One marker more.
fn add_update(alloc: Global, entries: &mut Vec<Entry>) -> Result<(), Memory>
    requires before { (names : List (List ℕ)) → AreTellable names 0 entries.old.items }
    ensures told { OnOk result ((names : List (List ℕ)) → AreTellable names 0 entries.new.items) }
    ensures len { OnOk result (length entries.new.items ≡ length entries.old.items + 1) }
{
    let update = update(alloc, 0)?;
    add(entries, update)
}

/// Two messages, a marker and two messages more.
fn add_five(alloc: Global, entries: &mut Vec<Entry>) -> Result<(), Memory>
    requires before { (names : List (List ℕ)) → AreTellable names 0 entries.old.items }
    ensures told { OnOk result ((names : List (List ℕ)) → AreTellable names 0 entries.new.items) }
    ensures len { OnOk result (length entries.new.items ≡ length entries.old.items + 5) }
{
    add_message(alloc, entries, 0, None, b"hi")?;
    add_message(alloc, entries, 1, Some("k"), b"")?;
    add_update(alloc, entries)?;
    add_message(alloc, entries, 2, None, b"")?;
    add_message(alloc, entries, 3, Some("k"), b"x")
}

/// Two messages, a marker and two messages.
#[tactic(auto, using(crate::proofs::Told::none_told))]
pub fn ledger(alloc: Global) -> Result<Vec<Entry>, Memory>
    ensures told { IfOk result (λ v. (names : List (List ℕ)) → AreTellable names 0 v.items) }
    ensures len { IfOk result (λ v. length v.items ≡ 5) }
{
    let mut entries = Vec::new(alloc);
    add_five(alloc, &mut entries)?;
    Ok(entries)
}

/// The text of entries.
fn text_of(alloc: Global, names: &[ClusterName], entries: &[Entry]) -> Result<Blob, Memory>
    requires { AreTellable names.now 0 entries.now }
{
    let mut text = Blob::new(alloc);
    put_ledger(alloc, &mut text, names, 0, entries)?;
    Ok(text)
}

/// Whether bytes are the text of entries, by writing what is read from them.
fn is_text_of(alloc: Global, names: &[ClusterName], text: &[u8], entries: &[Entry]) -> bool
    requires { length names.now ≡ 2 }
{
    match read_ledger(alloc, names, text) {
        Ok(again) => are_same(again.as_slice(), entries),
        Err(_) => false,
    }
}

/// Whether entries have the same sequence ids, keys and payloads.
fn are_same(some: &[Entry], others: &[Entry]) -> bool {
    for (entry, other) in some.iter().zip(others) {
        if !is_same(entry, other) {
            return false;
        }
    }
    some.len() == others.len()
}

/// Whether two entries have the same sequence id, key and payload.
pub fn is_same(entry: &Entry, other: &Entry) -> bool {
    let keys = match (entry.meta.key(), other.meta.key()) {
        (None, None) => true,
        (Some(key), Some(other)) => key.as_str() == other.as_str(),
        _ => false,
    };
    keys && entry.ident.seq == other.ident.seq
        && entry.payload.as_slice() == other.payload.as_slice()
}

/// Whether the text of entries is read back.
fn are_read_back(alloc: Global, names: &[ClusterName], entries: &[Entry]) -> Result<bool, Memory>
    requires names { length names.now ≡ 2 }
    requires told { (names : List (List ℕ)) → AreTellable names 0 entries.now }
{
    let text = text_of(alloc, names, entries)?;
    Ok(is_text_of(alloc, names, text.as_slice(), entries))
}

/// Whether the text of the ledger is read back.
fn is_read_back(alloc: Global, names: &[ClusterName]) -> Result<bool, Memory>
    requires { length names.now ≡ 2 }
{
    let entries = ledger(alloc)?;
    are_read_back(alloc, names, entries.as_slice())
}

/// Whether the text that was worked out by hand is that of one message.
fn is_one(alloc: Global, names: &[ClusterName]) -> Result<bool, Memory>
    requires { length names.now ≡ 2 }
{
    let one = [message(alloc, 0, None, b"hi")?];
    Ok(is_text_of(alloc, names, ONE, &one))
}

/// Whether bytes are no text.
fn is_fault(alloc: Global, names: &[ClusterName], text: &[u8]) -> bool
    requires { length names.now ≡ 2 }
{
    read_ledger(alloc, names, text).is_err()
}

/// The first cut of it that is a text.
fn read_cut(alloc: Global, names: &[ClusterName]) -> Option<usize>
    requires { length names.now ≡ 2 }
{
    for end in 0..ONE.len() {
        if !is_fault(alloc, names, &ONE[..end]) {
            return Some(end);
        }
    }
    None
}

#[test]
fn a_ledger_text_is_read_back(rt: HostRuntime) -> Result<(), Fail> {
    let names = clusters(rt.alloc())?;
    let ledger = is_read_back(rt.alloc(), names.as_slice());
    let one = is_one(rt.alloc(), names.as_slice());
    let cut = read_cut(rt.alloc(), names.as_slice());
    drop(names);
    assert!(rt; ledger? && one?);
    assert_eq!(rt; cut, None);
    Ok(())
}

/// Whether another number in this byte of [`ONE`] is an entry too: in the origin, the producer, the sequence id, the byte of the metadata's
/// producer, sequence id or publish time, or the payload. A changed count, length, tag, or byte before a marker's number or before a
/// list of clusters is a fault.
fn is_free(at: usize) -> bool {
    matches!(at, 8..12 | 16..25 | 33 | 35 | 37 | 42..44)
}

/// Whether the text of one message is a fault with this byte changed.
fn is_fault_with(alloc: Global, names: &[ClusterName], at: usize) -> Result<bool, Memory>
    requires names { length names.now ≡ 2 }
{
    let mut changed = ONE.to_vec(alloc)?;
    if let Some(byte) = changed.get_mut(at) {
        *byte ^= 1;
    }
    Ok(is_fault(alloc, names, changed.as_slice()))
}

/// The first byte that is answered otherwise once it is changed.
fn wrong_byte(alloc: Global, names: &[ClusterName]) -> Result<Option<usize>, Memory>
    requires { length names.now ≡ 2 }
{
    for at in 0..ONE.len() {
        if is_fault_with(alloc, names, at)? == is_free(at) {
            return Ok(Some(at));
        }
    }
    Ok(None)
}

#[test]
fn a_changed_byte_is_answered(rt: HostRuntime) -> Result<(), Fail> {
    let names = clusters(rt.alloc())?;
    let wrong = wrong_byte(rt.alloc(), names.as_slice());
    drop(names);
    assert_eq!(rt; wrong?, None);
    Ok(())
}
