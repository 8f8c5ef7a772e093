//! A ledger's text, written.
ghost use Rattle.std.specs.Prelude.{◌≡◌, ◌++◌, length, OnOk, OnErr, take};
ghost use Rattle.std.specs.List.{flat_map};
ghost use Rattle.tiered_storage.specs.Readable.{AreReadable, AreTellable, IsReadable, IsTellable};
ghost use Rattle.tiered_storage.specs.Texts.{item_text, kind_text, ledger_text, targets_text};

use frame_values::marker_number;
use geo_base::{Blob, ClusterName, Entry, Memory, Targets};
use state_items::{put_byte, put_entry, put_number, put_text, put_word};
use std::alloc::Global;

/// Appends the text of some entries of the topic of the cluster `own`. The names are those of the clusters, by their numbers. An
/// `Err` is want of memory, and leaves some first bytes of the text. A producer's name, metadata or a payload of 2^32 bytes, whose
/// length has no four bytes, counts as want of memory.
#[tactic(auto, unfolding(crate::specs::Texts::ledger_text))]
pub fn put_ledger(
    alloc: Global,
    out: &mut Blob,
    names: &[ClusterName],
    own: u32,
    entries: &[Entry],
) -> Result<(), Memory>
    requires { AreTellable names.now own entries.now }
    ensures text { OnOk result (out.new ≡ out.old ++ ledger_text names.now own entries.now) }
    ensures readable { OnOk result (AreReadable names.now own entries.now) }
    ensures err { OnErr result (take (length out.old) out.new ≡ out.old) }
{
    put_number(out, entries.len() as u64)?;
    put_each(alloc, out, names, own, entries)
}

/// Appends entries one after the other.
fn put_each(
    alloc: Global,
    out: &mut Blob,
    names: &[ClusterName],
    own: u32,
    entries: &[Entry],
) -> Result<(), Memory>
    requires { AreTellable names.now own entries.now }
    ensures text { OnOk result (out.new ≡ out.old ++ flat_map (item_text names.now own) entries.now) }
    ensures readable { OnOk result (AreReadable names.now own entries.now) }
    ensures err { OnErr result (take (length out.old) out.new ≡ out.old) }
{
    for entry in entries {
        put_item(alloc, out, names, own, entry)?;
    }
    Ok(())
}

/// Appends an entry.
#[tactic(auto, using(crate::proofs::Each::readable_is))]
fn put_item(
    alloc: Global,
    out: &mut Blob,
    names: &[ClusterName],
    own: u32,
    entry: &Entry,
) -> Result<(), Memory>
    requires { IsTellable names.now own entry.now }
    ensures text { OnOk result (out.new ≡ out.old ++ item_text names.now own entry.now) }
    ensures readable { OnOk result (IsReadable names.now own entry.now) }
    ensures err { OnErr result (take (length out.old) out.new ≡ out.old) }
{
    put_word(out, entry.ident.origin)?;
    put_text(out, entry.ident.producer.as_bytes())?;
    put_number(out, entry.ident.seq)?;
    put_kind(out, marker_number(&entry.content))?;
    put_targets(out, entry.to)?;
    put_entry(alloc, out, names, own, entry)
}

/// Appends what an entry is: the number of a marker's type.
fn put_kind(out: &mut Blob, kind: Option<u64>) -> Result<(), Memory>
    ensures ok { OnOk result (out.new ≡ out.old ++ kind_text kind) }
    ensures err { OnErr result (take (length out.old) out.new ≡ out.old) }
{
    match kind {
        None => put_byte(out, 0),
        Some(kind) => {
            put_byte(out, 1)?;
            put_number(out, kind)
        }
    }
}

/// Appends the clusters that an entry is for.
fn put_targets(out: &mut Blob, to: Targets) -> Result<(), Memory>
    ensures ok { OnOk result (out.new ≡ out.old ++ targets_text to) }
    ensures err { OnErr result (take (length out.old) out.new ≡ out.old) }
{
    match to {
        Targets::All => put_byte(out, 0),
        Targets::Only(bits) => {
            put_byte(out, 1)?;
            put_byte(out, bits)
        }
    }
}
