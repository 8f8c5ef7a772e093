//! A ledger's text, read.
ghost use Rattle.std.specs.Prelude.{◌≡◌, ◌≢◌, ◌++◌, ◌≤◌, ◌<◌, ◌^◌, ℕ, List, [], Ok, IsErr, length};
ghost use Rattle.std.specs.List.{flat_map};
ghost use Rattle.geo_base.specs.declared.entry.Entry.{Entry};
ghost use Rattle.state_items.specs.EntryTexts.{metadata_text};
ghost use Rattle.tiered_storage.specs.Readable.{AreReadable, IsReadable};
ghost use Rattle.tiered_storage.specs.Reading.{behind_heading, behind_kind, behind_targets, entry_read, item_at, IsMiscounted};
ghost use Rattle.tiered_storage.specs.Texts.{item_text, ledger_text};
ghost use Rattle.message_meta.specs.Metadata.{IsMetaText, Metadata};
ghost use Rattle.state_items.specs.Reading.{Gives};
ghost use Rattle.state_items.specs.Texts.{number};
ghost use Rattle.frame_values.specs.Texts.{payload_text};

use geo_base::limits::CLUSTERS;
use geo_base::{Blob, ClusterName, Entry};
use message_meta::{Meta, MetaFault};
use state_items::{ItemFault, Rule, byte_at, judge, number_at, read_entry, text_at, word_at};
use std::alloc::Global;

/// The entries that bytes are the text of. Bytes after the last entry are refused, and a count of more entries or of fewer. Other bytes
/// that are no ledger's text may be a fault, or read as some entries.
pub fn read_ledger(
    alloc: Global,
    names: &[ClusterName],
    bytes: &[u8],
) -> Result<Vec<Entry>, ItemFault>
    requires { length names.now ≤ CLUSTERS }
    ensures after { (own : ℕ) (es : List Entry) (more : List ℕ) → AreReadable names.now own es → length es < 2 ^ 64 → more ≢ []
        → bytes.now ≡ ledger_text names.now own es ++ more → IsErr result }
    ensures count { (own : ℕ) (es : List Entry) (n : ℕ) → AreReadable names.now own es → n < 2 ^ 64 → n ≢ length es
        → bytes.now ≡ number n ++ flat_map (item_text names.now own) es → IsErr result }
    ensures read { (own : ℕ) (es : List Entry) → AreReadable names.now own es → length es < 2 ^ 64 → bytes.now ≡ ledger_text names.now own es
        → Gives (λ v. v.items) result (Ok es) }
{
    let (count, rest) = number_at(bytes)?;
    counted_entries(alloc, names, count, rest)
}

/// So many entries, and nothing after them.
fn counted_entries(
    alloc: Global,
    names: &[ClusterName],
    count: u64,
    bytes: &[u8],
) -> Result<Vec<Entry>, ItemFault>
    requires { length names.now ≤ CLUSTERS }
    ensures refused { (own : ℕ) (es : List Entry) (more : List ℕ) → AreReadable names.now own es → IsMiscounted (length es) count more
        → bytes.now ≡ flat_map (item_text names.now own) es ++ more → IsErr result }
    ensures read { (own : ℕ) (es : List Entry) → AreReadable names.now own es → count ≡ length es → bytes.now ≡ flat_map (item_text names.now own) es
        → Gives (λ v. v.items) result (Ok es) }
{
    let mut entries: Vec<Entry> = Vec::new(alloc);
    let mut rest = bytes;
    for _ in 0..count {
        let (entry, after) = entry_at(alloc, names, rest)?;
        entries.push(entry)?;
        rest = after;
    }
    judge(rest.is_empty(), rest, Rule::End)?;
    Ok(entries)
}

/// The first entry, and the bytes after it.
fn entry_at<'a>(
    alloc: Global,
    names: &[ClusterName],
    bytes: &'a [u8],
) -> Result<(Entry, &'a [u8]), ItemFault>
    requires { length names.now ≤ CLUSTERS }
    ensures none { bytes.now ≡ [] → IsErr result }
    ensures read { (own : ℕ) (e : Entry) (more : List ℕ) → IsReadable names.now own e → bytes.now ≡ item_text names.now own e ++ more
        → Gives (λ x. (x.0, x.1.now)) result (entry_read e more) }
{
    let (origin, metadata, payload, rest) = item_at(bytes)?;
    let entry = stored_entry(alloc, names, origin, metadata, payload)?;
    Ok((entry, rest))
}

/// An entry of an origin, metadata and a payload.
fn stored_entry(
    alloc: Global,
    names: &[ClusterName],
    origin: u32,
    metadata: &[u8],
    payload: &[u8],
) -> Result<Entry, ItemFault>
    requires { length names.now ≤ CLUSTERS }
    ensures { (own : ℕ) (e : Entry) → IsReadable names.now own e → origin ≡ e.ident.origin → metadata.now ≡ metadata_text names.now own e
        → payload.now ≡ payload_text names.now e.content e.payload → Gives (λ x. x) result (Ok e) }
{
    let payload = Blob::from_slice(alloc, payload)?;
    let meta = meta_of(alloc, metadata)?;
    Ok(read_entry(alloc, names, meta, origin, payload)?)
}

/// What bytes say as metadata.
fn meta_of(alloc: Global, bytes: &[u8]) -> Result<Meta, ItemFault>
    ensures { (m : Metadata) → IsMetaText bytes.now m → Gives (λ x. x) result (Ok m) }
{
    match Meta::read(alloc, bytes) {
        Ok(meta) => Ok(meta),
        Err(why) => match why {
            MetaFault::Memory => Err(ItemFault::Memory),
            _ => Err(ItemFault::at(bytes, Rule::Entry)),
        },
    }
}

/// The origin, the metadata and the payload of an entry, and the bytes after it.
#[tactic(auto, unfolding(crate::specs::Reading::item_at))]
fn item_at(bytes: &[u8]) -> Result<(u32, &[u8], &[u8], &[u8]), ItemFault>
    ensures { Gives (λ x. ((x.0, (x.1.now, x.2.now)), x.3.now)) result (item_at bytes.now) }
{
    let (origin, rest) = word_at(bytes)?;
    let rest = behind_heading(rest)?;
    let (metadata, rest) = text_at(rest)?;
    let (payload, rest) = text_at(rest)?;
    Ok((origin, metadata, payload, rest))
}

/// The bytes after a producer, a sequence id, a kind and targets.
#[tactic(auto, unfolding(crate::specs::Reading::behind_heading))]
fn behind_heading(bytes: &[u8]) -> Result<&[u8], ItemFault>
    ensures { Gives (λ x. x.now) result (behind_heading bytes.now) }
{
    let (_, rest) = text_at(bytes)?;
    let (_, rest) = number_at(rest)?;
    let rest = behind_kind(rest)?;
    behind_targets(rest)
}

/// The bytes after a kind.
#[tactic(auto, unfolding(crate::specs::Reading::behind_kind))]
fn behind_kind(bytes: &[u8]) -> Result<&[u8], ItemFault>
    ensures { Gives (λ x. x.now) result (behind_kind bytes.now) }
{
    let (is_marker, rest) = byte_at(bytes)?;
    if is_marker == 0 {
        return Ok(rest);
    }
    let (_, rest) = number_at(rest)?;
    Ok(rest)
}

/// The bytes after targets.
#[tactic(auto, unfolding(crate::specs::Reading::behind_targets))]
fn behind_targets(bytes: &[u8]) -> Result<&[u8], ItemFault>
    ensures { Gives (λ x. x.now) result (behind_targets bytes.now) }
{
    let (is_listed, rest) = byte_at(bytes)?;
    if is_listed == 0 {
        return Ok(rest);
    }
    let (_, rest) = byte_at(rest)?;
    Ok(rest)
}
