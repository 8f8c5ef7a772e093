//! An entry as its metadata's text and its payload.
ghost use Rattle.std.specs.Prelude.{◌≡◌, ◌++◌, ◌<◌, ◌^◌, IfOk, OnOk, OnErr, take, length};
ghost use Rattle.frame_values.specs.Coded.{IsMarkerRight};
ghost use Rattle.frame_values.specs.Texts.{payload_text};
ghost use Rattle.message_meta.specs.Known.{IsRest};
ghost use Rattle.state_items.specs.Texts.{text};
ghost use Rattle.state_items.specs.EntryTexts.{AreShort, HasMetadata, HasTexts, entry_text, metadata_text, source_of};

use crate::put_text;
use frame_values::{canonical_payload, known_of};
use geo_base::{Blob, ClusterName, ClusterRef, Entry, Memory};
use std::alloc::Global;

/// Appends an entry of the topic of a cluster: the text of its metadata, and its payload. A text of 2^32 bytes, whose length has no
/// four bytes, counts as want of memory.
#[tactic(auto, using(crate::proofs::Written::texts_are, crate::proofs::Written::both_short))]
pub fn put_entry(
    alloc: Global,
    out: &mut Blob,
    names: &[ClusterName],
    own: u32,
    entry: &Entry,
) -> Result<(), Memory>
    requires { IsRest entry.now.meta.rest }
    ensures text { OnOk result (out.new ≡ out.old ++ entry_text names.now own entry.now) }
    ensures right { OnOk result (HasTexts names.now own entry.now) }
    ensures short { OnOk result (AreShort names.now own entry.now) }
    ensures err { OnErr result (take (length out.old) out.new ≡ out.old) }
{
    put_metadata(alloc, out, names, own, entry)?;
    put_payload(alloc, out, names, entry)
}

/// Appends the text of an entry's metadata.
fn put_metadata(
    alloc: Global,
    out: &mut Blob,
    names: &[ClusterName],
    own: u32,
    entry: &Entry,
) -> Result<(), Memory>
    requires { IsRest entry.now.meta.rest }
    ensures text { OnOk result (out.new ≡ out.old ++ text (metadata_text names.now own entry.now)) }
    ensures right { OnOk result (HasMetadata names.now own entry.now) }
    ensures short { OnOk result (length (metadata_text names.now own entry.now) < 2 ^ 32) }
    ensures err { OnErr result (take (length out.old) out.new ≡ out.old) }
{
    let metadata = metadata_text(alloc, names, own, entry)?;
    put_text(out, metadata.as_slice())
}

/// Appends the text of an entry's payload.
fn put_payload(
    alloc: Global,
    out: &mut Blob,
    names: &[ClusterName],
    entry: &Entry,
) -> Result<(), Memory>
    ensures text { OnOk result (out.new ≡ out.old ++ text (payload_text names.now entry.now.content entry.now.payload)) }
    ensures right { OnOk result (IsMarkerRight names.now entry.now.content entry.now.payload) }
    ensures short { OnOk result (length (payload_text names.now entry.now.content entry.now.payload) < 2 ^ 32) }
    ensures err { OnErr result (take (length out.old) out.new ≡ out.old) }
{
    let canonical = canonical_payload(alloc, names, &entry.content, &entry.payload)?;
    match &canonical {
        None => put_text(out, entry.payload.as_slice()),
        Some(text) => put_text(out, text.as_slice()),
    }
}

/// The text of an entry's metadata.
fn metadata_text(
    alloc: Global,
    names: &[ClusterName],
    own: u32,
    entry: &Entry,
) -> Result<Blob, Memory>
    requires { IsRest entry.now.meta.rest }
    ensures text { IfOk result (λ b. b ≡ metadata_text names.now own entry.now) }
    ensures right { OnOk result (HasMetadata names.now own entry.now) }
{
    let source = source_of(own, entry.ident.origin);
    let known = known_of(names, &source, entry);
    let bytes = known.write_with(alloc, entry.meta.rest())?;
    Ok(bytes)
}

/// The cluster that an entry was replicated from, where it was.
fn source_of(own: u32, origin: u32) -> Option<ClusterRef>
    ensures { result ≡ source_of own origin }
{
    if origin == own {
        None
    } else {
        Some(ClusterRef::Known(origin))
    }
}
