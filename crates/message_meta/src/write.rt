//! Writing metadata.

ghost use Rattle.std.specs.Prelude.{◌≡◌, [], ◌++◌, map, IsUtf8, IfOk, OnErr, OnOk, IfSome};
ghost use Rattle.std.specs.List.{AllByRecursion};
ghost use Rattle.std.specs.Option.{option_copied};
ghost use Rattle.pb_fields.specs.Field.{IsFieldNumber, IsField, varint_field, bytes_field};
ghost use Rattle.pb_fields.specs.Canonical.{field_text, text, optional};
ghost use Rattle.message_meta.specs.Metadata.{IsMetaText};
ghost use Rattle.message_meta.specs.Canonical.{IsMetadata, required_fields, optional_fields, canonical_fields};
ghost use Rattle.message_meta.specs.Known.{IsKnown, joined, known_fields};

use crate::known::KnownMeta;
use crate::meta::Meta;
use crate::table::{
    MARKER_TYPE, PARTITION_KEY, PRODUCER_NAME, PUBLISH_TIME, REPLICATE_TO, REPLICATED_FROM,
    SEQUENCE_ID,
};
use geo_base::{Blob, Memory, Text};
use pb_fields::{write_bytes, write_fields, write_optional_varint, write_varint};
use std::alloc::Global;

impl Meta {
    /// The canonical text: the known fields in the order of their numbers, then the others in theirs, each varint as
    /// short as can be.
    pub fn write(&self, alloc: Global) -> Result<Blob, Memory>
        ensures canonical { IfOk result (λ bytes. bytes ≡ text (canonical_fields self.now)) }
        ensures text { IfOk result (λ bytes. IsMetaText bytes self.now) }
    {
        let mut out = Blob::new(alloc);
        append_meta(&mut out, self)?;
        Ok(out)
    }
}

#[tactic(auto, using(crate::proofs::Joined::same_text, crate::proofs::Joined::same_metadata))]
fn append_meta(out: &mut Blob, meta: &Meta) -> Result<(), Memory>
    ensures ok { OnOk result (out.new ≡ out.old ++ text (canonical_fields meta.now)) }
    ensures fits { OnOk result (IsMetadata meta.now) }
{
    append_known(out, meta.known())?;
    write_fields(out, &meta.rest)
}

/// Appends the fields that the table names.
pub(crate) fn append_known(out: &mut Blob, known: KnownMeta<'_>) -> Result<(), Memory>
    ensures ok { OnOk result (out.new ≡ out.old ++ text (known_fields known.entry)) }
    ensures fits { OnOk result (IsKnown known.entry) }
{
    append_required(out, known)?;
    append_optional(out, known)
}

fn append_required(out: &mut Blob, known: KnownMeta<'_>) -> Result<(), Memory>
    ensures ok { OnOk result (out.new ≡ out.old ++ text (required_fields (joined known.entry []))) }
    ensures fields { OnOk result (AllByRecursion IsField (required_fields (joined known.entry []))) }
    ensures producer { OnOk result (IsUtf8 known.entry.producer.now) }
{
    append_text(out, PRODUCER_NAME, known.producer)?;
    write_varint(out, SEQUENCE_ID, known.seq)?;
    write_varint(out, PUBLISH_TIME, known.publish_time)
}

fn append_optional(out: &mut Blob, known: KnownMeta<'_>) -> Result<(), Memory>
    ensures ok { OnOk result (out.new ≡ out.old ++ text (optional_fields (joined known.entry []))) }
    ensures fields { OnOk result (AllByRecursion IsField (optional_fields (joined known.entry []))) }
    ensures replicated_from { OnOk result (IfSome (option_copied known.entry.replicated_from) IsUtf8) }
    ensures key { OnOk result (IfSome known.entry.key.now IsUtf8) }
    ensures replicate_to { OnOk result (AllByRecursion IsUtf8 known.entry.replicate_to.now) }
{
    append_optional_str(out, REPLICATED_FROM, known.replicated_from)?;
    append_optional_text(out, PARTITION_KEY, known.key)?;
    append_texts(out, REPLICATE_TO, known.replicate_to)?;
    write_optional_varint(out, MARKER_TYPE, known.marker)
}

/// Appends the field of a text; unchanged where memory is wanting.
fn append_text(out: &mut Blob, number: u32, content: &str) -> Result<(), Memory>
    requires { IsFieldNumber number }
    ensures ok { OnOk result (out.new ≡ out.old ++ field_text (bytes_field number content.now)) }
    ensures field { OnOk result (IsField (bytes_field number content.now)) }
    ensures utf8 { OnOk result (IsUtf8 content.now) }
    ensures err { OnErr result (out.new ≡ out.old) }
{
    write_bytes(out, number, content.as_bytes())
}

/// The same of a text that may be absent.
fn append_optional_str(out: &mut Blob, number: u32, content: Option<&str>) -> Result<(), Memory>
    requires { IsFieldNumber number }
    ensures ok { OnOk result (out.new ≡ out.old ++ text (optional (bytes_field number) (option_copied content.entry))) }
    ensures fields { OnOk result (AllByRecursion IsField (optional (bytes_field number) (option_copied content.entry))) }
    ensures utf8 { OnOk result (IfSome (option_copied content.entry) IsUtf8) }
    ensures err { OnErr result (out.new ≡ out.old) }
{
    match content {
        None => Ok(()),
        Some(content) => append_text(out, number, content),
    }
}

fn append_optional_text(out: &mut Blob, number: u32, content: &Option<Text>) -> Result<(), Memory>
    requires { IsFieldNumber number }
    ensures ok { OnOk result (out.new ≡ out.old ++ text (optional (bytes_field number) content.now)) }
    ensures fields { OnOk result (AllByRecursion IsField (optional (bytes_field number) content.now)) }
    ensures utf8 { OnOk result (IfSome content.now IsUtf8) }
{
    match content {
        None => Ok(()),
        Some(content) => append_text(out, number, content.as_str()),
    }
}

fn append_texts(out: &mut Blob, number: u32, contents: &[Text]) -> Result<(), Memory>
    requires { IsFieldNumber number }
    ensures ok { OnOk result (out.new ≡ out.old ++ text (map (bytes_field number) contents.now)) }
    ensures fields { OnOk result (AllByRecursion IsField (map (bytes_field number) contents.now)) }
    ensures utf8 { OnOk result (AllByRecursion IsUtf8 contents.now) }
{
    for content in contents {
        append_text(out, number, content.as_str())?;
    }
    Ok(())
}
