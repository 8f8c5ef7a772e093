//! Metadata that is written from where its parts stand.

ghost use Rattle.std.specs.Prelude.{◌≡◌, IfOk, OnOk};
ghost use Rattle.std.specs.Option.{option_copied};
ghost use Rattle.pb_fields.specs.Canonical.{text};
ghost use Rattle.message_meta.specs.Known.{IsJoinedText, IsKnown, IsRest, joined, known_fields};

use crate::meta::Meta;
use crate::write::append_known;
use geo_base::{Blob, Memory, Text};
use std::alloc::Global;

/// Bytes that the metadata of most messages fits in, so that its text is written in one piece of memory (own).
const COMMON_BYTES: usize = 64;

/// The fields of metadata that the table names, each where it stands, so that a stored message is written without a copy
/// of it.
#[derive(Clone, Copy)]
pub struct KnownMeta<'a> {
    /// The name of the producer that published the message.
    pub producer: &'a str,
    /// The message's number within its producer.
    pub seq: u64,
    /// When it was published, in milliseconds since 1970.
    pub publish_time: u64,
    /// The cluster that it was replicated from, where it was not published here.
    pub replicated_from: Option<&'a str>,
    /// The key by which messages are told apart and ordered.
    pub key: &'a Option<Text>,
    /// The clusters that it is replicated to; all, where there is none.
    pub replicate_to: &'a [Text],
    /// What kind of marker it is, where it is one.
    pub marker: Option<u64>,
}

impl KnownMeta<'_> {
    /// The canonical text: the known fields in the order of their numbers, and after them `rest` as it stands, the
    /// canonical text of fields that the table does not name. `Memory` where there is no room for it.
    #[tactic(auto, using(crate::proofs::Joined::joined_is))]
    pub fn write_with(self, alloc: Global, rest: &[u8]) -> Result<Blob, Memory>
        requires { IsRest rest.now }
        ensures { IfOk result (IsJoinedText self.entry rest.now) }
    {
        let mut bytes = written(alloc, self)?;
        bytes.append(rest)?;
        Ok(bytes)
    }
}

/// The text of the known fields alone.
fn written(alloc: Global, known: KnownMeta<'_>) -> Result<Blob, Memory>
    ensures text { IfOk result (λ bytes. bytes ≡ text (known_fields known.entry)) }
    ensures fits { OnOk result (IsKnown known.entry) }
{
    let mut out = Blob::from_vec(Vec::with_capacity(alloc, COMMON_BYTES)?);
    append_known(&mut out, known)?;
    Ok(out)
}

impl Meta {
    /// The fields that the table names, where they stand.
    pub fn known(&self) -> KnownMeta<'_>
        ensures { joined result self.now.rest ≡ self.now }
    {
        KnownMeta {
            producer: self.producer.as_str(),
            seq: self.seq,
            publish_time: self.publish_time,
            replicated_from: optional_str(&self.replicated_from),
            key: &self.key,
            replicate_to: self.replicate_to.as_slice(),
            marker: self.marker,
        }
    }
}

fn optional_str(text: &Option<Text>) -> Option<&str>
    ensures { option_copied result ≡ text.entry.now }
{
    match text {
        None => None,
        Some(text) => Some(text.as_str()),
    }
}
