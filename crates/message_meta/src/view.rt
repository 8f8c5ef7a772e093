//! Metadata of the usual form, looked at in its place and written from where its parts stand: the fields that are always there,
//! then the cluster that it was replicated from and the key, each once, in the order of their numbers, and nothing more. So it is
//! a message to all clusters and no marker. It takes no memory.

ghost use Rattle.std.specs.Prelude.{◌≡◌, ◌<◌, ◌≤◌, length, IfSome, IsUtf8};
ghost use Rattle.std.specs.List.{AllByRecursion};
ghost use Rattle.std.specs.Option.{option_copied};
ghost use Rattle.pb_fields.specs.Buffer.{Puts};
ghost use Rattle.pb_fields.specs.Canonical.{field_text, optional, text};
ghost use Rattle.pb_fields.specs.Field.{IsField, bytes_field};
ghost use Rattle.pb_fields.specs.Front.{IsShortNumber};
ghost use Rattle.message_meta.specs.Canonical.{IsMetadata, canonical_fields};
ghost use Rattle.message_meta.specs.Metadata.{IsMetaText};
ghost use Rattle.message_meta.specs.Usual.{meta_viewed};

use crate::table::{PARTITION_KEY, PRODUCER_NAME, PUBLISH_TIME, REPLICATED_FROM, SEQUENCE_ID};
use pb_fields::{
    Buffer, front_optional_text, front_text, front_varint, short_field_size, varint_field_size,
};

/// Metadata of the usual form, each part where it stands.
#[derive(Clone, Copy)]
pub struct MetaView<'a> {
    /// The name of the producer that published the message.
    pub producer: &'a str,
    /// The message's number within its producer.
    pub seq: u64,
    /// When it was published, in milliseconds since 1970.
    pub publish_time: u64,
    /// The cluster that it was replicated from, where it was not published here.
    pub replicated_from: Option<&'a str>,
    /// The key by which messages are told apart and ordered.
    pub key: Option<&'a str>,
}

/// The metadata that the bytes are a text of, where they have the usual form; None says nothing of the bytes.
pub fn usual_meta(bytes: &[u8]) -> Option<MetaView<'_>>
    ensures { IfSome result (λ v. IsMetaText bytes.now (meta_viewed v)) }
{
    let (producer, rest) = front_text(PRODUCER_NAME, bytes)?;
    let (seq, rest) = front_varint(SEQUENCE_ID, rest)?;
    let (publish_time, rest) = front_varint(PUBLISH_TIME, rest)?;
    let (replicated_from, rest) = front_optional_text(REPLICATED_FROM, rest)?;
    let (key, rest) = front_optional_text(PARTITION_KEY, rest)?;
    if rest.is_empty() {
        Some(MetaView {
            producer,
            seq,
            publish_time,
            replicated_from,
            key,
        })
    } else {
        None
    }
}

impl MetaView<'_> {
    /// The bytes of its canonical text, where each of its texts is shorter than `pb_fields::SHORT`.
    #[tactic(auto, using(crate::proofs::Usual::usual_size))]
    pub fn size(self) -> Option<usize>
        ensures size { IfSome result (λ n. n ≡ length (text (canonical_fields (meta_viewed self.entry)))) }
        ensures few { IfSome result (λ n. n < 512) }
    {
        let producer = short_field_size(PRODUCER_NAME, self.producer.as_bytes())?;
        let seq = varint_field_size(SEQUENCE_ID, self.seq);
        let publish_time = varint_field_size(PUBLISH_TIME, self.publish_time);
        let replicated_from = optional_size(REPLICATED_FROM, self.replicated_from)?;
        let key = optional_size(PARTITION_KEY, self.key)?;
        Some(producer + seq + publish_time + replicated_from + key)
    }

    /// Puts its canonical text after the bytes of a buffer that has room for it.
    pub fn put(self, out: &mut Buffer)
        requires { length (text (canonical_fields (meta_viewed self))) ≤ out.old.spare }
        ensures text { Puts out.old (text (canonical_fields (meta_viewed self.entry))) out.new }
        ensures writable { IsMetadata (meta_viewed self.entry) }
    {
        put_text(out, PRODUCER_NAME, self.producer);
        out.put_varint(SEQUENCE_ID, self.seq);
        out.put_varint(PUBLISH_TIME, self.publish_time);
        put_optional(out, REPLICATED_FROM, self.replicated_from);
        put_optional(out, PARTITION_KEY, self.key);
    }
}

/// The bytes of the field of a text that may be absent, which is none then.
fn optional_size(number: u32, content: Option<&str>) -> Option<usize>
    requires { IsShortNumber number }
    ensures size { IfSome result (λ n. n ≡ length (text (optional (bytes_field number) (option_copied content.entry)))) }
    ensures few { IfSome result (λ n. n < 130) }
{
    match content {
        None => Some(0),
        Some(content) => short_field_size(number, content.as_bytes()),
    }
}

/// Puts the field of a text.
fn put_text(out: &mut Buffer, number: u32, content: &str)
    requires number { IsShortNumber number }
    requires room { length (field_text (bytes_field number content.now)) ≤ out.old.spare }
    ensures text { Puts out.old (field_text (bytes_field number content.now)) out.new }
    ensures field { IsField (bytes_field number content.now) }
    ensures utf8 { IsUtf8 content.now }
{
    out.put_bytes(number, content.as_bytes());
}

/// The same of a text that may be absent.
#[tactic(auto, using(pb_fields::proofs::Buffers::put_none, pb_fields::proofs::Buffers::put_last))]
fn put_optional(out: &mut Buffer, number: u32, content: Option<&str>)
    requires number { IsShortNumber number }
    requires room { length (text (optional (bytes_field number) (option_copied content))) ≤ out.old.spare }
    ensures text { Puts out.old (text (optional (bytes_field number) (option_copied content.entry))) out.new }
    ensures fields { AllByRecursion IsField (optional (bytes_field number) (option_copied content.entry)) }
    ensures utf8 { IfSome (option_copied content.entry) IsUtf8 }
{
    match content {
        None => {}
        Some(content) => put_text(out, number, content),
    }
}
