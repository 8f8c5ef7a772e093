//! Entries of the machine, and the messages that carry them in a frame.
ghost use Rattle.std.specs.Prelude.{◌≡◌, ◌≤◌, List, length, IfOk, OnOk};
ghost use Rattle.std.specs.Option.{option_copied, option_map};
ghost use Rattle.geo_base.specs.Sizes.{cluster_ref_name};
ghost use Rattle.pb_fields.specs.Canonical.{text};
ghost use Rattle.pb_fields.specs.declared.field.Field.{Field};
ghost use Rattle.frame_values.specs.Texts.{marker_number, metadata_of};
ghost use Rattle.frame_values.specs.Values.{IsEntryOf, entry_with, head_of};
ghost use Rattle.std.specs.List.{AllByRecursion};
ghost use Rattle.pb_fields.specs.Field.{IsField};
ghost use Rattle.message_meta.specs.Known.{IsRest, joined};

use crate::content::{content_of, marker_number};
use crate::place::{name_of, optional_cluster_ref, targets_of};
use geo_base::limits::CLUSTERS;
use geo_base::{
    Blob, ClusterName, ClusterRef, Content, Entry, Ident, Memory, Metadata, ProducerName, Sequence,
    Targets, Text,
};
use message_meta::{KnownMeta, Meta};
use pb_fields::{FieldList, write_fields};
use pulsar_frames::Body;
use std::alloc::Global;

/// The entry that a message in a frame is, and where it says that it was stored first.
pub(crate) struct Carried {
    pub source: Option<ClusterRef>,
    pub entry: Entry,
}

/// What the metadata of a message says of its entry.
#[derive(Drop)]
pub(crate) struct Head {
    pub source: Option<ClusterRef>,
    pub ident: Ident,
    pub to: Targets,
    pub meta: Metadata,
}

/// Reads a message.
#[tactic(auto, using(crate::proofs::Entries::headed_is, crate::proofs::Entries::headed_rest))]
pub(crate) fn entry_of(alloc: Global, names: &[ClusterName], body: Body) -> Result<Carried, Memory>
    requires { length names.now ≤ CLUSTERS }
    ensures is { IfOk result (λ c. IsEntryOf names.now body c.source c.entry) }
    ensures rest { IfOk result (λ c. IsRest c.entry.meta.rest) }
{
    let Body { meta, payload } = body;
    let marker = meta.marker;
    match head_of(alloc, names, meta) {
        Ok(head) => match content_of(alloc, names, marker, payload) {
            Ok((content, payload)) => Ok(whole_entry(head, content, payload)),
            Err(why) => {
                drop(head);
                Err(why)
            }
        },
        Err(why) => {
            drop(payload);
            Err(why)
        }
    }
}

/// An entry of this head.
fn whole_entry(head: Head, content: Content, payload: Blob) -> Carried
    ensures { result ≡ entry_with head content payload }
{
    let Head {
        source,
        ident,
        to,
        meta,
    } = head;
    let entry = Entry {
        ident,
        content,
        to,
        meta,
        payload,
    };
    Carried { source, entry }
}

/// What metadata says of an entry.
fn head_of(alloc: Global, names: &[ClusterName], meta: Meta) -> Result<Head, Memory>
    requires { length names.now ≤ CLUSTERS }
    ensures head { IfOk result (λ h. h ≡ head_of names.now meta (text meta.rest)) }
    ensures rest { IfOk result (λ h. IsRest (text meta.rest)) }
{
    match fields_text(alloc, &meta.rest) {
        Ok(rest) => head_with(alloc, names, meta, rest),
        Err(why) => {
            drop(meta);
            Err(why)
        }
    }
}

/// The same with the bytes of the fields that nobody reads.
fn head_with(alloc: Global, names: &[ClusterName], meta: Meta, rest: Blob) -> Result<Head, Memory>
    requires { length names.now ≤ CLUSTERS }
    ensures { IfOk result (λ h. h ≡ head_of names.now meta rest) }
{
    let Meta {
        producer,
        seq,
        publish_time,
        replicated_from,
        key,
        replicate_to,
        rest: fields,
        ..
    } = meta;
    drop(fields);
    let ident = Ident {
        origin: 0,
        producer: ProducerName::from_text(producer),
        seq,
    };
    let source = optional_cluster_ref(names, replicated_from);
    let to = targets_of(names, replicate_to.as_slice());
    match Metadata::new(alloc, publish_time, key, replicate_to, rest) {
        Ok(meta) => Ok(Head {
            source,
            ident,
            to,
            meta,
        }),
        Err(why) => {
            drop(source);
            drop(ident);
            Err(why)
        }
    }
}

/// The bytes of fields that nobody reads. An `Err` is want of memory.
pub fn fields_text(alloc: Global, fields: &FieldList) -> Result<Blob, Memory>
    ensures text { IfOk result (λ b. b ≡ text fields.now) }
    ensures fields { OnOk result (AllByRecursion IsField fields.now) }
{
    let mut bytes = Blob::new(alloc);
    write_fields(&mut bytes, fields)?;
    Ok(bytes)
}

/// The metadata of an entry, each part where it stands.
pub fn known_of<'a>(
    names: &'a [ClusterName],
    source: &'a Option<ClusterRef>,
    entry: &'a Entry,
) -> KnownMeta<'a>
    ensures { (rest : List Field) → joined result rest ≡ metadata_of names.entry.now source.entry.now entry.entry.now rest }
{
    KnownMeta {
        producer: entry.ident.producer.as_str(),
        seq: entry.ident.seq,
        publish_time: entry.meta.publish_time(),
        replicated_from: source_name(names, source),
        key: entry.meta.key(),
        replicate_to: entry.meta.names(),
        marker: marker_number(&entry.content),
    }
}

/// The name of the cluster that a message was replicated from, where it was.
pub(crate) fn source_name<'a>(
    names: &'a [ClusterName],
    source: &'a Option<ClusterRef>,
) -> Option<&'a str>
    ensures { option_copied result ≡ option_map (cluster_ref_name names.entry.now) source.entry.now }
{
    match source {
        None => None,
        Some(place) => Some(name_of(names, place)),
    }
}
