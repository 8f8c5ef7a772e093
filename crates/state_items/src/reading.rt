//! An entry from its metadata and its payload.
ghost use Rattle.std.specs.Prelude.{◌≡◌, ◌≤◌, length, IfOk, OnOk};
ghost use Rattle.std.specs.List.{AllByRecursion};
ghost use Rattle.message_meta.specs.Known.{IsRest};
ghost use Rattle.pb_fields.specs.Canonical.{text};
ghost use Rattle.pb_fields.specs.Field.{IsField};
ghost use Rattle.state_items.specs.Stored.{IsStored};

use frame_values::{content_of, fields_text, targets_of};
use geo_base::limits::CLUSTERS;
use geo_base::{Blob, ClusterName, Entry, Ident, Memory, Metadata, ProducerName, Text};
use message_meta::{Meta, TextList};
use pb_fields::FieldList;
use std::alloc::Global;

/// The entry that metadata and a payload are, where the cluster of a number stored it first.
pub fn read_entry(
    alloc: Global,
    names: &[ClusterName],
    meta: Meta,
    origin: u32,
    payload: Blob,
) -> Result<Entry, Memory>
    requires { length names.now ≤ CLUSTERS }
    ensures is { IfOk result (IsStored names.now meta origin payload) }
    ensures rest { IfOk result (λ e. IsRest e.meta.rest) }
{
    let to = targets_of(names, meta.replicate_to.as_slice());
    let said = metadata_of(
        alloc,
        meta.publish_time,
        meta.key,
        meta.replicate_to,
        &meta.rest,
    );
    drop(meta.rest);
    drop(meta.replicated_from);
    match said {
        Ok(said) => match content_of(alloc, names, meta.marker, payload) {
            Ok((content, payload)) => Ok(Entry {
                ident: Ident {
                    origin,
                    producer: ProducerName::from_text(meta.producer),
                    seq: meta.seq,
                },
                content,
                to,
                meta: said,
                payload,
            }),
            Err(Memory) => {
                drop(meta.producer);
                drop(said);
                Err(Memory)
            }
        },
        Err(Memory) => {
            drop(meta.producer);
            drop(payload);
            Err(Memory)
        }
    }
}

/// What metadata say beside what names the message and what it is; of the fields that nobody reads, the bytes.
fn metadata_of(
    alloc: Global,
    publish_time: u64,
    key: Option<Text>,
    names: TextList,
    unread: &FieldList,
) -> Result<Metadata, Memory>
    ensures is { IfOk result (λ m. m ≡ record { publish_time = publish_time; key = key; names = names; rest = text unread.now }) }
    ensures fields { OnOk result (AllByRecursion IsField unread.now) }
{
    match fields_text(alloc, unread) {
        Ok(rest) => Metadata::new(alloc, publish_time, key, names, rest),
        Err(Memory) => {
            drop(key);
            drop(names);
            Err(Memory)
        }
    }
}
