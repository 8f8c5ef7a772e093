//! How large an entry is, by its value.
ghost use Rattle.std.specs.Prelude.{◌≡◌, ◌+◌, ◌<◌, ◌^◌, length, nat_le};
ghost use Rattle.geo_base.specs.Sizes.{bytes_field, cluster_position_size, cluster_positions, entry_size, marker_size, marker_type_size, metadata_size, most_entry_size, number_field, optional_text, payload_size, cluster_ref_name, position_size, repeated_text, tag_size, text_field, varint_size};
ghost use Rattle.pulsar_frames.specs.Counted.{counted};

use crate::content::marker_number;
use crate::place::name_of;
use geo_base::limits::ENTRY_BYTES;
use geo_base::{Blob, ClusterName, ClusterPosition, Content, Entry, Marker, Position, Text};

/// Whether an entry is small enough to be stored: Pulsar's largest message, 5 MiB. Its size is that of its metadata without
/// `replicated_from` and of its payload as they are written; `names` are those of the clusters, by their numbers.
#[tactic(auto, using(crate::proofs::Counting::within))]
pub fn is_within_limit(names: &[ClusterName], entry: &Entry) -> bool
    ensures { result ≡ nat_le (entry_size names.now entry.now) most_entry_size }
{
    entry_size(names, entry) <= ENTRY_BYTES
}

/// The size of an entry; what has more than 64 bits, which is in no memory, counts as the greatest number of 64.
#[tactic(auto, using(crate::proofs::Counting::sum))]
fn entry_size(names: &[ClusterName], entry: &Entry) -> u64
    ensures { result ≡ counted (entry_size names.now entry.now) }
{
    let payload = payload_size(names, &entry.content, &entry.payload);
    metadata_size(entry).saturating_add(payload)
}

#[tactic(auto, using(crate::proofs::Counting::all_parts))]
fn metadata_size(entry: &Entry) -> u64
    ensures { result ≡ counted (metadata_size entry.now) }
{
    let named = add_text(0, 1, entry.ident.producer.as_bytes());
    let numbered = add_number(named, 2, entry.ident.seq);
    let published = add_number(numbered, 3, entry.meta.publish_time());
    let keyed = add_optional(published, 6, entry.meta.key());
    let listed = add_texts(keyed, 7, entry.meta.names());
    let marked = add_marker_type(listed, &entry.content);
    marked.saturating_add(entry.meta.rest().len() as u64)
}

fn add_marker_type(size: u64, content: &Content) -> u64
    ensures { result ≡ counted (size + marker_type_size content.now) }
{
    match marker_number(content) {
        None => size,
        Some(kind) => add_number(size, 20, kind),
    }
}

/// The size of a payload: of a marker that keeps none, that of its canonical text.
fn payload_size(names: &[ClusterName], content: &Content, kept: &Blob) -> u64
    ensures { result ≡ counted (payload_size names.now content.now kept.now) }
{
    match content {
        Content::Marked(marker) if kept.as_slice().is_empty() => marker_size(names, marker.get()),
        _ => kept.as_slice().len() as u64,
    }
}

fn marker_size(names: &[ClusterName], marker: &Marker) -> u64
    ensures { result ≡ counted (marker_size names.now marker.now) }
{
    match marker {
        Marker::Request { id, source } => {
            let named = add_text(0, 1, id.as_bytes());
            add_text(named, 2, name_of(names, source).as_bytes())
        }
        Marker::Response { id, answer } => {
            let named = add_text(0, 1, id.as_bytes());
            add_cluster(named, names, 2, answer)
        }
        Marker::Snapshot { id, local, remote } => {
            let named = add_text(0, 1, id.as_bytes());
            let placed = add_bytes(named, 2, position_size(*local));
            add_clusters(placed, names, 3, remote.as_slice())
        }
        Marker::Update { sub, remote } => {
            let named = add_text(0, 1, sub.as_bytes());
            add_clusters(named, names, 2, remote.as_slice())
        }
    }
}

/// One more cluster and its position.
#[tactic(auto, using(crate::proofs::Counting::embedded))]
fn add_cluster(size: u64, names: &[ClusterName], field: u32, cluster: &ClusterPosition) -> u64
    requires { field < 2 ^ 29 }
    ensures { result ≡ counted (size + bytes_field field (cluster_position_size names.now cluster.now)) }
{
    let named = add_text(0, 1, name_of(names, &cluster.cluster).as_bytes());
    let placed = add_bytes(named, 2, position_size(cluster.position));
    add_bytes(size, field, placed)
}

#[tactic(auto, using(crate::proofs::Counting::next, crate::proofs::Counting::fits))]
fn add_clusters(size: u64, names: &[ClusterName], field: u32, clusters: &[ClusterPosition]) -> u64
    requires { field < 2 ^ 29 }
    ensures { result ≡ counted (size + cluster_positions names.now field clusters.now) }
{
    let mut sum = size;
    for cluster in clusters {
        sum = add_cluster(sum, names, field, cluster);
    }
    sum
}

fn position_size(position: Position) -> u64
    ensures size { result ≡ position_size position }
{
    number_field(1, position.ledger) + number_field(2, position.entry)
}

fn add_optional(size: u64, field: u32, text: &Option<Text>) -> u64
    requires { field < 2 ^ 29 }
    ensures { result ≡ counted (size + optional_text field text.now) }
{
    match text {
        None => size,
        Some(text) => add_text(size, field, text.as_bytes()),
    }
}

#[tactic(auto, using(crate::proofs::Counting::next, crate::proofs::Counting::fits))]
fn add_texts(size: u64, field: u32, texts: &[Text]) -> u64
    requires { field < 2 ^ 29 }
    ensures { result ≡ counted (size + repeated_text field texts.now) }
{
    let mut sum = size;
    for text in texts {
        sum = add_text(sum, field, text.as_bytes());
    }
    sum
}

fn add_text(size: u64, field: u32, text: &[u8]) -> u64
    requires { field < 2 ^ 29 }
    ensures { result ≡ counted (size + text_field field text.now) }
{
    add_bytes(size, field, text.len() as u64)
}

/// A field that holds so many bytes.
fn add_bytes(size: u64, field: u32, len: u64) -> u64
    requires { field < 2 ^ 29 }
    ensures { result ≡ counted (size + bytes_field field len) }
{
    let framed = size.saturating_add(tag_size(field) + varint_size(len));
    framed.saturating_add(len)
}

fn add_number(size: u64, field: u32, n: u64) -> u64
    requires { field < 2 ^ 29 }
    ensures { result ≡ counted (size + number_field field n) }
{
    size.saturating_add(number_field(field, n))
}

/// A field that holds a number.
#[tactic(auto, using(crate::proofs::Counting::varint_most))]
fn number_field(field: u32, n: u64) -> u64
    requires { field < 2 ^ 29 }
    ensures size { result ≡ number_field field n }
    ensures few { result < 21 }
{
    tag_size(field) + varint_size(n)
}

/// The bytes of a field's tag: a wire type changes no length.
fn tag_size(field: u32) -> u64
    requires { field < 2 ^ 29 }
    ensures size { result ≡ tag_size field }
    ensures few { result < 11 }
{
    varint_size(u64::from(field * 8))
}

/// The bytes of a varint: groups of seven bits (Protocol Buffers encoding).
#[tactic(auto, using(crate::proofs::Counting::varint_one, crate::proofs::Counting::varint_next, crate::proofs::Counting::varint_most))]
fn varint_size(n: u64) -> u64
    ensures size { result ≡ varint_size n }
    ensures few { result < 11 }
{
    if n < 128 {
        return 1;
    }
    1 + varint_size(n / 128)
}
