//! When two entries are the same: in what names them, for whom they are and what they are.
ghost use Rattle.std.specs.Prelude.{◌≡◌};
ghost use Rattle.geo_base.specs.Audit.{same_content, same_entry, same_key, same_marker, same_pair, same_pairs, same_cluster_ref, same_targets};
ghost use Rattle.geo_base.specs.Entry.{same_ident};
ghost use Rattle.geo_base.specs.Position.{same_position};
ghost use Rattle.std.specs.Str.{bytes_eq};

use geo_base::{
    Blob, ClusterPosition, ClusterRef, Content, Entry, Ident, Marker, Position, Sequence, Targets,
    Text,
};

/// Whether two entries are equal in identity, list, content, key and payload.
pub fn is_same_entry(entry: &Entry, other: &Entry) -> bool
    ensures { result ≡ same_entry entry.now other.now }
{
    is_same_ident(&entry.ident, &other.ident)
        && is_same_targets(&entry.to, &other.to)
        && is_same_content(&entry.content, &other.content)
        && is_same_key(entry.meta.key(), other.meta.key())
        && are_same_bytes(&entry.payload, &other.payload)
}

/// Whether two positions are the same.
pub fn is_same_position(position: &Position, other: &Position) -> bool
    ensures { result ≡ same_position position.now other.now }
{
    position.ledger == other.ledger && position.entry == other.entry
}

fn are_same_bytes(blob: &Blob, other: &Blob) -> bool
    ensures { result ≡ bytes_eq blob.now other.now }
{
    blob.as_slice() == other.as_slice()
}

fn is_same_text(text: &Text, other: &Text) -> bool
    ensures { result ≡ bytes_eq text.now other.now }
{
    text.as_bytes() == other.as_bytes()
}

fn is_same_ident(ident: &Ident, other: &Ident) -> bool
    ensures { result ≡ same_ident ident.now other.now }
{
    ident.is_same_stream(other) && ident.seq == other.seq
}

fn is_same_targets(to: &Targets, other: &Targets) -> bool
    ensures { result ≡ same_targets to.now other.now }
{
    match (to, other) {
        (Targets::All, Targets::All) => true,
        (Targets::Only(bits), Targets::Only(others)) => *bits == *others,
        _ => false,
    }
}

fn is_same_key(key: &Option<Text>, other: &Option<Text>) -> bool
    ensures { result ≡ same_key key.now other.now }
{
    match (key, other) {
        (None, None) => true,
        (Some(key), Some(other)) => is_same_text(key, other),
        _ => false,
    }
}

fn is_same_content(content: &Content, other: &Content) -> bool
    ensures { result ≡ same_content content.now other.now }
{
    match (content, other) {
        (Content::Data, Content::Data) => true,
        (Content::Marked(marker), Content::Marked(other)) => {
            is_same_marker(marker.get(), other.get())
        }
        (Content::Unread(kind), Content::Unread(other)) => *kind == *other,
        _ => false,
    }
}

fn is_same_marker(marker: &Marker, other: &Marker) -> bool
    ensures { result ≡ same_marker marker.now other.now }
{
    match (marker, other) {
        (Marker::Request { id, source }, Marker::Request { id: i, source: s }) => {
            is_same_text(id, i) && is_same_place(source, s)
        }
        (Marker::Response { id, answer }, Marker::Response { id: i, answer: a }) => {
            is_same_text(id, i) && is_same_pair(answer, a)
        }
        (
            Marker::Snapshot { id, local, remote },
            Marker::Snapshot {
                id: i,
                local: l,
                remote: r,
            },
        ) => is_same_text(id, i) && is_same_position(local, l) && are_same_pairs(remote, r),
        (Marker::Update { sub, remote }, Marker::Update { sub: s, remote: r }) => {
            is_same_text(sub, s) && are_same_pairs(remote, r)
        }
        _ => false,
    }
}

fn is_same_place(place: &ClusterRef, other: &ClusterRef) -> bool
    ensures { result ≡ same_cluster_ref place.now other.now }
{
    match (place, other) {
        (ClusterRef::Known(cluster), ClusterRef::Known(other)) => *cluster == *other,
        (ClusterRef::Stranger(name), ClusterRef::Stranger(other)) => is_same_text(name, other),
        _ => false,
    }
}

fn is_same_pair(pair: &ClusterPosition, other: &ClusterPosition) -> bool
    ensures { result ≡ same_pair pair.now other.now }
{
    is_same_place(&pair.cluster, &other.cluster)
        && is_same_position(&pair.position, &other.position)
}

fn are_same_pairs(pairs: &Sequence<ClusterPosition>, others: &Sequence<ClusterPosition>) -> bool
    ensures { result ≡ same_pairs pairs.now others.now }
{
    are_same_from(pairs.as_slice(), others.as_slice())
}

fn are_same_from(pairs: &[ClusterPosition], others: &[ClusterPosition]) -> bool
    ensures { result ≡ same_pairs pairs.now others.now }
{
    if pairs.len() != others.len() {
        return false;
    }
    for (place, pair) in pairs.iter().enumerate() {
        if !is_same_pair(pair, &others[place]) {
            return false;
        }
    }
    true
}
