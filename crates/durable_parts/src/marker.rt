//! A cluster's own markers among the entries of its topic.
ghost use Rattle.std.specs.Prelude.{◌≡◌, ◌==◌, ◌&&◌, ◌+◌, ◌-◌, ◌^◌, max, min, if◌then◌else◌};
ghost use Rattle.std.specs.Str.{bytes_eq};
ghost use Rattle.geo_base.specs.Entry.{is_own_marker, marker_producer};

use geo_base::{Entry, Ident};

/// The name of the producer that a cluster writes its markers as (own).
pub const MARKER_PRODUCER: &str = "pulsar.marker";

/// Whether an identity is that of a marker that the cluster `own` stored first, of whatever kind.
pub fn is_own_marker(own: u32, ident: &Ident) -> bool
    ensures { result ≡ ((ident.now.origin == own) && bytes_eq ident.now.producer marker_producer) }
{
    ident.origin == own && ident.producer.as_bytes() == MARKER_PRODUCER.as_bytes()
}

/// The sequence id of the next own marker after one more entry, where it was `next` before; the greatest number where one more would
/// pass it.
pub fn marker_after(own: u32, next: u64, entry: &Entry) -> u64
    ensures { result ≡ (if is_own_marker own entry.now then max next (min (entry.now.ident.seq + 1) (2 ^ 64 - 1)) else next) }
{
    if is_own_marker(own, &entry.ident) {
        next.max(entry.ident.seq.saturating_add(1))
    } else {
        next
    }
}
