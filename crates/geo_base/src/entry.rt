//! An entry of a topic, and what names it.
ghost use Rattle.std.specs.Prelude.{◌≡◌, ◌/◌, ◌%◌, ◌^◌, ◌==◌};
ghost use Rattle.geo_base.specs.Entry.{goes_to, same_stream};

use crate::bytes::Blob;
use crate::marker::BoxedMarker;
use crate::metadata::Metadata;
use crate::name::ProducerName;

/// What names an entry: the cluster that stored it first, its producer there, and the producer's sequence id for it.
#[derive(Drop)]
pub struct Ident {
    pub origin: u32,
    pub producer: ProducerName,
    pub seq: u64,
}

impl Ident {
    /// Whether both are of one origin and producer, so that their sequence ids compare.
    pub fn is_same_stream(&self, other: &Ident) -> bool
        ensures { result ≡ same_stream self.now other.now }
    {
        self.origin == other.origin && self.producer.as_bytes() == other.producer.as_bytes()
    }
}

/// The clusters that a message is replicated to: all, or those whose numbers are bits of a mask (`replicate_to`).
#[derive(Clone, Copy, Debug, Drop, PartialEq, Eq)]
pub enum Targets {
    All,
    Only(u8),
}

impl Targets {
    /// Whether the list names a cluster, or is empty.
    pub fn contains(&self, cluster: u32) -> bool
        ensures { result ≡ goes_to cluster self.now }
    {
        match self {
            Targets::All => true,
            Targets::Only(bits) => is_bit_set(*bits, cluster),
        }
    }
}

/// Whether a bit of a mask is set; none past its eight is.
fn is_bit_set(mask: u8, bit: u32) -> bool
    ensures { result ≡ ((mask / (2 ^ bit)) % 2 == 1) }
{
    bit < u8::BITS && (mask >> bit) % 2 == 1
}

/// What an entry is: a message, a marker, or a marker of a type or a payload that has no reading.
#[derive(Drop)]
pub enum Content {
    Data,
    Marked(BoxedMarker),
    Unread(u64),
}

/// An entry as a topic stores it. The payload of a marker is empty where it is the marker's one canonical text.
#[derive(Drop)]
pub struct Entry {
    pub ident: Ident,
    pub content: Content,
    pub to: Targets,
    pub meta: Metadata,
    pub payload: Blob,
}
