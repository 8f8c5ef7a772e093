//! Messages of a producer `p`, and markers, as the cluster of number 0 stores them.
ghost use Rattle.std.specs.Prelude.{ℕ, List, IfOk};
ghost use Rattle.tiered_storage.specs.Readable.{IsTellable};

use geo_base::{
    Blob, BoxedMarker, Content, Entry, Ident, Marker, Memory, Metadata, ProducerName, Sequence,
    Targets, Text,
};
use std::alloc::Global;

/// A message of a key, or of none.
#[tactic(auto, using(crate::proofs::Told::message_tellable))]
pub fn message(alloc: Global, seq: u64, key: Option<&str>, payload: &[u8]) -> Result<Entry, Memory>
    ensures { IfOk result (λ e. (names : List (List ℕ)) → IsTellable names 0 e) }
{
    let payload = Blob::from_slice(alloc, payload)?;
    let producer = ProducerName::any(alloc, "p")?;
    let key = match key {
        Some(key) => Some(Text::from_str(alloc, key)?),
        None => None,
    };
    Ok(Entry {
        ident: Ident {
            origin: 0,
            producer,
            seq,
        },
        content: Content::Data,
        to: Targets::All,
        meta: Metadata::usual(0, key),
        payload,
    })
}

/// A marker that is an update of a subscription, and names no position.
#[tactic(auto, using(crate::proofs::Told::update_tellable))]
pub fn update(alloc: Global, seq: u64) -> Result<Entry, Memory>
    ensures { IfOk result (λ e. (names : List (List ℕ)) → IsTellable names 0 e) }
{
    let producer = ProducerName::any(alloc, "pulsar.marker")?;
    let sub = Text::from_str(alloc, "s")?;
    let remote = Sequence::new(alloc);
    let marker = BoxedMarker::new(alloc, Marker::Update { sub, remote })?;
    Ok(Entry {
        ident: Ident {
            origin: 0,
            producer,
            seq,
        },
        content: Content::Marked(marker),
        to: Targets::All,
        meta: Metadata::usual(0, None),
        payload: Blob::new(alloc),
    })
}
