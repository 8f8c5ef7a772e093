//! Entries that the topics of these tests store, and the names of their subscriptions.
use geo_base::{Blob, Content, Entry, Ident, Memory, Metadata, ProducerName, SubName, Targets};
use std::alloc::Global;

/// What names an entry of a cluster's producer.
pub fn ident(alloc: Global, origin: u32, producer: &str, seq: u64) -> Result<Ident, Memory> {
    Ok(Ident {
        origin,
        producer: ProducerName::any(alloc, producer)?,
        seq,
    })
}

/// An entry for some clusters, with no key and no payload.
pub fn entry(alloc: Global, ident: Ident, content: Content, to: Targets) -> Entry {
    Entry {
        ident,
        content,
        to,
        meta: Metadata::usual(0, None),
        payload: Blob::new(alloc),
    }
}

/// The name of a subscription. Those of these tests are good names, so that memory alone can be wanting.
pub fn sub_name(alloc: Global, name: &str) -> Result<SubName, Memory> {
    match SubName::read(alloc, name) {
        Ok(name) => Ok(name),
        Err(_) => Err(Memory),
    }
}
