//! Recovery from a topic's entries.
ghost use Rattle.std.specs.Prelude.{◌≡◌, ◌+◌, ◌-◌, ◌^◌, max, min, if◌then◌else◌, IfOk};
ghost use Rattle.topic_store.specs.Table.{Tells};
ghost use Rattle.geo_base.specs.Topic.{next_marker};

use crate::durable::Durable;
use crate::marker::marker_after;
use geo_base::{EntryStore, Memory};
use std::alloc::Global;
use topic_store::DedupTable;

/// What a broker keeps in memory about the entries that its topic stores.
#[derive(Drop)]
pub struct Recovered {
    /// What the topic would refuse as a duplicate.
    pub dedup: DedupTable,
    /// The sequence id of the cluster's next own marker: one more than the greatest that is stored, 0 where there is none (own);
    /// the greatest number where one more would pass it.
    pub next_marker: u64,
}

/// The memory of a broker anew, from its topic alone.
pub fn recover(alloc: Global, durable: &Durable) -> Result<Recovered, Memory>
    ensures dedup { IfOk result (λ r. Tells r.dedup.rows durable.now.store.entries) }
    ensures next_marker { IfOk result (λ r. r.next_marker ≡ min (next_marker durable.now.own durable.now.store.entries) (2 ^ 64 - 1)) }
{
    let dedup = DedupTable::rebuild(alloc, &durable.store)?;
    let next_marker = next_marker(durable.own, &durable.store);
    Ok(Recovered { dedup, next_marker })
}

/// The sequence id of a cluster's next own marker.
#[tactic(auto, using(crate::proofs::Markers::one_more, crate::proofs::Markers::none_here, crate::proofs::Markers::all_read))]
fn next_marker<S: EntryStore>(own: u32, store: &S) -> u64
    ensures { result ≡ min (next_marker own (S.entries store.now)) (2 ^ 64 - 1) }
{
    let mut next: u64 = 0;
    for i in 0..store.len() {
        if let Some(entry) = store.get(i) {
            next = marker_after(own, next, entry);
        }
    }
    next
}
