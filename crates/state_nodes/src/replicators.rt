//! The replicators of a broker to the other clusters.
ghost use Rattle.std.specs.Prelude.{◌==◌, [], if◌then◌else◌, Ok};
ghost use Rattle.geo_base.specs.Replicator.{new_replicator};
ghost use Rattle.durable_parts.specs.Parts.{replicator_of, replicators_of};
ghost use Rattle.state_items.specs.Reading.{Gives, many};
ghost use Rattle.state_nodes.specs.Replicators.{place_at, replicator_at, replicators_at};

use durable_parts::{DurableReplicator, DurableReplicators};
use state_items::{ItemFault, MOST_COUNT, Rule, cursor_at, number_within};
use std::alloc::Global;

/// Replicators by the number of the cluster that they send to, the own one unused, over a topic of `entries` entries.
pub(crate) fn replicators_at(
    alloc: Global,
    entries: u64,
    own: u32,
    clusters: u32,
    bytes: &[u8],
) -> Result<(DurableReplicators, &[u8]), ItemFault>
    ensures { Gives (λ x. (x.0, x.1.now)) result (replicators_at entries own clusters bytes.now) }
{
    let (replicators, rest) = listed_replicators(alloc, entries, own, clusters, bytes)?;
    Ok((DurableReplicators::from_vec(replicators), rest))
}

/// The same as a vector.
fn listed_replicators(
    alloc: Global,
    entries: u64,
    own: u32,
    clusters: u32,
    bytes: &[u8],
) -> Result<(Vec<DurableReplicator>, &[u8]), ItemFault>
    ensures { Gives (λ x. (replicators_of x.0.items, x.1.now)) result (many (place_at entries own) clusters [] bytes.now) }
{
    let mut replicators: Vec<DurableReplicator> = Vec::new(alloc);
    let mut rest = bytes;
    for cluster in 0..clusters {
        let (replicator, after) = place_at(alloc, entries, own, cluster, rest)?;
        replicators.push(replicator)?;
        rest = after;
    }
    Ok((replicators, rest))
}

/// The replicator to a cluster, or the unused one.
fn place_at(
    alloc: Global,
    entries: u64,
    own: u32,
    cluster: u32,
    bytes: &[u8],
) -> Result<(DurableReplicator, &[u8]), ItemFault>
    ensures { Gives (λ x. (replicator_of x.0, x.1.now)) result (if cluster == own then Ok (new_replicator, bytes.now) else replicator_at entries bytes.now) }
{
    if cluster == own {
        return Ok((DurableReplicator::new(alloc), bytes));
    }
    replicator_at(alloc, entries, bytes)
}

/// The replicator to another cluster.
#[tactic(auto, unfolding(crate::specs::Replicators::replicator_at))]
fn replicator_at(
    alloc: Global,
    entries: u64,
    bytes: &[u8],
) -> Result<(DurableReplicator, &[u8]), ItemFault>
    ensures { Gives (λ x. (replicator_of x.0, x.1.now)) result (replicator_at entries bytes.now) }
{
    let (session, rest) = number_within(bytes, MOST_COUNT, Rule::Count)?;
    let (cursor, rest) = cursor_at(alloc, entries, rest)?;
    Ok((DurableReplicator { session, cursor }, rest))
}
