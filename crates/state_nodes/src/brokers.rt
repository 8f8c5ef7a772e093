//! The durable part of a broker.
ghost use Rattle.std.specs.Prelude.{◌≡◌, ◌≤◌, length};
ghost use Rattle.state_items.specs.Reading.{Gives};
ghost use Rattle.state_items.specs.Telling.{Tells, Then};
ghost use Rattle.state_nodes.specs.Entries.{AreEntries};
ghost use Rattle.state_nodes.specs.Nodes.{IsNode, behind_entries, broker_of, counted_ledgers_at, shares_at};

use crate::entries::entries_at;
use crate::ledgers::{entry_count, ledgers_at};
use crate::replicators::replicators_at;
use crate::subs::subs_at;
use durable_parts::{DurableReplicators, DurableSubs};
use geo_base::limits::CLUSTERS;
use geo_base::{ClusterName, Entry};
use state_items::ItemFault;
use std::alloc::Global;

/// The lengths of a broker's ledgers, their entries, its subscriptions in order of creation, and its replicators by the number of the
/// cluster that they send to, the own one unused.
#[derive(Drop)]
pub struct NodeParts {
    pub ledgers: Vec<u64>,
    pub entries: Vec<Entry>,
    pub subs: DurableSubs,
    pub replicators: DurableReplicators,
}

/// Reads the durable part of the broker of a topic at the cluster `own`, whose ledgers take `per_ledger` entries; names are those of
/// the clusters.
#[tactic(auto, using(crate::proofs::NodeExits::ledgers_stop, crate::proofs::NodeExits::entries_stop))]
pub fn node_at<'a>(
    alloc: Global,
    version: u32,
    per_ledger: u64,
    names: &[ClusterName],
    own: u32,
    bytes: &'a [u8],
) -> Result<(NodeParts, &'a [u8]), ItemFault>
    requires { length names.now ≤ CLUSTERS }
    ensures { Tells (λ x. (broker_of x.0, x.1.now)) result (IsNode version per_ledger names.now own bytes.now) }
{
    let ((ledgers, count), rest) = counted_ledgers_at(alloc, per_ledger, bytes)?;
    let (entries, rest) = entries_at(alloc, names, own, count, rest)?;
    behind_entries(
        alloc,
        version,
        names.len() as u32,
        own,
        LedgerParts { ledgers, entries },
        rest,
    )
}

/// The lengths of ledgers, and their entries.
#[derive(Drop)]
struct LedgerParts {
    ledgers: Vec<u64>,
    entries: Vec<Entry>,
}

/// The lengths of ledgers, and how many entries they have together.
#[tactic(auto, unfolding(crate::specs::Nodes::counted_ledgers_at))]
fn counted_ledgers_at(
    alloc: Global,
    per_ledger: u64,
    bytes: &[u8],
) -> Result<((Vec<u64>, u64), &[u8]), ItemFault>
    ensures { Gives (λ x. ((x.0.0.items, x.0.1), x.1.now)) result (counted_ledgers_at per_ledger bytes.now) }
{
    let (lengths, rest) = ledgers_at(alloc, per_ledger, bytes)?;
    let (count, rest) = entry_count(lengths.as_slice(), rest)?;
    Ok(((lengths, count), rest))
}

/// The parts of a broker whose entries are read.
#[tactic(auto, unfolding(crate::specs::Nodes::behind_entries))]
fn behind_entries(
    alloc: Global,
    version: u32,
    clusters: u32,
    own: u32,
    stored: LedgerParts,
    bytes: &[u8],
) -> Result<(NodeParts, &[u8]), ItemFault>
    ensures { Gives (λ x. (broker_of x.0, x.1.now)) result (behind_entries version own clusters stored.ledgers.items stored.entries.items bytes.now) }
{
    let LedgerParts { ledgers, entries } = stored;
    let count = entries.len() as u64;
    let ((subs, replicators), rest) = shares_at(alloc, version, own, clusters, count, bytes)?;
    let parts = NodeParts {
        ledgers,
        entries,
        subs,
        replicators,
    };
    Ok((parts, rest))
}

/// The subscriptions and replicators of a broker with so many entries.
#[tactic(auto, unfolding(crate::specs::Nodes::shares_at))]
fn shares_at(
    alloc: Global,
    version: u32,
    own: u32,
    clusters: u32,
    entries: u64,
    bytes: &[u8],
) -> Result<((DurableSubs, DurableReplicators), &[u8]), ItemFault>
    ensures { Gives (λ x. ((x.0.0, x.0.1), x.1.now)) result (shares_at version own clusters entries bytes.now) }
{
    let (subs, rest) = subs_at(alloc, version, entries, bytes)?;
    let (replicators, rest) = replicators_at(alloc, entries, own, clusters, rest)?;
    Ok(((subs, replicators), rest))
}
