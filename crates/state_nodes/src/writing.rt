//! The parts of a state as texts.
ghost use Rattle.std.specs.Prelude.{◌≡◌, ◌++◌, ◌∷◌, [], if◌then◌else◌, length, OnOk, OnErr, take};
ghost use Rattle.std.specs.List.{All, flat_map};
ghost use Rattle.geo_base.specs.Replicator.{Replicator};
ghost use Rattle.geo_base.specs.Subscription.{Subscription};
ghost use Rattle.cursor_acks.specs.Acks.{AreBelow};
ghost use Rattle.state_items.specs.EntryTexts.{entry_text};
ghost use Rattle.durable_parts.specs.Parts.{replicator_of, replicators_of, sub_of, subs_of};
ghost use Rattle.state_items.specs.Texts.{list, number, text};
ghost use Rattle.state_nodes.specs.Counts.{counts_text};
ghost use Rattle.state_nodes.specs.Ledgers.{ledgers_text};
ghost use Rattle.state_nodes.specs.Nodes.{broker_of, node_text};
ghost use Rattle.state_nodes.specs.Replicators.{replicator_text, replicators_text};
ghost use Rattle.state_nodes.specs.Subs.{flag_byte, kind_byte, sub_text, subs_text};
ghost use Rattle.state_nodes.specs.Writing.{CanWrite, HaveRests};

use crate::brokers::NodeParts;
use crate::counts::Counts;
use durable_parts::{DurableReplicator, DurableSub};
use geo_base::{Blob, ClusterName, Entry, Memory, SubKind, SubName};
use state_items::{put_byte, put_cursor, put_entry, put_number, put_text};
use std::alloc::Global;

/// Appends the counts of a run.
pub fn put_counts(out: &mut Blob, counts: &Counts) -> Result<(), Memory>
    ensures ok { OnOk result (out.new ≡ out.old ++ counts_text counts.now) }
    ensures err { OnErr result (take (length out.old) out.new ≡ out.old) }
{
    put_number(out, counts.events)?;
    put_number(out, counts.idle)?;
    put_number(out, counts.rounds)?;
    put_number(out, counts.frame_bytes)
}

/// Appends the durable part of the broker of a topic at the cluster `own`; names are those of the clusters.
pub fn put_node(
    alloc: Global,
    out: &mut Blob,
    names: &[ClusterName],
    own: u32,
    node: &NodeParts,
) -> Result<(), Memory>
    requires { CanWrite (broker_of node.now) }
    ensures ok { OnOk result (out.new ≡ out.old ++ node_text names.now own (broker_of node.now)) }
    ensures err { OnErr result (take (length out.old) out.new ≡ out.old) }
{
    let count = node.entries.len() as u64;
    put_ledgers(out, node.ledgers.as_slice())?;
    put_entries(alloc, out, names, own, node.entries.as_slice())?;
    put_subs(out, count, node.subs.as_slice())?;
    put_replicators(out, count, own, node.replicators.as_slice())
}

fn put_ledgers(out: &mut Blob, lengths: &[u64]) -> Result<(), Memory>
    ensures ok { OnOk result (out.new ≡ out.old ++ ledgers_text lengths.now) }
    ensures err { OnErr result (take (length out.old) out.new ≡ out.old) }
{
    put_number(out, lengths.len() as u64)?;
    put_numbers(out, lengths)
}

fn put_numbers(out: &mut Blob, numbers: &[u64]) -> Result<(), Memory>
    ensures ok { OnOk result (out.new ≡ out.old ++ flat_map number numbers.now) }
    ensures err { OnErr result (take (length out.old) out.new ≡ out.old) }
{
    for each in numbers {
        put_number(out, *each)?;
    }
    Ok(())
}

fn put_entries(
    alloc: Global,
    out: &mut Blob,
    names: &[ClusterName],
    own: u32,
    entries: &[Entry],
) -> Result<(), Memory>
    requires { HaveRests entries.now }
    ensures ok { OnOk result (out.new ≡ out.old ++ list (entry_text names.now own) entries.now) }
    ensures err { OnErr result (take (length out.old) out.new ≡ out.old) }
{
    put_number(out, entries.len() as u64)?;
    put_each_entry(alloc, out, names, own, entries)
}

#[tactic(auto, using(crate::proofs::Items::has_rest))]
fn put_each_entry(
    alloc: Global,
    out: &mut Blob,
    names: &[ClusterName],
    own: u32,
    entries: &[Entry],
) -> Result<(), Memory>
    requires { HaveRests entries.now }
    ensures ok { OnOk result (out.new ≡ out.old ++ flat_map (entry_text names.now own) entries.now) }
    ensures err { OnErr result (take (length out.old) out.new ≡ out.old) }
{
    for entry in entries {
        put_entry(alloc, out, names, own, entry)?;
    }
    Ok(())
}

fn put_subs(out: &mut Blob, entries: u64, subs: &[DurableSub]) -> Result<(), Memory>
    requires { All (λ (s : Subscription). AreBelow entries s.cursor) (subs_of subs.now) }
    ensures ok { OnOk result (out.new ≡ out.old ++ subs_text entries (subs_of subs.now)) }
    ensures err { OnErr result (take (length out.old) out.new ≡ out.old) }
{
    put_number(out, subs.len() as u64)?;
    put_each_sub(out, entries, subs)
}

fn put_each_sub(out: &mut Blob, entries: u64, subs: &[DurableSub]) -> Result<(), Memory>
    requires { All (λ (s : Subscription). AreBelow entries s.cursor) (subs_of subs.now) }
    ensures ok { OnOk result (out.new ≡ out.old ++ flat_map (sub_text entries) (subs_of subs.now)) }
    ensures err { OnErr result (take (length out.old) out.new ≡ out.old) }
{
    for sub in subs {
        put_sub(out, entries, sub)?;
    }
    Ok(())
}

fn put_sub(out: &mut Blob, entries: u64, sub: &DurableSub) -> Result<(), Memory>
    requires { AreBelow entries sub.now.cursor.indexes }
    ensures ok { OnOk result (out.new ≡ out.old ++ sub_text entries (sub_of sub.now)) }
    ensures err { OnErr result (take (length out.old) out.new ≡ out.old) }
{
    put_name(out, &sub.name)?;
    put_byte(out, kind_byte(sub.kind))?;
    put_byte(out, u8::from(sub.replicated))?;
    put_cursor(out, &sub.cursor, entries)?;
    put_number(out, sub.seeks)
}

fn put_name(out: &mut Blob, name: &SubName) -> Result<(), Memory>
    ensures ok { OnOk result (out.new ≡ out.old ++ text name.now) }
    ensures err { OnErr result (take (length out.old) out.new ≡ out.old) }
{
    put_text(out, name.as_str().as_bytes())
}

/// The byte of a kind.
fn kind_byte(kind: SubKind) -> u8
    ensures { result ≡ kind_byte kind }
{
    match kind {
        SubKind::Exclusive => 0,
        SubKind::Shared => 1,
        SubKind::Failover => 2,
        SubKind::KeyShared => 3,
    }
}

/// The replicators in cluster order; the own cluster has none.
#[tactic(auto, using(crate::proofs::Rows::replicators_end))]
fn put_replicators(
    out: &mut Blob,
    entries: u64,
    own: u32,
    replicators: &[DurableReplicator],
) -> Result<(), Memory>
    requires { All (λ (s : Replicator). AreBelow entries s.cursor) (replicators_of replicators.now) }
    ensures ok { OnOk result (out.new ≡ out.old ++ replicators_text entries own (replicators_of replicators.now)) }
    ensures err { OnErr result (take (length out.old) out.new ≡ out.old) }
{
    for cluster in 0..replicators.len() {
        put_place(out, entries, cluster == own as usize, &replicators[cluster])?;
    }
    Ok(())
}

/// The replicator to a cluster, where it is not the own one.
fn put_place(
    out: &mut Blob,
    entries: u64,
    is_own: bool,
    replicator: &DurableReplicator,
) -> Result<(), Memory>
    requires { AreBelow entries replicator.now.cursor.indexes }
    ensures ok { OnOk result (out.new ≡ out.old ++ (if is_own then [] else replicator_text entries (replicator_of replicator.now))) }
    ensures err { OnErr result (take (length out.old) out.new ≡ out.old) }
{
    if is_own {
        return Ok(());
    }
    put_number(out, replicator.session)?;
    put_cursor(out, &replicator.cursor, entries)
}
