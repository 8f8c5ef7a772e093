//! The entries of a topic.
ghost use Rattle.std.specs.Prelude.{◌≡◌, ◌≤◌, true, length, IfOk, Ok};
ghost use Rattle.state_items.specs.Reading.{text_at};
ghost use Rattle.state_items.specs.Telling.{Tells};
ghost use Rattle.state_nodes.specs.Entries.{AreEntries, IsEntry, IsPayload, ident_of, is_next};

use crate::heading::{Heading, heading_of};
use crate::topic_so_far::TopicSoFar;
use frame_values::is_within_limit;
use geo_base::limits::CLUSTERS;
use geo_base::{Blob, ClusterName, Entry};
use state_items::{ItemFault, Rule, read_entry, text_at};
use std::alloc::Global;

/// So many entries of the topic of the cluster `own`.
#[tactic(auto, using(crate::proofs::EntryExits::entries_begin))]
pub(crate) fn entries_at<'a>(
    alloc: Global,
    names: &[ClusterName],
    own: u32,
    count: u64,
    bytes: &'a [u8],
) -> Result<(Vec<Entry>, &'a [u8]), ItemFault>
    requires { length names.now ≤ CLUSTERS }
    ensures { Tells (λ x. (x.0.items, x.1.now)) result (AreEntries names.now own count bytes.now) }
{
    let mut topic_so_far = TopicSoFar::new(alloc, own);
    let mut rest = bytes;
    for _ in 0..count {
        let (entry, after) = entry_at(alloc, names, &topic_so_far, rest)?;
        topic_so_far.push(alloc, entry)?;
        rest = after;
    }
    Ok((topic_so_far.into_entries(), rest))
}

/// The next entry.
fn entry_at<'a>(
    alloc: Global,
    names: &[ClusterName],
    before: &TopicSoFar,
    bytes: &'a [u8],
) -> Result<(Entry, &'a [u8]), ItemFault>
    requires { length names.now ≤ CLUSTERS }
    ensures told { Tells (λ x. (x.0, x.1.now)) result (IsEntry names.now before.now.own before.now.entries bytes.now) }
    ensures next { IfOk result (λ x. is_next before.now.own before.now.entries x.0.ident ≡ true) }
{
    let (text, rest) = text_at(bytes)?;
    let heading = heading_of(alloc, names, before, bytes, text)?;
    payload_at(alloc, names, heading, rest)
}

/// The payload of an entry, which makes it whole.
#[tactic(auto, using(crate::proofs::EntryExits::payload_stops))]
fn payload_at<'a>(
    alloc: Global,
    names: &[ClusterName],
    heading: Heading,
    bytes: &'a [u8],
) -> Result<(Entry, &'a [u8]), ItemFault>
    requires { length names.now ≤ CLUSTERS }
    ensures told { Tells (λ x. (x.0, x.1.now)) result (IsPayload names.now heading bytes.now) }
    ensures ident { IfOk result (λ x. x.0.ident ≡ ident_of heading) }
{
    match text_at(bytes) {
        Ok((payload, rest)) => whole_entry(alloc, names, heading, bytes, payload, rest),
        Err(fault) => {
            drop(heading);
            Err(fault)
        }
    }
}

/// The entry of a payload, which is the item at the front of the bytes.
#[tactic(auto, using(crate::proofs::EntryExits::ident_is))]
fn whole_entry<'a>(
    alloc: Global,
    names: &[ClusterName],
    heading: Heading,
    bytes: &[u8],
    payload: &[u8],
    rest: &'a [u8],
) -> Result<(Entry, &'a [u8]), ItemFault>
    requires clusters { length names.now ≤ CLUSTERS }
    requires read { text_at bytes.now ≡ Ok (payload.now, rest.now) }
    ensures told { Tells (λ x. (x.0, x.1.now)) result (IsPayload names.now heading bytes.now) }
    ensures ident { IfOk result (λ x. x.0.ident ≡ ident_of heading) }
{
    let Ok(payload) = Blob::from_slice(alloc, payload) else {
        drop(heading);
        return Err(ItemFault::Memory);
    };
    let Heading { meta, origin } = heading;
    let entry = read_entry(alloc, names, meta, origin, payload)?;
    if is_within_limit(names, &entry) {
        Ok((entry, rest))
    } else {
        drop(entry);
        Err(ItemFault::at(bytes, Rule::Entry))
    }
}
