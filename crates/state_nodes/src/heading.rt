//! What the metadata of an entry says.
ghost use Rattle.std.specs.Prelude.{◌≡◌, ◌≤◌, true, length, IfOk, MatchOption, None, Some};
ghost use Rattle.state_items.specs.Origins.{origin_of};
ghost use Rattle.state_items.specs.Telling.{Tells};
ghost use Rattle.state_nodes.specs.Entries.{IsHeading, Says, ident_of, is_next};

use crate::topic_so_far::TopicSoFar;
use geo_base::limits::CLUSTERS;
use geo_base::{ClusterName, Ident, Memory, ProducerName};
use message_meta::{Meta, MetaFault};
use state_items::{ItemFault, Rule, origin_of};
use std::alloc::Global;

/// Metadata, and the cluster that stored the message first.
#[derive(Drop)]
pub(crate) struct Heading {
    pub(crate) meta: Meta,
    pub(crate) origin: u32,
}

impl Heading {
    /// The identity that it gives an entry.
    fn ident(&self, alloc: Global) -> Result<Ident, Memory>
        ensures { IfOk result (λ i. i ≡ ident_of self.now) }
    {
        Ok(Ident {
            origin: self.origin,
            producer: ProducerName::any(alloc, self.meta.producer.as_str())?,
            seq: self.meta.seq,
        })
    }
}

/// What a text says as the metadata of the next entry of a topic; `item` begins with the text's length.
#[tactic(auto, using(crate::proofs::Headings::silent, crate::proofs::Headings::strange, crate::proofs::Headings::refuses, crate::proofs::Headings::new))]
pub(crate) fn heading_of(
    alloc: Global,
    names: &[ClusterName],
    before: &TopicSoFar,
    item: &[u8],
    text: &[u8],
) -> Result<Heading, ItemFault>
    requires { length names.now ≤ CLUSTERS }
    ensures told { Tells (λ h. h) result (IsHeading names.now before.now.own before.now.entries item.now text.now) }
    ensures next { IfOk result (λ h. is_next before.now.own before.now.entries (ident_of h) ≡ true) }
{
    let Some(meta) = said(alloc, text)? else {
        return Err(ItemFault::at(item, Rule::Entry));
    };
    let Some(heading) = placed(names, before.own(), meta) else {
        return Err(ItemFault::at(item, Rule::Entry));
    };
    match is_next(alloc, before, &heading) {
        Ok(true) => Ok(heading),
        Ok(false) => {
            drop(heading);
            Err(ItemFault::at(item, Rule::Identity))
        }
        Err(Memory) => {
            drop(heading);
            Err(ItemFault::Memory)
        }
    }
}

/// Whether the entry that metadata are of may stand after those of a topic_so_far.
fn is_next(alloc: Global, before: &TopicSoFar, heading: &Heading) -> Result<bool, Memory>
    ensures { IfOk result (λ b. b ≡ is_next before.now.own before.now.entries (ident_of heading.now)) }
{
    let ident = heading.ident(alloc)?;
    let is_next = before.is_next(alloc, &ident);
    drop(ident);
    is_next
}

/// Metadata with the cluster that stored the message first; None exactly where no cluster has the name that they give.
fn placed(names: &[ClusterName], own: u32, meta: Meta) -> Option<Heading>
    requires { length names.now ≤ CLUSTERS }
    ensures { MatchOption result (origin_of names.now own meta.replicated_from ≡ None)
        (λ h. (h.meta ≡ meta) × (origin_of names.now own meta.replicated_from ≡ Some h.origin)) }
{
    match origin_of(names, own, &meta.replicated_from) {
        None => {
            drop(meta);
            None
        }
        Some(origin) => Some(Heading { meta, origin }),
    }
}

/// What bytes say as metadata; None where they say nothing.
#[tactic(auto, using(crate::proofs::Headings::wrong_nothing))]
fn said(alloc: Global, bytes: &[u8]) -> Result<Option<Meta>, Memory>
    ensures { IfOk result (Says bytes.now) }
{
    match Meta::read(alloc, bytes) {
        Ok(meta) => Ok(Some(meta)),
        Err(why) => match why {
            MetaFault::Memory => Err(Memory),
            _ => Ok(None),
        },
    }
}
