//! What the logs say that a subscription is done with.
ghost use Rattle.std.specs.Prelude.{◌≡◌, ◌≤◌, ◌<◌, ◌||◌, [], ◌∷◌, if◌then◌else◌, false, true, length, replicate, slice_index, slice_index_or, slice_set, IfOk, OnOk};
ghost use Rattle.std.specs.List.{list_any};
ghost use Rattle.geo_base.specs.Entry.{is_data, same_ident};
ghost use Rattle.audit.specs.Stored.{identity_of, is_identity};
ghost use Rattle.indexmap.specs.IndexSet.{insert_key};
ghost use Rattle.observe.specs.Dealt.{AddedTo, HoldsBelow, IsDealtBelow, IsEndOf, Keeps, KeepsSize, has_message};
ghost use Rattle.observe.specs.Kept.{IdentOf};

use crate::entries::is_message;
use audit::Identity;
use geo_base::{Entry, Ident, Memory, Text};
use indexmap::IndexSet;
use std::alloc::Global;
use std::marker::Model;

/// The messages that a subscription is done with by the logs; and by cluster below which index it is done there, and whether it may be done
/// with what does not stand there.
#[derive(Drop)]
pub(crate) struct Dealt {
    name: Text,
    messages: IndexSet<Identity>,
    below: Vec<usize>,
    unsure: Vec<bool>,
}

impl Model for Dealt {
    ghost use Rattle.observe.specs.Dealt.{SubDealt};

    ghost Value = { SubDealt };

    ghost view = { λ d. record { name = d.name; messages = d.messages.keys; below = d.below.items; unsure = d.unsure.items } };
}

/// An index among some entries; how many they are where it is after them.
#[tactic(auto, using(crate::proofs::Below::end_here, crate::proofs::Below::end_last))]
fn end_below(entries: &[Entry], index: usize) -> usize
    ensures end { IsEndOf entries.now index result }
    ensures within { result ≤ length entries.now }
{
    if index < entries.len() {
        index
    } else {
        entries.len()
    }
}

impl Dealt {
    /// Nothing so far, beside so many clusters.
    pub(crate) fn new(alloc: Global, clusters: u32, name: Text) -> Result<Dealt, Memory>
        ensures { IfOk result (λ dealt. dealt ≡ record { name = name; messages = []; below = replicate clusters 0; unsure = replicate clusters false }) }
    {
        let mut below = Vec::new(alloc);
        let mut unsure = Vec::new(alloc);
        for _cluster in 0..clusters {
            below.push(0)?;
            unsure.push(false)?;
        }
        Ok(Dealt {
            name,
            messages: IndexSet::new(alloc),
            below,
            unsure,
        })
    }

    /// It may be done with what does not stand at a cluster.
    pub(crate) fn set_unsure(&mut self, cluster: u32)
        requires { cluster < length self.old.unsure }
        ensures { self.new ≡ record { name = self.old.name; messages = self.old.messages; below = self.old.below; unsure = slice_set self.old.unsure cluster true } }
    {
        self.unsure[cluster as usize] = true;
    }

    /// Whether it may be done with what does not stand at a cluster.
    pub(crate) fn is_unsure(&self, cluster: u32) -> bool
        requires { cluster < length self.now.unsure }
        ensures { result ≡ slice_index_or self.now.unsure cluster false }
    {
        self.unsure[cluster as usize]
    }

    /// It is done with a message.
    pub(crate) fn add(&mut self, alloc: Global, ident: &Ident) -> Result<(), Memory>
        ensures keeps { Keeps self.old self.new }
        ensures messages { OnOk result (self.new.messages ≡ insert_key is_identity self.old.messages (identity_of ident.now)) }
    {
        let identity = Identity::of(alloc, ident)?;
        self.messages.insert(identity)?;
        Ok(())
    }

    /// It is done with an entry, where that is a message.
    #[tactic(auto, using(crate::proofs::Below::message_more, crate::proofs::Below::marker_more, crate::proofs::Below::keeps_itself))]
    fn add_entry(&mut self, alloc: Global, entry: &Entry) -> Result<(), Memory>
        ensures keeps { Keeps self.old self.new }
        ensures messages { OnOk result ((g : IdentOf) → has_message self.new g ≡ (has_message self.old g || list_any (same_ident g) (if is_data entry.now.content then entry.now.ident ∷ [] else []))) }
    {
        if is_message(entry) {
            self.add(alloc, &entry.ident)
        } else {
            Ok(())
        }
    }

    /// It is done with all messages from an index on and below another one among some entries.
    #[tactic(auto, using(crate::proofs::Below::keeps_on, crate::proofs::Below::none_added, crate::proofs::Below::more_added))]
    fn add_messages(
        &mut self,
        alloc: Global,
        entries: &[Entry],
        from: usize,
        end: usize,
    ) -> Result<(), Memory>
        requires { end ≤ length entries.now }
        ensures keeps { Keeps self.old self.new }
        ensures messages { OnOk result (AddedTo entries.now from self.old self.new end) }
    {
        for at in from..end {
            self.add_entry(alloc, &entries[at])?;
        }
        Ok(())
    }

    /// It is done with all messages below an index among the entries of a topic at a cluster.
    #[tactic(auto, using(crate::proofs::Below::below_up, crate::proofs::Below::below_same, crate::proofs::Below::keeps_set, crate::proofs::Below::keeps_size))]
    pub(crate) fn add_below(
        &mut self,
        alloc: Global,
        cluster: u32,
        entries: &[Entry],
        index: usize,
    ) -> Result<(), Memory>
        requires { cluster < length self.old.below }
        ensures keeps { KeepsSize self.old self.new }
        ensures below { OnOk result (HoldsBelow entries.now (slice_index self.old.below cluster) self.old → IsDealtBelow cluster entries.now index self.old self.new) }
    {
        let from = self.below[cluster as usize];
        let end = end_below(entries, index);
        self.add_messages(alloc, entries, from, end)?;
        if end > from {
            self.below[cluster as usize] = end;
        }
        Ok(())
    }

    /// Whether it is done with a message of an identity.
    pub(crate) fn has(&self, identity: &Identity) -> bool
        ensures { result ≡ list_any (is_identity identity.now) self.now.messages }
    {
        self.messages.contains(identity)
    }
}
