//! The durable parts of a broker's replicators.
ghost use Rattle.std.specs.Prelude.{◌≡◌, length, replicate, slice_set, slice_index_or, IfOk};
ghost use Rattle.geo_base.specs.Replicator.{Replicator, new_replicator};
ghost use Rattle.durable_parts.specs.Parts.{replicators_of};

use crate::durable::DurableReplicator;
use cursor_acks::Cursor;
use geo_base::Memory;
use std::alloc::Global;
use std::marker::Model;

/// Replicators by the number of the cluster that they send to, the own one unused. Contracts see the machine's replicators, with
/// nothing in memory.
#[derive(Drop)]
pub struct DurableReplicators {
    replicators: Vec<DurableReplicator>,
}

impl Model for DurableReplicators {
    ghost use Rattle.std.specs.Prelude.{List};
    ghost use Rattle.geo_base.specs.Replicator.{Replicator};
    ghost use Rattle.durable_parts.specs.Parts.{replicators_of};

    ghost Value = { List Replicator };

    ghost view = { λ s. replicators_of s.replicators.items };
}

impl DurableReplicators {
    /// New replicators to so many clusters.
    pub fn new(alloc: Global, clusters: u32) -> Result<DurableReplicators, Memory>
        ensures { IfOk result (λ s. s ≡ replicate clusters new_replicator) }
    {
        let mut replicators = Vec::with_capacity(alloc, clusters as usize)?;
        for _cluster in 0..clusters {
            replicators.push_reserved(DurableReplicator::new(alloc));
        }
        Ok(DurableReplicators { replicators })
    }

    /// The replicators of a vector, in order; takes no memory.
    pub fn from_vec(replicators: Vec<DurableReplicator>) -> DurableReplicators
        ensures { result ≡ replicators_of replicators.items }
    {
        DurableReplicators { replicators }
    }

    /// The replicators as a vector, in order; takes no memory.
    pub fn into_vec(self) -> Vec<DurableReplicator>
        ensures { replicators_of result.items ≡ self }
    {
        self.replicators
    }

    /// The replicators in order.
    pub fn as_slice(&self) -> &[DurableReplicator]
        ensures { replicators_of result.now ≡ self.now }
    {
        self.replicators.as_slice()
    }

    /// The replicator to a cluster has another cursor; no change where there is none.
    #[tactic(auto, using(crate::proofs::Mapped::set_replicator, crate::proofs::Mapped::replicator_there, crate::proofs::Mapped::many_replicators, std::proofs::lemmas::List::set_past))]
    pub(crate) fn set_cursor(&mut self, remote: u32, cursor: Cursor)
        ensures { self.new ≡ slice_set self.old remote (record (slice_index_or self.old remote new_replicator) { cursor = cursor.indexes }) }
    {
        let place = remote as usize;
        if place < self.replicators.len() {
            self.replicators[place].cursor = cursor;
        }
    }

    /// The replicator to a cluster has another session; no change where there is none.
    #[tactic(auto, using(crate::proofs::Mapped::set_replicator, crate::proofs::Mapped::replicator_there, crate::proofs::Mapped::many_replicators, std::proofs::lemmas::List::set_past))]
    pub(crate) fn set_session(&mut self, remote: u32, session: u64)
        ensures { self.new ≡ slice_set self.old remote (record (slice_index_or self.old remote new_replicator) { session = session }) }
    {
        let place = remote as usize;
        if place < self.replicators.len() {
            self.replicators[place].session = session;
        }
    }
}
