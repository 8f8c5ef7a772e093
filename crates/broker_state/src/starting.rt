//! A broker over a restart: what is durable of it, and what it is again.
ghost use Rattle.std.specs.Prelude.{◌≡◌, ◌++◌, ◌∷◌, ◌≤◌, ◌^◌, [], None, length, map, replicate, IfNone, IfOk, IfSome, OnOk};
ghost use Rattle.geo_base.specs.Replicator.{replicator_restarted};
ghost use Rattle.durable_parts.specs.Durable.{broker_of, durable_part};
ghost use Rattle.durable_parts.specs.Parts as durable;
ghost use Rattle.broker_state.specs.State.{no_room};
ghost use Rattle.broker_state.specs.Replicators.{AreOf, ends_of, replicators_of};

use crate::parts::Parts;
use crate::replicator_row::ReplicatorRow;
use crate::replicators::ReplicatorTable;
use crate::site::Site;
use crate::state::BrokerState;
use durable_parts::{Durable, DurableReplicator, DurableReplicators};
use geo_base::{Memory, cluster_number};
use std::alloc::Global;

impl BrokerState {
    /// What is durable.
    pub fn durable(&self, alloc: Global) -> Result<Durable, Memory>
        ensures broker { IfOk result (λ d. broker_of d ≡ durable_part self.now.broker) }
        ensures own { IfOk result (λ d. d.own ≡ self.now.site.own) }
        ensures per_ledger { IfOk result (λ d. d.store.per_ledger ≡ self.now.site.per_ledger) }
    {
        Ok(Durable {
            own: self.site.own(),
            store: self.store.copy(alloc)?,
            subs: self.subs.durable(alloc)?,
            replicators: self.replicators.durable(alloc)?,
        })
    }

    /// The broker of a site as it is after a restart, with no session of so many clients.
    pub fn from_durable(
        alloc: Global,
        site: Site,
        durable: Durable,
        clients: usize,
    ) -> Result<BrokerState, Memory>
        requires own { durable.own ≡ site.own }
        requires per_ledger { durable.store.per_ledger ≡ site.per_ledger }
        requires replicators { length durable.replicators ≡ length site.clusters }
        ensures broker { IfOk result (λ b. b.broker ≡ record (broker_of durable) { receivers = replicate (length durable.replicators) None; sessions = replicate clients None }) }
        ensures site { IfOk result (λ b. b.site ≡ site) }
    {
        let parts = Parts::restored(alloc, &site, durable, clients);
        match parts {
            Ok(parts) => Ok(BrokerState::of_parts(site, parts)),
            Err(fault) => {
                drop(site);
                Err(fault)
            }
        }
    }
}

impl ReplicatorTable {
    /// What is durable of the replicators.
    pub fn durable(&self, alloc: Global) -> Result<DurableReplicators, Memory>
        ensures { IfOk result (λ d. d ≡ map replicator_restarted self.now.replicators) }
    {
        Ok(DurableReplicators::from_vec(durable_replicators(alloc, self.replicators.as_slice())?))
    }

    /// The replicators of cluster `own` as they are after a restart, from what is durable of them.
    pub fn restored(
        alloc: Global,
        own: u32,
        parts: DurableReplicators,
    ) -> Result<ReplicatorTable, Memory>
        ensures replicators { IfOk result (λ t. t.replicators ≡ parts) }
        ensures own { IfOk result (λ t. t.own ≡ own) }
    {
        let rows = restored_replicators(alloc, own, parts.into_vec())?;
        Ok(ReplicatorTable::from_vec(own, rows))
    }
}

impl ReplicatorRow {
    /// What is durable.
    pub fn durable(&self, alloc: Global) -> Result<DurableReplicator, Memory>
        ensures { IfOk result (λ d. durable.replicator_of d ≡ replicator_restarted self.now.replicator) }
    {
        Ok(DurableReplicator {
            session: self.replicator().session(),
            cursor: self.cursor().copy(alloc)?,
        })
    }
}

fn durable_replicators(
    alloc: Global,
    rows: &[ReplicatorRow],
) -> Result<Vec<DurableReplicator>, Memory>
    ensures { IfOk result (λ ds. durable.replicators_of ds.items ≡ map replicator_restarted (replicators_of rows.now)) }
{
    let mut parts = Vec::new(alloc);
    for row in rows {
        add(&mut parts, row.durable(alloc)?)?;
    }
    Ok(parts)
}

/// A replicator's cluster is its place; a cluster's number has 32 bits.
fn restored_replicators(
    alloc: Global,
    own: u32,
    parts: Vec<DurableReplicator>,
) -> Result<Vec<ReplicatorRow>, Memory>
    ensures replicators { IfOk result (λ rows. replicators_of rows.items ≡ durable.replicators_of parts.items) }
    ensures ends { IfOk result (λ rows. AreOf own (ends_of rows.items)) }
{
    let mut rows = Vec::new(alloc);
    match restore_each(alloc, own, parts, &mut rows) {
        Ok(()) => Ok(rows),
        Err(fault) => {
            drop(rows);
            Err(fault)
        }
    }
}

/// Makes the replicators anew, where there is none yet.
#[tactic(auto, using(crate::proofs::ReplicatorTables::ends_none, crate::proofs::ReplicatorTables::ends_pushed))]
fn restore_each(
    alloc: Global,
    own: u32,
    parts: Vec<DurableReplicator>,
    rows: &mut Vec<ReplicatorRow>,
) -> Result<(), Memory>
    requires { rows.old.items ≡ [] }
    ensures replicators { OnOk result (replicators_of rows.new.items ≡ durable.replicators_of parts.items) }
    ensures ends { OnOk result (AreOf own (ends_of rows.new.items)) }
{
    for part in parts {
        let Some(remote) = cluster_number(rows.len()) else {
            return Err(Memory);
        };
        add(
            rows,
            ReplicatorRow::restored(alloc, own, remote, part.session, part.cursor),
        )?;
    }
    Ok(())
}

fn add<T: Drop>(items: &mut Vec<T>, item: T) -> Result<(), Memory>
    ensures { OnOk result (items.new.items ≡ items.old.items ++ item ∷ []) }
{
    items.push(item)?;
    Ok(())
}
