//! The replicators of a broker, one for each cluster; the own one is unused.
ghost use Rattle.std.specs.Prelude.{◌≡◌, ◌<◌, ◌≤◌, ◌+◌, ◌^◌, length, map, slice_set, slice_index_or, replicate, IfOk, OnErr, OnOk};
ghost use Rattle.geo_base.specs.Replicator.{new_replicator, replicator_restarted};
ghost use Rattle.broker_state.specs.Replicators.{AllHaveRoom, AreOf, StepFits, ends_of, ends_to, room_needed, row_restarted, replicators_of, stepped};

use crate::replicator_row::{ReplicatorRow, ReplicatorStep};
use geo_base::Memory;
use std::alloc::Global;
use std::marker::Model;

/// How many more steps find room at each replicator than were asked for, so that most calls of [`ReplicatorTable::reserve`] go over no replicator.
/// With what an event asks for it stays below what a short cursor takes without a block of its own (own).
const AHEAD: usize = 16;

/// The replicators of the cluster `own`, by the cluster that they send to. `room` is how many more steps that take a place were asked for, `spare` how many find room at each.
#[derive(Drop)]
pub struct ReplicatorTable {
    own: u32,
    pub(crate) replicators: Vec<ReplicatorRow>,
    room: usize,
    spare: usize,
}

impl Model for ReplicatorTable {
    ghost use Rattle.broker_state.specs.Replicators.{ReplicatorsView, TableHolds, replicators_of};

    ghost Value = { ReplicatorsView };

    ghost view = { λ t. record { own = t.own; replicators = replicators_of t.replicators.items; room = t.room } };

    ghost invariant = { λ t. TableHolds t.own t.room t.spare t.replicators.items };
}

impl ReplicatorTable {
    /// New replicators of cluster `own`, one of so many.
    #[tactic(auto, using(crate::proofs::ReplicatorTables::ends_none))]
    pub fn new(alloc: Global, own: u32, clusters: u32) -> Result<ReplicatorTable, Memory>
        ensures { IfOk result (λ t. t ≡ record { own = own; replicators = replicate clusters new_replicator; room = 0 }) }
    {
        let mut replicators = Vec::with_capacity(alloc, clusters as usize)?;
        for remote in 0..clusters {
            replicators.push_reserved(ReplicatorRow::new(alloc, own, remote));
        }
        Ok(ReplicatorTable::from_vec(own, replicators))
    }

    /// The replicators of cluster `own` that a vector has, in order; takes no memory.
    pub fn from_vec(own: u32, replicators: Vec<ReplicatorRow>) -> ReplicatorTable
        requires { AreOf own (ends_of replicators.items) }
        ensures { result ≡ record { own = own; replicators = replicators_of replicators.items; room = 0 } }
    {
        ReplicatorTable {
            own,
            replicators,
            room: 0,
            spare: 0,
        }
    }

    /// The replicator to a cluster.
    #[tactic(auto, using(crate::proofs::ReplicatorTables::ends_at))]
    pub fn at(&self, remote: u32) -> &ReplicatorRow
        requires { remote < length self.now.replicators }
        ensures replicator { result.now.replicator ≡ slice_index_or self.now.replicators remote new_replicator }
        ensures ends { result.now.ends ≡ ends_to self.now.own remote }
    {
        &self.replicators[remote as usize]
    }

    /// How many replicators there are.
    pub fn len(&self) -> usize
        ensures { result ≡ length self.now.replicators }
    {
        self.replicators.len()
    }

    /// Makes room for so many more steps of each replicator; for none where memory is wanting.
    #[tactic(auto, using(crate::proofs::ReplicatorTables::same_ends))]
    pub fn reserve(&mut self, room: usize) -> Result<(), Memory>
        ensures same { self.new.replicators ≡ self.old.replicators }
        ensures own { self.new.own ≡ self.old.own }
        ensures ok { OnOk result (self.new.room ≡ room) }
        ensures err { OnErr result (self.new.room ≡ 0) }
    {
        self.room = 0;
        if self.spare < room {
            self.spare = 0;
            let spare = room.saturating_add(AHEAD);
            reserve_each(self.replicators.as_mut_slice(), spare)?;
            self.spare = spare;
        }
        self.room = room;
        Ok(())
    }

    /// Does one step of the replicator to a cluster. It takes no memory.
    #[tactic(auto, using(crate::proofs::ReplicatorTables::ends_set))]
    pub fn step(&mut self, remote: u32, step: ReplicatorStep)
        requires remote { remote < length self.old.replicators }
        requires room { room_needed step ≤ self.old.room }
        requires fits { StepFits step (slice_index_or self.old.replicators remote new_replicator) }
        ensures replicators { self.new.replicators ≡ slice_set self.old.replicators remote (stepped step (slice_index_or self.old.replicators remote new_replicator)) }
        ensures own { self.new.own ≡ self.old.own }
        ensures room { self.new.room + room_needed step ≡ self.old.room }
    {
        self.replicators[remote as usize].step(step);
        let places = places(step);
        self.room -= places;
        self.spare -= places;
    }

    /// A restart: what is in memory is lost.
    pub fn restart(&mut self)
        ensures replicators { self.new.replicators ≡ map replicator_restarted self.old.replicators }
        ensures own { self.new.own ≡ self.old.own }
        ensures room { self.new.room ≡ self.old.room }
    {
        restart_each(self.replicators.as_mut_slice());
    }
}

/// How many places a step takes.
fn places(step: ReplicatorStep) -> usize
    ensures { result ≡ room_needed step }
{
    match step {
        ReplicatorStep::Acknowledge(_) | ReplicatorStep::Pend(_) => 1,
        ReplicatorStep::Session(_)
        | ReplicatorStep::Begin
        | ReplicatorStep::Opened
        | ReplicatorStep::ReadTo(_)
        | ReplicatorStep::Unpend(_) => 0,
    }
}

/// Makes room in each replicator.
fn reserve_each(replicators: &mut [ReplicatorRow], room: usize) -> Result<(), Memory>
    ensures same { replicators_of replicators.new ≡ replicators_of replicators.old }
    ensures ends { ends_of replicators.new ≡ ends_of replicators.old }
    ensures ok { OnOk result (AllHaveRoom room replicators.new) }
{
    for replicator in replicators {
        replicator.reserve(room)?;
    }
    Ok(())
}

/// Each replicator loses what is in memory.
fn restart_each(replicators: &mut [ReplicatorRow])
    ensures { replicators.new ≡ map row_restarted replicators.old }
{
    for replicator in replicators {
        replicator.restart();
    }
}
