//! A replicator with its cursor.
ghost use Rattle.std.specs.Prelude.{◌≡◌, ◌<◌, ◌≤◌, ◌+◌, ◌^◌, IfSome, OnErr, OnOk};
ghost use Rattle.geo_base.specs.Cursor.{with_index};
ghost use Rattle.geo_base.specs.Replicator.{new_replicator, replicator_restarted};
ghost use Rattle.replicator.specs.Sending.{sending_of};
ghost use Rattle.broker_state.specs.Replicators.{StepFits, ends_to, room_needed, stepped};

use cursor_acks::Cursor;
use geo_base::Memory;
use replicator::Replicator;
use std::alloc::Global;
use std::marker::Model;

/// What an event does to a replicator: a durable write of its cursor or of its session's number, or a change in memory.
#[derive(Clone, Copy, Drop)]
pub enum ReplicatorStep {
    /// One more index is acknowledged.
    Acknowledge(u64),
    /// The session has another number.
    Session(u64),
    /// The session begins, and the other side has not opened it yet.
    Begin,
    /// The other side has opened it.
    Opened,
    /// The entry at an index was sent, and its receipt is awaited.
    Pend(u64),
    /// Reading goes on at an index.
    ReadTo(u64),
    /// The receipt came for a number.
    Unpend(u64),
}

/// The replicator of a cluster to another one, and what that one has acknowledged. `room` is how many more steps find memory that take a place:
/// an index that is acknowledged, or one that is sent.
#[derive(Drop)]
pub struct ReplicatorRow {
    cursor: Cursor,
    replicator: Replicator,
    room: usize,
}

impl Model for ReplicatorRow {
    ghost use Rattle.replicator.specs.Sending.{replicator_with};
    ghost use Rattle.broker_state.specs.Replicators.{ReplicatorRowView, RowHolds, ends_to};

    ghost Value = { ReplicatorRowView };

    ghost view = { λ r. record { replicator = replicator_with r.cursor.indexes r.replicator.sending; ends = ends_to r.replicator.own r.replicator.remote; room = r.room } };

    ghost invariant = { λ r. RowHolds r.room r.cursor.spare r.replicator.room };
}

impl ReplicatorRow {
    /// The replicator of cluster `own` to cluster `remote`, before its first session; takes no memory.
    pub fn new(alloc: Global, own: u32, remote: u32) -> ReplicatorRow
        ensures { result ≡ record { replicator = new_replicator; ends = ends_to own remote; room = 0 } }
    {
        ReplicatorRow {
            cursor: Cursor::none(alloc),
            replicator: Replicator::new(alloc, own, remote),
            room: 0,
        }
    }

    /// The replicator of cluster `own` to cluster `remote` as it is after a restart, from the number of its session and its cursor.
    pub fn restored(
        alloc: Global,
        own: u32,
        remote: u32,
        session: u64,
        cursor: Cursor,
    ) -> ReplicatorRow
        ensures { result ≡ record { replicator = replicator_restarted (record new_replicator { session = session; cursor = cursor.indexes }); ends = ends_to own remote; room = 0 } }
    {
        let mut replicator = Replicator::new(alloc, own, remote);
        replicator.set_session(session);
        ReplicatorRow {
            cursor,
            replicator,
            room: 0,
        }
    }

    /// Makes room for so many more steps; for none where memory is wanting.
    pub fn reserve(&mut self, room: usize) -> Result<(), Memory>
        ensures same { self.new.replicator ≡ self.old.replicator }
        ensures ends { self.new.ends ≡ self.old.ends }
        ensures ok { OnOk result (self.new.room ≡ room) }
        ensures err { OnErr result (self.new.room ≡ 0) }
    {
        self.room = 0;
        if self.cursor.spare() < room {
            self.cursor.reserve(room)?;
        }
        self.replicator.reserve(room)?;
        self.room = room;
        Ok(())
    }

    /// What the other cluster has acknowledged.
    pub fn cursor(&self) -> &Cursor
        ensures { result.now.indexes ≡ self.now.replicator.cursor }
    {
        &self.cursor
    }

    /// The session, where reading goes on, and what awaits a receipt.
    pub fn replicator(&self) -> &Replicator
        ensures sending { result.now.sending ≡ sending_of self.now.replicator }
        ensures own { result.now.own ≡ self.now.ends.own }
        ensures remote { result.now.remote ≡ self.now.ends.remote }
    {
        &self.replicator
    }

    /// Does one step. It takes no memory.
    pub fn step(&mut self, step: ReplicatorStep)
        requires room { room_needed step ≤ self.old.room }
        requires fits { StepFits step self.old.replicator }
        ensures replicator { self.new.replicator ≡ stepped step self.old.replicator }
        ensures ends { self.new.ends ≡ self.old.ends }
        ensures room { self.new.room + room_needed step ≡ self.old.room }
    {
        match step {
            ReplicatorStep::Acknowledge(index) => {
                self.room -= 1;
                acknowledge(&mut self.cursor, index);
            }
            ReplicatorStep::Session(session) => self.replicator.set_session(session),
            ReplicatorStep::Begin => self.replicator.begin(),
            ReplicatorStep::Opened => self.replicator.opened(),
            ReplicatorStep::Pend(index) => {
                self.room -= 1;
                self.replicator.pend(index);
            }
            ReplicatorStep::ReadTo(index) => self.replicator.read_to(index),
            ReplicatorStep::Unpend(number) => self.replicator.unpend(number),
        }
    }

    /// A restart: what is in memory is lost.
    pub fn restart(&mut self)
        ensures { self.new ≡ record self.old { replicator = replicator_restarted self.old.replicator } }
    {
        self.replicator.restart();
    }
}

/// Acknowledges one more index. A replicator does not know the topic's length: an index that it is told of has an entry.
fn acknowledge(cursor: &mut Cursor, index: u64)
    requires room { 0 < cursor.old.spare }
    requires fits { index + 1 < 2 ^ 64 }
    ensures indexes { cursor.new.indexes ≡ with_index cursor.old.indexes index }
    ensures spare { cursor.old.spare ≤ cursor.new.spare + 1 }
{
    match cursor.ack_one(index, u64::MAX) {
        Ok(()) => {}
        Err(_) => unreachable!(),
    }
}
