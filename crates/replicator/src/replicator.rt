//! The sending end of a forward link: its value, and the steps that change it.
ghost use Rattle.std.specs.Prelude.{◌≡◌, ◌<◌, ◌≤◌, ◌+◌, ◌-◌, ◌^◌, [], length, ℕ, None, OnOk, OnErr, IfSome};
ghost use Rattle.geo_base.specs.declared.replicator.ReplicatorState.TheVariants as replicator_state;
ghost use Rattle.geo_base.specs.Replicator.{new_replicator, pending_index, replicator_reset, replicator_restarted, replicator_sent, without_number};
ghost use Rattle.replicator.specs.Sending.{replicator_with, sending_of};

use crate::pending::PendingTable;
use geo_base::{Memory, Pending, ReplicatorState};
use std::alloc::Global;
use std::marker::Model;

/// The session in which a cluster sends its topic to another one, where reading goes on, and what awaits a receipt. The cursor
/// over the topic is its owner's, who keeps it durably, as the session's number.
///
/// Contracts see it as the machine has it, and beside it how many more entries may await a receipt without memory.
#[derive(Drop)]
pub struct Replicator {
    own: u32,
    remote: u32,
    session: u64,
    state: ReplicatorState,
    read_index: u64,
    next: u64,
    pending: PendingTable,
    room: usize,
}

impl Model for Replicator {
    ghost use Rattle.replicator.specs.Sending.{ReplicatorView, ReplicatorHolds};

    ghost Value = { ReplicatorView };

    ghost view = { λ s. record {
      sending = record { session = s.session; state = s.state; read_index = s.read_index; next = s.next; pending = s.pending.items };
      own = s.own;
      remote = s.remote;
      room = s.room;
    } };

    ghost invariant = { λ s. ReplicatorHolds s.room s.next s.read_index s.pending };
}

impl Replicator {
    /// The replicator of cluster `own` to cluster `remote`, before its first session; takes no memory.
    pub fn new(alloc: Global, own: u32, remote: u32) -> Replicator
        ensures { result ≡ record { sending = sending_of new_replicator; own = own; remote = remote; room = 0 } }
    {
        Replicator {
            own,
            remote,
            session: 0,
            state: ReplicatorState::Closed,
            read_index: 0,
            next: 0,
            pending: PendingTable::new(alloc),
            room: 0,
        }
    }

    /// Makes room for `n` more entries that await a receipt. It is the one call that takes memory; unchanged where that is wanting.
    pub fn reserve(&mut self, n: usize) -> Result<(), Memory>
        ensures ok { OnOk result (self.new ≡ record self.old { room = n }) }
        ensures err { OnErr result (self.new ≡ self.old) }
    {
        self.pending.reserve(n)?;
        self.room = n;
        Ok(())
    }

    /// The number of the own cluster.
    pub(crate) fn own(&self) -> u32
        ensures { result ≡ self.now.own }
    {
        self.own
    }

    /// The number of the cluster to which entries are sent.
    pub(crate) fn remote(&self) -> u32
        ensures { result ≡ self.now.remote }
    {
        self.remote
    }

    /// The session's number; 0 before the first.
    pub fn session(&self) -> u64
        ensures { result ≡ self.now.sending.session }
    {
        self.session
    }

    /// Whether the session was begun, and whether the other side has opened it.
    pub fn state(&self) -> ReplicatorState
        ensures { result ≡ self.now.sending.state }
    {
        self.state
    }

    /// The index from which reading goes on.
    pub(crate) fn read_index(&self) -> u64
        ensures index { result ≡ self.now.sending.read_index }
        ensures next { self.now.sending.next ≤ result }
    {
        self.read_index
    }

    /// The number that the session's next entry gets, from 0.
    pub(crate) fn next(&self) -> u64
        ensures { result ≡ self.now.sending.next }
    {
        self.next
    }

    /// How many entries await a receipt. None of them has another one's number.
    pub fn pending_len(&self) -> usize
        ensures len { result ≡ length self.now.sending.pending }
        ensures once { (n : ℕ) → pending_index (without_number self.now.sending.pending n) n ≡ None }
    {
        self.pending.len()
    }

    /// The index that was sent under a number of this session and awaits its receipt.
    pub(crate) fn pending_index(&self, number: u64) -> Option<u64>
        ensures index { result ≡ pending_index self.now.sending.pending number }
        ensures fits { IfSome result (λ i. i + 1 < 2 ^ 64) }
    {
        self.pending.index_of(number)
    }

    /// The session has this number.
    pub fn set_session(&mut self, session: u64)
        ensures { self.new ≡ record self.old { sending = record self.old.sending { session = session } } }
    {
        self.session = session;
    }

    /// The session begins: everything that the cursor lacks is to be sent again, from number 0.
    pub fn begin(&mut self)
        ensures { self.new ≡ record self.old { sending = sending_of (replicator_reset (replicator_with [] self.old.sending)) } }
    {
        self.state = ReplicatorState::Opening;
        self.start_over();
    }

    /// The other side has opened the session.
    pub fn opened(&mut self)
        ensures { self.new ≡ record self.old { sending = record self.old.sending { state = replicator_state.Open } } }
    {
        self.state = ReplicatorState::Open;
    }

    /// The entry at an index was sent under the next number, and awaits its receipt. It takes one of room.
    pub fn pend(&mut self, index: u64)
        requires room { 0 < self.old.room }
        requires next { self.old.sending.next ≤ index }
        requires index { index + 1 < 2 ^ 64 }
        ensures { self.new ≡ record self.old { sending = sending_of (replicator_sent index (replicator_with [] self.old.sending)); room = self.old.room - 1 } }
    {
        self.room -= 1;
        self.pending.push(Pending {
            number: self.next,
            index,
        });
        self.read_index = index + 1;
        self.next += 1;
    }

    /// Reading goes on at an index.
    pub fn read_to(&mut self, index: u64)
        requires { self.old.sending.next ≤ index }
        ensures { self.new ≡ record self.old { sending = record self.old.sending { read_index = index } } }
    {
        self.read_index = index;
    }

    /// The receipt came for a number.
    pub fn unpend(&mut self, number: u64)
        ensures { self.new ≡ record self.old { sending = record self.old.sending { pending = without_number self.old.sending.pending number } } }
    {
        self.pending.remove(number);
    }

    /// The broker starts again: what is in memory is lost, the session's number is not.
    pub fn restart(&mut self)
        ensures { self.new ≡ record self.old { sending = sending_of (replicator_restarted (replicator_with [] self.old.sending)) } }
    {
        self.state = ReplicatorState::Closed;
        self.start_over();
    }

    /// Nothing is read, numbered or awaited.
    fn start_over(&mut self)
        ensures { self.new ≡ record self.old { sending = record self.old.sending { read_index = 0; next = 0; pending = [] } } }
    {
        self.read_index = 0;
        self.next = 0;
        self.pending.clear();
    }
}
