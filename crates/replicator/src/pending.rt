//! What was sent and awaits a receipt.
ghost use Rattle.std.specs.Prelude.{◌≡◌, ◌<◌, ◌≤◌, ◌+◌, [], ◌∷◌, ◌++◌, length, ℕ, None, IfOk, IfErr, OnOk};
ghost use Rattle.std.specs.List.{All};
ghost use Rattle.geo_base.specs.declared.replicator.Pending.{Pending};
ghost use Rattle.geo_base.specs.Ascending.{IsGap, IsHere};
ghost use Rattle.geo_base.specs.Replicator.{pending_index, without_number};
ghost use Rattle.replicator.specs.Sending.{number_of};

use geo_base::Pending;
use std::alloc::{AllocError, Global};
use std::collections::VecDeque;
use std::marker::Model;

/// Entries that await a receipt, ascending by number. One is found by binary search, and taking it out moves at most those on
/// the shorter side of it. Contracts see beside them how many more find room.
#[derive(Drop)]
pub(crate) struct PendingTable {
    items: VecDeque<Pending>,
}

impl Model for PendingTable {
    ghost use Rattle.std.specs.Prelude.{◌-◌};
    ghost use Rattle.std.specs.VecDeque.{deque_len, deque_capacity};
    ghost use Rattle.geo_base.specs.Ascending.{IsAscending};
    ghost use Rattle.replicator.specs.Sending.{PendingEntries, number_of};

    ghost Value = { PendingEntries };

    ghost view = { λ t. record { items = t.items.items; spare = deque_capacity t.items - deque_len t.items } };

    ghost invariant = { λ t. IsAscending number_of t.items.items };
}

impl PendingTable {
    /// Nothing is awaited; takes no memory.
    pub(crate) fn new(alloc: Global) -> PendingTable
        ensures { result.items ≡ [] }
    {
        PendingTable {
            items: VecDeque::new(alloc),
        }
    }

    /// Room for `n` more; unchanged where memory is wanting.
    pub(crate) fn reserve(&mut self, n: usize) -> Result<(), AllocError>
        ensures items { self.new.items ≡ self.old.items }
        ensures ok { OnOk result (n ≤ self.new.spare) }
        ensures more { self.old.spare ≤ self.new.spare }
    {
        self.items.reserve(n)
    }

    /// How many receipts are awaited.
    pub(crate) fn len(&self) -> usize
        ensures len { result ≡ length self.now.items }
        ensures once { (n : ℕ) → pending_index (without_number self.now.items n) n ≡ None }
    {
        self.items.len()
    }

    /// The index that was sent under a number.
    pub(crate) fn index_of(&self, number: u64) -> Option<u64>
        ensures { result ≡ pending_index self.now.items number }
    {
        match self.search(number) {
            Ok(at) => Some(self.items[at].index),
            Err(_) => None,
        }
    }

    /// One more is sent, under a number above those of the others.
    pub(crate) fn push(&mut self, sent: Pending)
        requires room { 0 < self.old.spare }
        requires above { All (λ (p : Pending). p.number < sent.number) self.old.items }
        ensures items { self.new.items ≡ self.old.items ++ sent ∷ [] }
        ensures spare { self.old.spare ≤ self.new.spare + 1 }
    {
        self.items.push_back_reserved(sent);
    }

    /// A number is taken out, if it is here.
    pub(crate) fn remove(&mut self, number: u64)
        ensures items { self.new.items ≡ without_number self.old.items number }
        ensures spare { self.old.spare ≤ self.new.spare }
    {
        if let Ok(at) = self.search(number) {
            self.items.remove(at);
        }
    }

    /// Nothing is awaited.
    pub(crate) fn clear(&mut self)
        ensures items { self.new.items ≡ [] }
        ensures spare { self.old.spare ≤ self.new.spare }
    {
        self.items.clear();
    }

    /// The place of a number, or, as `Err`, the place where it would stand.
    fn search(&self, number: u64) -> Result<usize, usize>
        ensures here { IfOk result (λ at. IsHere Pending number_of self.now.items number at) }
        ensures gap { IfErr result (λ at. IsGap Pending number_of self.now.items number at) }
    {
        let at = self.items.partition_point(|sent| sent.number < number);
        if at < self.items.len() && self.items[at].number == number {
            return Ok(at);
        }
        Err(at)
    }
}
