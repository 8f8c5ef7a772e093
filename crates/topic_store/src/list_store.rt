//! The plain store: a list of entries and a list of the ledgers' lengths.
ghost use Rattle.std.specs.Prelude.{◌≡◌, ◌<◌, ◌≤◌, ◌+◌, ◌^◌, [], ◌∷◌, length, vec_len, vec_capacity, IfOk};
ghost use Rattle.std.specs.List.{sum};
ghost use Rattle.geo_base.specs.Topic.{grown, index_of, next_position, position_of};

use crate::entry_of::entry_of;
use geo_base::{Entry, EntryStore, Memory, Position};
use std::alloc::Global;
use std::marker::Model;

/// A topic's entries and its ledgers' lengths, searched from the first on. `TopicLedger` answers the same, faster; this one is for
/// tests and small topics.
#[derive(Drop)]
pub struct ListStore {
    entries: Vec<Entry>,
    ledgers: Vec<u64>,
    per_ledger: u64,
    spare: usize,
}

impl Model for ListStore {
    ghost use Rattle.std.specs.Prelude.{vec_len, vec_capacity};
    ghost use Rattle.topic_store.specs.Store.{Store, StoreHolds};

    ghost Value = { Store };

    ghost view = { λ s. record { entries = s.entries.items; ledgers = s.ledgers.items; per_ledger = s.per_ledger; spare = s.spare } };

    ghost invariant = { λ s. StoreHolds s.spare (vec_len s.entries) (vec_capacity s.entries) (vec_len s.ledgers) (vec_capacity s.ledgers) s.ledgers.items };
}

impl ListStore {
    /// No entry, and ledger 0 open.
    pub fn new(alloc: Global, per_ledger: u64) -> Result<ListStore, Memory>
        requires { 0 < per_ledger }
        ensures { IfOk result (λ s. s ≡ record { entries = []; ledgers = 0 ∷ []; per_ledger = per_ledger; spare = 0 }) }
    {
        let mut ledgers = Vec::new(alloc);
        ledgers.reserve(1)?;
        ledgers.push_reserved(0);
        Ok(ListStore {
            entries: Vec::new(alloc),
            ledgers,
            per_ledger,
            spare: 0,
        })
    }
}

impl EntryStore for ListStore {
    ghost entries = { λ s. s.entries };

    ghost ledgers = { λ s. s.ledgers };

    ghost per_ledger = { λ s. s.per_ledger };

    ghost spare = { λ s. s.spare };

    fn reserve(&mut self, n: usize) -> Result<(), Memory> {
        self.entries.reserve(n)?;
        self.ledgers.reserve(n)?;
        self.spare = self.spare.max(n);
        Ok(())
    }

    #[tactic(auto, using(crate::proofs::Ledgers::sum_grown))]
    fn append(&mut self, entry: Entry) -> Position {
        let at = next_position(self.per_ledger, self.ledgers.as_slice());
        self.spare -= 1;
        grow(self.per_ledger, &mut self.ledgers);
        self.entries.push_reserved(entry);
        at
    }

    #[tactic(auto, using(crate::proofs::Ledgers::sum_opened))]
    fn open_ledger(&mut self) -> u64 {
        let number = self.ledgers.len() as u64;
        self.spare -= 1;
        self.ledgers.push_reserved(0);
        number
    }

    fn next(&self) -> Position {
        next_position(self.per_ledger, self.ledgers.as_slice())
    }

    fn ledgers(&self) -> u64 {
        self.ledgers.len() as u64
    }

    fn len(&self) -> usize {
        self.entries.len()
    }

    fn last(&self) -> Option<Position> {
        position_of(
            self.ledgers.as_slice(),
            (self.entries.len() as u64).saturating_sub(1),
        )
    }

    fn get(&self, i: usize) -> Option<&Entry> {
        self.entries.get(i)
    }

    fn position_of(&self, i: usize) -> Option<Position> {
        position_of(self.ledgers.as_slice(), i as u64)
    }

    fn index_of(&self, p: Position) -> Option<usize> {
        match index_of(self.ledgers.as_slice(), &p) {
            Some(index) => Some(index as usize),
            None => None,
        }
    }
}

/// Where the next entry goes.
fn next_position(per_ledger: u64, ledgers: &[u64]) -> Position
    requires { 0 < length ledgers.now }
    ensures { result ≡ next_position per_ledger ledgers.now }
{
    let last = ledgers[ledgers.len() - 1];
    if last < per_ledger {
        Position {
            ledger: ledgers.len() as u64 - 1,
            entry: last,
        }
    } else {
        Position {
            ledger: ledgers.len() as u64,
            entry: 0,
        }
    }
}

/// Counts one more entry in the last ledger, or in a new one where that is full.
fn grow(per_ledger: u64, ledgers: &mut Vec<u64>)
    requires opened { 0 < vec_len ledgers.old }
    requires room { vec_len ledgers.old < vec_capacity ledgers.old }
    ensures items { ledgers.new.items ≡ grown per_ledger ledgers.old.items }
    ensures opened { 0 < vec_len ledgers.new }
    ensures len { vec_len ledgers.new ≤ vec_len ledgers.old + 1 }
    ensures capacity { vec_capacity ledgers.old ≤ vec_capacity ledgers.new }
{
    let last = ledgers.len() - 1;
    if ledgers[last] < per_ledger {
        ledgers[last] += 1;
    } else {
        ledgers.push_reserved(1);
    }
}

/// The position of the entry at an index.
fn position_of(ledgers: &[u64], index: u64) -> Option<Position>
    ensures { result ≡ position_of ledgers.now index }
{
    let mut left = index;
    for ledger in 0..ledgers.len() {
        if left < ledgers[ledger] {
            return Some(Position {
                ledger: ledger as u64,
                entry: left,
            });
        }
        left -= ledgers[ledger];
    }
    None
}

/// The index that a position counts to.
fn index_of(ledgers: &[u64], position: &Position) -> Option<u64>
    requires { sum ledgers.now < 2 ^ 64 }
    ensures { result ≡ index_of ledgers.now position.now }
{
    let mut before = 0;
    for ledger in 0..ledgers.len() {
        if ledger as u64 == position.ledger {
            return entry_of(before, ledgers[ledger], position.entry);
        }
        before += ledgers[ledger];
    }
    None
}
