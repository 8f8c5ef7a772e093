//! What keeps the entries of a topic.
ghost use Rattle.std.specs.Prelude.{◌≡◌, ◌<◌, ◌≤◌, ◌+◌, ◌-◌, ◌∷◌, ◌++◌, [], ℕ, List, length, slice_get, OnOk};
ghost use Rattle.std.specs.List.{sum};
ghost use Rattle.std.specs.Option.{option_copied};
ghost use Rattle.geo_base.specs.Topic.{grown, index_of, next_position, position_of};

use crate::entry::Entry;
use crate::memory::Memory;
use crate::position::Position;

/// Entries in order, in ledgers: contracts see the list of the entries, the ledgers' lengths, how many entries a ledger takes,
/// and how many more entries or ledgers need no memory.
pub trait EntryStore {
    ghost use Rattle.geo_base.specs.declared.entry.Entry.{Entry};

    /// The entries in order.
    ghost entries: { Self → List Entry };

    /// The ledgers' lengths.
    ghost ledgers: { Self → List ℕ };

    /// How many entries a ledger takes.
    ghost per_ledger: { Self → ℕ };

    /// How many more entries or ledgers need no memory.
    ghost spare: { Self → ℕ };

    /// Makes the spare at least `n`; unchanged where memory is wanting. It is the one call here that takes memory.
    fn reserve(&mut self, n: usize) -> Result<(), Memory>
        ensures entries { entries self.new ≡ entries self.old }
        ensures ledgers { ledgers self.new ≡ ledgers self.old }
        ensures per_ledger { per_ledger self.new ≡ per_ledger self.old }
        ensures ok { OnOk result (n ≤ spare self.new) }
        ensures more { spare self.old ≤ spare self.new };

    /// One more entry, at the position that is answered.
    fn append(&mut self, entry: Entry) -> Position
        requires { 0 < spare self.old }
        ensures position { result ≡ next_position (per_ledger self.old) (ledgers self.old) }
        ensures entries { entries self.new ≡ entries self.old ++ entry ∷ [] }
        ensures ledgers { ledgers self.new ≡ grown (per_ledger self.old) (ledgers self.old) }
        ensures per_ledger { per_ledger self.new ≡ per_ledger self.old }
        ensures spare { spare self.old ≤ spare self.new + 1 };

    /// Opens the next ledger, whose number is answered.
    fn open_ledger(&mut self) -> u64
        requires { 0 < spare self.old }
        ensures number { result ≡ length (ledgers self.old) }
        ensures entries { entries self.new ≡ entries self.old }
        ensures ledgers { ledgers self.new ≡ ledgers self.old ++ 0 ∷ [] }
        ensures per_ledger { per_ledger self.new ≡ per_ledger self.old }
        ensures spare { spare self.old ≤ spare self.new + 1 };

    /// The position that the next entry gets.
    fn next(&self) -> Position
        ensures { result ≡ next_position (per_ledger self.now) (ledgers self.now) };

    /// How many ledgers were opened, empty ones included.
    fn ledgers(&self) -> u64
        ensures { result ≡ length (ledgers self.now) };

    /// How many entries there are: as many as the ledgers have together.
    fn len(&self) -> usize
        ensures len { result ≡ length (entries self.now) }
        ensures counted { sum (ledgers self.now) ≡ length (entries self.now) };

    /// The position of the last entry; `None` exactly where there is none.
    fn last(&self) -> Option<Position>
        ensures { result ≡ position_of (ledgers self.now) (length (entries self.now) - 1) };

    /// The entry at an index; `None` exactly where nothing stands there.
    fn get(&self, i: usize) -> Option<&Entry>
        ensures { option_copied result ≡ slice_get (entries self.now) i };

    /// The position of an index; `None` exactly where nothing stands there.
    fn position_of(&self, i: usize) -> Option<Position>
        ensures { result ≡ position_of (ledgers self.now) i };

    /// The index that a position counts to; `None` exactly where nothing stands there.
    fn index_of(&self, p: Position) -> Option<usize>
        ensures { result ≡ index_of (ledgers self.now) p };
}
