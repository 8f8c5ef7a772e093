//! A cursor.
ghost use Rattle.std.specs.Prelude.{◌≡◌, ◌≤◌, ◌<◌, ◌+◌, ◌-◌, ℕ, [], true, false, IfOk, OnOk, IfErr, OnErr};
ghost use Rattle.geo_base.specs.Cursor.{below, has, mark, next_open, with_index, with_indexes};
ghost use Rattle.cursor_acks.specs.Acks.{IsFirstOpen, are_free, from_to, if_below, stands_alone};
ghost use Rattle.cursor_acks.specs.Ranges.{AreRangesOf, IsToldByRanges};

use crate::list::RangeList;
use crate::range::IndexRange;
use geo_base::Memory;
use std::alloc::Global;
use std::marker::Model;
use thiserror::Error;

/// An index past a topic's end: no entry stands there to be acknowledged, or a seek would begin after the end.
#[derive(Clone, Copy, Debug, Drop, PartialEq, Eq, Error)]
#[error("index {index} is past the end of {len} entries")]
pub struct PastEnd {
    pub index: u64,
    pub len: u64,
}

/// The acknowledged indexes of a topic (Pulsar manual: mark-delete and individual acknowledgements). Contracts see the
/// ascending list of the indexes, as the written machine has it, and beside it how many more acknowledgements need no
/// memory.
#[derive(Drop)]
pub struct Cursor {
    ranges: RangeList,
}

impl Model for Cursor {
    ghost use Rattle.cursor_acks.specs.Acks.{AckSet};
    ghost use Rattle.cursor_acks.specs.Ranges.{indexes_of};
    ghost use Rattle.cursor_acks.specs.RangeIndexes.{AreKept};

    ghost Value = { AckSet };

    ghost view = { λ c. record { indexes = indexes_of c.ranges.list; spare = c.ranges.spare } };

    ghost invariant = { λ c. AreKept c.ranges.list };
}

impl Cursor {
    /// Nothing is acknowledged: the cursor of a subscription made at Earliest. Takes no memory.
    pub fn none(alloc: Global) -> Cursor
        ensures { result.indexes ≡ [] }
    {
        Cursor {
            ranges: RangeList::new(alloc),
        }
    }

    /// All indexes below a length are acknowledged: the cursor of a subscription made at Latest.
    pub fn all(alloc: Global, len: u64) -> Result<Cursor, Memory>
        ensures { IfOk result (λ c. c.indexes ≡ below len) }
    {
        if len == 0 {
            return Ok(Cursor::none(alloc));
        }
        let range = IndexRange {
            first: 0,
            last: len - 1,
        };
        let ranges = RangeList::one(alloc, range)?;
        Ok(Cursor { ranges })
    }

    /// Makes the spare at least `n`. This and `copy` and `all` are the calls that take memory; unchanged where it is wanting.
    pub fn reserve(&mut self, n: usize) -> Result<(), Memory>
        ensures indexes { self.new.indexes ≡ self.old.indexes }
        ensures ok { OnOk result (n ≤ self.new.spare) }
        ensures more { self.old.spare ≤ self.new.spare }
        ensures err { OnErr result (self.new ≡ self.old) }
    {
        self.ranges.reserve(n)
    }

    /// Acknowledges one index of a topic of `len` entries; `PastEnd` exactly where `index >= len`, with no change. It needs
    /// a spare of at least 1, and may lower it by 1, only where neither the index nor a neighbour of it is acknowledged.
    pub fn ack_one(&mut self, index: u64, len: u64) -> Result<(), PastEnd>
        requires room { stands_alone self.old.indexes index ≡ true → 0 < self.old.spare }
        ensures ok { OnOk result (index < len) }
        ensures indexes { OnOk result (self.new.indexes ≡ with_index self.old.indexes index) }
        ensures spare { self.old.spare ≤ self.new.spare + 1 }
        ensures grown { stands_alone self.old.indexes index ≡ false → self.old.spare ≤ self.new.spare }
        ensures past_end { IfErr result (λ e. (len ≤ index) × (e ≡ record { index = index; len = len })) }
        ensures err { OnErr result (self.new ≡ self.old) }
    {
        test_below(index, len)?;
        self.ranges.add(index);
        Ok(())
    }

    /// Acknowledges all indexes up to one, itself included, of a topic of `len` entries; `PastEnd` exactly where
    /// `index >= len`, with no change. It needs a spare of at least 1, and lowers it by at most 1.
    pub fn ack_to(&mut self, index: u64, len: u64) -> Result<(), PastEnd>
        requires room { 0 < self.old.spare }
        ensures ok { OnOk result (index < len) }
        ensures indexes { OnOk result (self.new.indexes ≡ with_indexes self.old.indexes (below (index + 1))) }
        ensures spare { self.old.spare ≤ self.new.spare + 1 }
        ensures past_end { IfErr result (λ e. (len ≤ index) × (e ≡ record { index = index; len = len })) }
        ensures err { OnErr result (self.new ≡ self.old) }
    {
        test_below(index, len)?;
        self.ranges.add_to(index);
        Ok(())
    }

    /// Acknowledges all indexes from one to another, none of which is acknowledged, of a topic of `len` entries; `PastEnd`
    /// exactly where `last >= len`, with no change. It needs a spare of at least 1, and lowers it by at most 1.
    pub fn ack_range(&mut self, first: u64, last: u64, len: u64) -> Result<(), PastEnd>
        requires order { first ≤ last }
        requires new { are_free self.old.indexes first last ≡ true }
        requires room { 0 < self.old.spare }
        ensures ok { OnOk result (last < len) }
        ensures indexes { OnOk result (self.new.indexes ≡ with_indexes self.old.indexes (from_to first last)) }
        ensures spare { self.old.spare ≤ self.new.spare + 1 }
        ensures past_end { IfErr result (λ e. (len ≤ last) × (e ≡ record { index = last; len = len })) }
        ensures err { OnErr result (self.new ≡ self.old) }
    {
        test_below(last, len)?;
        self.ranges.add_range(first, last);
        Ok(())
    }

    /// Acknowledges all indexes below one and no other, in a topic of `len` entries, so that reading begins at `index`: where
    /// an operator resets the cursor. `index == len` is the topic's end; `PastEnd` exactly where `index > len`, with no
    /// change. It needs a spare of at least 1, and lowers it by at most 1.
    pub fn seek_to(&mut self, index: u64, len: u64) -> Result<(), PastEnd>
        requires room { 0 < self.old.spare }
        ensures ok { OnOk result (index ≤ len) }
        ensures indexes { OnOk result (self.new.indexes ≡ below index) }
        ensures spare { self.old.spare ≤ self.new.spare + 1 }
        ensures past_end { IfErr result (λ e. (len < index) × (e ≡ record { index = index; len = len })) }
        ensures err { OnErr result (self.new ≡ self.old) }
    {
        if index > len {
            return Err(PastEnd { index, len });
        }
        self.ranges.set_below(index);
        Ok(())
    }

    /// How many more acknowledgements need no memory: `reserve` is called only where that is too few.
    pub fn spare(&self) -> usize
        ensures { result ≡ self.now.spare }
    {
        self.ranges.spare()
    }

    /// The mark-delete: how many indexes from 0 on are all acknowledged.
    pub fn mark_delete(&self) -> u64
        ensures mark { result ≡ mark self.now.indexes }
        ensures least { IsFirstOpen self.now.indexes 0 result }
    {
        match self.ranges.first() {
            None => 0,
            Some(lowest) => {
                if lowest.first == 0 {
                    lowest.last + 1
                } else {
                    0
                }
            }
        }
    }

    /// Whether an index is acknowledged.
    pub fn is_acked(&self, index: u64) -> bool
        ensures { result ≡ has self.now.indexes index }
    {
        self.ranges.holds(self.ranges.place_of(index), index)
    }

    /// Whether no index from one to another is acknowledged.
    pub fn are_free(&self, first: u64, last: u64) -> bool
        requires { first ≤ last }
        ensures { result ≡ are_free self.now.indexes first last }
    {
        match self.ranges.get(self.ranges.place_of(first)) {
            Some(range) => range.first > last,
            None => true,
        }
    }

    /// The least index at or after `from` that is not acknowledged; it may be the topic's length or past it. To acknowledge
    /// one of those that it leaves out once again would change nothing.
    pub fn next_open(&self, from: u64) -> u64
        ensures least { IsFirstOpen self.now.indexes from result }
        ensures below { (end : ℕ) → next_open self.now.indexes from (end - from) ≡ if_below result end }
        ensures again { (i : ℕ) → has self.now.indexes i ≡ true → with_index self.now.indexes i ≡ self.now.indexes }
    {
        match self.ranges.get(self.ranges.place_of(from)) {
            None => from,
            Some(range) => {
                if range.first <= from {
                    range.last + 1
                } else {
                    from
                }
            }
        }
    }

    /// The one list of ascending ranges, never adjacent, that together hold the acknowledged indexes.
    pub fn ranges(&self) -> &RangeList
        ensures { AreRangesOf self.now.indexes result.now.list }
    {
        &self.ranges
    }

    /// Shows that the ranges give the cursor: its indexes are theirs, range after range. It does nothing.
    pub fn is_told_by_ranges(&self)
        ensures { IsToldByRanges self.now.indexes }
    {
        let _ranges = &self.ranges;
    }

    /// A cursor with the same acknowledged indexes.
    pub fn copy(&self, alloc: Global) -> Result<Cursor, Memory>
        ensures { IfOk result (λ c. c.indexes ≡ self.now.indexes) }
    {
        let ranges = self.ranges.copy(alloc)?;
        Ok(Cursor { ranges })
    }
}

/// Whether an index has an entry in a topic of `len` entries.
fn test_below(index: u64, len: u64) -> Result<(), PastEnd>
    ensures ok { OnOk result (index < len) }
    ensures past_end { IfErr result (λ e. (len ≤ index) × (e ≡ record { index = index; len = len })) }
{
    if index >= len {
        return Err(PastEnd { index, len });
    }
    Ok(())
}
