//! How the ranges change when indexes are acknowledged.
ghost use Rattle.std.specs.Prelude.{◌≡◌, ◌≤◌, ◌<◌, ◌+◌, ◌^◌, ◌++◌, ◌∷◌, true, false, IfNone, IfSome, drop, take};
ghost use Rattle.geo_base.specs.Cursor.{below, with_index, with_indexes};
ghost use Rattle.cursor_acks.specs.Acks.{are_free, from_to, stand_alone, stands_alone};
ghost use Rattle.cursor_acks.specs.Blocks.{IsFound, IsRange, flat};
ghost use Rattle.cursor_acks.specs.Ranges.{covers, indexes_of};
ghost use Rattle.cursor_acks.specs.RangeIndexes.{AreKept, Begins, Ends, IsPlace};

use crate::list::RangeList;
use crate::range::IndexRange;
use crate::range_index::RangeIndex;

impl RangeList {
    /// The range that a new index is joined to below: its range_index, and its first index.
    fn begin(&self, at: RangeIndex, index: u64) -> Option<(RangeIndex, u64)>
        requires kept { AreKept self.now.list }
        requires found { IsFound self.now.blocks at }
        requires range_index { IsPlace self.now.list index (flat self.now.blocks at) }
        requires new { covers self.now.list index ≡ false }
        ensures some { IfSome result (λ b. IsRange self.now.blocks b.0 × ((flat self.now.blocks b.0 + 1 ≡ flat self.now.blocks at) × Begins self.now.list index (flat self.now.blocks at) (flat self.now.blocks b.0) b.1)) }
        ensures none { IfNone result (Begins self.now.list index (flat self.now.blocks at) (flat self.now.blocks at) index) }
    {
        match self.before(at) {
            None => None,
            Some(low) => match self.get(low) {
                None => None,
                Some(range) => {
                    if range.last + 1 == index {
                        Some((low, range.first))
                    } else {
                        None
                    }
                }
            },
        }
    }

    /// Where the range ends that an index is joined to above, which all ranges before a range_index end at or before.
    fn end(&self, at: RangeIndex, index: u64) -> Option<u64>
        requires below { index + 1 < 2 ^ 64 }
        requires kept { AreKept self.now.list }
        requires found { IsFound self.now.blocks at }
        requires range_index { IsPlace self.now.list (index + 1) (flat self.now.blocks at) }
        ensures some { IfSome result (λ last. IsRange self.now.blocks at × Ends self.now.list index (flat self.now.blocks at) (flat self.now.blocks at + 1) last) }
        ensures none { IfNone result (Ends self.now.list index (flat self.now.blocks at) (flat self.now.blocks at) index) }
    {
        match self.get(at) {
            None => None,
            Some(range) => {
                if range.first <= index + 1 {
                    Some(range.last)
                } else {
                    None
                }
            }
        }
    }

    /// All indexes from one to another, none of which is there, at the range_index of the first. It needs room, and takes some,
    /// only where no neighbour of them is there.
    fn put(&mut self, at: RangeIndex, first: u64, last: u64)
        requires below { last + 1 < 2 ^ 64 }
        requires order { first ≤ last }
        requires new { are_free (indexes_of self.old.list) first last ≡ true }
        requires kept { AreKept self.old.list }
        requires found { IsFound self.old.blocks at }
        requires range_index { IsPlace self.old.list first (flat self.old.blocks at) }
        requires room { stand_alone (indexes_of self.old.list) first last ≡ true → 0 < self.old.spare }
        ensures kept { AreKept self.new.list }
        ensures indexes { indexes_of self.new.list ≡ with_indexes (indexes_of self.old.list) (from_to first last) }
        ensures spare { self.old.spare ≤ self.new.spare + 1 }
        ensures grown { stand_alone (indexes_of self.old.list) first last ≡ false → self.old.spare ≤ self.new.spare }
    {
        match self.begin(at, first) {
            None => match self.end(at, last) {
                None => self.insert(at, IndexRange { first, last }),
                Some(last) => self.set(at, IndexRange { first, last }),
            },
            Some((low, first)) => match self.end(at, last) {
                None => self.set(low, IndexRange { first, last }),
                Some(last) => self.join(low, at, IndexRange { first, last }),
            },
        }
    }

    /// One range takes the range_index of two neighbours.
    fn join(&mut self, low: RangeIndex, high: RangeIndex, range: IndexRange)
        requires low { IsRange self.old.blocks low }
        requires high { IsRange self.old.blocks high }
        requires order { flat self.old.blocks low + 1 ≡ flat self.old.blocks high }
        ensures list { self.new.list ≡ take (flat self.old.blocks low) self.old.list ++ range ∷ drop (flat self.old.blocks high + 1) self.old.list }
        ensures spare { self.old.spare ≤ self.new.spare }
    {
        self.set(high, range);
        self.remove(low);
    }

    /// One more index. It needs room, and takes some, only where neither it nor a neighbour of it is there.
    pub(crate) fn add(&mut self, index: u64)
        requires below { index + 1 < 2 ^ 64 }
        requires kept { AreKept self.old.list }
        requires room { stands_alone (indexes_of self.old.list) index ≡ true → 0 < self.old.spare }
        ensures kept { AreKept self.new.list }
        ensures indexes { indexes_of self.new.list ≡ with_index (indexes_of self.old.list) index }
        ensures spare { self.old.spare ≤ self.new.spare + 1 }
        ensures grown { stands_alone (indexes_of self.old.list) index ≡ false → self.old.spare ≤ self.new.spare }
    {
        let at = self.place_of(index);
        if !self.holds(at, index) {
            self.put(at, index, index);
        }
    }

    /// All indexes up to one.
    pub(crate) fn add_to(&mut self, index: u64)
        requires below { index + 1 < 2 ^ 64 }
        requires kept { AreKept self.old.list }
        requires room { 0 < self.old.spare }
        ensures kept { AreKept self.new.list }
        ensures indexes { indexes_of self.new.list ≡ with_indexes (indexes_of self.old.list) (below (index + 1)) }
        ensures spare { self.old.spare ≤ self.new.spare + 1 }
    {
        let at = self.place_of(index + 1);
        match self.end(at, index) {
            Some(last) => self.start_at(at, IndexRange { first: 0, last }),
            None => match self.before(at) {
                Some(low) => self.start_at(
                    low,
                    IndexRange {
                        first: 0,
                        last: index,
                    },
                ),
                None => self.insert(
                    at,
                    IndexRange {
                        first: 0,
                        last: index,
                    },
                ),
            },
        }
    }

    /// One range takes the range_index of that at a range_index and all before.
    fn start_at(&mut self, at: RangeIndex, range: IndexRange)
        requires { IsRange self.old.blocks at }
        ensures list { self.new.list ≡ range ∷ drop (flat self.old.blocks at + 1) self.old.list }
        ensures spare { self.old.spare ≤ self.new.spare }
    {
        self.set(at, range);
        self.drop_before(at);
    }

    /// All indexes from one to another, none of which is there.
    pub(crate) fn add_range(&mut self, first: u64, last: u64)
        requires below { last + 1 < 2 ^ 64 }
        requires order { first ≤ last }
        requires new { are_free (indexes_of self.old.list) first last ≡ true }
        requires kept { AreKept self.old.list }
        requires room { 0 < self.old.spare }
        ensures kept { AreKept self.new.list }
        ensures indexes { indexes_of self.new.list ≡ with_indexes (indexes_of self.old.list) (from_to first last) }
        ensures spare { self.old.spare ≤ self.new.spare + 1 }
    {
        let at = self.place_of(first);
        self.put(at, first, last);
    }

    /// All indexes below an end, and no other.
    pub(crate) fn set_below(&mut self, end: u64)
        requires room { 0 < self.old.spare }
        ensures kept { AreKept self.new.list }
        ensures indexes { indexes_of self.new.list ≡ below end }
        ensures spare { self.old.spare ≤ self.new.spare + 1 }
    {
        self.clear();
        if end > 0 {
            let start = RangeIndex {
                block: 0,
                offset: 0,
            };
            let last = end - 1;
            self.insert(start, IndexRange { first: 0, last });
        }
    }
}
