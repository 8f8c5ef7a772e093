//! A block of ranges.
ghost use Rattle.std.specs.Prelude.{◌≡◌, ◌≤◌, ◌<◌, ◌+◌, ◌++◌, ◌∷◌, [], IfOk, drop, length, slice_index_or, slice_set, take, vec_capacity};
ghost use Rattle.cursor_acks.specs.Blocks.{end_of};

use crate::range::IndexRange;
use geo_base::Memory;
use std::alloc::Global;
use std::marker::Model;

/// How many ranges a block has room for: at 16 bytes each they take 1 KiB, and a larger piece costs the allocator four times
/// as much.
pub(crate) const MOST: usize = 64;

/// How many ranges each half of a full block has.
pub(crate) const HALF: usize = 32;

/// Ranges in order, with room for `MOST`. Contracts see their list.
#[derive(Drop)]
pub(crate) struct RangeBlock {
    items: Vec<IndexRange>,
}

impl Model for RangeBlock {
    ghost use Rattle.std.specs.Prelude.{List, ◌≤◌, length, vec_capacity};
    ghost use Rattle.cursor_acks.specs.Blocks.{most_ranges};
    ghost use Rattle.cursor_acks.specs.declared.range.IndexRange.{IndexRange};

    ghost Value = { List IndexRange };

    ghost view = { λ b. b.items.items };

    ghost invariant = { λ b. (most_ranges ≤ vec_capacity b.items) × (length b.items.items ≤ most_ranges) };
}

impl RangeBlock {
    /// A block without a range.
    pub(crate) fn new(alloc: Global) -> Result<RangeBlock, Memory>
        ensures { IfOk result (λ b. b ≡ []) }
    {
        let items = Vec::with_capacity(alloc, MOST)?;
        Ok(RangeBlock { items })
    }

    /// The ranges as a slice.
    pub(crate) fn as_slice(&self) -> &[IndexRange]
        ensures ranges { result.now ≡ self.now }
        ensures most { length result.now ≤ MOST }
    {
        self.items.as_slice()
    }

    /// How many ranges there are.
    pub(crate) fn len(&self) -> usize
        ensures len { result ≡ length self.now }
        ensures most { result ≤ MOST }
    {
        self.items.len()
    }

    /// The last index of the last range; 0 where there is none.
    pub(crate) fn end(&self) -> u64
        ensures { result ≡ end_of self.now }
    {
        let len = self.items.len();
        if len == 0 {
            return 0;
        }
        self.items[len - 1].last
    }

    /// Another range at a range_index.
    pub(crate) fn set(&mut self, at: usize, range: IndexRange)
        requires { at < length self.old }
        ensures { self.new ≡ slice_set self.old at range }
    {
        self.items[at] = range;
    }

    /// One range more at a range_index.
    pub(crate) fn insert(&mut self, at: usize, range: IndexRange)
        requires within { at ≤ length self.old }
        requires room { length self.old < MOST }
        ensures { self.new ≡ take at self.old ++ range ∷ drop at self.old }
    {
        match self.items.insert(at, range) {
            Ok(()) => {}
            Err(_) => unreachable!(),
        }
    }

    /// The range at a range_index goes.
    pub(crate) fn remove(&mut self, at: usize)
        requires { at < length self.old }
        ensures { self.new ≡ take at self.old ++ drop (at + 1) self.old }
    {
        self.items.remove(at);
    }

    /// The ranges before a range_index go.
    pub(crate) fn drop_before(&mut self, at: usize)
        requires { at ≤ length self.old }
        ensures { self.new ≡ drop at self.old }
    {
        self.items.drain(..at);
    }

    /// A full block gives its lower half to an empty one.
    pub(crate) fn give_half(&mut self, lower: &mut RangeBlock)
        requires full { length self.old ≡ MOST }
        requires empty { lower.old ≡ [] }
        ensures upper { self.new ≡ drop HALF self.old }
        ensures lower { lower.new ≡ take HALF self.old }
    {
        lower.take_half(&mut self.items);
    }

    /// An empty block takes the lower half of so many ranges as fill a block.
    pub(crate) fn take_half(&mut self, from: &mut Vec<IndexRange>)
        requires empty { self.old ≡ [] }
        requires full { length from.old.items ≡ MOST }
        ensures lower { self.new ≡ take HALF from.old.items }
        ensures upper { from.new.items ≡ drop HALF from.old.items }
        ensures capacity { vec_capacity from.new ≡ vec_capacity from.old }
    {
        match self.items.extend_from_slice(&from[..HALF]) {
            Ok(()) => {}
            Err(_) => unreachable!(),
        }
        from.drain(..HALF);
    }

    /// A copy of the block.
    pub(crate) fn copy(&self, alloc: Global) -> Result<RangeBlock, Memory>
        ensures { IfOk result (λ b. b ≡ self.now) }
    {
        let mut block = RangeBlock::new(alloc)?;
        match block.items.extend_from_slice(self.items.as_slice()) {
            Ok(()) => {}
            Err(_) => unreachable!(),
        }
        Ok(block)
    }
}

/// The first ranges go.
pub(crate) fn drop_first(items: &mut Vec<IndexRange>, count: usize)
    requires { count ≤ length items.old.items }
    ensures items { items.new.items ≡ drop count items.old.items }
    ensures capacity { vec_capacity items.new ≡ vec_capacity items.old }
{
    items.drain(..count);
}
