//! Blocks of ranges.
ghost use Rattle.std.specs.Prelude.{◌≡◌, ◌≤◌, ◌<◌, ◌+◌, ◌-◌, ◌^◌, ◌++◌, ◌∷◌, [], IfOk, OnErr, OnOk, drop, length, slice_index_or, slice_set, take};
ghost use Rattle.std.specs.List.{All};
ghost use Rattle.cursor_acks.specs.Blocks.{end_of, excess, joined, split_at};
ghost use Rattle.cursor_acks.specs.RangeIndexes.{AreKept};

use crate::block::{HALF, MOST, RangeBlock};
use crate::range::IndexRange;
use geo_base::Memory;
use std::alloc::Global;
use std::marker::Model;

/// Blocks of ranges, none of which is empty. Contracts see their lists, and beside these how many more blocks find room.
#[derive(Drop)]
pub(crate) struct Blocks {
    items: Vec<RangeBlock>,
    /// How many ranges the blocks have above half of what they have room for.
    over: usize,
}

impl Model for Blocks {
    ghost use Rattle.std.specs.Prelude.{◌-◌, vec_capacity, vec_len};
    ghost use Rattle.cursor_acks.specs.Blocks.{AreCounted, BlockList};

    ghost Value = { BlockList };

    ghost view = { λ b. record { list = b.items.items; room = vec_capacity b.items - vec_len b.items } };

    ghost invariant = { λ b. AreCounted b.items.items b.over };
}

impl Blocks {
    /// No block; takes no memory.
    pub(crate) fn new(alloc: Global) -> Blocks
        ensures { result.list ≡ [] }
    {
        Blocks {
            items: Vec::new(alloc),
            over: 0,
        }
    }

    /// How many blocks there are.
    pub(crate) fn len(&self) -> usize
        ensures len { result ≡ length self.now.list }
        ensures few { result < 2 ^ 63 }
    {
        self.items.len()
    }

    /// How many ranges the blocks have above half of what they have room for.
    pub(crate) fn over(&self) -> usize
        ensures { result ≡ excess self.now.list }
    {
        self.over
    }

    /// The ranges of a block.
    pub(crate) fn get(&self, block: usize) -> &[IndexRange]
        requires { block < length self.now.list }
        ensures ranges { result.now ≡ slice_index_or self.now.list block [] }
        ensures some { 0 < length result.now }
        ensures most { length result.now ≤ MOST }
    {
        self.items[block].as_slice()
    }

    /// How many blocks end before an index.
    pub(crate) fn find(&self, index: u64) -> usize
        requires { AreKept (joined self.now.list) }
        ensures within { result ≤ length self.now.list }
        ensures before { 0 < result → end_of (slice_index_or self.now.list (result - 1) []) < index }
        ensures after { result < length self.now.list → index ≤ end_of (slice_index_or self.now.list result []) }
        ensures some { All (λ b. 0 < length b) self.now.list }
    {
        let len = self.items.len();
        if len == 0 || self.items[len - 1].end() < index {
            return len;
        }
        self.items.partition_point(|block| block.end() < index)
    }

    /// Another range at a range_index.
    pub(crate) fn set(&mut self, block: usize, offset: usize, range: IndexRange)
        requires block { block < length self.old.list }
        requires offset { offset < length (slice_index_or self.old.list block []) }
        ensures list { self.new.list ≡ slice_set self.old.list block (slice_set (slice_index_or self.old.list block []) offset range) }
        ensures room { self.new.room ≡ self.old.room }
    {
        self.items[block].set(offset, range);
    }

    /// One range more at a range_index of a block that is not full.
    pub(crate) fn insert(&mut self, block: usize, offset: usize, range: IndexRange)
        requires block { block < length self.old.list }
        requires offset { offset ≤ length (slice_index_or self.old.list block []) }
        requires full { length (slice_index_or self.old.list block []) < MOST }
        requires few { excess self.old.list + 1 < 2 ^ 64 }
        ensures list { self.new.list ≡ slice_set self.old.list block (take offset (slice_index_or self.old.list block []) ++ range ∷ drop offset (slice_index_or self.old.list block [])) }
        ensures room { self.new.room ≡ self.old.room }
    {
        let len = self.items[block].len();
        self.over += above_half(len + 1) - above_half(len);
        self.items[block].insert(offset, range);
    }

    /// The range at a range_index goes, and the block with it where it was the last of it.
    pub(crate) fn remove(&mut self, block: usize, offset: usize)
        requires block { block < length self.old.list }
        requires offset { offset < length (slice_index_or self.old.list block []) }
        ensures ranges { joined self.new.list ≡ joined (slice_set self.old.list block (take offset (slice_index_or self.old.list block []) ++ drop (offset + 1) (slice_index_or self.old.list block []))) }
        ensures room { length self.old.list + self.old.room ≤ length self.new.list + self.new.room }
        ensures fewer { length self.new.list ≤ length self.old.list }
        ensures excess { excess self.new.list ≤ excess self.old.list }
    {
        let len = self.items[block].len();
        if len == 1 {
            self.items.remove(block);
            return;
        }
        self.over -= above_half(len) - above_half(len - 1);
        self.items[block].remove(offset);
    }

    /// The ranges before a range_index go, and the blocks before its block.
    pub(crate) fn drop_before(&mut self, block: usize, offset: usize)
        requires block { block < length self.old.list }
        requires offset { offset < length (slice_index_or self.old.list block []) }
        ensures list { self.new.list ≡ drop offset (slice_index_or self.old.list block []) ∷ drop (block + 1) self.old.list }
        ensures room { length self.new.list + self.new.room ≡ length self.old.list + self.old.room }
    {
        self.drop_blocks(block);
        let len = self.items[0].len();
        self.over -= above_half(len) - above_half(len - offset);
        self.items[0].drop_before(offset);
    }

    /// The first blocks go.
    pub(crate) fn drop_blocks(&mut self, blocks: usize)
        requires { blocks ≤ length self.old.list }
        ensures list { self.new.list ≡ drop blocks self.old.list }
        ensures room { length self.new.list + self.new.room ≡ length self.old.list + self.old.room }
    {
        let over = self.over();
        self.over = over - excess_of(&self.items[..blocks]);
        self.items.drain(..blocks);
    }

    /// A full block is split into halves, of which an empty block takes the lower one.
    pub(crate) fn split(&mut self, block: usize, mut lower: RangeBlock)
        requires block { block < length self.old.list }
        requires full { length (slice_index_or self.old.list block []) ≡ MOST }
        requires empty { lower ≡ [] }
        requires room { 0 < self.old.room }
        ensures list { self.new.list ≡ split_at self.old.list block }
        ensures room { self.new.room + 1 ≡ self.old.room }
    {
        self.over -= HALF;
        self.items[block].give_half(&mut lower);
        match self.items.insert(block, lower) {
            Ok(()) => {}
            Err(_) => unreachable!(),
        }
    }

    /// A block after the others, of at most half of what it has room for.
    pub(crate) fn push(&mut self, block: RangeBlock)
        requires some { 0 < length block }
        requires half { length block ≤ HALF }
        requires room { 0 < self.old.room }
        ensures list { self.new.list ≡ self.old.list ++ block ∷ [] }
        ensures room { self.new.room + 1 ≡ self.old.room }
    {
        self.items.push_reserved(block);
    }

    /// Room for `n` more blocks; unchanged where memory is wanting.
    pub(crate) fn reserve(&mut self, n: usize) -> Result<(), Memory>
        ensures list { self.new.list ≡ self.old.list }
        ensures ok { OnOk result (n ≤ self.new.room) }
        ensures more { self.old.room ≤ self.new.room }
    {
        self.items.reserve(n)?;
        Ok(())
    }

    /// A copy of the blocks.
    pub(crate) fn copy(&self, alloc: Global) -> Result<Blocks, Memory>
        ensures { IfOk result (λ b. b.list ≡ self.now.list) }
    {
        let items = copies(alloc, self.items.as_slice())?;
        Ok(Blocks {
            items,
            over: self.over,
        })
    }
}

/// How many of so many ranges are above half of what a block has room for.
fn above_half(len: usize) -> usize
    ensures { result ≡ len - HALF }
{
    len.saturating_sub(HALF)
}

/// How many ranges blocks have above half of what they have room for.
fn excess_of(blocks: &[RangeBlock]) -> usize
    requires { excess blocks.now < 2 ^ 64 }
    ensures { result ≡ excess blocks.now }
{
    let mut sum = 0;
    for block in blocks {
        sum += above_half(block.len());
    }
    sum
}

/// Copies of blocks.
fn copies(alloc: Global, blocks: &[RangeBlock]) -> Result<Vec<RangeBlock>, Memory>
    ensures { IfOk result (λ v. v.items ≡ blocks.now) }
{
    let mut items = Vec::new(alloc);
    for block in blocks {
        items.push(block.copy(alloc)?)?;
    }
    Ok(items)
}
