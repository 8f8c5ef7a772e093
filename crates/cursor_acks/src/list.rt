//! Lists of ranges.
ghost use Rattle.std.specs.Prelude.{ℕ, ◌≡◌, ◌≤◌, ◌<◌, ◌+◌, ◌-◌, ◌^◌, ◌++◌, ◌∷◌, [], IfNone, IfOk, IfSome, OnErr, OnOk, drop, length, slice_index_or, take};
ghost use Rattle.std.specs.List.{All};
ghost use Rattle.cursor_acks.specs.declared.range_index.RangeIndex.{RangeIndex};
ghost use Rattle.cursor_acks.specs.Blocks.{IsFound, IsRange, IsSlot, end_of, flat, joined, last_room, split_at};
ghost use Rattle.cursor_acks.specs.RangeIndexes.{AreKept};

use crate::block::{HALF, MOST, RangeBlock, drop_first};
use crate::blocks::Blocks;
use crate::range::IndexRange;
use crate::range_index::RangeIndex;
use geo_base::Memory;
use std::alloc::Global;
use std::marker::Model;

/// Ranges in order. They stand in blocks of at most `MOST`, so that a change moves those of one block alone: all ranges of a
/// short list in the last block, which grows as they come, and those before in blocks with room for `MOST`. Contracts see
/// the list, its blocks, and how many more ranges find room without memory.
#[derive(Drop)]
pub struct RangeList {
    before: Blocks,
    last: Vec<IndexRange>,
    /// Empty blocks, for those that are split.
    free: Vec<RangeBlock>,
}

impl Model for RangeList {
    ghost use Rattle.std.specs.Prelude.{◌++◌, ◌∷◌, [], length, vec_capacity, vec_len};
    ghost use Rattle.cursor_acks.specs.Blocks.{AreParts, joined, spare_of};
    ghost use Rattle.cursor_acks.specs.Ranges.{Ranges};

    ghost Value = { Ranges };

    ghost view = { λ l. record { list = joined (l.before.list ++ l.last.items ∷ []); blocks = l.before.list ++ l.last.items ∷ []; spare = spare_of l.before.list (length l.free.items) (vec_capacity l.last) (length l.last.items) } };

    ghost invariant = { λ l. AreParts l.before.list l.before.room l.last.items (vec_capacity l.last) l.free.items };
}

/// The most empty blocks that a list asks for, 4 TiB: more count as want of memory.
const MOST_FREE: usize = 4_294_967_295;

impl RangeList {
    /// How many blocks the ranges stand in, one after the other.
    pub(crate) fn block_count(&self) -> usize
        ensures count { result ≡ length self.now.blocks }
        ensures joined { self.now.list ≡ joined self.now.blocks }
    {
        self.before.len() + 1
    }

    /// The ranges of the first block.
    pub(crate) fn first_block(&self) -> &[IndexRange]
        ensures one { 0 < length self.now.blocks }
        ensures ranges { result.now ≡ slice_index_or self.now.blocks 0 [] }
        ensures some { 1 < length self.now.blocks → 0 < length result.now }
        ensures joined { self.now.list ≡ joined self.now.blocks }
    {
        if self.before.len() == 0 {
            return self.last.as_slice();
        }
        self.before.get(0)
    }

    /// The ranges of a block.
    pub(crate) fn block(&self, block: usize) -> &[IndexRange]
        requires { block < length self.now.blocks }
        ensures ranges { result.now ≡ slice_index_or self.now.blocks block [] }
        ensures some { block + 1 < length self.now.blocks → 0 < length result.now }
        ensures most { length result.now ≤ MOST }
        ensures few { block < 2 ^ 63 }
        ensures joined { self.now.list ≡ joined self.now.blocks }
    {
        if block < self.before.len() {
            self.before.get(block)
        } else {
            self.last.as_slice()
        }
    }

    /// The block that an index stands in.
    pub(crate) fn block_of(&self, index: u64) -> usize
        requires { AreKept self.now.list }
        ensures within { result < length self.now.blocks }
        ensures before { 0 < result → end_of (slice_index_or self.now.blocks (result - 1) []) < index }
        ensures after { result + 1 < length self.now.blocks → index ≤ end_of (slice_index_or self.now.blocks result []) }
        ensures some { (k : ℕ) → k + 1 < length self.now.blocks → 0 < length (slice_index_or self.now.blocks k []) }
    {
        self.before.find(index)
    }

    /// How many ranges there are.
    pub fn len(&self) -> usize
        requires few { length self.now.list < 2 ^ 64 }
        ensures { result ≡ length self.now.list }
    {
        let mut sum = 0;
        for block in 0..self.block_count() {
            sum += self.block(block).len();
        }
        sum
    }

    /// How many more ranges find room without memory.
    pub(crate) fn spare(&self) -> usize
        ensures { result ≡ self.now.spare }
    {
        let room = last_room(self.last.capacity(), self.last.len());
        (HALF * self.free.len() + room).saturating_sub(self.before.over())
    }

    /// No range; takes no memory.
    pub(crate) fn new(alloc: Global) -> RangeList
        ensures { result.list ≡ [] }
    {
        RangeList {
            before: Blocks::new(alloc),
            last: Vec::new(alloc),
            free: Vec::new(alloc),
        }
    }

    /// One range.
    pub(crate) fn one(alloc: Global, range: IndexRange) -> Result<RangeList, Memory>
        ensures { IfOk result (λ l. l.list ≡ range ∷ []) }
    {
        let mut last = Vec::new(alloc);
        last.push(range)?;
        Ok(RangeList {
            before: Blocks::new(alloc),
            last,
            free: Vec::new(alloc),
        })
    }

    /// A copy of the list.
    pub(crate) fn copy(&self, alloc: Global) -> Result<RangeList, Memory>
        ensures { IfOk result (λ l. l.list ≡ self.now.list) }
    {
        let before = self.before.copy(alloc)?;
        let room = room_for(before.len(), self.last.len());
        let mut last = Vec::with_capacity(alloc, room)?;
        last.extend_from_slice(self.last.as_slice())?;
        Ok(RangeList {
            before,
            last,
            free: Vec::new(alloc),
        })
    }

    /// Room for `n` more ranges; unchanged where memory is wanting.
    pub(crate) fn reserve(&mut self, n: usize) -> Result<(), Memory>
        ensures list { self.new.list ≡ self.old.list }
        ensures ok { OnOk result (n ≤ self.new.spare) }
        ensures more { self.old.spare ≤ self.new.spare }
        ensures err { OnErr result (self.new ≡ self.old) }
    {
        if n <= self.spare() {
            return Ok(());
        }
        if n <= HALF
            && self.last.len() + n <= MOST
            && self.before.len() == 0
            && self.free.is_empty()
        {
            self.last.reserve(n)?;
            return Ok(());
        }
        self.reserve_blocks(n)
    }

    /// Room for `n` more ranges, by empty blocks.
    fn reserve_blocks(&mut self, n: usize) -> Result<(), Memory>
        requires { self.old.spare < n }
        ensures list { self.new.list ≡ self.old.list }
        ensures ok { OnOk result (n ≤ self.new.spare) }
        ensures err { OnErr result (self.new ≡ self.old) }
    {
        let Some(wanted) = n.checked_add(self.before.over()) else {
            return Err(Memory);
        };
        let blocks = wanted.div_ceil(HALF);
        if blocks > MOST_FREE {
            return Err(Memory);
        }
        let more = blocks.saturating_sub(self.free.len());
        let mut added = free_blocks(*self.last.allocator(), more)?;
        self.before.reserve(blocks)?;
        self.free.reserve(more)?;
        self.last.reserve(MOST - self.last.len())?;
        match self.free.append(&mut added) {
            Ok(()) => {}
            Err(_) => unreachable!(),
        }
        Ok(())
    }

    /// The range at a range_index; `None` at the end.
    pub(crate) fn get(&self, at: RangeIndex) -> Option<IndexRange>
        requires { IsFound self.now.blocks at }
        ensures some { IfSome result (λ r. IsRange self.now.blocks at × ((flat self.now.blocks at < length self.now.list) × (r ≡ slice_index_or self.now.list (flat self.now.blocks at) r))) }
        ensures none { IfNone result (length self.now.list ≤ flat self.now.blocks at) }
    {
        let ranges = self.block(at.block);
        if at.offset < ranges.len() {
            return Some(ranges[at.offset]);
        }
        None
    }

    /// The first range; `None` where there is none.
    pub(crate) fn first(&self) -> Option<IndexRange>
        ensures some { IfSome result (λ r. (0 < length self.now.list) × (r ≡ slice_index_or self.now.list 0 r)) }
        ensures none { IfNone result (self.now.list ≡ []) }
    {
        let ranges = self.first_block();
        if ranges.is_empty() {
            return None;
        }
        Some(ranges[0])
    }

    /// The range_index before a range_index; `None` at the first.
    pub(crate) fn before(&self, at: RangeIndex) -> Option<RangeIndex>
        requires { IsSlot self.now.blocks at }
        ensures some { IfSome result (λ p. IsRange self.now.blocks p × (flat self.now.blocks p + 1 ≡ flat self.now.blocks at)) }
        ensures none { IfNone result (flat self.now.blocks at ≡ 0) }
    {
        if at.offset > 0 {
            return Some(RangeIndex {
                block: at.block,
                offset: at.offset - 1,
            });
        }
        if at.block > 0 {
            let block = at.block - 1;
            return Some(RangeIndex {
                block,
                offset: self.block(block).len() - 1,
            });
        }
        None
    }

    /// Another range at a range_index.
    pub(crate) fn set(&mut self, at: RangeIndex, range: IndexRange)
        requires { IsRange self.old.blocks at }
        ensures list { self.new.list ≡ take (flat self.old.blocks at) self.old.list ++ range ∷ drop (flat self.old.blocks at + 1) self.old.list }
        ensures within { flat self.old.blocks at < length self.old.list }
        ensures places { (p : RangeIndex) → IsRange self.old.blocks p → IsRange self.new.blocks p × (flat self.new.blocks p ≡ flat self.old.blocks p) }
        ensures spare { self.new.spare ≡ self.old.spare }
    {
        if at.block < self.before.len() {
            self.before.set(at.block, at.offset, range);
        } else {
            self.last[at.offset] = range;
        }
    }

    /// One range more at a range_index.
    pub(crate) fn insert(&mut self, at: RangeIndex, range: IndexRange)
        requires slot { IsSlot self.old.blocks at }
        requires room { 0 < self.old.spare }
        ensures list { self.new.list ≡ take (flat self.old.blocks at) self.old.list ++ range ∷ drop (flat self.old.blocks at) self.old.list }
        ensures spare { self.old.spare ≤ self.new.spare + 1 }
    {
        let at = self.make_room(at);
        self.put_in(at, range);
    }

    /// Splits the block of a range_index where it is full, and answers where the range_index is then.
    fn make_room(&mut self, at: RangeIndex) -> RangeIndex
        requires slot { IsSlot self.old.blocks at }
        requires room { 0 < self.old.spare }
        ensures slot { IsSlot self.new.blocks result }
        ensures list { self.new.list ≡ self.old.list }
        ensures flat { flat self.new.blocks result ≡ flat self.old.blocks at }
        ensures room { length (slice_index_or self.new.blocks result.block []) < MOST }
        ensures spare { self.new.spare ≡ self.old.spare }
    {
        if self.block(at.block).len() < MOST {
            return at;
        }
        self.split(at.block);
        if at.offset <= HALF {
            return at;
        }
        RangeIndex {
            block: at.block + 1,
            offset: at.offset - HALF,
        }
    }

    /// Splits a full block into two halves.
    fn split(&mut self, block: usize)
        requires block { block < length self.old.blocks }
        requires full { length (slice_index_or self.old.blocks block []) ≡ MOST }
        requires room { 0 < self.old.spare }
        ensures full { length (slice_index_or self.old.blocks block []) ≡ MOST }
        ensures blocks { self.new.blocks ≡ split_at self.old.blocks block }
        ensures list { self.new.list ≡ self.old.list }
        ensures spare { self.new.spare ≡ self.old.spare }
    {
        let mut lower = match self.free.pop() {
            Some(empty) => empty,
            None => unreachable!(),
        };
        if block < self.before.len() {
            self.before.split(block, lower);
        } else {
            lower.take_half(&mut self.last);
            self.before.push(lower);
        }
    }

    /// One range more at a range_index of a block that is not full.
    fn put_in(&mut self, at: RangeIndex, range: IndexRange)
        requires slot { IsSlot self.old.blocks at }
        requires full { length (slice_index_or self.old.blocks at.block []) < MOST }
        requires room { 0 < self.old.spare }
        ensures list { self.new.list ≡ take (flat self.old.blocks at) self.old.list ++ range ∷ drop (flat self.old.blocks at) self.old.list }
        ensures spare { self.old.spare ≤ self.new.spare + 1 }
    {
        if at.block < self.before.len() {
            self.before.insert(at.block, at.offset, range);
        } else {
            match self.last.insert(at.offset, range) {
                Ok(()) => {}
                Err(_) => unreachable!(),
            }
        }
    }

    /// The range at a range_index goes.
    pub(crate) fn remove(&mut self, at: RangeIndex)
        requires { IsRange self.old.blocks at }
        ensures list { self.new.list ≡ take (flat self.old.blocks at) self.old.list ++ drop (flat self.old.blocks at + 1) self.old.list }
        ensures spare { self.old.spare ≤ self.new.spare }
    {
        if at.block < self.before.len() {
            self.before.remove(at.block, at.offset);
        } else {
            self.last.remove(at.offset);
        }
    }

    /// The ranges before a range_index go.
    pub(crate) fn drop_before(&mut self, at: RangeIndex)
        requires { IsRange self.old.blocks at }
        ensures list { self.new.list ≡ drop (flat self.old.blocks at) self.old.list }
        ensures spare { self.old.spare ≤ self.new.spare }
    {
        if at.block < self.before.len() {
            self.before.drop_before(at.block, at.offset);
        } else {
            self.before.drop_blocks(at.block);
            drop_first(&mut self.last, at.offset);
        }
    }

    /// All ranges go.
    pub(crate) fn clear(&mut self)
        ensures blocks { self.new.blocks ≡ [] ∷ [] }
        ensures list { self.new.list ≡ [] }
        ensures spare { self.old.spare ≤ self.new.spare }
    {
        self.before.drop_blocks(self.before.len());
        self.last.clear();
    }
}

/// How many more ranges the last block has room for, counted up to half a block.
fn last_room(capacity: usize, len: usize) -> usize
    requires within { len ≤ capacity }
    requires short { len ≤ MOST }
    ensures { result ≡ last_room capacity len }
{
    (capacity.min(MOST) - len).min(HALF)
}

/// How many ranges a last block of `len` has room for, after so many blocks.
fn room_for(blocks: usize, len: usize) -> usize
    requires { len ≤ MOST }
    ensures within { len ≤ result }
    ensures wide { 0 < blocks → result ≡ MOST }
{
    if blocks == 0 { len } else { MOST }
}

/// Empty blocks.
fn free_blocks(alloc: Global, n: usize) -> Result<Vec<RangeBlock>, Memory>
    ensures len { IfOk result (λ v. length v.items ≡ n) }
    ensures empty { IfOk result (λ v. All (λ b. b ≡ []) v.items) }
{
    let mut blocks = Vec::with_capacity(alloc, n)?;
    for _block in 0..n {
        blocks.push(RangeBlock::new(alloc)?)?;
    }
    Ok(blocks)
}
