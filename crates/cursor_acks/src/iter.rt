//! Going over the ranges of a list.
ghost use Rattle.std.specs.Prelude.{◌≡◌, ◌+◌, ◌++◌, [], drop};
ghost use Rattle.std.specs.Iterator.{YieldsFirst, item_count};
ghost use Rattle.cursor_acks.specs.Blocks.{joined};

use crate::list::RangeList;
use crate::range::IndexRange;
use std::marker::Model;

/// The ranges of a list that are left. Contracts see their list.
#[derive(Drop)]
pub struct RangeIter<'a> {
    ranges: &'a RangeList,
    /// What is left of a block.
    part: &'a [IndexRange],
    /// The block after it.
    block: usize,
}

impl<'a> Model for RangeIter<'a> {
    ghost use Rattle.std.specs.Prelude.{List, ◌++◌, drop};
    ghost use Rattle.cursor_acks.specs.declared.range.IndexRange.{IndexRange};
    ghost use Rattle.cursor_acks.specs.Blocks.{joined};

    ghost Value = { List IndexRange };

    ghost view = { λ i. i.part.now ++ joined (drop i.block i.ranges.now.blocks) };
}

impl RangeList {
    /// The ranges, in order.
    pub fn iter(&self) -> RangeIter<'_>
        ensures { result ≡ self.now.list }
    {
        RangeIter {
            ranges: self,
            part: self.first_block(),
            block: 1,
        }
    }
}

impl<'a> Iterator for RangeIter<'a> {
    type Item = IndexRange;

    ghost next_gives = { YieldsFirst (λ s. s) };

    ghost remaining = { item_count (λ s. s) };

    fn next(&mut self) -> Option<IndexRange> {
        let (part, block) = part_from(self.ranges, self.part, self.block);
        self.block = block;
        match part.split_first() {
            Some((first, others)) => {
                self.part = others;
                Some(*first)
            }
            None => {
                self.part = part;
                None
            }
        }
    }
}

/// What is left of a block, or the next block where nothing is; and the block after.
fn part_from<'a>(
    ranges: &'a RangeList,
    part: &'a [IndexRange],
    block: usize,
) -> (&'a [IndexRange], usize)
    ensures same { result.0.now ++ joined (drop result.1 ranges.now.blocks) ≡ part.now ++ joined (drop block ranges.now.blocks) }
    ensures end { result.0.now ≡ [] → joined (drop result.1 ranges.now.blocks) ≡ [] }
{
    if part.is_empty() && block < ranges.block_count() {
        return (ranges.block(block), block + 1);
    }
    (part, block)
}
