//! Where an index stands among ranges that ascend.
ghost use Rattle.std.specs.Prelude.{◌≡◌, ◌≤◌, ◌<◌, ◌+◌, length};
ghost use Rattle.cursor_acks.specs.Blocks.{IsFound, flat};
ghost use Rattle.cursor_acks.specs.Ranges.{covers};
ghost use Rattle.cursor_acks.specs.RangeIndexes.{AreKept, IsPlace};

use crate::list::RangeList;
use crate::range::IndexRange;
use crate::range_index::RangeIndex;

impl RangeList {
    /// After how many ranges that end before an index it stands.
    pub(crate) fn place_of(&self, index: u64) -> RangeIndex
        requires { AreKept self.now.list }
        ensures found { IsFound self.now.blocks result }
        ensures range_index { IsPlace self.now.list index (flat self.now.blocks result) }
    {
        let block = self.block_of(index);
        let offset = place_of(self.block(block), index);
        RangeIndex { block, offset }
    }

    /// Whether a range that does not end before an index holds it.
    pub(crate) fn holds(&self, at: RangeIndex, index: u64) -> bool
        requires kept { AreKept self.now.list }
        requires found { IsFound self.now.blocks at }
        requires range_index { IsPlace self.now.list index (flat self.now.blocks at) }
        ensures { result ≡ covers self.now.list index }
    {
        match self.get(at) {
            Some(range) => range.first <= index,
            None => false,
        }
    }
}

/// How many ranges end before an index.
fn place_of(ranges: &[IndexRange], index: u64) -> usize
    requires { AreKept ranges.now }
    ensures { IsPlace ranges.now index result }
{
    ranges.partition_point(|range| range.last < index)
}
