//! The ranges of an acknowledgement.
ghost use Rattle.std.specs.Prelude.{◌≡◌, ◌≤◌, [], ◌∷◌, ◌++◌, true, nat_le, OnOk, OnErr};
ghost use Rattle.cursor_acks.specs.Ranges.{AreApart};
ghost use Rattle.trace_lines.specs.Ranges.{last_of, least_behind};

use cursor_acks::IndexRange;
use geo_base::Memory;
use std::alloc::Global;
use std::marker::Model;

/// Ranges of indexes that ascend, with a gap between each two.
#[derive(Drop)]
pub struct AckedRanges {
    ranges: Vec<IndexRange>,
}

impl Model for AckedRanges {
    ghost use Rattle.std.specs.Prelude.{List};
    ghost use Rattle.cursor_acks.specs.declared.range.IndexRange.{IndexRange};
    ghost use Rattle.cursor_acks.specs.Ranges.{AreApart};

    ghost Value = { List IndexRange };

    ghost view = { λ r. r.ranges.items };

    ghost invariant = { λ r. AreApart r.ranges.items };
}

impl AckedRanges {
    /// No range; takes no memory.
    #[tactic(auto, using(crate::proofs::Apart::none_apart))]
    pub(crate) fn new(alloc: Global) -> AckedRanges
        ensures { result ≡ [] }
    {
        AckedRanges {
            ranges: Vec::new(alloc),
        }
    }

    /// The ranges in their order: they ascend, with a gap between each two.
    pub fn as_slice(&self) -> &[IndexRange]
        ensures ranges { result.now ≡ self.now }
        ensures apart { AreApart result.now }
    {
        self.ranges.as_slice()
    }

    /// One more range; unchanged where memory is wanting.
    #[tactic(auto, using(crate::proofs::Apart::one_more_apart))]
    pub(crate) fn push(&mut self, range: IndexRange) -> Result<(), Memory>
        requires order { range.first ≤ range.last }
        requires behind { nat_le (least_behind (last_of self.old)) range.first ≡ true }
        ensures ok { OnOk result (self.new ≡ self.old ++ range ∷ []) }
        ensures err { OnErr result (self.new ≡ self.old) }
    {
        self.ranges.push(range)?;
        Ok(())
    }
}
