//! What holds of sets and their ranges alone.
ghost use Rattle.std.specs.Prelude.{◌≡◌, ◌<◌, ◌+◌, ◌==◌, ◌||◌, nat_le, nat_lt, ℕ, List, []};
ghost use Rattle.geo_base.specs.Cursor.{below, has, with_index, with_indexes};
ghost use Rattle.cursor_acks.specs.declared.range.IndexRange.{IndexRange};
ghost use Rattle.cursor_acks.specs.Acks.{AreBelow};
ghost use Rattle.cursor_acks.specs.Ranges.{AreRangesOf};

/// A set of indexes has one list of ascending ranges that are never adjacent.
pub fn one_list_of_ranges()
    ensures { (set : List ℕ) (xs ys : List IndexRange) → AreRangesOf set xs → AreRangesOf set ys → xs ≡ ys }
{}

/// Which indexes a set has after an acknowledgement of one, or of all up to one; and that of a subscription made at Latest.
pub fn acks_add()
    ensures one { (set : List ℕ) (i j : ℕ) → has (with_index set i) j ≡ ((i == j) || has set j) }
    ensures up_to { (set : List ℕ) (i j : ℕ) → has (with_indexes set (below (i + 1))) j ≡ (nat_le j i || has set j) }
    ensures all { (len j : ℕ) → has (below len) j ≡ nat_lt j len }
{}

/// Acknowledged indexes stay below the topic's length.
pub fn acks_stay_below()
    ensures none { (len : ℕ) → AreBelow len [] }
    ensures all { (len : ℕ) → AreBelow len (below len) }
    ensures one { (set : List ℕ) (i len : ℕ) → AreBelow len set → i < len → AreBelow len (with_index set i) }
    ensures up_to { (set : List ℕ) (i len : ℕ) → AreBelow len set → i < len → AreBelow len (with_indexes set (below (i + 1))) }
{}
