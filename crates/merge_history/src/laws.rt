//! What sorted turns say of histories.
ghost use Rattle.std.specs.Prelude.{◌≡◌, ℕ, List, map};
ghost use Rattle.std.specs.List.Sorted.{IsPermutation};
ghost use Rattle.geo_base.specs.History.{RecordedEvent};
ghost use Rattle.geo_base.specs.Merge.{history_of, merge_of};
ghost use Rattle.merge_history.specs.Turns.{AreSorted, Rise, all_turns, entry_at, stamp_of};
ghost use Rattle.merge_history.specs.declared.turn.Turn.{Turn};

/// The recorded events at sorted turns are the merge of the histories, whose stamps rise.
pub fn law_sorted()
    ensures { (hs : List (List RecordedEvent)) (ts : List Turn) → ((n : ℕ) → Rise (history_of hs n)) → IsPermutation (all_turns stamp_of 0 hs) ts → AreSorted ts
        → map (entry_at hs) ts ≡ merge_of hs }
{}
