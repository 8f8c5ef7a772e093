//! Words that are written read back the same.
ghost use Rattle.std.specs.Prelude.{◌≡◌, ◌<◌, ◌≤◌, ◌^◌, List, ℕ, Some, length};
ghost use Rattle.std.specs.Fmt.{decimal};
ghost use Rattle.script_rows.specs.NameBytes.{AreApart, mask_of, names_in};
ghost use Rattle.script_rows.specs.Numbers.{number_of};

/// The word of a number reads back as that number.
pub fn numbers_read_back()
    ensures { (most n : ℕ) → n ≤ most → n < 2 ^ 64 → number_of most (decimal n) ≡ Some n }
{}

/// The names of a set of clusters read back as that set.
pub fn lists_read_back()
    ensures { (xs : List (List ℕ)) (m : ℕ) → AreApart xs → m < 2 ^ length xs
        → mask_of xs (names_in xs m) ≡ m }
{}
