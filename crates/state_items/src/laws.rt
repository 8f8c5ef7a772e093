//! What holds of the texts of items alone.
ghost use Rattle.std.specs.Prelude.{◌≡◌, ◌<◌, ◌++◌, ◌^◌, ℕ, List, length, Ok};
ghost use Rattle.state_items.specs.Fitting.{IsCursor};
ghost use Rattle.state_items.specs.Ranges.{cursor_at};
ghost use Rattle.state_items.specs.Reading.{number_at, text_at};
ghost use Rattle.state_items.specs.Texts.{cursor, number, text};

/// What was written is read again, whatever stands after it.
#[tactic(auto, using(crate::proofs::Again::number_again, crate::proofs::Again::text_again, crate::proofs::Again::cursor_again))]
pub fn items_read_back()
    ensures number { (n : ℕ) (rest : List ℕ) → n < 2 ^ 64 → number_at (number n ++ rest) ≡ Ok (n, rest) }
    ensures text { (t rest : List ℕ) → length t < 2 ^ 32 → text_at (text t ++ rest) ≡ Ok (t, rest) }
    ensures cursor { (n : ℕ) (set rest : List ℕ) → n < 2 ^ 64 → IsCursor n set → cursor_at n (cursor n set ++ rest) ≡ Ok (set, rest) }
{}
