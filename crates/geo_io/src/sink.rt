//! Where bytes go.
ghost use Rattle.std.specs.Prelude.{◌≡◌, ◌≤◌, ◌<◌, ◌++◌, ℕ, List, [], Option, Ok, length, IfOk, OnOk, OnErr};
ghost use Rattle.std.specs.Io.{WritesAtMost};
ghost use Rattle.geo_io.specs.Faults.{Rose, Stood};
ghost use Rattle.geo_io.specs.Sink.{WriteGains, WriteTakes};

use crate::fault::Failed;

/// Where bytes go.
pub trait Sink {
    /// The bytes that the sink holds, where it tells them. It may stop telling them.
    ghost held: { Self → Option (List ℕ) };

    /// Which bytes calls took, one after the other, between an earlier state of the sink and a later one. So a call that writes
    /// can name the bytes that it handed over also where the sink does not tell what it holds.
    ghost taken: { Self → Self → List ℕ → Type 0 };

    /// How many calls failed so far.
    ghost faults: { Self → ℕ };

    /// Takes bytes from the front of `piece`, and answers how many. `Failed` takes none. It comes
    /// only where the count of faults rose, and so does 0 of a piece that is not empty. Any other call leaves
    /// that count as it was.
    fn write(&mut self, piece: &[u8]) -> Result<usize, Failed>
        ensures within { WritesAtMost result piece.now }
        ensures bytes { WriteGains (held self.old) (held self.new) result piece.now }
        ensures taken { WriteTakes (taken self.old self.new) result piece.now }
        ensures later { faults self.old ≤ faults self.new }
        ensures cause { OnErr result (Rose (faults self.old) (faults self.new)) }
        ensures stalled { result ≡ Ok 0 → 0 < length piece.now
            → Rose (faults self.old) (faults self.new) }
        ensures steady { IfOk result (λ n. 0 < n → Stood (faults self.old) (faults self.new)) }
        ensures idle { length piece.now ≡ 0 → OnOk result (Stood (faults self.old) (faults self.new)) };

    /// No call takes no byte.
    ghost taken_none: { (a : Self) → taken a a [] };

    /// What calls took, and what later ones did.
    ghost taken_more: { (a b c : Self) (xs ys : List ℕ) → taken a b xs → taken b c ys → taken a c (xs ++ ys) };
}
