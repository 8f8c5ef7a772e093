//! Where bytes come from.
ghost use Rattle.std.specs.Prelude.{◌≡◌, ◌≤◌, ◌++◌, ℕ, List, [], Option, length, min, take, OnOk, OnErr};
ghost use Rattle.std.specs.Io.{ReadsAtMost};
ghost use Rattle.std.specs.Io.KnownBytes.{ReadConsumes};
ghost use Rattle.geo_io.specs.Faults.{Rose, Stood};
ghost use Rattle.geo_io.specs.Source.{ReadGives};

use crate::fault::Failed;

/// Where bytes come from.
pub trait Source {
    /// The bytes still to come, where the source tells them.
    ghost left: { Self → Option (List ℕ) };

    /// Which bytes calls moved, one after the other, between an earlier state of the source and a later one. So a call that
    /// reads can name the bytes that it read also where the source does not tell what it has left.
    ghost given: { Self → Self → List ℕ → Type 0 };

    /// How many calls failed so far.
    ghost faults: { Self → ℕ };

    /// Moves bytes to the front of `buf`, and answers how many. 0 into a buffer that is not empty
    /// is the end of the input. `Failed` moves none, and comes only where the count of faults rose; a call
    /// that succeeds leaves that count as it was.
    fn read(&mut self, buf: &mut [u8]) -> Result<usize, Failed>
        ensures within { ReadsAtMost result buf.new }
        ensures bytes { ReadConsumes (left self.old) (left self.new) result buf.new }
        ensures given { ReadGives (given self.old self.new) result buf.new }
        ensures later { faults self.old ≤ faults self.new }
        ensures cause { OnErr result (Rose (faults self.old) (faults self.new)) }
        ensures steady { OnOk result (Stood (faults self.old) (faults self.new)) };

    /// No call moves no byte.
    ghost given_none: { (a : Self) → given a a [] };

    /// What calls moved, and what later ones did.
    ghost given_more: { (a b c : Self) (xs ys : List ℕ) → given a b xs → given b c ys → given a c (xs ++ ys) };
}

/// Copies the first bytes of `from` to the front of `to`: as many as both have.
pub(crate) fn copy_front(from: &[u8], to: &mut [u8]) -> usize
    ensures count { result ≡ min (length from.now) (length to.old) }
    ensures copied { take result to.new ≡ take result from.now }
{
    let n = from.len().min(to.len());
    to[..n].copy_from_slice(&from[..n]);
    n
}
