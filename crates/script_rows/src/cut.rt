//! Bytes cut at one of them.
ghost use Rattle.std.specs.Prelude.{◌≡◌, ◌==◌, [], ◌∷◌, MatchOption, position};
ghost use Rattle.std.specs.List.{slice_split};
ghost use Rattle.std.specs.Str.{bytes_eq};
ghost use Rattle.script_rows.specs.NameWords.{cut_by};

use std::marker::Model;

/// The bytes before the first `at` and those after it.
#[tactic(auto, using(crate::proofs::Cuts::cut_found, crate::proofs::Cuts::cut_none))]
pub fn cut_at(bytes: &[u8], at: u8) -> Option<(&[u8], &[u8])>
    ensures { MatchOption result
        (cut_by at bytes.now ≡ bytes.now ∷ [])
        (λ parts. cut_by at bytes.now ≡ parts.0.now ∷ cut_by at parts.1.now) }
{
    let end = place_of(bytes, at)?;
    Some((&bytes[..end], &bytes[end + 1..]))
}

/// The place of the first `byte`.
fn place_of(bytes: &[u8], byte: u8) -> Option<usize>
    ensures { result ≡ position (λ b. b == byte) bytes.now }
{
    bytes.iter().position(|b| *b == byte)
}

/// What is left of the parts between the separators of a text.
#[derive(Drop)]
pub struct Parts<'a> {
    rest: Option<&'a [u8]>,
    at: u8,
}

impl<'a> Model for Parts<'a> {
    ghost use Rattle.std.specs.Prelude.{List, ℕ, []};
    ghost use Rattle.std.specs.Option.{option_copied, option_map_or};
    ghost use Rattle.script_rows.specs.NameWords.{cut_by};

    ghost Value = { List (List ℕ) };

    ghost view = { λ p. option_map_or (cut_by p.at) (option_copied p.rest) [] };
}

impl<'a> Parts<'a> {
    /// The parts of a text between one byte: one more than there are of it.
    pub fn new(text: &'a [u8], at: u8) -> Parts<'a>
        ensures { result ≡ cut_by at text.now }
    {
        Parts {
            rest: Some(text),
            at,
        }
    }

    /// The same parts.
    pub fn copied(&self) -> Parts<'a>
        ensures { result ≡ self.now }
    {
        Parts {
            rest: self.rest,
            at: self.at,
        }
    }

    /// The next part.
    pub fn next_part(&mut self) -> Option<&'a [u8]>
        ensures { MatchOption result (self.old ≡ []) (λ part. self.old ≡ part.now ∷ self.new) }
    {
        let rest = self.rest?;
        match cut_at(rest, self.at) {
            Some((part, rest)) => {
                self.rest = Some(rest);
                Some(part)
            }
            None => {
                self.rest = None;
                Some(rest)
            }
        }
    }
}

/// Whether a word is another. Their lengths are compared first and in place, since most words that are compared differ in
/// it.
pub fn is_word(word: &[u8], other: &[u8]) -> bool
    ensures { result ≡ bytes_eq word.now other.now }
{
    word.len() == other.len() && word == other
}
