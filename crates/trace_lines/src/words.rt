//! The words of a line that are left.
ghost use Rattle.std.specs.Prelude.{◌≡◌, ◌≢◌, ◌<◌, List, ℕ, [], ◌∷◌, length, MatchOption};
ghost use Rattle.script_rows.specs.Words.{words_of};

use script_rows::cut_at;
use std::marker::Model;

/// The words of a line that are left: they stand between spaces, and two spaces in a row have an empty word between them.
#[derive(Drop)]
pub struct LineWords<'a> {
    rest: Option<&'a [u8]>,
}

impl<'a> Model for LineWords<'a> {
    ghost use Rattle.std.specs.Prelude.{List, ℕ, []};
    ghost use Rattle.std.specs.Option.{option_copied, option_map_or};
    ghost use Rattle.script_rows.specs.Words.{words_of};

    ghost Value = { List (List ℕ) };

    ghost view = { λ w. option_map_or words_of (option_copied w.rest) [] };
}

impl<'a> LineWords<'a> {
    /// The words of a line.
    pub fn new(line: &'a [u8]) -> LineWords<'a>
        ensures { result ≡ words_of line.now }
    {
        LineWords { rest: Some(line) }
    }

    /// The next word.
    pub fn next_word(&mut self) -> Option<&'a [u8]>
        ensures { MatchOption result (self.old ≡ []) (λ word. self.old ≡ word.now ∷ self.new) }
    {
        let rest = self.rest?;
        match cut_at(rest, b' ') {
            Some((word, rest)) => {
                self.rest = Some(rest);
                Some(word)
            }
            None => {
                self.rest = None;
                Some(rest)
            }
        }
    }

    /// The next two words.
    pub fn next_two(&mut self) -> Option<(&'a [u8], &'a [u8])>
        ensures { MatchOption result (length self.old < 2) (λ two. self.old ≡ two.0.now ∷ two.1.now ∷ self.new) }
    {
        let first = self.next_word()?;
        let second = self.next_word()?;
        Some((first, second))
    }

    /// The one word that is left; None where none is left, or more.
    pub fn last_word(&mut self) -> Option<&'a [u8]>
        ensures { MatchOption result ((word : List ℕ) → self.old ≢ word ∷ []) (λ word. self.old ≡ word.now ∷ []) }
    {
        let word = self.next_word()?;
        match self.next_word() {
            Some(_) => None,
            None => Some(word),
        }
    }

    /// The two words that are left; None where fewer are left, or more.
    pub fn last_two(&mut self) -> Option<(&'a [u8], &'a [u8])>
        ensures { MatchOption result ((first second : List ℕ) → self.old ≢ first ∷ second ∷ []) (λ two. self.old ≡ two.0.now ∷ two.1.now ∷ []) }
    {
        let first = self.next_word()?;
        let second = self.last_word()?;
        Some((first, second))
    }

    /// All that is left of the line, as one text; None where no word is left.
    pub fn text(&self) -> Option<&'a [u8]>
        ensures { MatchOption result (self.now ≡ []) (λ text. self.now ≡ words_of text.now) }
    {
        self.rest
    }
}
