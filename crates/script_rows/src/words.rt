//! The words of a line.
ghost use Rattle.std.specs.Prelude.{◌≡◌, [], ◌∷◌, MatchOption};
ghost use Rattle.script_rows.specs.Words.{gathered, words_of};

use crate::cut_at;
use std::marker::Model;

/// The words that are left, each between spaces.
#[derive(Drop)]
pub(crate) struct LineWords<'a> {
    rest: Option<&'a [u8]>,
}

impl<'a> Model for LineWords<'a> {
    ghost use Rattle.std.specs.Prelude.{List, ℕ, []};
    ghost use Rattle.std.specs.Option.{option_copied, option_map_or};
    ghost use Rattle.script_rows.specs.Words.{words_of};

    ghost Value = { List (List ℕ) };

    ghost view = { λ w. option_map_or words_of (option_copied w.rest) [] };
}

impl<'a> LineWords<'a> {
    /// The words of a line.
    pub(crate) fn new(line: &'a [u8]) -> LineWords<'a>
        ensures { result ≡ words_of line.now }
    {
        LineWords { rest: Some(line) }
    }

    /// The same words.
    pub(crate) fn copied(&self) -> LineWords<'a>
        ensures { result ≡ self.now }
    {
        LineWords { rest: self.rest }
    }

    /// The next word.
    pub(crate) fn next_word(&mut self) -> Option<&'a [u8]>
        ensures { MatchOption result (self.old ≡ []) (λ word. self.old ≡ word.now ∷ self.new) }
    {
        let rest = self.rest?;
        match cut_at(rest, b' ') {
            Some((word, rest)) => {
                self.rest = Some(rest);
                Some(word)
            }
            None => {
                self.rest = None;
                Some(rest)
            }
        }
    }

    /// All that is left.
    fn take_text(&mut self) -> Option<&'a [u8]>
        ensures { MatchOption result (self.old ≡ [])
            (λ text. (self.old ≡ words_of text.now) × (self.new ≡ [])) }
    {
        let rest = self.rest?;
        self.rest = None;
        Some(rest)
    }
}

/// The words of a line that are left, of which the last may be all that is left.
#[derive(Drop)]
pub(crate) struct Words<'a> {
    words: LineWords<'a>,
    /// How many words there are at most.
    most: Option<u32>,
}

impl<'a> Model for Words<'a> {
    ghost use Rattle.std.specs.Prelude.{List, ℕ};
    ghost use Rattle.script_rows.specs.Words.{limited};

    ghost Value = { List (List ℕ) };

    ghost view = { λ w. limited w.most w.words };
}

impl<'a> Words<'a> {
    /// All words.
    pub(crate) fn all(words: LineWords<'a>) -> Words<'a>
        ensures { result ≡ words.entry }
    {
        Words { words, most: None }
    }

    /// So many words at most: the last is all that is left.
    pub(crate) fn at_most(words: LineWords<'a>, most: u32) -> Words<'a>
        ensures { result ≡ gathered most words.entry }
    {
        Words {
            words,
            most: Some(most),
        }
    }

    /// The same words.
    pub(crate) fn copied(&self) -> Words<'a>
        ensures { result ≡ self.now }
    {
        Words {
            words: self.words.copied(),
            most: self.most,
        }
    }

    /// The next word.
    #[tactic(auto, using(crate::proofs::Gathered::gathered_none, crate::proofs::Gathered::gathered_last, crate::proofs::Gathered::gathered_more))]
    pub(crate) fn next_word(&mut self) -> Option<&'a [u8]>
        ensures { MatchOption result (self.old ≡ []) (λ word. self.old ≡ word.now ∷ self.new) }
    {
        match self.most {
            None => self.words.next_word(),
            Some(0) => None,
            Some(1) => self.words.take_text(),
            Some(most) => {
                let word = self.words.next_word()?;
                self.most = Some(most - 1);
                Some(word)
            }
        }
    }
}
