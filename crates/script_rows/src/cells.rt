//! The words of a line that stand in its columns.
ghost use Rattle.std.specs.Prelude.{◌≡◌, [], ◌∷◌, MatchOption};
ghost use Rattle.script_rows.specs.Words.{with_front};

use crate::words::Words;
use std::marker::Model;

/// The words that are left, one of them perhaps moved to the front.
#[derive(Drop)]
pub struct Cells<'a> {
    front: Option<&'a [u8]>,
    words: Words<'a>,
}

impl<'a> Model for Cells<'a> {
    ghost use Rattle.std.specs.Prelude.{List, ℕ};
    ghost use Rattle.std.specs.Option.{option_copied};
    ghost use Rattle.script_rows.specs.Words.{with_front};

    ghost Value = { List (List ℕ) };

    ghost view = { λ c. with_front (option_copied c.front) c.words };
}

impl<'a> Cells<'a> {
    /// Words as they stand.
    pub(crate) fn new(words: Words<'a>) -> Cells<'a>
        ensures { result ≡ words.entry }
    {
        Cells { front: None, words }
    }

    /// Words with one before them.
    pub(crate) fn after(front: &'a [u8], words: Words<'a>) -> Cells<'a>
        ensures { result ≡ front.now ∷ words.entry }
    {
        Cells {
            front: Some(front),
            words,
        }
    }

    /// The same words.
    pub(crate) fn copied(&self) -> Cells<'a>
        ensures { result ≡ self.now }
    {
        Cells {
            front: self.front,
            words: self.words.copied(),
        }
    }

    /// The next word.
    pub(crate) fn next_word(&mut self) -> Option<&'a [u8]>
        ensures { MatchOption result (self.old ≡ []) (λ word. self.old ≡ word.now ∷ self.new) }
    {
        match self.front {
            Some(word) => {
                self.front = None;
                Some(word)
            }
            None => self.words.next_word(),
        }
    }
}
