//! Lists of names with commas between them.
ghost use Rattle.std.specs.Prelude.{◌≡◌, ◌≤◌, [], ◌∷◌, length, MatchOption, IfOk};
ghost use Rattle.std.specs.List.{list_all, join_with_byte};
ghost use Rattle.script_rows.specs.NameBytes.{has_long, has_repeat, has_stranger, is_among, mask_of, names_in};
ghost use Rattle.script_rows.specs.NameWords.{has_name_bytes, listed};

use crate::cut::Parts;
use crate::name_word::has_name_bytes;
use crate::table::NameTable;
use geo_base::limits::{CLUSTERS, NAME_BYTES};
use geo_base::{Blob, Memory};
use std::alloc::Global;
use std::marker::Model;

/// The names of a list that are left.
#[derive(Drop)]
pub struct NameList<'a> {
    parts: Parts<'a>,
}

impl<'a> Model for NameList<'a> {
    ghost use Rattle.std.specs.Prelude.{List, ℕ};

    ghost Value = { List (List ℕ) };

    ghost view = { λ l. l.parts };
}

impl<'a> NameList<'a> {
    /// What stands between the commas of a word.
    pub fn new(word: &'a [u8]) -> NameList<'a>
        ensures { result ≡ listed word.now }
    {
        NameList {
            parts: Parts::new(word, b','),
        }
    }

    /// The next name.
    fn next_name(&mut self) -> Option<&'a [u8]>
        ensures { MatchOption result (self.old ≡ []) (λ name. self.old ≡ name.now ∷ self.new) }
    {
        self.parts.next_part()
    }

    /// The list that is left.
    fn copied(&self) -> NameList<'a>
        ensures { result ≡ self.now }
    {
        NameList {
            parts: self.parts.copied(),
        }
    }

    /// Whether each has a name's bytes.
    pub fn are_names(&self) -> bool
        ensures { result ≡ list_all has_name_bytes self.now }
    {
        let mut left = self.copied();
        while let Some(name) = left.next_name() {
            if !has_name_bytes(name) {
                return false;
            }
        }
        true
    }

    /// Whether one is longer than a name.
    pub fn has_long(&self) -> bool
        ensures { result ≡ has_long self.now }
    {
        let mut left = self.copied();
        while let Some(name) = left.next_name() {
            if name.len() > NAME_BYTES {
                return true;
            }
        }
        false
    }

    /// Whether one is not among the names of a table.
    pub fn has_stranger(&self, names: &NameTable<'_>) -> bool
        ensures { result ≡ has_stranger names.now self.now }
    {
        let mut left = self.copied();
        while let Some(name) = left.next_name() {
            if !names.contains(name) {
                return true;
            }
        }
        false
    }

    /// Whether a name is one of them.
    pub fn contains(&self, word: &[u8]) -> bool
        ensures { result ≡ is_among self.now word.now }
    {
        let mut left = self.copied();
        while let Some(name) = left.next_name() {
            if name == word {
                return true;
            }
        }
        false
    }

    /// Whether a name stands twice.
    pub fn has_repeat(&self) -> bool
        ensures { result ≡ has_repeat self.now }
    {
        let mut left = self.copied();
        while let Some(name) = left.next_name() {
            if left.contains(name) {
                return true;
            }
        }
        false
    }
}

/// The mask of the names of a table that are in a list: a name's number is that of its bit.
#[tactic(auto, using(crate::proofs::Masks::mask_small))]
pub fn mask_of(table: &NameTable<'_>, names: &NameList<'_>) -> u8
    requires { length table.now ≤ CLUSTERS }
    ensures { result ≡ mask_of table.now names.now }
{
    let mut mask = 0;
    let mut at = table.len();
    while at > 0 {
        at -= 1;
        mask = 2 * mask + u8::from(names.contains(table.name(at)));
    }
    mask
}

/// The list of the names whose bits are set in a mask, in the order of the table.
#[tactic(auto, using(crate::proofs::Lists::first_one, crate::proofs::Lists::one_more, crate::proofs::Lists::none_more, crate::proofs::Lists::all_done))]
pub fn list_word(alloc: Global, table: &NameTable<'_>, mask: u8) -> Result<Blob, Memory>
    ensures { IfOk result (λ word. word ≡ join_with_byte 44 (names_in table.now mask)) }
{
    let mut word = Blob::new(alloc);
    let (mut at, mut left, mut is_first) = (0, mask, true);
    while at < table.len() {
        if left % 2 == 1 {
            if !is_first {
                word.append(b",")?;
            }
            word.append(table.name(at))?;
            is_first = false;
        }
        left /= 2;
        at += 1;
    }
    Ok(word)
}
