//! Names, numbered from 0 in their order, and found by a table.
ghost use Rattle.std.specs.Prelude.{◌≡◌, ◌<◌, ◌^◌, [], ◌∷◌, ◌++◌, false, if◌then◌else◌, is_some, length, ◌≤◌, ◌+◌, true, position, None, Some, OnErr, OnOk};
ghost use Rattle.std.specs.List.{list_any};
ghost use Rattle.std.specs.Str.{bytes_eq};
ghost use Rattle.script_rows.specs.NameBytes.{is_among, name_at, number_in, words};

use crate::cut::is_word;
use geo_base::Memory;
use indexmap::IndexSet;
use std::alloc::Global;
use std::marker::Model;

/// Names up to so many are compared one after another, which takes less than a look into the table (own).
const FEW_NAMES: usize = 8;

/// Names that stand in a text. Contracts see them as a list; a name is found without a walk.
#[derive(Drop)]
pub struct NameTable<'a> {
    names: IndexSet<&'a [u8]>,
}

impl<'a> Model for NameTable<'a> {
    ghost use Rattle.std.specs.Prelude.{List, ℕ, length, ◌<◌, ◌^◌};
    ghost use Rattle.script_rows.specs.NameBytes.{words};

    ghost Value = { List (List ℕ) };

    ghost view = { λ t. words t.names.keys };

    ghost invariant = { λ t. length t.names.keys < 2 ^ 32 };
}

impl<'a> NameTable<'a> {
    /// No name; takes no memory.
    pub fn new(alloc: Global) -> NameTable<'a>
        ensures { result ≡ [] }
    {
        NameTable {
            names: IndexSet::new(alloc),
        }
    }

    /// How many names there are.
    #[tactic(auto, using(crate::proofs::FoundNames::same_length))]
    pub fn len(&self) -> usize
        ensures count { result ≡ length self.now }
        ensures small { length self.now < 2 ^ 32 }
    {
        self.names.len()
    }

    /// The name of a number; empty where there is none.
    #[tactic(auto, using(crate::proofs::FoundNames::name_found, crate::proofs::FoundNames::name_missing))]
    pub fn name(&self, number: usize) -> &'a [u8]
        ensures { result.now ≡ name_at self.now number }
    {
        match self.names.get_index(number) {
            Some(name) => *name,
            None => &[],
        }
    }

    /// The number of a name; how many there are where it is none of them.
    #[tactic(auto, using(crate::proofs::FoundNames::number_found, crate::proofs::FoundNames::number_missing))]
    pub fn number(&self, word: &[u8]) -> u32
        ensures { result ≡ number_in self.now word.now }
    {
        match place_in(&self.names, word) {
            Some(place) => place as u32,
            None => self.names.len() as u32,
        }
    }

    /// The number of a name; None where it is none of them.
    #[tactic(auto, using(crate::proofs::FoundNames::not_found))]
    pub fn find(&self, word: &[u8]) -> Option<u32>
        ensures { result ≡ (if is_among self.now word.now then Some (number_in self.now word.now) else None) }
    {
        match place_in(&self.names, word) {
            Some(place) => Some(place as u32),
            None => None,
        }
    }

    /// Whether a name is one of them.
    #[tactic(auto, using(crate::proofs::FoundNames::among))]
    pub fn contains(&self, word: &[u8]) -> bool
        ensures { result ≡ is_among self.now word.now }
    {
        self.names.contains(word)
    }

    /// One more name; unchanged where memory is wanting, or a number for it, which only the name after 2^32 - 1 others has not.
    #[tactic(auto, using(crate::proofs::FoundNames::pushed))]
    pub fn push(&mut self, name: &'a [u8]) -> Result<(), Memory>
        requires { is_among self.old name.now ≡ false }
        ensures ok { OnOk result (self.new ≡ self.old ++ name.now ∷ []) }
        ensures err { OnErr result (self.new ≡ self.old) }
    {
        if !has_number(self.names.len()) {
            return Err(Memory);
        }
        self.names.insert(name)?;
        Ok(())
    }
}

/// Whether the name after so many others has a number, which with the count of all has 32 bits.
fn has_number(before: usize) -> bool
    ensures few { result ≡ true → before + 1 < 2 ^ 32 }
    ensures many { result ≡ false → 2 ^ 32 ≤ before + 1 }
{
    before < u32::MAX as usize
}

/// The place of a name in the table.
#[tactic(auto, using(crate::proofs::FoundNames::placed))]
fn place_in(names: &IndexSet<&[u8]>, word: &[u8]) -> Option<usize>
    ensures index { result ≡ position (λ k. bytes_eq word.now k.now) names.now.keys }
    ensures found { is_some result ≡ list_any (λ k. bytes_eq word.now k.now) names.now.keys }
{
    if names.len() > FEW_NAMES {
        names.get_index_of(word)
    } else {
        place_among(names.as_slice(), word)
    }
}

/// The place of a name among a few.
fn place_among(names: &[&[u8]], word: &[u8]) -> Option<usize>
    ensures { result ≡ position (λ k. bytes_eq word.now k.now) names.now }
{
    names.iter().position(|name| is_word(word, *name))
}
