//! Words that have a name's bytes.
ghost use Rattle.std.specs.Prelude.{◌≡◌, [], IfOk};
ghost use Rattle.std.specs.List.{list_all};
ghost use Rattle.geo_base.specs.Name.{name_byte};
ghost use Rattle.script_rows.specs.NameWords.{has_name_bytes, is_long, name_of};

use geo_base::limits::NAME_BYTES;
use geo_base::{Memory, ProducerName, Text};
use std::alloc::Global;
use std::marker::Model;

/// A word that has a name's bytes. It may be longer than a name.
#[derive(Drop)]
pub struct NameWord<'a> {
    text: &'a str,
}

impl<'a> Model for NameWord<'a> {
    ghost use Rattle.std.specs.Prelude.{List, ℕ};

    ghost Value = { List ℕ };

    ghost view = { λ n. n.text.now };
}

impl<'a> NameWord<'a> {
    /// The name that a word may be: at least one byte, each of `a` to `z`, `0` to `9` and `_`.
    #[tactic(auto, using(crate::proofs::Ascii::name_bytes_utf8))]
    pub fn read(word: &'a [u8]) -> Option<NameWord<'a>>
        ensures { result ≡ name_of word.now }
    {
        if !has_name_bytes(word) {
            return None;
        }
        match str::from_utf8(word) {
            Ok(text) => Some(NameWord { text }),
            Err(_) => unreachable!(),
        }
    }

    /// No word.
    pub fn empty() -> NameWord<'a>
        ensures { result ≡ [] }
    {
        NameWord { text: "" }
    }

    /// The same word.
    pub fn copied(&self) -> NameWord<'a>
        ensures { result ≡ self.now }
    {
        NameWord { text: self.text }
    }

    /// Its bytes.
    pub fn as_bytes(&self) -> &'a [u8]
        ensures { result.now ≡ self.now }
    {
        self.text.as_bytes()
    }

    /// Whether it is longer than a name.
    pub fn is_long(&self) -> bool
        ensures { result ≡ is_long self.now }
    {
        self.text.len() > NAME_BYTES
    }

    /// Its text.
    pub fn as_str(&self) -> &'a str
        ensures { result.now ≡ self.now }
    {
        self.text
    }

    /// A text of its own.
    pub fn text(&self, alloc: Global) -> Result<Text, Memory>
        ensures { IfOk result (λ text. text ≡ self.now) }
    {
        Text::from_str(alloc, self.text)
    }

    /// The producer of this name.
    pub fn producer(&self, alloc: Global) -> Result<ProducerName, Memory>
        ensures { IfOk result (λ name. name ≡ self.now) }
    {
        ProducerName::any(alloc, self.text)
    }
}

/// Whether a word is at least one byte, each of a name's.
pub fn has_name_bytes(word: &[u8]) -> bool
    ensures { result ≡ has_name_bytes word.now }
{
    !word.is_empty() && are_name_bytes(word)
}

fn are_name_bytes(word: &[u8]) -> bool
    ensures { result ≡ list_all name_byte word.now }
{
    word.iter().all(|b| is_name_byte(*b))
}

fn is_name_byte(byte: u8) -> bool
    ensures { result ≡ name_byte byte }
{
    matches!(byte, b'a'..=b'z' | b'0'..=b'9' | b'_')
}
