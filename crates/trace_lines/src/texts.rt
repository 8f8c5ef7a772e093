//! Texts of a line: names of subscriptions, keys, ids, and what a message says.
ghost use Rattle.std.specs.Prelude.{◌≡◌, true, false, nat_le, ◌&&◌, IfOk, MatchOption};
ghost use Rattle.std.specs.List.{list_all};
ghost use Rattle.trace_lines.specs.Words.{is_printable, is_text, key_of, sub_of, text_of};

use geo_base::{Memory, Text, name_text};
use script_rows::is_word;
use std::alloc::Global;

/// Whether a terminal shows each byte as itself.
pub(crate) fn are_printable(text: &[u8]) -> bool
    ensures { result ≡ list_all is_printable text.now }
{
    text.iter().all(|b| is_printable(*b))
}

fn is_printable(byte: u8) -> bool
    ensures { result ≡ is_printable byte }
{
    32 <= byte && byte <= 126
}

/// Whether a word is a text: one byte at least, each printable.
pub(crate) fn is_text(word: &[u8]) -> bool
    ensures { result ≡ is_text word.now }
{
    !word.is_empty() && are_printable(word)
}

/// The text of a word where it stands; None exactly where it is none.
#[tactic(auto, using(crate::proofs::Printable::text_utf8))]
pub(crate) fn text_in(word: &[u8]) -> Option<&str>
    ensures { MatchOption result (is_text word.now ≡ false)
        (λ text. (text.now ≡ word.now) × (is_text word.now ≡ true)) }
{
    if !is_text(word) {
        return None;
    }
    match str::from_utf8(word) {
        Ok(text) => Some(text),
        Err(_) => unreachable!(),
    }
}

/// A text: one byte at least, each printable; None exactly where the word is none.
pub fn text_of(alloc: Global, word: &[u8]) -> Result<Option<Text>, Memory>
    ensures { IfOk result (λ text. text ≡ text_of word.now) }
{
    match text_in(word) {
        None => Ok(None),
        Some(text) => Ok(Some(Text::from_str(alloc, text)?)),
    }
}

/// The key of a message: `-` for none.
pub(crate) fn key_of(alloc: Global, word: &[u8]) -> Result<Option<Option<Text>>, Memory>
    ensures { IfOk result (λ key. key ≡ key_of word.now) }
{
    if is_word(word, b"-") {
        return Ok(Some(None));
    }
    match text_of(alloc, word)? {
        None => Ok(None),
        Some(text) => Ok(Some(Some(text))),
    }
}

/// The name of a subscription; None exactly where the word is none.
pub fn sub_of(alloc: Global, word: &[u8]) -> Result<Option<Text>, Memory>
    ensures { IfOk result (λ name. name ≡ sub_of word.now) }
{
    match name_text(word) {
        None => Ok(None),
        Some(name) => Ok(Some(Text::from_str(alloc, name)?)),
    }
}
