//! Words of a choice, and words with a form of their own.
ghost use Rattle.std.specs.Prelude.{◌≡◌, ◌≤◌, if◌then◌else◌, Some, None, length, codes};
ghost use Rattle.std.specs.Str.{bytes_eq};
ghost use Rattle.script_rows.specs.NameWords.{cut_by, listed};
ghost use Rattle.script_rows.specs.Columns.{choice_of, key_of, pair_of, place_of, targets_of};
ghost use Rattle.script_rows.specs.Rows.{is_later};
ghost use Rattle.script_rows.specs.declared.column.Menu.TheVariants as menu_word;

use crate::column::Menu;
use crate::{NameList, NameTable, NameWord, cut_at, is_word, mask_of, number_of};
use geo_base::{Position, Targets};

/// The number of a word among those of a choice.
pub(crate) fn choice_of(menu: Menu, word: &[u8]) -> Option<u32>
    ensures { result ≡ choice_of menu word.now }
{
    match menu {
        Menu::Version => { if is_word(word, b"1") { Some(0) } else { None } }
        Menu::Fate => {
            if is_word(word, b"good") {
                Some(0)
            } else if is_word(word, b"lost") {
                Some(1)
            } else if is_word(word, b"twice") {
                Some(2)
            } else {
                None
            }
        }
        Menu::Start => one_of_two(word, b"latest", b"earliest"),
        Menu::Replication => one_of_two(word, b"local", b"replicated"),
        Menu::SubKind => sub_kind_of(word),
    }
}

/// Which of two words it is.
fn one_of_two(word: &[u8], first: &[u8], second: &[u8]) -> Option<u32>
    ensures { result ≡ (if bytes_eq word.now first.now then Some 0
        else if bytes_eq word.now second.now then Some 1 else None) }
{
    if is_word(word, first) {
        Some(0)
    } else if is_word(word, second) {
        Some(1)
    } else {
        None
    }
}

fn sub_kind_of(word: &[u8]) -> Option<u32>
    ensures { result ≡ choice_of menu_word.SubKind word.now }
{
    if is_word(word, b"exclusive") {
        Some(0)
    } else if is_word(word, b"shared") {
        Some(1)
    } else if is_word(word, b"failover") {
        Some(2)
    } else if is_word(word, b"keyshared") {
        Some(3)
    } else {
        None
    }
}

/// The key that a word is: none for `-`.
pub(crate) fn key_of(word: &[u8]) -> Option<Option<NameWord<'_>>>
    ensures { result ≡ key_of word.now }
{
    if word == b"-".as_slice() {
        Some(None)
    } else {
        Some(Some(NameWord::read(word)?))
    }
}

/// The names of a list of clusters; None for `*`, which is no list.
pub(crate) fn target_list(word: &[u8]) -> Option<NameList<'_>>
    ensures { result ≡ (if bytes_eq word.now (codes "*") then None else Some (listed word.now)) }
{
    if word == b"*".as_slice() {
        None
    } else {
        Some(NameList::new(word))
    }
}

/// A position, or the end.
pub(crate) fn place_of(word: &[u8]) -> Option<Option<Position>>
    ensures { result ≡ place_of word.now }
{
    if word == b"end".as_slice() {
        return Some(None);
    }
    Some(Some(pair_of(word)?))
}

/// `L:E`
#[tactic(auto, using(crate::proofs::WordParts::no_pair, crate::proofs::WordParts::has_parts))]
fn pair_of(word: &[u8]) -> Option<Position>
    ensures { result ≡ pair_of (cut_by 58 word.now) }
{
    let (ledger, entry) = cut_at(word, b':')?;
    if cut_at(entry, b':').is_some() {
        return None;
    }
    Some(Position {
        ledger: number_of(ledger, u64::MAX)?,
        entry: number_of(entry, u64::MAX)?,
    })
}
