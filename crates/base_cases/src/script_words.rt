//! Words of a script: names, lists and numbers, each once.
use script_rows::{
    NameList, NameTable, NameWord, Parts, list_word, mask_of, number_of, number_word,
};
use std::alloc::Global;

/// Puts the names a, b and c into a table; false where one stood there, or memory is wanting.
fn have_come(table: &mut NameTable<'static>) -> bool {
    has_come(table, b"a") && has_come(table, b"b") && has_come(table, b"c")
}

/// Puts a name into a table; false where it stood there, or memory is wanting.
fn has_come(table: &mut NameTable<'static>, name: &'static [u8]) -> bool {
    !table.contains(name) && table.push(name).is_ok()
}

#[test]
fn names_are_found_by_their_numbers(rt: HostRuntime) {
    let mut table = NameTable::new(rt.alloc());
    let are_found = have_come(&mut table) && are_found(&table);
    drop(table);
    assert!(rt; are_found);
}

fn are_found(table: &NameTable<'_>) -> bool {
    (table.number(b"a"), table.number(b"c"), table.number(b"d")) == (0, 2, 3)
        && table.name(1) == b"b".as_slice()
        && table.name(3) == b"".as_slice()
        && table.contains(b"b")
        && !table.contains(b"bb")
}

/// Lists of names, each with its mask, and the mask as it is written.
const MASKS: &[(&str, u8, &str)] = &[
    ("c,a", 5, "a,c"),
    ("b", 2, "b"),
    ("b,b", 2, "b"),
    ("d", 0, ""),
    ("b,c,a", 7, "a,b,c"),
];

#[test]
fn lists_are_masks(rt: HostRuntime) {
    let mut table = NameTable::new(rt.alloc());
    let other = first_other_mask(rt.alloc(), &mut table);
    drop(table);
    assert_eq!(rt; other, None);
}

/// The first of the lists that has another mask than its row says.
fn first_other_mask(alloc: Global, table: &mut NameTable<'static>) -> Option<&'static str> {
    if !have_come(table) {
        return Some("a, b and c");
    }
    for (list, mask, written) in MASKS.iter() {
        if !is_mask(alloc, table, list, *mask, written) {
            return Some(*list);
        }
    }
    None
}

/// Whether a list of names is this mask, and the mask is written so.
fn is_mask(alloc: Global, table: &NameTable<'_>, list: &str, mask: u8, written: &str) -> bool {
    if table.len() > 8 || mask_of(table, &NameList::new(list.as_bytes())) != mask {
        return false;
    }
    match list_word(alloc, table, mask) {
        Ok(word) => word.as_slice() == written.as_bytes(),
        Err(_) => false,
    }
}

/// Lists, and for each whether it has names alone, a long one, one that is not in the table, and one twice.
const JUDGED: &[(&str, (bool, bool, bool, bool))] = &[
    ("a,b", (true, false, false, false)),
    ("a,,b", (false, false, true, false)),
    ("a,abcdefghijklmnopq", (true, true, true, false)),
    ("b,a,b", (true, false, false, true)),
    ("", (false, false, true, false)),
];

#[test]
fn lists_are_judged(rt: HostRuntime) {
    let mut table = NameTable::new(rt.alloc());
    let other = first_otherwise_judged(&mut table);
    drop(table);
    assert_eq!(rt; other, None);
}

/// The first of the lists that is judged otherwise than its row says.
fn first_otherwise_judged(table: &mut NameTable<'static>) -> Option<&'static str> {
    if !have_come(table) {
        return Some("a, b and c");
    }
    for (list, expected) in JUDGED.iter() {
        if judged(table, list) != *expected {
            return Some(*list);
        }
    }
    None
}

fn judged(table: &NameTable<'_>, list: &str) -> (bool, bool, bool, bool) {
    let left = NameList::new(list.as_bytes());
    (
        left.are_names(),
        left.has_long(),
        left.has_stranger(table),
        left.has_repeat(),
    )
}

/// Words, each with the most that it may be, and the number that it is.
const NUMBERS: &[(&str, u64, Option<u64>)] = &[
    ("0", 0, Some(0)),
    ("00", 9, None),
    ("07", 9, None),
    ("10", 10, Some(10)),
    ("11", 10, None),
    ("", 10, None),
    ("-1", 10, None),
    ("18446744073709551615", u64::MAX, Some(u64::MAX)),
    ("18446744073709551616", u64::MAX, None),
];

#[test]
fn numbers_have_one_word(rt: HostRuntime) {
    for (word, most, number) in NUMBERS.iter() {
        assert!(rt; number_of(word.as_bytes(), *most) == *number, "{word}");
    }
    assert!(rt; is_word_of(rt.alloc(), b"120", 120));
}

/// Whether a number is written so.
fn is_word_of(alloc: Global, word: &[u8], number: u64) -> bool {
    match number_word(alloc, number) {
        Ok(written) => written.as_slice() == word,
        Err(_) => false,
    }
}

#[test]
fn words_have_a_names_bytes(rt: HostRuntime) {
    let mut words = Parts::new(b"a_1  B", b' ');
    assert!(rt; are_three_words(&mut words));
}

/// Whether three words are left: a name's, an empty one, and B, which is no name's.
fn are_three_words(words: &mut Parts<'_>) -> bool {
    let is_name = words.next_part().and_then(name_of) == Some("a_1");
    let is_empty = words.next_part() == Some(b"".as_slice());
    let last = words.next_part();
    is_name
        && is_empty
        && last == Some(b"B".as_slice())
        && last.and_then(name_of).is_none()
        && words.next_part().is_none()
}

/// The text of a word that has a name's bytes.
fn name_of(word: &[u8]) -> Option<&str> {
    match NameWord::read(word) {
        Some(name) => Some(name.as_str()),
        None => None,
    }
}
