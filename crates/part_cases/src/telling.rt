//! What these tests tell in a text, number by number: a function with many ends is long to show, and a call of one is not.
use cursor_acks::Cursor;
use geo_base::Memory;

/// Adds a word.
pub fn add_word(text: &mut String, word: &str) -> Result<(), Memory> {
    text.push_str(word)?;
    Ok(())
}

/// Adds a number between two words.
pub fn add_number(
    text: &mut String,
    before: &str,
    number: u64,
    behind: &str,
) -> Result<(), Memory> {
    text.push_str(before)?;
    write!(text, "{number}")?;
    text.push_str(behind)?;
    Ok(())
}

/// Adds two numbers with a word between them.
pub fn add_pair(text: &mut String, first: u64, between: &str, second: u64) -> Result<(), Memory> {
    add_number(text, "", first, between)?;
    add_number(text, "", second, "")
}

/// Adds the ranges of a cursor, each between two words.
pub fn add_ranges(
    text: &mut String,
    cursor: &Cursor,
    before: &str,
    behind: &str,
) -> Result<(), Memory> {
    for range in cursor.ranges().iter() {
        add_number(text, before, range.first, "-")?;
        add_number(text, "", range.last, behind)?;
    }
    Ok(())
}
