//! The numbers of a script.
ghost use Rattle.std.specs.Prelude.{◌≡◌, ◌+◌, ◌-◌, ◌*◌, nat_le, ◌&&◌, if◌then◌else◌, None, Some, IfOk};
ghost use Rattle.std.specs.Fmt.{decimal};
ghost use Rattle.script_rows.specs.Numbers.{is_digit, number_from, number_of};

use geo_base::{Blob, Memory};
use std::alloc::Global;
use std::fmt::Write;

/// The number that a word is, where it is a decimal number and at most `most`: no sign and no leading zero, so that each
/// number has one word.
pub fn number_of(word: &[u8], most: u64) -> Option<u64>
    ensures { result ≡ number_of most word.now }
{
    match word {
        [] | [b'0', _, ..] => None,
        _ => value_of(word, most),
    }
}

/// The number that digits write.
fn value_of(digits: &[u8], most: u64) -> Option<u64>
    ensures { result ≡ number_from most 0 digits.now }
{
    let mut value = 0;
    for digit in digits {
        value = next_value(value, *digit, most)?;
    }
    Some(value)
}

/// The number with one more digit.
fn next_value(value: u64, digit: u8, most: u64) -> Option<u64>
    ensures { result ≡ (if is_digit digit && nat_le (10 * value + (digit - 48)) most
        then Some (10 * value + (digit - 48)) else None) }
{
    if !digit.is_ascii_digit() {
        return None;
    }
    let next = value.checked_mul(10)?.checked_add(u64::from(digit - b'0'))?;
    if next <= most { Some(next) } else { None }
}

/// The word of a number.
pub fn number_word(alloc: Global, number: u64) -> Result<Blob, Memory>
    ensures { IfOk result (λ word. word ≡ decimal number) }
{
    let text = format!(in alloc; "{number}").map_err(|_| Memory)?;
    Blob::from_slice(alloc, text.as_bytes())
}
