//! Numbers, positions and ranges of a line.
ghost use Rattle.std.specs.Prelude.{◌≡◌, ◌≤◌, nat_le, IfSome};
ghost use Rattle.trace_lines.specs.Words.{number, position_of};
ghost use Rattle.trace_lines.specs.Ranges.{least_behind, range_in};
ghost use Rattle.script_rows.specs.NameWords.{cut_by};

use cursor_acks::IndexRange;
use geo_base::Position;
use script_rows::{cut_at, number_of};

/// A number of 64 bits; None exactly where the word is none.
pub fn number(word: &[u8]) -> Option<u64>
    ensures { result ≡ number word.now }
{
    number_of(word, u64::MAX)
}

/// `L:E`; None exactly where the word has not this form.
#[tactic(auto, using(script_rows::proofs::WordParts::no_pair, script_rows::proofs::WordParts::has_parts))]
pub fn position_of(word: &[u8]) -> Option<Position>
    ensures { result ≡ position_of word.now }
{
    let (ledger, entry) = cut_at(word, b':')?;
    if cut_at(entry, b':').is_some() {
        return None;
    }
    Some(Position {
        ledger: number(ledger)?,
        entry: number(entry)?,
    })
}

/// `F-L`
#[tactic(auto, using(crate::proofs::Parts::no_range, script_rows::proofs::WordParts::has_parts))]
pub(crate) fn range_of(word: &[u8]) -> Option<IndexRange>
    ensures range { result ≡ range_in (cut_by 45 word.now) }
    ensures order { IfSome result (λ range. range.first ≤ range.last) }
{
    let (first, last) = cut_at(word, b'-')?;
    if cut_at(last, b'-').is_some() {
        return None;
    }
    let (first, last) = (number(first)?, number(last)?);
    if first <= last {
        Some(IndexRange { first, last })
    } else {
        None
    }
}

/// Whether an index may be the first of the next range, where the last one ends at `last`.
pub(crate) fn may_follow(last: Option<u64>, first: u64) -> bool
    ensures { result ≡ nat_le (least_behind last) first }
{
    match last {
        None => true,
        Some(last) => first > last && first - last > 1,
    }
}
