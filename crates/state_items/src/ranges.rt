//! Cursors from their ranges.
ghost use Rattle.std.specs.Prelude.{◌≡◌, ◌≤◌, ◌<◌, ◌+◌, ◌-◌, [], ◌∷◌, ◌++◌, IfOk, OnOk};
ghost use Rattle.std.specs.List.{range_with_len};
ghost use Rattle.cursor_acks.specs.Acks.{AreBelow};
ghost use Rattle.cursor_acks.specs.Ranges.{indexes_of};
ghost use Rattle.state_items.specs.Reading.{Gives, many};
ghost use Rattle.state_items.specs.Ranges.{AreIn, IsNext, cursor_at, is_behind, range_at, ranges_at};

use crate::fault::ItemFault;
use crate::items::{judge, number_at};
use crate::rule::Rule;
use cursor_acks::{Cursor, IndexRange};
use geo_base::Memory;
use std::alloc::Global;

/// A cursor over a topic of `entries` entries. It takes as many steps as it has indexes, and memory for as many ranges as the
/// bytes hold.
#[tactic(auto, unfolding(crate::specs::Ranges::cursor_at))]
pub fn cursor_at(alloc: Global, entries: u64, bytes: &[u8]) -> Result<(Cursor, &[u8]), ItemFault>
    ensures cursor { Gives (λ x. (x.0.indexes, x.1.now)) result (cursor_at entries bytes.now) }
{
    let (ranges, rest) = ranges_at(alloc, entries, bytes)?;
    let cursor = cursor_of(alloc, ranges.as_slice(), entries)?;
    Ok((cursor, rest))
}

/// Ascending ranges of indexes below a number of entries.
fn ranges_at(
    alloc: Global,
    entries: u64,
    bytes: &[u8],
) -> Result<(Vec<IndexRange>, &[u8]), ItemFault>
    ensures read { Gives (λ x. (x.0.items, x.1.now)) result (ranges_at entries bytes.now) }
    ensures kept { IfOk result (λ x. AreIn entries x.0.items) }
{
    let (count, rest) = number_at(bytes)?;
    counted_ranges(alloc, entries, count, rest)
}

/// So many ranges.
#[tactic(auto, using(crate::proofs::Gaps::none_in))]
fn counted_ranges(
    alloc: Global,
    entries: u64,
    count: u64,
    bytes: &[u8],
) -> Result<(Vec<IndexRange>, &[u8]), ItemFault>
    ensures read { Gives (λ x. (x.0.items, x.1.now)) result (many (range_at entries) count [] bytes.now) }
    ensures kept { IfOk result (λ x. AreIn entries x.0.items) }
{
    let mut ranges: Vec<IndexRange> = Vec::new(alloc);
    let mut rest = bytes;
    for _ in 0..count {
        let (range, after) = range_at(entries, ranges.as_slice(), rest)?;
        ranges.push(range)?;
        rest = after;
    }
    Ok((ranges, rest))
}

/// The next range after some.
#[tactic(auto, unfolding(crate::specs::Ranges::range_at))]
fn range_at<'a>(
    entries: u64,
    before: &[IndexRange],
    bytes: &'a [u8],
) -> Result<(IndexRange, &'a [u8]), ItemFault>
    ensures read { Gives (λ x. (x.0, x.1.now)) result (range_at entries before.now bytes.now) }
    ensures next { IfOk result (λ x. IsNext entries before.now x.0) }
{
    let (first, rest) = number_at(bytes)?;
    judge(
        is_behind(before, first) && first < entries,
        bytes,
        Rule::Ranges,
    )?;
    let (last, after) = number_at(rest)?;
    judge(first <= last && last < entries, rest, Rule::Ranges)?;
    Ok((IndexRange { first, last }, after))
}

/// Whether a gap lies between the last of some ranges and an index.
fn is_behind(before: &[IndexRange], first: u64) -> bool
    ensures { result ≡ is_behind before.now first }
{
    match before.last() {
        None => true,
        Some(range) => first > 0 && range.last < first - 1,
    }
}

/// The cursor that has the indexes of some ranges.
#[tactic(auto, using(crate::proofs::Gaps::taken_all))]
fn cursor_of(alloc: Global, ranges: &[IndexRange], entries: u64) -> Result<Cursor, Memory>
    requires { AreIn entries ranges.now }
    ensures { IfOk result (λ c. c.indexes ≡ indexes_of ranges.now) }
{
    let mut cursor = Cursor::none(alloc);
    for range in ranges {
        add_range(&mut cursor, *range, entries)?;
    }
    Ok(cursor)
}

/// The indexes of a range that lies after all of a cursor.
#[tactic(auto, using(crate::proofs::Gaps::none_more, crate::proofs::Gaps::one_more, crate::proofs::Gaps::below_more))]
fn add_range(cursor: &mut Cursor, range: IndexRange, entries: u64) -> Result<(), Memory>
    requires behind { AreBelow range.first cursor.old.indexes }
    requires order { range.first ≤ range.last }
    requires within { range.last < entries }
    ensures { OnOk result (cursor.new.indexes ≡ cursor.old.indexes ++ range_with_len range.first (range.last + 1 - range.first)) }
{
    for index in range.first..range.last + 1 {
        add_index(cursor, index, entries)?;
    }
    Ok(())
}

/// One index after all of a cursor.
#[tactic(auto, using(crate::proofs::Gaps::behind_all))]
fn add_index(cursor: &mut Cursor, index: u64, entries: u64) -> Result<(), Memory>
    requires behind { AreBelow index cursor.old.indexes }
    requires within { index < entries }
    ensures { OnOk result (cursor.new.indexes ≡ cursor.old.indexes ++ index ∷ []) }
{
    cursor.reserve(1)?;
    match cursor.ack_one(index, entries) {
        Ok(()) => Ok(()),
        Err(_) => unreachable!(),
    }
}
