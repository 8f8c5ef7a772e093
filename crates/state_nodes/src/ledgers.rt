//! The lengths of a topic's ledgers.
ghost use Rattle.std.specs.Prelude.{◌≡◌, ◌==◌, []};
ghost use Rattle.std.specs.List.{sum};
ghost use Rattle.state_items.specs.Reading.{Gives, many};
ghost use Rattle.state_nodes.specs.Ledgers.{entry_count, ledgers_at, length_at};

use state_items::{ItemFault, Rule, judge, number_at, number_within};
use std::alloc::Global;

/// The lengths of ledgers that take `per_ledger` entries each.
#[tactic(auto, unfolding(crate::specs::Ledgers::ledgers_at))]
pub(crate) fn ledgers_at(
    alloc: Global,
    per_ledger: u64,
    bytes: &[u8],
) -> Result<(Vec<u64>, &[u8]), ItemFault>
    ensures { Gives (λ x. (x.0.items, x.1.now)) result (ledgers_at per_ledger bytes.now) }
{
    let (count, rest) = number_at(bytes)?;
    judge(count > 0, bytes, Rule::Ledgers)?;
    counted_ledgers(alloc, per_ledger, count, rest)
}

/// The lengths of so many ledgers.
fn counted_ledgers(
    alloc: Global,
    per_ledger: u64,
    count: u64,
    bytes: &[u8],
) -> Result<(Vec<u64>, &[u8]), ItemFault>
    ensures { Gives (λ x. (x.0.items, x.1.now)) result (many (length_at per_ledger) count [] bytes.now) }
{
    let mut lengths: Vec<u64> = Vec::new(alloc);
    let mut rest = bytes;
    for _ in 0..count {
        let (length, after) = number_within(rest, per_ledger, Rule::Ledgers)?;
        lengths.push(length)?;
        rest = after;
    }
    Ok((lengths, rest))
}

/// How many entries there are.
#[tactic(auto, unfolding(crate::specs::Ledgers::entry_count))]
pub(crate) fn entry_count<'a>(
    lengths: &[u64],
    bytes: &'a [u8],
) -> Result<(u64, &'a [u8]), ItemFault>
    ensures count { Gives (λ x. (x.0, x.1.now)) result (entry_count lengths.now bytes.now) }
{
    let (count, rest) = number_at(bytes)?;
    judge(have_together(lengths, count), bytes, Rule::Ledgers)?;
    Ok((count, rest))
}

/// Whether ledgers have so many entries together.
#[tactic(auto, using(crate::proofs::Sums::more, crate::proofs::Sums::too_many, crate::proofs::Sums::all_))]
fn have_together(lengths: &[u64], count: u64) -> bool
    ensures { result ≡ (sum lengths.now == count) }
{
    let mut left = count;
    for length in lengths {
        if *length > left {
            return false;
        }
        left -= *length;
    }
    left == 0
}
