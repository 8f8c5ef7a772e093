//! Numbers and texts.
ghost use Rattle.std.specs.Prelude.{◌≡◌, ◌≤◌, true, length, IfOk, OnOk};
ghost use Rattle.state_items.specs.Reading.{Gives, byte_at, judge, number_at, number_within, text_at, word_at};

use crate::fault::ItemFault;
use crate::rule::Rule;

/// Eight bytes as a number, the greatest first.
#[tactic(auto, unfolding(crate::specs::Reading::number_at))]
pub fn number_at(bytes: &[u8]) -> Result<(u64, &[u8]), ItemFault>
    ensures read { Gives (λ x. (x.0, x.1.now)) result (number_at bytes.now) }
    ensures shorter { IfOk result (λ x. length x.1.now ≤ length bytes.now) }
{
    let Some((front, rest)) = bytes.split_first_chunk::<8>() else {
        return Err(ItemFault::at(bytes, Rule::Whole));
    };
    Ok((u64::from_be_bytes(*front), rest))
}

/// Four bytes as a number, the greatest first.
#[tactic(auto, unfolding(crate::specs::Reading::word_at))]
pub fn word_at(bytes: &[u8]) -> Result<(u32, &[u8]), ItemFault>
    ensures read { Gives (λ x. (x.0, x.1.now)) result (word_at bytes.now) }
    ensures shorter { IfOk result (λ x. length x.1.now ≤ length bytes.now) }
{
    let Some((front, rest)) = bytes.split_first_chunk::<4>() else {
        return Err(ItemFault::at(bytes, Rule::Whole));
    };
    Ok((u32::from_be_bytes(*front), rest))
}

/// One byte.
pub fn byte_at(bytes: &[u8]) -> Result<(u8, &[u8]), ItemFault>
    ensures { Gives (λ x. (x.0, x.1.now)) result (byte_at bytes.now) }
{
    match bytes {
        [] => Err(ItemFault::at(bytes, Rule::Whole)),
        [byte, rest @ ..] => Ok((*byte, rest)),
    }
}

/// A length of four bytes, and so many bytes after it.
#[tactic(auto, unfolding(crate::specs::Reading::text_at))]
pub fn text_at(bytes: &[u8]) -> Result<(&[u8], &[u8]), ItemFault>
    ensures { Gives (λ x. (x.0.now, x.1.now)) result (text_at bytes.now) }
{
    let (len, rest) = word_at(bytes)?;
    let len = len as usize;
    if rest.len() < len {
        return Err(ItemFault::at(bytes, Rule::Whole));
    }
    Ok(rest.split_at(len))
}

/// The item at the front of the bytes keeps a rule exactly where a test of it holds.
pub fn judge(holds: bool, item: &[u8], rule: Rule) -> Result<(), ItemFault>
    ensures judged { Gives (λ x. x) result (judge holds item.now rule) }
    ensures holds { OnOk result (holds ≡ true) }
{
    if holds {
        Ok(())
    } else {
        Err(ItemFault::at(item, rule))
    }
}

/// A number that is at most `most`; a greater one breaks the rule.
#[tactic(auto, unfolding(crate::specs::Reading::number_within))]
pub fn number_within(bytes: &[u8], most: u64, rule: Rule) -> Result<(u64, &[u8]), ItemFault>
    ensures { Gives (λ x. (x.0, x.1.now)) result (number_within most rule bytes.now) }
{
    let (number, rest) = number_at(bytes)?;
    judge(number <= most, bytes, rule)?;
    Ok((number, rest))
}
