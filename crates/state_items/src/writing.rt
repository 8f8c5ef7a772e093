//! Items as texts.
ghost use Rattle.std.specs.Prelude.{◌≡◌, ◌<◌, ◌^◌, ◌++◌, ◌∷◌, ◌≤◌, [], length, IfNone, IfSome, OnErr, OnOk, take};
ghost use Rattle.std.specs.List.{flat_map};
ghost use Rattle.cursor_acks.specs.Acks.{AreBelow};
ghost use Rattle.state_items.specs.Texts.{cursor, number, range, text, word};

use cursor_acks::{Cursor, IndexRange, RangeList};
use geo_base::{Blob, Memory};

/// Appends a number as eight bytes.
#[tactic(auto, unfolding(crate::specs::Texts::number))]
pub fn put_number(out: &mut Blob, n: u64) -> Result<(), Memory>
    ensures ok { OnOk result (out.new ≡ out.old ++ number n) }
    ensures err { OnErr result (out.new ≡ out.old) }
{
    out.append(&n.to_be_bytes())
}

/// Appends one byte.
pub fn put_byte(out: &mut Blob, byte: u8) -> Result<(), Memory>
    ensures ok { OnOk result (out.new ≡ out.old ++ byte ∷ []) }
    ensures err { OnErr result (out.new ≡ out.old) }
{
    out.append(&[byte])
}

/// Appends a number as four bytes.
#[tactic(auto, unfolding(crate::specs::Texts::word))]
pub fn put_word(out: &mut Blob, n: u32) -> Result<(), Memory>
    ensures ok { OnOk result (out.new ≡ out.old ++ word n) }
    ensures err { OnErr result (out.new ≡ out.old) }
{
    out.append(&n.to_be_bytes())
}

/// Appends a text after its length. A text of 2^32 bytes, whose length has no four bytes, counts as want of memory.
pub fn put_text(out: &mut Blob, content: &[u8]) -> Result<(), Memory>
    ensures text { OnOk result (out.new ≡ out.old ++ text content.now) }
    ensures short { OnOk result (length content.now < 2 ^ 32) }
    ensures err { OnErr result (take (length out.old) out.new ≡ out.old) }
{
    let Some(len) = text_len(content) else {
        return Err(Memory);
    };
    put_word(out, len)?;
    out.append(content)
}

/// How many bytes a text has, where four bytes tell it; `None` exactly where it has 2^32 or more.
fn text_len(content: &[u8]) -> Option<u32>
    ensures len { IfSome result (λ n. n ≡ length content.now) }
    ensures none { IfNone result (2 ^ 32 ≤ length content.now) }
{
    match u32::try_from(content.len()) {
        Ok(len) => Some(len),
        Err(_) => None,
    }
}

/// Appends the ranges of a cursor over a topic of `entries` entries.
#[tactic(auto, using(crate::proofs::Runs::cursor_text))]
pub fn put_cursor(out: &mut Blob, written: &Cursor, entries: u64) -> Result<(), Memory>
    requires { AreBelow entries written.now.indexes }
    ensures ok { OnOk result (out.new ≡ out.old ++ cursor entries written.now.indexes) }
    ensures err { OnErr result (take (length out.old) out.new ≡ out.old) }
{
    written.is_told_by_ranges();
    put_ranges(out, written.ranges())
}

/// Appends a list of ranges.
fn put_ranges(out: &mut Blob, ranges: &RangeList) -> Result<(), Memory>
    requires { length ranges.now.list < 2 ^ 64 }
    ensures ok { OnOk result (out.new ≡ out.old ++ (number (length ranges.now.list) ++ flat_map range ranges.now.list)) }
    ensures err { OnErr result (take (length out.old) out.new ≡ out.old) }
{
    put_number(out, ranges.len() as u64)?;
    put_each(out, ranges)
}

/// Appends ranges one after the other.
fn put_each(out: &mut Blob, ranges: &RangeList) -> Result<(), Memory>
    ensures ok { OnOk result (out.new ≡ out.old ++ flat_map range ranges.now.list) }
    ensures err { OnErr result (take (length out.old) out.new ≡ out.old) }
{
    for each in ranges.iter() {
        put_range(out, each)?;
    }
    Ok(())
}

fn put_range(out: &mut Blob, written: IndexRange) -> Result<(), Memory>
    ensures ok { OnOk result (out.new ≡ out.old ++ range written) }
    ensures err { OnErr result (take (length out.old) out.new ≡ out.old) }
{
    put_number(out, written.first)?;
    put_number(out, written.last)
}
