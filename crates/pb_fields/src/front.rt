//! The field at the front of the bytes, where it is the one that is looked for: its number is below 16, so that its tag is one
//! byte (Protocol Buffers encoding, "Message Structure"). Nothing is copied; None says nothing of the bytes.

ghost use Rattle.std.specs.Prelude.{◌<◌, ◌∷◌, ◌++◌, [], length, IfSome, IsUtf8};
ghost use Rattle.std.specs.Option.{option_copied};
ghost use Rattle.pb_fields.specs.Canonical.{optional};
ghost use Rattle.pb_fields.specs.Field.{bytes_field, varint_field};
ghost use Rattle.pb_fields.specs.Front.{Fronts, IsShortNumber};
ghost use Rattle.pb_fields.specs.Varint.{TakesVarint};

use crate::read::varint_at;

/// The wire type of a length and so many bytes; that of a varint is 0. A tag is eight times the number and the wire type.
const LEN: u32 = 2;

/// A byte of a varint from here on says that another follows (Protocol Buffers encoding, "Base 128 Varints").
const GOES_ON: u8 = 0x80;

/// The varint of the field of a number, and the bytes after the field.
pub fn front_varint(number: u32, bytes: &[u8]) -> Option<(u64, &[u8])>
    requires { IsShortNumber number }
    ensures { IfSome result (λ x. Fronts bytes.now (varint_field number x.0 ∷ []) x.1.now) }
{
    let (tag, rest) = bytes.split_first()?;
    if u32::from(*tag) == 8 * number {
        varint_of(rest)
    } else {
        None
    }
}

/// The content of the field of a number, and the bytes after the field.
pub fn front_bytes(number: u32, bytes: &[u8]) -> Option<(&[u8], &[u8])>
    requires { IsShortNumber number }
    ensures { IfSome result (λ x. Fronts bytes.now (bytes_field number x.0.now ∷ []) x.1.now) }
{
    let (tag, rest) = bytes.split_first()?;
    if u32::from(*tag) == 8 * number + LEN {
        content_of(rest)
    } else {
        None
    }
}

/// The same of a text in UTF-8.
pub fn front_text(number: u32, bytes: &[u8]) -> Option<(&str, &[u8])>
    requires { IsShortNumber number }
    ensures takes { IfSome result (λ x. Fronts bytes.now (bytes_field number x.0.now ∷ []) x.1.now) }
    ensures utf8 { IfSome result (λ x. IsUtf8 x.0.now) }
{
    let (content, after) = front_bytes(number, bytes)?;
    match str::from_utf8(content) {
        Ok(text) => Some((text, after)),
        Err(_) => None,
    }
}

/// The same of a field that need not be there.
#[tactic(auto, using(crate::proofs::Fronts::absent_fronts))]
pub fn front_optional_text(number: u32, bytes: &[u8]) -> Option<(Option<&str>, &[u8])>
    requires { IsShortNumber number }
    ensures takes { IfSome result (λ x. Fronts bytes.now (optional (bytes_field number) (option_copied x.0)) x.1.now) }
    ensures utf8 { IfSome result (λ x. IfSome (option_copied x.0) IsUtf8) }
{
    match bytes {
        [tag, ..] if u32::from(*tag) == 8 * number + LEN => {
            let (text, after) = front_text(number, bytes)?;
            Some((Some(text), after))
        }
        _ => Some((None, bytes)),
    }
}

/// The varint at the front of the bytes, and the bytes after it. Most have one byte, which is not walked over.
#[tactic(auto, using(crate::proofs::Fronts::one_byte))]
fn varint_of(bytes: &[u8]) -> Option<(u64, &[u8])>
    ensures { IfSome result (λ x. TakesVarint bytes.now x.0 x.1.now) }
{
    let (low, rest) = bytes.split_first()?;
    if *low < GOES_ON {
        return Some((u64::from(*low), rest));
    }
    match varint_at(bytes) {
        Ok((varint, after)) => Some((varint, after)),
        Err(_) => None,
    }
}

/// A length and so many bytes, and the bytes after them.
fn content_of(bytes: &[u8]) -> Option<(&[u8], &[u8])>
    ensures { IfSome result (λ x. TakesVarint bytes.now (length x.0.now) (x.0.now ++ x.1.now)) }
{
    let (size, rest) = varint_of(bytes)?;
    if size > rest.len() as u64 {
        return None;
    }
    Some(rest.split_at(size as usize))
}
