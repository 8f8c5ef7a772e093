//! Bytes that are two fields and nothing more, looked at in their place.

ghost use Rattle.std.specs.Prelude.{◌≡◌, ℕ, ◌+◌, ◌*◌, ◌<◌, ◌^◌, List, ◌∷◌, [], MatchOption};
ghost use Rattle.pb_fields.specs.declared.field.Field.{Field};
ghost use Rattle.pb_fields.specs.Field.{bytes_field, varint_field, wire_number, wire_type};
ghost use Rattle.pb_fields.specs.Text.{TakesField, IsText};
ghost use Rattle.pb_fields.specs.Varint.{TakesVarint};

use crate::field::WireType;
use crate::read::{content_at, number_and_type, varint_at};

/// A field with a varint, and a field with a length after it. They take no memory.
#[derive(Clone, Copy)]
pub struct FieldPair<'a> {
    /// The number of the first field.
    pub first: u32,
    /// The varint in it.
    pub varint: u64,
    /// The number of the second field.
    pub second: u32,
    /// What it holds.
    pub content: &'a [u8],
}

/// The number of the field at the front of the bytes, where it is of a wire type, and the bytes after its tag.
fn tag_of(bytes: &[u8], wire: WireType) -> Option<(u32, &[u8])>
    ensures { MatchOption result
        ((f : Field) (rest : List ℕ) → wire_type f.value ≡ wire → TakesField bytes.now f rest → ⊥)
        (λ x. TakesVarint bytes.now (8 * x.0 + wire_number wire) x.1.now × (0 < x.0) × (x.0 < 2 ^ 29)) }
{
    let Ok((tag, rest)) = varint_at(bytes) else {
        return None;
    };
    let Ok((number, found)) = number_and_type(tag) else {
        return None;
    };
    if found.number() != wire.number() {
        return None;
    }
    Some((number, rest))
}

/// The field with a varint at the front of the bytes, and the bytes after it.
fn varint_field_at(bytes: &[u8]) -> Option<(u32, u64, &[u8])>
    ensures { MatchOption result
        ((number varint : ℕ) (rest : List ℕ) → TakesField bytes.now (varint_field number varint) rest → ⊥)
        (λ x. TakesField bytes.now (varint_field x.0 x.1) x.2.now) }
{
    let (number, rest) = tag_of(bytes, WireType::Varint)?;
    let Ok((varint, rest)) = varint_at(rest) else {
        return None;
    };
    Some((number, varint, rest))
}

/// The field with a length at the front of the bytes, and the bytes after it.
fn bytes_field_at(bytes: &[u8]) -> Option<(u32, &[u8], &[u8])>
    ensures { MatchOption result
        ((number : ℕ) (content rest : List ℕ) → TakesField bytes.now (bytes_field number content) rest → ⊥)
        (λ x. TakesField bytes.now (bytes_field x.0 x.1.now) x.2.now) }
{
    let (number, rest) = tag_of(bytes, WireType::Bytes)?;
    let Ok((content, rest)) = content_at(rest) else {
        return None;
    };
    Some((number, content, rest))
}

/// The two fields that the bytes are a text of, where they are a varint and then a content; None for any other bytes.
pub fn field_pair(bytes: &[u8]) -> Option<FieldPair<'_>>
    ensures { MatchOption result
        ((first varint second : ℕ) (content : List ℕ) → IsText bytes.now (varint_field first varint ∷ bytes_field second content ∷ []) → ⊥)
        (λ pair. IsText bytes.now (varint_field pair.first pair.varint ∷ bytes_field pair.second pair.content.now ∷ [])) }
{
    let (first, varint, rest) = varint_field_at(bytes)?;
    let (second, content, rest) = bytes_field_at(rest)?;
    if !rest.is_empty() {
        return None;
    }
    Some(FieldPair {
        first,
        varint,
        second,
        content,
    })
}
