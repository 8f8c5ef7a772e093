//! Writing fields, each varint as short as can be.

ghost use Rattle.std.specs.Prelude.{◌≡◌, ◌+◌, ◌*◌, ◌<◌, ◌^◌, ◌++◌, ◌∷◌, [], take, length, is_ok, OnOk, OnErr};
ghost use Rattle.std.specs.List.{AllByRecursion};
ghost use Rattle.pb_fields.specs.Field.{IsFieldNumber, HasNumber, Fits, IsField, wire_number, varint_field, bytes_field};
ghost use Rattle.pb_fields.specs.Canonical.{varint, value_text, field_text, head_text, text, optional, Extends};

use crate::field::{Field, FieldList, Value, WireType};
use geo_base::{Blob, Memory};

/// Fields below this number have tags of one byte (Protocol Buffers encoding, "Message Structure").
const LONG_TAGS: u32 = 16;

/// Numbers below this are varints of one byte (Protocol Buffers encoding, "Base 128 Varints").
const LONG_VARINTS: u64 = 0x80;

/// Appends the shortest varint of a number.
fn push_varint(out: &mut Blob, number: u64) -> Result<(), Memory>
    ensures ok { OnOk result (out.new ≡ out.old ++ varint number) }
    ensures begins { Extends out.old out.new }
{
    let mut rest = number;
    while rest >= LONG_VARINTS {
        out.push(0x80 | (rest & 0x7f) as u8)?;
        rest >>= 7;
    }
    out.push(rest as u8)?;
    Ok(())
}

/// Appends the tag of a field.
fn push_tag(out: &mut Blob, number: u32, wire: WireType) -> Result<(), Memory>
    requires { number < 2 ^ 29 }
    ensures ok { OnOk result (out.new ≡ out.old ++ varint (8 * number + wire_number wire)) }
    ensures begins { Extends out.old out.new }
{
    push_varint(out, u64::from(8 * number + wire.number()))
}

/// Appends a value's text.
fn push_value(out: &mut Blob, value: &Value) -> Result<(), Memory>
    ensures ok { OnOk result (out.new ≡ out.old ++ value_text value.now) }
    ensures fits { OnOk result (Fits value.now) }
    ensures begins { Extends out.old out.new }
{
    match value {
        Value::Varint(number) => push_varint(out, *number),
        Value::Fixed64(number) => out.append(&number.to_le_bytes()),
        Value::Bytes(content) => push_bytes(out, content.as_slice()),
        Value::Fixed32(number) => out.append(&number.to_le_bytes()),
    }
}

/// Appends a length and so many bytes.
fn push_bytes(out: &mut Blob, content: &[u8]) -> Result<(), Memory>
    ensures ok { OnOk result (out.new ≡ out.old ++ (varint (length content.now) ++ content.now)) }
    ensures begins { Extends out.old out.new }
{
    push_varint(out, content.len() as u64)?;
    out.append(content)
}

/// Appends a field's text.
fn push_field(out: &mut Blob, field: &Field) -> Result<(), Memory>
    requires { HasNumber field.now }
    ensures ok { OnOk result (out.new ≡ out.old ++ field_text field.now) }
    ensures field { OnOk result (IsField field.now) }
    ensures begins { Extends out.old out.new }
{
    push_tag(out, field.number, field.value.wire_type())?;
    push_value(out, &field.value)
}

/// Takes back what was appended after the first `before` bytes where the writing stopped for want of memory.
fn all_or_nothing(out: &mut Blob, before: usize, written: Result<(), Memory>) -> Result<(), Memory>
    ensures ok { OnOk result (out.new ≡ out.old) }
    ensures err { OnErr result (out.new ≡ take before out.old) }
    ensures same { is_ok result ≡ is_ok written }
{
    if written.is_err() {
        out.truncate(before);
        return Err(Memory);
    }
    Ok(())
}

/// Appends the canonical text of a field: its varints as short as can be. Want of memory leaves the bytes as they
/// were.
pub fn write_field(out: &mut Blob, field: &Field) -> Result<(), Memory>
    requires { HasNumber field.now }
    ensures ok { OnOk result (out.new ≡ out.old ++ field_text field.now) }
    ensures field { OnOk result (IsField field.now) }
    ensures err { OnErr result (out.new ≡ out.old) }
{
    let before = out.len();
    let written = push_field(out, field);
    all_or_nothing(out, before, written)
}

/// Appends the canonical text of a field whose value is a varint, as `write_field` does.
#[tactic(auto, using(crate::proofs::Short::varint_written))]
pub fn write_varint(out: &mut Blob, number: u32, value: u64) -> Result<(), Memory>
    requires { IsFieldNumber number }
    ensures ok { OnOk result (out.new ≡ out.old ++ field_text (varint_field number value)) }
    ensures field { OnOk result (IsField (varint_field number value)) }
    ensures err { OnErr result (out.new ≡ out.old) }
{
    if number < LONG_TAGS && value < LONG_VARINTS {
        return out.push_pair((8 * number) as u8, value as u8);
    }
    let before = out.len();
    let written = push_varint_field(out, number, value);
    all_or_nothing(out, before, written)
}

fn push_varint_field(out: &mut Blob, number: u32, value: u64) -> Result<(), Memory>
    requires { IsFieldNumber number }
    ensures ok { OnOk result (out.new ≡ out.old ++ field_text (varint_field number value)) }
    ensures begins { Extends out.old out.new }
{
    push_tag(out, number, WireType::Varint)?;
    push_varint(out, value)
}

/// Appends the canonical text of a field whose value is a text, an embedded message or bytes, as `write_field` does.
pub fn write_bytes(out: &mut Blob, number: u32, content: &[u8]) -> Result<(), Memory>
    requires { IsFieldNumber number }
    ensures ok { OnOk result (out.new ≡ out.old ++ field_text (bytes_field number content.now)) }
    ensures field { OnOk result (IsField (bytes_field number content.now)) }
    ensures err { OnErr result (out.new ≡ out.old) }
{
    let before = out.len();
    let written = push_bytes_field(out, number, content);
    all_or_nothing(out, before, written)
}

fn push_bytes_field(out: &mut Blob, number: u32, content: &[u8]) -> Result<(), Memory>
    requires { IsFieldNumber number }
    ensures ok { OnOk result (out.new ≡ out.old ++ field_text (bytes_field number content.now)) }
    ensures begins { Extends out.old out.new }
{
    push_head(out, number, content.len())?;
    out.append(content)
}

/// Appends what precedes the content of a field, its tag and its length, as `write_field` does; so the content of an embedded
/// message is written after it, and is not copied.
pub fn write_head(out: &mut Blob, number: u32, len: usize) -> Result<(), Memory>
    requires { IsFieldNumber number }
    ensures ok { OnOk result (out.new ≡ out.old ++ head_text number len) }
    ensures err { OnErr result (out.new ≡ out.old) }
{
    let before = out.len();
    let written = push_head(out, number, len);
    all_or_nothing(out, before, written)
}

#[tactic(auto, using(crate::proofs::Short::head_written))]
fn push_head(out: &mut Blob, number: u32, len: usize) -> Result<(), Memory>
    requires { IsFieldNumber number }
    ensures ok { OnOk result (out.new ≡ out.old ++ head_text number len) }
    ensures begins { Extends out.old out.new }
{
    if number < LONG_TAGS && (len as u64) < LONG_VARINTS {
        return out.push_pair((8 * number + WireType::Bytes.number()) as u8, len as u8);
    }
    push_tag(out, number, WireType::Bytes)?;
    push_varint(out, len as u64)
}

/// Appends the canonical text of a varint's field, where there is a value.
pub fn write_optional_varint(out: &mut Blob, number: u32, value: Option<u64>) -> Result<(), Memory>
    requires { IsFieldNumber number }
    ensures ok { OnOk result (out.new ≡ out.old ++ text (optional (varint_field number) value)) }
    ensures fields { OnOk result (AllByRecursion IsField (optional (varint_field number) value)) }
    ensures err { OnErr result (out.new ≡ out.old) }
{
    match value {
        None => Ok(()),
        Some(value) => write_varint(out, number, value),
    }
}

/// Appends the canonical texts of fields, as `write_field` does.
pub fn write_fields(out: &mut Blob, fields: &FieldList) -> Result<(), Memory>
    ensures ok { OnOk result (out.new ≡ out.old ++ text fields.now) }
    ensures fields { OnOk result (AllByRecursion IsField fields.now) }
    ensures err { OnErr result (out.new ≡ out.old) }
{
    let before = out.len();
    let written = push_fields(out, fields.as_slice());
    all_or_nothing(out, before, written)
}

fn push_fields(out: &mut Blob, fields: &[Field]) -> Result<(), Memory>
    requires { AllByRecursion HasNumber fields.now }
    ensures ok { OnOk result (out.new ≡ out.old ++ text fields.now) }
    ensures fields { OnOk result (AllByRecursion IsField fields.now) }
    ensures begins { Extends out.old out.new }
{
    for field in fields {
        push_field(out, field)?;
    }
    Ok(())
}
