//! Reading fields.

ghost use Rattle.std.specs.Prelude.{◌≡◌, ◌≢◌, ◌+◌, ◌*◌, ◌^◌, ◌<◌, ◌++◌, [], List, ℕ, length, IfOk, IfErr, Ok, Err};
ghost use Rattle.std.specs.Int.{w32, w64, to_le_bytes};
ghost use Rattle.pb_fields.specs.declared.field.Field.{Field};
ghost use Rattle.pb_fields.specs.declared.field.WireType.TheVariants as wire;
ghost use Rattle.pb_fields.specs.declared.fault.FieldFault.TheVariants as fault;
ghost use Rattle.pb_fields.specs.Field.{wire_number, HasNumber};
ghost use Rattle.pb_fields.specs.Varint.{TakesVarint};
ghost use Rattle.pb_fields.specs.Text.{TakesValue, TakesField, IsText};
ghost use Rattle.pb_fields.specs.Faults.{BrokenVarint, BrokenValue, BrokenBehind, BrokenField, ForFault, HasFault, IsFaultOf, fault_at, Answers};
ghost use Rattle.pb_fields.specs.declared.fault.FieldFault.{FieldFault};

use crate::fault::{FieldError, FieldFault, PbFault};
use crate::field::{Field, FieldList, Value, WireType};
use geo_base::{Blob, Memory};
use std::alloc::Global;

/// A varint has at most ten bytes; the tenth has the one bit that is left of 64.
const LAST_BYTE: usize = 9;

/// The number at the front of the bytes, and the bytes after it.
pub(crate) fn varint_at(bytes: &[u8]) -> Result<(u64, &[u8]), FieldFault>
    ensures ok { IfOk result (λ x. TakesVarint bytes.now x.0 x.1.now) }
    ensures err { IfErr result (BrokenVarint bytes.now) }
{
    let mut number = 0u64;
    for (index, byte) in bytes.iter().enumerate() {
        if index == LAST_BYTE && *byte > 1 {
            return Err(FieldFault::Varint);
        }
        number += u64::from(*byte & 0x7f) << (7 * index);
        if *byte < 0x80 {
            return Ok((number, &bytes[index + 1..]));
        }
    }
    Err(FieldFault::Truncated)
}

/// Eight bytes, the least first, and the bytes after them.
fn fixed64_at(bytes: &[u8]) -> Result<(u64, &[u8]), FieldFault>
    ensures ok { IfOk result (λ x. (x.0 < 2 ^ 64) × (bytes.now ≡ to_le_bytes w64 x.0 ++ x.1.now)) }
    ensures err { IfErr result (λ why. (why ≡ fault.Truncated) × (length bytes.now < 8)) }
{
    let Some((front, rest)) = bytes.split_first_chunk::<8>() else {
        return Err(FieldFault::Truncated);
    };
    Ok((u64::from_le_bytes(*front), rest))
}

/// Four bytes, the least first, and the bytes after them.
fn fixed32_at(bytes: &[u8]) -> Result<(u32, &[u8]), FieldFault>
    ensures ok { IfOk result (λ x. (x.0 < 2 ^ 32) × (bytes.now ≡ to_le_bytes w32 x.0 ++ x.1.now)) }
    ensures err { IfErr result (λ why. (why ≡ fault.Truncated) × (length bytes.now < 4)) }
{
    let Some((front, rest)) = bytes.split_first_chunk::<4>() else {
        return Err(FieldFault::Truncated);
    };
    Ok((u32::from_le_bytes(*front), rest))
}

/// A length and so many bytes, and the bytes after them.
pub(crate) fn content_at(bytes: &[u8]) -> Result<(&[u8], &[u8]), FieldFault>
    ensures ok { IfOk result (λ x. TakesVarint bytes.now (length x.0.now) (x.0.now ++ x.1.now)) }
    ensures err { IfErr result (BrokenValue wire.Bytes bytes.now) }
{
    let (size, rest) = varint_at(bytes)?;
    if size > rest.len() as u64 {
        return Err(FieldFault::Truncated);
    }
    Ok(rest.split_at(size as usize))
}

/// The value of a wire type at the front of the bytes, and the bytes after it.
fn value_at(alloc: Global, wire: WireType, bytes: &[u8]) -> Result<(Value, &[u8]), FieldError>
    ensures ok { IfOk result (λ x. TakesValue wire bytes.now x.0 x.1.now) }
    ensures err { IfErr result (ForFault (BrokenValue wire bytes.now)) }
{
    match wire {
        WireType::Varint => {
            let (number, rest) = varint_at(bytes)?;
            Ok((Value::Varint(number), rest))
        }
        WireType::Fixed64 => {
            let (number, rest) = fixed64_at(bytes)?;
            Ok((Value::Fixed64(number), rest))
        }
        WireType::Bytes => {
            let (content, rest) = content_at(bytes)?;
            Ok((Value::Bytes(Blob::from_slice(alloc, content)?), rest))
        }
        WireType::Fixed32 => {
            let (number, rest) = fixed32_at(bytes)?;
            Ok((Value::Fixed32(number), rest))
        }
    }
}

/// The number and the wire type that a tag has.
pub(crate) fn number_and_type(tag: u64) -> Result<(u32, WireType), FieldFault>
    ensures ok { IfOk result (λ x. (tag ≡ 8 * x.0 + wire_number x.1) × (0 < x.0) × (x.0 < 2 ^ 29)) }
    ensures err { IfErr result (λ why. (rest : List ℕ) → BrokenBehind tag rest why) }
{
    let Ok(tag) = u32::try_from(tag) else {
        return Err(FieldFault::Varint);
    };
    let Some(wire) = WireType::from_number(tag % 8) else {
        return Err(FieldFault::WireType);
    };
    let number = tag / 8;
    if number == 0 {
        return Err(FieldFault::FieldZero);
    }
    Ok((number, wire))
}

/// The field at the front of the bytes, and the bytes after it.
fn field_at(alloc: Global, bytes: &[u8]) -> Result<(Field, &[u8]), FieldError>
    requires { bytes.now ≢ [] }
    ensures ok { IfOk result (λ x. TakesField bytes.now x.0 x.1.now) }
    ensures err { IfErr result (ForFault (BrokenField bytes.now)) }
{
    let (tag, rest) = varint_at(bytes)?;
    let (number, wire) = number_and_type(tag)?;
    let (value, rest) = value_at(alloc, wire, rest)?;
    Ok((Field { number, value }, rest))
}

/// The fields that the bytes are a text of, in their order.
pub fn read_fields(alloc: Global, bytes: &[u8]) -> Result<FieldList, PbFault>
    // What is read is what the bytes say.
    ensures found { IfOk result (λ fields. IsText bytes.now fields) }
    // What the bytes say is read, unless memory runs out.
    ensures only { (fields : List Field) → IsText bytes.now fields → Answers PbFault.Memory result (Ok fields) }
    // A fault is that of the first field without a reading.
    ensures fault { IfErr result (IsFaultOf bytes.now) }
    // Such a field's fault is answered, unless memory runs out.
    ensures refused { (why : FieldFault) (at : ℕ) → HasFault bytes.now why at → Answers PbFault.Memory result (Err (fault_at why at)) }
{
    all_fields(alloc, bytes)
}

/// An empty list for the fields of the bytes. Where there are none, it takes no memory.
fn list_for(alloc: Global, bytes: &[u8]) -> Result<FieldList, Memory>
    ensures { IfOk result (λ fields. fields ≡ []) }
{
    if bytes.is_empty() {
        return Ok(FieldList::new(alloc));
    }
    FieldList::with_common_room(alloc)
}

/// Reads field after field.
fn all_fields(alloc: Global, bytes: &[u8]) -> Result<FieldList, PbFault>
    ensures found { IfOk result (λ fields. IsText bytes.now fields) }
    ensures fault { IfErr result (IsFaultOf bytes.now) }
{
    let mut fields = list_for(alloc, bytes)?;
    let mut rest = bytes;
    while !rest.is_empty() {
        match field_at(alloc, rest) {
            Ok((field, after)) => {
                fields.push(field)?;
                rest = after;
            }
            Err(FieldError::Fault(why)) => return Err(why.at(bytes.len() - rest.len())),
            Err(FieldError::Memory) => return Err(PbFault::Memory),
        }
    }
    Ok(fields)
}
