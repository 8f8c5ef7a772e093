//! What the fields of a message say.

ghost use Rattle.std.specs.Prelude.{◌≡◌, ◌≢◌, ℕ, List, Some, true, false, is_none, IsUtf8, MatchOption};
ghost use Rattle.std.specs.Option.{option_copied, option_map};
ghost use Rattle.std.specs.List.{AllByRecursion};
ghost use Rattle.pb_fields.specs.declared.field.Value.TheVariants as value;
ghost use Rattle.pb_fields.specs.declared.message.Form.TheVariants as form;
ghost use Rattle.pb_fields.specs.Message.{row_of, IsMessage, IsRow, IsUnknown, last_value, unknown};

use crate::field::{Field, FieldList, Value};
use crate::message::{Row, row_of};

/// The last value of a number, the one that counts where the field is not repeated.
pub fn last_value(fields: &[Field], number: u32) -> Option<&Value>
    ensures { option_copied result ≡ last_value number fields.now }
{
    let mut last = None;
    for field in fields {
        if field.number == number {
            last = Some(&field.value);
        }
    }
    last
}

/// The last number of a field, where its last value is a varint.
pub fn last_varint(fields: &[Field], number: u32) -> Option<u64>
    ensures { MatchOption result ((n : ℕ) → last_value number fields.now ≢ Some (value.Varint n)) (λ n. last_value number fields.now ≡ Some (value.Varint n)) }
{
    last_value(fields, number)?.as_varint()
}

/// The last text of a field, where its last value is a text in UTF-8.
pub fn last_text(fields: &[Field], number: u32) -> Option<&str>
    ensures { MatchOption result ((b : List ℕ) → IsUtf8 b → last_value number fields.now ≢ Some (value.Bytes b)) (λ b. last_value number fields.now ≡ Some (value.Bytes b.now)) }
{
    last_value(fields, number)?.as_text()
}

/// The text of a required field of a message.
pub fn required_text<'a>(rows: &[Row], fields: &'a [Field], number: u32) -> &'a str
    requires message { IsMessage rows.now fields.now }
    requires row { IsRow rows.now number form.Text true }
    ensures { last_value number fields.now ≡ Some (value.Bytes result.now) }
{
    match last_text(fields, number) {
        Some(text) => text,
        None => unreachable!(),
    }
}

/// The text of a field of a message, where it is there.
pub fn optional_text<'a>(rows: &[Row], fields: &'a [Field], number: u32) -> Option<&'a str>
    requires message { IsMessage rows.now fields.now }
    requires row { IsRow rows.now number form.Text false }
    ensures { last_value number fields.now ≡ option_map value.Bytes (option_copied result) }
{
    last_text(fields, number)
}

/// The number of a required field of a message.
pub fn required_varint(rows: &[Row], fields: &[Field], number: u32) -> u64
    requires message { IsMessage rows.now fields.now }
    requires row { IsRow rows.now number form.Varint true }
    ensures { last_value number fields.now ≡ Some (value.Varint result) }
{
    match last_varint(fields, number) {
        Some(varint) => varint,
        None => unreachable!(),
    }
}

/// The number of a field of a message, where it is there.
pub fn optional_varint(rows: &[Row], fields: &[Field], number: u32) -> Option<u64>
    requires message { IsMessage rows.now fields.now }
    requires row { IsRow rows.now number form.Varint false }
    ensures { last_value number fields.now ≡ option_map value.Varint result }
{
    last_varint(fields, number)
}

/// Keeps the fields whose numbers are in no row, in their order. It takes no memory.
pub fn keep_unknown(fields: &mut FieldList, rows: &[Row])
    ensures kept { fields.new ≡ unknown rows.now fields.old }
    ensures unknown { AllByRecursion (IsUnknown rows.now) fields.new }
{
    retain_unknown(&mut fields.fields, rows)
}

fn retain_unknown(fields: &mut Vec<Field>, rows: &[Row])
    ensures { fields.new.items ≡ unknown rows.now fields.old.items }
{
    fields.retain(|field| is_unknown(rows, field));
}

fn is_unknown(rows: &[Row], field: &Field) -> bool
    ensures { result ≡ is_none (row_of rows.now field.now.number) }
{
    row_of(rows, field.number).is_none()
}
