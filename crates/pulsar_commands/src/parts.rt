//! The parts of a command: what one field says, read and written.

ghost use Rattle.std.specs.Prelude.{◌≡◌, ◌<◌, ℕ, Some, true, false, IfOk, OnOk, OnErr};
ghost use Rattle.pb_fields.specs.declared.field.Value.TheVariants as value;
ghost use Rattle.pb_fields.specs.declared.message.Form.TheVariants as form;
ghost use Rattle.pb_fields.specs.Field.{IsFieldNumber};
ghost use Rattle.pb_fields.specs.Message.{IsMessage, IsRow, last_value};
ghost use Rattle.pulsar_commands.specs.Part as part;
ghost use Rattle.pulsar_commands.specs.Part.{Says};
ghost use Rattle.pulsar_commands.specs.Canonical.{WritesPart};

use geo_base::{Blob, Memory, Text};
use pb_fields::message::{Row, optional_text, optional_varint, required_text};
use pb_fields::{Field, write_bytes, write_optional_varint, write_varint};
use std::alloc::Global;

/// A copy of the text of a required field.
pub(crate) fn text(
    alloc: Global,
    rows: &[Row],
    fields: &[Field],
    number: u32,
) -> Result<Text, Memory>
    requires message { IsMessage rows.now fields.now }
    requires row { IsRow rows.now number form.Text true }
    ensures { IfOk result (λ t. Says fields.now (part.text number t)) }
{
    Text::from_str(alloc, required_text(rows, fields, number))
}

/// A copy of the text of a field that need not be there.
pub(crate) fn text_where_there(
    alloc: Global,
    rows: &[Row],
    fields: &[Field],
    number: u32,
) -> Result<Option<Text>, Memory>
    requires message { IsMessage rows.now fields.now }
    requires row { IsRow rows.now number form.Text false }
    ensures { IfOk result (λ t. Says fields.now (part.optional_text number t)) }
{
    match optional_text(rows, fields, number) {
        None => Ok(None),
        Some(text) => Ok(Some(Text::from_str(alloc, text)?)),
    }
}

/// The number of a field, or another where it is absent.
pub(crate) fn number_or(rows: &[Row], fields: &[Field], number: u32, absent: u64) -> u64
    requires message { IsMessage rows.now fields.now }
    requires row { IsRow rows.now number form.Varint false }
    ensures { Says fields.now (part.number_or number absent result) }
{
    match optional_varint(rows, fields, number) {
        Some(varint) => varint,
        None => absent,
    }
}

/// Whether a number is there and not 0.
pub(crate) fn flag(rows: &[Row], fields: &[Field], number: u32) -> bool
    requires message { IsMessage rows.now fields.now }
    requires row { IsRow rows.now number form.Varint false }
    ensures { Says fields.now (part.flag number result) }
{
    match optional_varint(rows, fields, number) {
        Some(varint) => varint > 0,
        None => false,
    }
}

/// Appends a text.
pub(crate) fn append_text(out: &mut Blob, number: u32, content: &Text) -> Result<(), Memory>
    requires { IsFieldNumber number }
    ensures { OnOk result (WritesPart out.old (part.text number content.now) out.new) }
{
    write_bytes(out, number, content.as_str().as_bytes())
}

/// Appends a text where there is one.
pub(crate) fn append_optional_text(
    out: &mut Blob,
    number: u32,
    content: &Option<Text>,
) -> Result<(), Memory>
    requires { IsFieldNumber number }
    ensures { OnOk result (WritesPart out.old (part.optional_text number content.now) out.new) }
{
    match content {
        None => Ok(()),
        Some(content) => append_text(out, number, content),
    }
}

/// Appends a number.
pub(crate) fn append_number(out: &mut Blob, number: u32, value: u64) -> Result<(), Memory>
    requires { IsFieldNumber number }
    ensures ok { OnOk result (WritesPart out.old (part.number number value) out.new) }
    ensures err { OnErr result (out.new ≡ out.old) }
{
    write_varint(out, number, value)
}

/// Appends a number where there is one.
pub(crate) fn append_optional_number(
    out: &mut Blob,
    number: u32,
    value: Option<u64>,
) -> Result<(), Memory>
    requires { IsFieldNumber number }
    ensures { OnOk result (WritesPart out.old (part.optional_number number value) out.new) }
{
    write_optional_varint(out, number, value)
}

/// Appends a flag as 0 or 1.
pub(crate) fn append_flag(out: &mut Blob, number: u32, flag: bool) -> Result<(), Memory>
    requires { IsFieldNumber number }
    ensures { OnOk result (WritesPart out.old (part.flag number flag) out.new) }
{
    write_varint(out, number, u64::from(flag))
}
