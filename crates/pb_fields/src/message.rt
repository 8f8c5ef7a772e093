//! Messages over fields: a table of rows says which fields a message has, and what they hold.

ghost use Rattle.std.specs.Prelude.{◌≡◌, ◌≢◌, ◌↔◌, ℕ, min, List, Some, is_none, IsTrue, IsUtf8, MatchOption, IfOk, OnOk, IfErr, Ok, Err};
ghost use Rattle.std.specs.Option.{option_copied, option_map_or};
ghost use Rattle.pb_fields.specs.declared.field.Field.{Field};
ghost use Rattle.pb_fields.specs.declared.field.Value.TheVariants as value;
ghost use Rattle.pb_fields.specs.declared.message.Form.TheVariants as form;
ghost use Rattle.pb_fields.specs.declared.message.MessageFault.{MessageFault};
ghost use Rattle.pb_fields.specs.Text.{IsText};
ghost use Rattle.pb_fields.specs.Faults.{Answers};
ghost use Rattle.pb_fields.specs.Message.{pb_fault, form_type, row_of, HasForm, Fits, IsWrong, WrongFields, has, lowest_absent, last_value, unknown, IsMessage, WrongMessage, IsWrongOrMemory};

use crate::fault::PbFault;
use crate::field::{Field, FieldList, Value, WireType};
use crate::read::read_fields;
pub use crate::values::{
    keep_unknown, last_text, last_value, last_varint, optional_text, optional_varint,
    required_text, required_varint,
};
use std::alloc::Global;
use std::error::Error;
use std::fmt;

/// What the values of a field are.
#[derive(Clone, Copy, PartialEq, Eq)]
pub enum Form {
    /// A varint.
    Varint,
    /// A text in UTF-8.
    Text,
    /// An embedded message, whose content is its own table's affair.
    Message,
}

impl Form {
    /// The type that values of the form have in the bytes.
    pub fn wire_type(self) -> WireType
        ensures { result ≡ form_type self }
    {
        match self {
            Form::Varint => WireType::Varint,
            Form::Text | Form::Message => WireType::Bytes,
        }
    }
}

/// A field that a message has. A number stands in one row of a table at most: a later row of it is not looked at.
#[derive(Clone, Copy, PartialEq, Eq)]
pub struct Row {
    /// The field's number.
    pub number: u32,
    /// What its values are.
    pub form: Form,
    /// A message without the field is refused.
    pub required: bool,
}

/// Why bytes are no message of a table, in the order of judgement: first the bytes as fields; then the fields in
/// their order; then what is missing.
#[derive(Clone, Copy, Debug, PartialEq, Eq)]
pub enum MessageFault {
    /// The bytes are no fields.
    Pb(PbFault),
    /// A field of this number has another wire type than its row.
    WrongWire(u32),
    /// A text of this number is not UTF-8.
    NotText(u32),
    /// No field has this required number, and the lower ones that are required are there.
    Missing(u32),
    /// No memory was left. It says nothing of the bytes.
    Memory,
}

impl fmt::Display for MessageFault {
    ghost use Rattle.std.specs.Prelude.{Some};
    ghost use Rattle.pb_fields.specs.Printed.{message_fault_text};

    ghost output = { λ fault. Some (message_fault_text fault) };

    fn fmt<W: fmt::Write>(&self, f: &mut fmt::Formatter<W>) -> fmt::Result {
        match self {
            MessageFault::Pb(why) => write!(f, "Pb({why})"),
            MessageFault::WrongWire(number) => write!(f, "WrongWire({number})"),
            MessageFault::NotText(number) => write!(f, "NotText({number})"),
            MessageFault::Missing(number) => write!(f, "Missing({number})"),
            MessageFault::Memory => write!(f, "Memory"),
        }
    }
}

impl Error for MessageFault {}

impl From<PbFault> for MessageFault {
    ghost from_gives = { λ from e. e ≡ pb_fault from };

    fn from(fault: PbFault) -> MessageFault {
        match fault {
            PbFault::Memory => MessageFault::Memory,
            _ => MessageFault::Pb(fault),
        }
    }
}

impl From<geo_base::Memory> for MessageFault {
    ghost use Rattle.pb_fields.specs.declared.message.MessageFault.TheVariants as fault;

    ghost from_gives = { λ _ e. e ≡ fault.Memory };

    fn from(_error: geo_base::Memory) -> MessageFault {
        MessageFault::Memory
    }
}

/// Whether a field has the number.
pub fn has_field(fields: &[Field], number: u32) -> bool
    ensures { result ≡ has fields.now number }
{
    fields.iter().any(|field| field.number == number)
}

/// The lowest required number that no field has.
pub fn lowest_missing(rows: &[Row], fields: &[Field]) -> Option<u32>
    ensures { result ≡ lowest_absent rows.now fields.now }
{
    let mut lowest = None;
    for row in rows {
        if row.required && !has_field(fields, row.number) {
            lowest = Some(lower(lowest, row.number));
        }
    }
    lowest
}

/// The lower of two numbers, of which the first need not be there.
fn lower(lowest: Option<u32>, number: u32) -> u32
    ensures { result ≡ option_map_or (λ n. min n number) lowest number }
{
    match lowest {
        None => number,
        Some(lowest) => lowest.min(number),
    }
}

/// The row of a number, where the table has one.
pub(crate) fn row_of(rows: &[Row], number: u32) -> Option<&Row>
    ensures { option_copied result ≡ row_of rows.now number }
{
    rows.iter().find(|row| row.number == number)
}

/// Whether a value is a text in UTF-8.
fn is_text(value: &Value) -> bool
    ensures { IsTrue result ↔ HasForm value.now form.Text }
{
    value.as_text().is_some()
}

/// Judges a field by its row. What an embedded message holds is not looked at.
pub fn check_field(rows: &[Row], field: &Field) -> Result<(), MessageFault>
    ensures right { OnOk result (Fits rows.now field.now) }
    ensures wrong { IfErr result (IsWrong rows.now field.now) }
{
    let Some(row) = row_of(rows, field.number) else {
        return Ok(());
    };
    if field.value.wire_type() != row.form.wire_type() {
        return Err(MessageFault::WrongWire(field.number));
    }
    if row.form == Form::Text && !is_text(&field.value) {
        return Err(MessageFault::NotText(field.number));
    }
    Ok(())
}

/// Judges the fields of a message in their order, and then what is missing.
pub fn check_fields(rows: &[Row], fields: &[Field]) -> Result<(), MessageFault>
    ensures right { OnOk result (IsMessage rows.now fields.now) }
    ensures wrong { IfErr result (WrongFields rows.now fields.now) }
{
    for field in fields {
        check_field(rows, field)?;
    }
    match lowest_missing(rows, fields) {
        Some(number) => Err(MessageFault::Missing(number)),
        None => Ok(()),
    }
}

/// The fields of the message that the bytes are a text of.
pub fn read_message(alloc: Global, rows: &[Row], bytes: &[u8]) -> Result<FieldList, MessageFault>
    // What is read is a message of the table, and what the bytes say.
    ensures found { IfOk result (λ fields. IsText bytes.now fields × IsMessage rows.now fields) }
    // Such a message is read, unless memory runs out.
    ensures only { (fields : List Field) → IsText bytes.now fields → IsMessage rows.now fields → Answers MessageFault.Memory result (Ok fields) }
    // A fault is the first by the order of judgement.
    ensures fault { IfErr result (IsWrongOrMemory (WrongMessage rows.now bytes.now)) }
    // The first fault is answered, unless memory runs out.
    ensures refused { (e : MessageFault) → WrongMessage rows.now bytes.now e → Answers MessageFault.Memory result (Err e) }
{
    message_fields(alloc, rows, bytes)
}

/// Reads the fields, and judges them.
fn message_fields(alloc: Global, rows: &[Row], bytes: &[u8]) -> Result<FieldList, MessageFault>
    ensures found { IfOk result (λ fields. IsText bytes.now fields × IsMessage rows.now fields) }
    ensures fault { IfErr result (IsWrongOrMemory (WrongMessage rows.now bytes.now)) }
{
    let fields = read_fields(alloc, bytes)?;
    check_fields(rows, fields.as_slice())?;
    Ok(fields)
}
