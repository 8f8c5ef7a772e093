//! Messages that hold messages: what they hold is judged in its place among the fields.

ghost use Rattle.std.specs.Prelude.{◌≡◌, ◌≢◌, ℕ, List, Some, true, false, MatchOption, IfOk, OnOk, IfErr, IfSome, Ok, Err};
ghost use Rattle.std.specs.Option.{option_copied, option_map};
ghost use Rattle.pb_fields.specs.declared.field.Field.{Field};
ghost use Rattle.pb_fields.specs.declared.field.Value.TheVariants as value;
ghost use Rattle.pb_fields.specs.declared.message.Form.TheVariants as form;
ghost use Rattle.pb_fields.specs.declared.message.MessageFault.{MessageFault};
ghost use Rattle.pb_fields.specs.Text.{IsText};
ghost use Rattle.pb_fields.specs.Faults.{Answers};
ghost use Rattle.pb_fields.specs.Message.{IsMessage, IsRow, IsWrongOrMemory, last_value};
ghost use Rattle.pb_fields.specs.Embedded.{Holds, FitsWith, IsMessageWith, IsMessageText, IsWrongWith, WrongFieldsWith, WrongMessageWith, IsExact, AnyContent, NoFault};

use crate::field::{Field, FieldList};
use crate::message::{Form, MessageFault, Row, check_field, last_value, lowest_missing, row_of};
use crate::read::read_fields;
use std::alloc::Global;

/// What the embedded messages of a message have to be, by the numbers of their fields.
pub trait Embedded {
    /// Which contents of a number are right.
    ghost right: { Self → ℕ → List ℕ → Type 0 };

    /// What is wrong with the others.
    ghost wrong: { Self → ℕ → List ℕ → MessageFault → Type 0 };

    /// Judges the content of an embedded message. `Memory` says nothing of it.
    fn judge(&self, alloc: Global, number: u32, content: &[u8]) -> Result<(), MessageFault>
        ensures right { OnOk result (right self.now number content.now) }
        ensures wrong { IfErr result (IsWrongOrMemory (wrong self.now number content.now)) };
}

/// What an embedded message holds is not looked at.
#[derive(Clone, Copy)]
pub struct Unread;

impl Embedded for Unread {
    ghost right = { λ s. AnyContent };

    ghost wrong = { λ s. NoFault };

    fn judge(&self, _alloc: Global, _number: u32, _content: &[u8]) -> Result<(), MessageFault> {
        Ok(())
    }
}

/// The content of a field that holds an embedded message by the table.
fn content_of<'a>(rows: &[Row], field: &'a Field) -> Option<&'a [u8]>
    ensures { MatchOption result ((content : List ℕ) → Holds rows.now field.now content → ⊥) (λ b. Holds rows.now field.now b.now) }
{
    let row = row_of(rows, field.number)?;
    if row.form != Form::Message {
        return None;
    }
    field.value.as_bytes()
}

/// Judges a field by its row, and what it holds.
fn check_field_with<E: Embedded>(
    alloc: Global,
    rows: &[Row],
    embedded: &E,
    field: &Field,
) -> Result<(), MessageFault>
    ensures right { OnOk result (FitsWith (E.right embedded.now) rows.now field.now) }
    ensures wrong { IfErr result (IsWrongOrMemory (IsWrongWith (E.wrong embedded.now) rows.now field.now)) }
{
    check_field(rows, field)?;
    match content_of(rows, field) {
        Some(content) => embedded.judge(alloc, field.number, content),
        None => Ok(()),
    }
}

/// Judges the fields of a message in their order, with what they hold, and then what is missing.
pub fn check_fields_with<E: Embedded>(
    alloc: Global,
    rows: &[Row],
    embedded: &E,
    fields: &[Field],
) -> Result<(), MessageFault>
    ensures right { OnOk result (IsMessageWith (E.right embedded.now) rows.now fields.now) }
    ensures message { OnOk result (IsMessage rows.now fields.now) }
    ensures wrong { IfErr result (IsWrongOrMemory (WrongFieldsWith (E.right embedded.now) (E.wrong embedded.now) rows.now fields.now)) }
{
    for field in fields {
        check_field_with(alloc, rows, embedded, field)?;
    }
    match lowest_missing(rows, fields) {
        Some(number) => Err(MessageFault::Missing(number)),
        None => Ok(()),
    }
}

/// The fields of the message that the bytes are a text of, each embedded message judged in its place. Where contents
/// are judged exactly, so is the message.
pub fn read_message_with<E: Embedded>(
    alloc: Global,
    rows: &[Row],
    embedded: &E,
    bytes: &[u8],
) -> Result<FieldList, MessageFault>
    // What is read is a message of the table, and what the bytes say.
    ensures found { IfOk result (λ fields. IsText bytes.now fields × IsMessageWith (E.right embedded.now) rows.now fields) }
    // It is one also without regard to what it holds.
    ensures message { IfOk result (λ fields. IsMessage rows.now fields) }
    // Such a message is read, unless memory runs out.
    ensures only { IsExact (E.right embedded.now) (E.wrong embedded.now) → (fields : List Field) → IsText bytes.now fields → IsMessageWith (E.right embedded.now) rows.now fields → Answers MessageFault.Memory result (Ok fields) }
    // A fault is the first by the order of judgement.
    ensures fault { IfErr result (IsWrongOrMemory (WrongMessageWith (E.right embedded.now) (E.wrong embedded.now) rows.now bytes.now)) }
    // The first fault is answered, unless memory runs out.
    ensures refused { IsExact (E.right embedded.now) (E.wrong embedded.now) → (e : MessageFault) → WrongMessageWith (E.right embedded.now) (E.wrong embedded.now) rows.now bytes.now e → Answers MessageFault.Memory result (Err e) }
{
    message_fields_with(alloc, rows, embedded, bytes)
}

/// Reads the fields, and judges them.
fn message_fields_with<E: Embedded>(
    alloc: Global,
    rows: &[Row],
    embedded: &E,
    bytes: &[u8],
) -> Result<FieldList, MessageFault>
    ensures found { IfOk result (λ fields. IsText bytes.now fields × IsMessageWith (E.right embedded.now) rows.now fields) }
    ensures message { IfOk result (λ fields. IsMessage rows.now fields) }
    ensures fault { IfErr result (IsWrongOrMemory (WrongMessageWith (E.right embedded.now) (E.wrong embedded.now) rows.now bytes.now)) }
{
    let fields = read_fields(alloc, bytes)?;
    check_fields_with(alloc, rows, embedded, fields.as_slice())?;
    Ok(fields)
}

/// The content of a required embedded message, the last one of its number.
pub fn required_message<'a, E: Embedded>(
    rows: &[Row],
    embedded: &E,
    fields: &'a [Field],
    number: u32,
) -> &'a [u8]
    requires message { IsMessageWith (E.right embedded.now) rows.now fields.now }
    requires row { IsRow rows.now number form.Message true }
    ensures content { last_value number fields.now ≡ Some (value.Bytes result.now) }
    ensures right { E.right embedded.now number result.now }
{
    match last_content(fields, number) {
        Some(content) => content,
        None => unreachable!(),
    }
}

/// The content of an embedded message, the last one of its number, where there is one.
pub fn optional_message<'a, E: Embedded>(
    rows: &[Row],
    embedded: &E,
    fields: &'a [Field],
    number: u32,
) -> Option<&'a [u8]>
    requires message { IsMessageWith (E.right embedded.now) rows.now fields.now }
    requires row { IsRow rows.now number form.Message false }
    ensures content { last_value number fields.now ≡ option_map value.Bytes (option_copied result) }
    ensures right { IfSome (option_copied result) (E.right embedded.now number) }
{
    last_content(fields, number)
}

/// The content of the last value of a number, where it has a length.
fn last_content(fields: &[Field], number: u32) -> Option<&[u8]>
    ensures { MatchOption result ((b : List ℕ) → last_value number fields.now ≢ Some (value.Bytes b)) (λ b. last_value number fields.now ≡ Some (value.Bytes b.now)) }
{
    last_value(fields, number)?.as_bytes()
}

/// Each embedded message is of this table, and what it holds in turn is judged by `embedded`.
#[derive(Clone, Copy)]
pub struct OfTable<'a, E> {
    /// The fields of an embedded message.
    pub rows: &'a [Row],
    /// What its own embedded messages have to be.
    pub embedded: E,
}

impl<'a, E: Embedded> Embedded for OfTable<'a, E> {
    ghost right = { λ s n. IsMessageText (E.right s.embedded) s.rows.now };

    ghost wrong = { λ s n. WrongMessageWith (E.right s.embedded) (E.wrong s.embedded) s.rows.now };

    fn judge(&self, alloc: Global, _number: u32, content: &[u8]) -> Result<(), MessageFault> {
        message_fields_with(alloc, self.rows, &self.embedded, content)?;
        Ok(())
    }
}
