//! Reading metadata.

ghost use Rattle.std.specs.Prelude.{◌≡◌, ◌≢◌, ℕ, false, is_none, map, List, IfOk, IfErr, IfSome, Ok, Err};
ghost use Rattle.std.specs.Option.{option_map};
ghost use Rattle.std.specs.List.{AllByRecursion};
ghost use Rattle.pb_fields.specs.declared.field.Value.TheVariants as value;
ghost use Rattle.pb_fields.specs.declared.message.Form.TheVariants as form;
ghost use Rattle.pb_fields.specs.declared.message.Row.{Row};
ghost use Rattle.pb_fields.specs.declared.message.MessageFault.{MessageFault};
ghost use Rattle.pb_fields.specs.Faults.{Answers};
ghost use Rattle.pb_fields.specs.Message.{HasForm, IsMessage, WrongMessage, IsWrongOrMemory, last_value, row_of, unknown, values};
ghost use Rattle.message_meta.specs.Table.{rows};
ghost use Rattle.message_meta.specs.Metadata.{Metadata, IsMeta, IsMetaText};

use crate::MetaFault;
use crate::meta::{Meta, TextList};
use crate::table::{
    MARKER_TYPE, PARTITION_KEY, PRODUCER_NAME, PUBLISH_TIME, REPLICATE_TO, REPLICATED_FROM, ROWS,
    SEQUENCE_ID,
};
use geo_base::{Memory, Text};
use pb_fields::message::{keep_unknown, optional_varint, read_message, required_varint};
use pb_fields::{Field, FieldList, take_last};
use std::alloc::Global;

impl Meta {
    /// The metadata that the bytes are a text of.
    pub fn read(alloc: Global, bytes: &[u8]) -> Result<Meta, MetaFault>
        // What is read is what the bytes say.
        ensures found { IfOk result (IsMetaText bytes.now) }
        // What the bytes say is read, unless memory runs out.
        ensures only { (m : Metadata) → IsMetaText bytes.now m → Answers MetaFault.Memory result (Ok m) }
        // A fault is the first by the order of judgement.
        ensures fault { IfErr result (IsWrongOrMemory (WrongMessage rows bytes.now)) }
        // The first fault is answered, unless memory runs out.
        ensures refused { (e : MessageFault) → WrongMessage rows bytes.now e → Answers MetaFault.Memory result (Err e) }
    {
        meta_of_bytes(alloc, bytes)
    }
}

/// Reads the fields, and takes from them what the table names.
fn meta_of_bytes(alloc: Global, bytes: &[u8]) -> Result<Meta, MetaFault>
    ensures found { IfOk result (IsMetaText bytes.now) }
    ensures fault { IfErr result (IsWrongOrMemory (WrongMessage rows bytes.now)) }
{
    let fields = read_message(alloc, ROWS, bytes)?;
    Ok(meta_of_fields(alloc, fields)?)
}

/// What the fields say.
fn meta_of_fields(alloc: Global, fields: FieldList) -> Result<Meta, Memory>
    requires { IsMessage rows fields }
    ensures { IfOk result (IsMeta fields) }
{
    let known = fields.as_slice();
    let seq = required_varint(ROWS, known, SEQUENCE_ID);
    let publish_time = required_varint(ROWS, known, PUBLISH_TIME);
    let replicate_to = texts(alloc, known, REPLICATE_TO)?;
    let marker = optional_varint(ROWS, known, MARKER_TYPE);
    let mut rest = fields;
    let producer = match take_text(&mut rest, PRODUCER_NAME) {
        Some(producer) => producer,
        None => unreachable!(),
    };
    let replicated_from = take_text(&mut rest, REPLICATED_FROM);
    let key = take_text(&mut rest, PARTITION_KEY);
    keep_unknown(&mut rest, ROWS);
    Ok(Meta {
        producer,
        seq,
        publish_time,
        replicated_from,
        key,
        replicate_to,
        marker,
        rest,
    })
}

/// Takes the last text of a number out of the fields, where it stands there. What other numbers say stays, and so do the
/// fields that a table with that number does not name.
fn take_text(fields: &mut FieldList, number: u32) -> Option<Text>
    requires { IfSome (last_value number fields.old) (λ v. HasForm v form.Text) }
    ensures taken { last_value number fields.old ≡ option_map value.Bytes result }
    ensures others { (n : ℕ) → n ≢ number → values n fields.new ≡ values n fields.old }
    ensures unknown { (rows : List Row) → is_none (row_of rows number) ≡ false → unknown rows fields.new ≡ unknown rows fields.old }
{
    take_last(fields, number)?.into_text()
}

/// The texts of a repeated field.
fn texts(alloc: Global, fields: &[Field], number: u32) -> Result<TextList, Memory>
    requires { AllByRecursion (λ v. HasForm v form.Text) (values number fields.now) }
    ensures { IfOk result (λ texts. values number fields.now ≡ map value.Bytes texts) }
{
    let mut texts = TextList::new(alloc);
    for field in fields {
        if field.number == number {
            match field.value.as_text() {
                Some(text) => texts.push(Text::from_str(alloc, text)?)?,
                None => unreachable!(),
            }
        }
    }
    Ok(texts)
}
