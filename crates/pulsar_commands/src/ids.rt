//! Positions in commands (MessageIdData in PulsarApi.proto).

ghost use Rattle.std.specs.Prelude.{◌≡◌, ◌<◌, ◌≤◌, ◌++◌, ◌∷◌, [], length, Some, true, false, IfOk, IfErr, OnOk, IfSome, OnErr};
ghost use Rattle.std.specs.List.{AllByRecursion};
ghost use Rattle.pb_fields.specs.Buffer.{Puts};
ghost use Rattle.pb_fields.specs.Canonical.{Extends, field_text};
ghost use Rattle.pb_fields.specs.declared.message.Form.TheVariants as form;
ghost use Rattle.pb_fields.specs.Field.{IsFieldNumber};
ghost use Rattle.pb_fields.specs.Front.{IsShortNumber};
ghost use Rattle.pb_fields.specs.Message.{IsMessage, IsRow, IsWrongOrMemory, values};
ghost use Rattle.pb_fields.specs.Embedded.{IsMessageWith};
ghost use Rattle.pulsar_commands.specs.Part as part;
ghost use Rattle.pulsar_commands.specs.Part.{IsIdText, AreIds, Says};
ghost use Rattle.pulsar_commands.specs.Text.{IdRight, IdWrong};
ghost use Rattle.pulsar_commands.specs.Canonical.{IsPosition, WritesPart, id_field, id_text};

use crate::command::PositionList;
use crate::table::{ENTRY, ID_ROWS, LEDGER};
use geo_base::{Blob, Memory, Position};
use pb_fields::embedded::{
    Embedded, Unread, optional_message, read_message_with, required_message,
};
use pb_fields::message::{MessageFault, Row, required_varint};
use pb_fields::{Buffer, Field, front_varint, varint_field_size, write_head, write_varint};
use std::alloc::Global;

/// The embedded messages of a command are ids.
#[derive(Clone, Copy)]
pub(crate) struct Ids;

impl Embedded for Ids {
    ghost right = { λ s. IdRight };

    ghost wrong = { λ s. IdWrong };

    fn judge(&self, alloc: Global, _number: u32, content: &[u8]) -> Result<(), MessageFault> {
        match usual_id(content) {
            Some(_position) => Ok(()),
            None => judge_fields(alloc, content),
        }
    }
}

/// Judges the content of an id by its fields.
fn judge_fields(alloc: Global, content: &[u8]) -> Result<(), MessageFault>
    ensures right { OnOk result (IdRight 0 content.now) }
    ensures wrong { IfErr result (IsWrongOrMemory (IdWrong 0 content.now)) }
{
    read_message_with(alloc, ID_ROWS, &Unread, content)?;
    Ok(())
}

/// The position of an id whose content is its two fields in their order and nothing more, as writers make it; None says nothing
/// of the content.
pub(crate) fn usual_id(content: &[u8]) -> Option<Position>
    ensures right { IfSome result (λ p. IdRight 0 content.now) }
    ensures said { IfSome result (IsIdText content.now) }
{
    let (ledger, rest) = front_varint(LEDGER, content)?;
    let (entry, rest) = front_varint(ENTRY, rest)?;
    if rest.is_empty() {
        Some(Position { ledger, entry })
    } else {
        None
    }
}

/// The position that the content of an id says.
fn position_of(alloc: Global, content: &[u8]) -> Result<Position, Memory>
    requires { IdRight 0 content.now }
    ensures { IfOk result (IsIdText content.now) }
{
    match usual_id(content) {
        Some(position) => Ok(position),
        None => position_of_fields(alloc, content),
    }
}

/// The position that the fields of an id say.
fn position_of_fields(alloc: Global, content: &[u8]) -> Result<Position, Memory>
    requires { IdRight 0 content.now }
    ensures { IfOk result (IsIdText content.now) }
{
    match read_message_with(alloc, ID_ROWS, &Unread, content) {
        Ok(fields) => Ok(Position {
            ledger: required_varint(ID_ROWS, fields.as_slice(), LEDGER),
            entry: required_varint(ID_ROWS, fields.as_slice(), ENTRY),
        }),
        Err(MessageFault::Memory) => Err(Memory),
        Err(_) => unreachable!(),
    }
}

/// The position of a required id.
pub(crate) fn required_id(
    alloc: Global,
    rows: &[Row],
    fields: &[Field],
    number: u32,
) -> Result<Position, Memory>
    requires message { IsMessageWith IdRight rows.now fields.now }
    requires row { IsRow rows.now number form.Message true }
    ensures { IfOk result (λ p. Says fields.now (part.id number p)) }
{
    position_of(alloc, required_message(rows, &Ids, fields, number))
}

/// The position of an id that need not be there.
pub(crate) fn optional_id(
    alloc: Global,
    rows: &[Row],
    fields: &[Field],
    number: u32,
) -> Result<Option<Position>, Memory>
    requires message { IsMessageWith IdRight rows.now fields.now }
    requires row { IsRow rows.now number form.Message false }
    ensures { IfOk result (λ p. Says fields.now (part.optional_id number p)) }
{
    match optional_message(rows, &Ids, fields, number) {
        Some(content) => Ok(Some(position_of(alloc, content)?)),
        None => Ok(None),
    }
}

/// The positions of a repeated id.
pub(crate) fn all_ids(
    alloc: Global,
    rows: &[Row],
    fields: &[Field],
    number: u32,
) -> Result<PositionList, Memory>
    requires message { IsMessageWith IdRight rows.now fields.now }
    requires row { IsRow rows.now number form.Message false }
    ensures { IfOk result (λ ps. Says fields.now (part.ids number ps)) }
{
    let mut positions = PositionList::new(alloc);
    for field in fields {
        if field.number == number {
            match field.value.as_bytes() {
                Some(content) => positions.push(position_of(alloc, content)?)?,
                None => unreachable!(),
            }
        }
    }
    Ok(positions)
}

/// The bytes of the canonical text of a position; at most eleven for each number.
#[tactic(auto, using(crate::proofs::UsualIds::id_length))]
pub(crate) fn id_size(position: Position) -> usize
    ensures size { result ≡ length (id_text position) }
    ensures few { result < 23 }
{
    varint_field_size(LEDGER, position.ledger) + varint_field_size(ENTRY, position.entry)
}

/// Appends an id.
#[tactic(auto, using(crate::proofs::UsualIds::id_appended))]
pub(crate) fn append_id(out: &mut Blob, number: u32, position: Position) -> Result<(), Memory>
    requires { IsFieldNumber number }
    ensures ok { OnOk result (WritesPart out.old (part.id number position) out.new) }
    ensures err { OnErr result (Extends out.old out.new) }
{
    write_head(out, number, id_size(position))?;
    write_varint(out, LEDGER, position.ledger)?;
    write_varint(out, ENTRY, position.entry)
}

/// Puts an id after the bytes of a buffer that has room for it.
pub(crate) fn put_id(out: &mut Buffer, number: u32, position: Position)
    requires number { IsShortNumber number }
    requires room { length (field_text (id_field number position)) ≤ out.old.spare }
    ensures text { Puts out.old (field_text (id_field number position)) out.new }
    ensures writable { IsPosition position }
{
    out.put_head(number, id_size(position));
    out.put_varint(LEDGER, position.ledger);
    out.put_varint(ENTRY, position.entry);
}

/// Appends an id where there is one.
pub(crate) fn append_optional_id(
    out: &mut Blob,
    number: u32,
    position: Option<Position>,
) -> Result<(), Memory>
    requires { IsFieldNumber number }
    ensures ok { OnOk result (WritesPart out.old (part.optional_id number position) out.new) }
    ensures err { OnErr result (Extends out.old out.new) }
{
    match position {
        None => Ok(()),
        Some(position) => append_id(out, number, position),
    }
}

/// Appends a repeated id.
pub(crate) fn append_ids(out: &mut Blob, number: u32, positions: &[Position]) -> Result<(), Memory>
    requires { IsFieldNumber number }
    ensures { OnOk result (WritesPart out.old (part.ids number positions.now) out.new) }
{
    for position in positions {
        append_id(out, number, *position)?;
    }
    Ok(())
}
