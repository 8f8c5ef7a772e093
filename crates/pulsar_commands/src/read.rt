//! Reading commands.

ghost use Rattle.std.specs.Prelude.{◌≡◌, ◌≤◌, List, Some, ◌∷◌, [], IfOk, OnOk, IfErr, IfSome, MatchOption, Ok, Err};
ghost use Rattle.std.specs.List.{AllByRecursion};
ghost use Rattle.pb_fields.specs.declared.field.Field.{Field};
ghost use Rattle.pb_fields.specs.declared.field.Value.TheVariants as value;
ghost use Rattle.pb_fields.specs.Text.{IsText};
ghost use Rattle.pb_fields.specs.Faults.{Answers};
ghost use Rattle.pb_fields.specs.Message.{Fits, IsMessage, IsWrongOrMemory, last_value};
ghost use Rattle.pb_fields.specs.Embedded.{FitsWith, IsMessageWith, IsWrongWith, WrongFieldsWith};
ghost use Rattle.pulsar_commands.specs.declared.command.Command.{Command};
ghost use Rattle.pulsar_commands.specs.declared.fault.CommandFault.{CommandFault};
ghost use Rattle.pulsar_commands.specs.declared.kind.Kind.TheVariants as kind;
ghost use Rattle.pulsar_commands.specs.Table.{kind_number, rows_of, type_rows, held_rows, choices_of, IsKnown};
ghost use Rattle.pulsar_commands.specs.Text.{IdRight, BodyRight, BodyWrong, HasType, IsLast, IsCommand, IsCommandText, usual};
ghost use Rattle.pulsar_commands.specs.Faults.{FirstUnknown, WrongOfType, WrongCommand, IsFaultOrMemory};

use crate::acks::usual_ack;
use crate::bodies::command_of_body;
use crate::command::Command;
use crate::fault::CommandFault;
use crate::ids::Ids;
use crate::kind::Kind;
use crate::table::{Choice, TYPE, TYPE_ROWS};
use pb_fields::embedded::read_message_with;
use pb_fields::message::{
    Form, MessageFault, Row, check_field, last_varint, read_message, required_varint,
};
use pb_fields::{Field, FieldList, field_pair};
use std::alloc::Global;

impl Command {
    /// The command that the bytes are a text of.
    pub fn read(alloc: Global, bytes: &[u8]) -> Result<Command, CommandFault>
        // What is read is what the bytes say.
        ensures found { IfOk result (IsCommandText bytes.now) }
        // What the bytes say is read, unless memory runs out.
        ensures only { (c : Command) → IsCommandText bytes.now c → Answers CommandFault.Memory result (Ok c) }
        // A fault is the first by the order of judgement.
        ensures fault { IfErr result (IsFaultOrMemory (WrongCommand bytes.now)) }
        // The first fault is answered, unless memory runs out.
        ensures refused { (e : CommandFault) → WrongCommand bytes.now e → Answers CommandFault.Memory result (Err e) }
    {
        command_of_bytes(alloc, bytes)
    }
}

/// Reads the command: from the bytes in their place where they have the usual form, else field by field.
fn command_of_bytes(alloc: Global, bytes: &[u8]) -> Result<Command, CommandFault>
    ensures found { IfOk result (IsCommandText bytes.now) }
    ensures fault { IfErr result (IsFaultOrMemory (WrongCommand bytes.now)) }
{
    match usual_form(bytes) {
        Some((kind, content)) => command_of_content(alloc, kind, content),
        None => command_of_fields(alloc, bytes),
    }
}

/// The type, and the content of the field of its number, where the bytes are these two fields and nothing more.
#[tactic(auto, using(crate::proofs::Usual::usual_pair))]
fn usual_form(bytes: &[u8]) -> Option<(Kind, &[u8])>
    ensures { IfSome result (λ x. IsText bytes.now (usual x.0 x.1.now)) }
{
    let pair = field_pair(bytes)?;
    if pair.first != TYPE {
        return None;
    }
    let kind = Kind::from_number(pair.varint)?;
    if pair.second != kind.number() {
        return None;
    }
    Some((kind, pair.content))
}

/// The command of a type, where its own message is the content.
fn command_of_content(alloc: Global, kind: Kind, content: &[u8]) -> Result<Command, CommandFault>
    ensures found { IfOk result (IsCommand (usual kind content.now)) }
    ensures fault { IfErr result (IsFaultOrMemory (WrongOfType kind (usual kind content.now))) }
{
    match kind {
        Kind::Ack => ack_of_content(alloc, content),
        _ => any_of_content(alloc, kind, content),
    }
}

/// An ACK: at once where its content has the usual form, else field by field.
#[tactic(auto, using(crate::proofs::UsualCommands::held_is))]
fn ack_of_content(alloc: Global, content: &[u8]) -> Result<Command, CommandFault>
    ensures found { IfOk result (IsCommand (usual kind.Ack content.now)) }
    ensures fault { IfErr result (IsFaultOrMemory (WrongOfType kind.Ack (usual kind.Ack content.now))) }
{
    match usual_ack(alloc, content)? {
        Some(ack) => Ok(ack),
        None => any_of_content(alloc, Kind::Ack, content),
    }
}

/// The command of a type, by the fields of its own message.
fn any_of_content(alloc: Global, kind: Kind, content: &[u8]) -> Result<Command, CommandFault>
    ensures found { IfOk result (IsCommand (usual kind content.now)) }
    ensures fault { IfErr result (IsFaultOrMemory (WrongOfType kind (usual kind content.now))) }
{
    let held = read_message_with(alloc, kind.rows(), &Ids, content)?;
    command_of_held(alloc, kind, held.as_slice())
}

/// Reads the fields, the type, and then the command of the type.
fn command_of_fields(alloc: Global, bytes: &[u8]) -> Result<Command, CommandFault>
    ensures found { IfOk result (IsCommandText bytes.now) }
    ensures fault { IfErr result (IsFaultOrMemory (WrongCommand bytes.now)) }
{
    let fields = read_message(alloc, TYPE_ROWS, bytes)?;
    let number = required_varint(TYPE_ROWS, fields.as_slice(), TYPE);
    match Kind::from_number(number) {
        Some(kind) => command_of_kind(alloc, kind, fields.as_slice()),
        None => Err(CommandFault::UnknownType(number)),
    }
}

/// The command of a type, where the fields hold it.
fn command_of_kind(alloc: Global, kind: Kind, fields: &[Field]) -> Result<Command, CommandFault>
    requires { HasType fields.now kind }
    ensures found { IfOk result (IsCommand fields.now) }
    ensures fault { IfErr result (IsFaultOrMemory (WrongOfType kind fields.now)) }
{
    let held = held_of(alloc, kind, fields)?;
    command_of_held(alloc, kind, held.as_slice())
}

/// The command of a type that the fields of its own message say.
fn command_of_held(alloc: Global, kind: Kind, held: &[Field]) -> Result<Command, CommandFault>
    requires message { IsMessage (rows_of kind) held.now }
    requires ids { IsMessageWith IdRight (rows_of kind) held.now }
    ensures found { (fields : List Field) → HasType fields kind → IsMessageWith (BodyRight kind) (held_rows kind) fields → IsLast kind fields held.now → IfOk result (IsCommand fields) }
    ensures fault { (fields : List Field) → IsMessageWith (BodyRight kind) (held_rows kind) fields → IsLast kind fields held.now → IfErr result (IsFaultOrMemory (WrongOfType kind fields)) }
{
    if let Some(value) = unknown_value(kind.choices(), held) {
        return Err(CommandFault::UnknownType(value));
    }
    Ok(command_of_body(alloc, kind, held)?)
}

/// The fields of the message in the field of the type's number.
fn held_of(alloc: Global, kind: Kind, fields: &[Field]) -> Result<FieldList, MessageFault>
    ensures right { IfOk result (λ held. IsMessageWith (BodyRight kind) (held_rows kind) fields.now) }
    ensures message { IfOk result (λ held. IsMessage (rows_of kind) held) }
    ensures ids { IfOk result (λ held. IsMessageWith IdRight (rows_of kind) held) }
    ensures found { IfOk result (IsLast kind fields.now) }
    ensures fault { IfErr result (IsWrongOrMemory (WrongFieldsWith (BodyRight kind) (BodyWrong kind) (held_rows kind) fields.now)) }
{
    let number = kind.number();
    let rows = [Row {
        number,
        form: Form::Message,
        required: true,
    }];
    let mut held = None;
    for field in fields {
        check_field(&rows, field)?;
        if field.number == number {
            held = Some(body_of(alloc, kind, field)?);
        }
    }
    held.ok_or(MessageFault::Missing(number))
}

/// The fields of the message in a field that fits the type's row.
fn body_of(alloc: Global, kind: Kind, field: &Field) -> Result<FieldList, MessageFault>
    requires number { field.now.number ≡ kind_number kind }
    requires fits { Fits (held_rows kind) field.now }
    ensures right { OnOk result (FitsWith (BodyRight kind) (held_rows kind) field.now) }
    ensures message { IfOk result (λ held. IsMessage (rows_of kind) held) }
    ensures ids { IfOk result (λ held. IsMessageWith IdRight (rows_of kind) held) }
    ensures found { IfOk result (IsLast kind (field.now ∷ [])) }
    ensures fault { IfErr result (IsWrongOrMemory (IsWrongWith (BodyWrong kind) (held_rows kind) field.now)) }
{
    match field.value.as_bytes() {
        Some(content) => read_message_with(alloc, kind.rows(), &Ids, content),
        None => unreachable!(),
    }
}

/// The first value of an enumeration that is not known.
fn unknown_value(choices: &[Choice], fields: &[Field]) -> Option<u64>
    ensures { MatchOption result (AllByRecursion (IsKnown fields.now) choices.now) (FirstUnknown fields.now choices.now) }
{
    for choice in choices {
        if let Some(value) = value_above(choice, fields) {
            return Some(value);
        }
    }
    None
}

/// The value that counts, where it is not one of the enumeration.
fn value_above(choice: &Choice, fields: &[Field]) -> Option<u64>
    ensures { MatchOption result (IsKnown fields.now choice.now) (λ n. (last_value choice.now.number fields.now ≡ Some (value.Varint n)) × (choice.now.size ≤ n)) }
{
    match last_varint(fields, choice.number) {
        Some(value) if value >= choice.size => Some(value),
        _ => None,
    }
}
