//! What a broker sends to producers and consumers: receipts, messages and answers.

ghost use Rattle.std.specs.Prelude.{OnOk, OnErr};
ghost use Rattle.pb_fields.specs.Canonical.{Extends};
ghost use Rattle.pulsar_commands.specs.declared.command.Command.TheVariants as command;
ghost use Rattle.pulsar_commands.specs.Parts.{parts, kind_of};
ghost use Rattle.pulsar_commands.specs.Replicators.{IsOfBroker};
ghost use Rattle.pulsar_commands.specs.Canonical.{Writes};

use crate::command::Command;
use crate::ids::{append_id, append_optional_id};
use crate::parts::{append_number, append_text};
use geo_base::{Blob, Memory, Position, Text};

/// Appends the fields of a command of a broker.
pub(super) fn append_of_broker(out: &mut Blob, command: &Command) -> Result<(), Memory>
    requires { IsOfBroker (kind_of command.now) }
    ensures { OnOk result (Writes out.old (parts command.now) out.new) }
{
    match command {
        Command::SendReceipt {
            producer_id,
            sequence_id,
            message_id,
        } => append_send_receipt(out, *producer_id, *sequence_id, *message_id),
        Command::SendError {
            producer_id,
            sequence_id,
            error,
            message,
        } => append_send_error(out, *producer_id, *sequence_id, *error, message),
        Command::Message {
            consumer_id,
            message_id,
        } => append_message(out, *consumer_id, *message_id),
        Command::Success { request_id } => append_success(out, *request_id),
        Command::Error {
            request_id,
            error,
            message,
        } => append_error(out, *request_id, *error, message),
        Command::ProducerSuccess {
            request_id,
            producer_name,
        } => append_producer_success(out, *request_id, producer_name),
        _ => unreachable!(),
    }
}

/// Appends the fields of the receipt of a SEND.
fn append_send_receipt(
    out: &mut Blob,
    producer_id: u64,
    sequence_id: u64,
    message_id: Option<Position>,
) -> Result<(), Memory>
    ensures ok { OnOk result (Writes out.old (parts (command.SendReceipt producer_id sequence_id message_id)) out.new) }
    ensures err { OnErr result (Extends out.old out.new) }
{
    append_number(out, 1, producer_id)?;
    append_number(out, 2, sequence_id)?;
    append_optional_id(out, 3, message_id)
}

fn append_send_error(
    out: &mut Blob,
    producer_id: u64,
    sequence_id: u64,
    error: u64,
    message: &Text,
) -> Result<(), Memory>
    ensures { OnOk result (Writes out.old (parts (command.SendError producer_id sequence_id error message.now)) out.new) }
{
    append_number(out, 1, producer_id)?;
    append_number(out, 2, sequence_id)?;
    append_number(out, 3, error)?;
    append_text(out, 4, message)
}

/// Appends the fields of a MESSAGE.
fn append_message(out: &mut Blob, consumer_id: u64, message_id: Position) -> Result<(), Memory>
    ensures ok { OnOk result (Writes out.old (parts (command.Message consumer_id message_id)) out.new) }
    ensures err { OnErr result (Extends out.old out.new) }
{
    append_number(out, 1, consumer_id)?;
    append_id(out, 2, message_id)
}

fn append_success(out: &mut Blob, request_id: u64) -> Result<(), Memory>
    ensures { OnOk result (Writes out.old (parts (command.Success request_id)) out.new) }
{
    append_number(out, 1, request_id)
}

fn append_error(out: &mut Blob, request_id: u64, error: u64, message: &Text) -> Result<(), Memory>
    ensures { OnOk result (Writes out.old (parts (command.Error request_id error message.now)) out.new) }
{
    append_number(out, 1, request_id)?;
    append_number(out, 2, error)?;
    append_text(out, 3, message)
}

fn append_producer_success(
    out: &mut Blob,
    request_id: u64,
    producer_name: &Text,
) -> Result<(), Memory>
    ensures { OnOk result (Writes out.old (parts (command.ProducerSuccess request_id producer_name.now)) out.new) }
{
    append_number(out, 1, request_id)?;
    append_text(out, 2, producer_name)
}
