//! What a producer sends: PRODUCER, SEND and CLOSE_PRODUCER.

ghost use Rattle.std.specs.Prelude.{OnOk, OnErr};
ghost use Rattle.pb_fields.specs.Canonical.{Extends};
ghost use Rattle.pulsar_commands.specs.declared.command.Command.TheVariants as command;
ghost use Rattle.pulsar_commands.specs.Parts.{parts, kind_of};
ghost use Rattle.pulsar_commands.specs.Replicators.{IsOfProducer};
ghost use Rattle.pulsar_commands.specs.Canonical.{Writes};

use crate::command::Command;
use crate::parts::{append_number, append_optional_text, append_text};
use geo_base::{Blob, Memory, Text};

/// Appends the fields of a command of a producer.
pub(super) fn append_of_producer(out: &mut Blob, command: &Command) -> Result<(), Memory>
    requires { IsOfProducer (kind_of command.now) }
    ensures { OnOk result (Writes out.old (parts command.now) out.new) }
{
    match command {
        Command::Producer {
            topic,
            producer_id,
            request_id,
            producer_name,
        } => append_producer(out, topic, *producer_id, *request_id, producer_name),
        Command::Send {
            producer_id,
            sequence_id,
            num_messages,
        } => append_send(out, *producer_id, *sequence_id, *num_messages),
        Command::CloseProducer {
            producer_id,
            request_id,
        } => append_close_producer(out, *producer_id, *request_id),
        _ => unreachable!(),
    }
}

fn append_producer(
    out: &mut Blob,
    topic: &Text,
    producer_id: u64,
    request_id: u64,
    producer_name: &Option<Text>,
) -> Result<(), Memory>
    ensures { OnOk result (Writes out.old (parts (command.Producer topic.now producer_id request_id producer_name.now)) out.new) }
{
    append_text(out, 1, topic)?;
    append_number(out, 2, producer_id)?;
    append_number(out, 3, request_id)?;
    append_optional_text(out, 4, producer_name)
}

/// Appends the fields of a SEND.
fn append_send(
    out: &mut Blob,
    producer_id: u64,
    sequence_id: u64,
    num_messages: u64,
) -> Result<(), Memory>
    ensures ok { OnOk result (Writes out.old (parts (command.Send producer_id sequence_id num_messages)) out.new) }
    ensures err { OnErr result (Extends out.old out.new) }
{
    append_number(out, 1, producer_id)?;
    append_number(out, 2, sequence_id)?;
    append_number(out, 3, num_messages)
}

fn append_close_producer(out: &mut Blob, producer_id: u64, request_id: u64) -> Result<(), Memory>
    ensures { OnOk result (Writes out.old (parts (command.CloseProducer producer_id request_id)) out.new) }
{
    append_number(out, 1, producer_id)?;
    append_number(out, 2, request_id)
}
