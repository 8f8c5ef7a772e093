//! Appending the fields of a command's own message.

mod broker;
mod connection;
pub(crate) mod consumer;
mod producer;

ghost use Rattle.std.specs.Prelude.{OnOk};
ghost use Rattle.pulsar_commands.specs.Parts.{parts};
ghost use Rattle.pulsar_commands.specs.Canonical.{Writes};

use crate::command::Command;
use broker::append_of_broker;
use connection::append_of_connection;
use consumer::append_of_consumer;
use geo_base::{Blob, Memory};
use producer::append_of_producer;

/// Appends the fields of a command's own message, in the order of their numbers.
pub(crate) fn append_body(out: &mut Blob, command: &Command) -> Result<(), Memory>
    ensures { OnOk result (Writes out.old (parts command.now) out.new) }
{
    match command {
        Command::Connect { .. } | Command::Connected { .. } | Command::Ping | Command::Pong => {
            append_of_connection(out, command)
        }
        Command::Producer { .. } | Command::Send { .. } | Command::CloseProducer { .. } => {
            append_of_producer(out, command)
        }
        Command::Subscribe { .. }
        | Command::Ack { .. }
        | Command::Flow { .. }
        | Command::Unsubscribe { .. }
        | Command::CloseConsumer { .. } => append_of_consumer(out, command),
        Command::SendReceipt { .. }
        | Command::SendError { .. }
        | Command::Message { .. }
        | Command::Success { .. }
        | Command::Error { .. }
        | Command::ProducerSuccess { .. } => append_of_broker(out, command),
    }
}
