//! What is said of a connection: CONNECT, CONNECTED, PING and PONG.

ghost use Rattle.std.specs.Prelude.{OnOk};
ghost use Rattle.pulsar_commands.specs.declared.command.Command.TheVariants as command;
ghost use Rattle.pulsar_commands.specs.Parts.{parts, kind_of};
ghost use Rattle.pulsar_commands.specs.Replicators.{IsOfConnection};
ghost use Rattle.pulsar_commands.specs.Canonical.{Writes};

use crate::command::Command;
use crate::parts::{append_optional_number, append_text};
use geo_base::{Blob, Memory, Text};

/// Appends the fields of a command of a connection.
pub(super) fn append_of_connection(out: &mut Blob, command: &Command) -> Result<(), Memory>
    requires { IsOfConnection (kind_of command.now) }
    ensures { OnOk result (Writes out.old (parts command.now) out.new) }
{
    match command {
        Command::Connect {
            client_version,
            protocol_version,
        } => append_connect(out, client_version, *protocol_version),
        Command::Connected {
            server_version,
            protocol_version,
        } => append_connected(out, server_version, *protocol_version),
        Command::Ping | Command::Pong => Ok(()),
        _ => unreachable!(),
    }
}

fn append_connect(
    out: &mut Blob,
    client_version: &Text,
    protocol_version: Option<u64>,
) -> Result<(), Memory>
    ensures { OnOk result (Writes out.old (parts (command.Connect client_version.now protocol_version)) out.new) }
{
    append_text(out, 1, client_version)?;
    append_optional_number(out, 4, protocol_version)
}

fn append_connected(
    out: &mut Blob,
    server_version: &Text,
    protocol_version: Option<u64>,
) -> Result<(), Memory>
    ensures { OnOk result (Writes out.old (parts (command.Connected server_version.now protocol_version)) out.new) }
{
    append_text(out, 1, server_version)?;
    append_optional_number(out, 2, protocol_version)
}
