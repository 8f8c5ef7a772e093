//! Writing commands.

ghost use Rattle.std.specs.Prelude.{◌≡◌, ◌++◌, IfOk, OnOk};
ghost use Rattle.pulsar_commands.specs.Parts.{parts, sub_number, ack_number};
ghost use Rattle.pulsar_commands.specs.Text.{IsCommandText};
ghost use Rattle.pulsar_commands.specs.Canonical.{IsWritable, Writes, body_text, command_text};

use crate::append::append_body;
use crate::command::Command;
use crate::kind::Kind;
use crate::table::TYPE;
use geo_base::{Blob, Memory};
use pb_fields::{write_bytes, write_varint};
use std::alloc::Global;

/// Bytes that most commands fit in, so that their text is written in one piece of memory (own).
const COMMON_BYTES: usize = 64;

impl Command {
    /// The canonical text: every field that there is a value for, by ascending numbers, each varint as short as can be.
    pub fn write(&self, alloc: Global) -> Result<Blob, Memory>
        ensures canonical { IfOk result (λ bytes. bytes ≡ command_text self.now) }
        ensures text { IfOk result (λ bytes. IsCommandText bytes self.now) }
    {
        Ok(written(alloc, self)?)
    }
}

fn written(alloc: Global, command: &Command) -> Result<Blob, Memory>
    ensures canonical { IfOk result (λ bytes. bytes ≡ command_text command.now) }
    ensures writable { IfOk result (λ bytes. IsWritable command.now) }
{
    let mut body = Blob::from_vec(Vec::with_capacity(alloc, COMMON_BYTES)?);
    append_body(&mut body, command)?;
    let number = command.kind().number();
    let mut out = Blob::from_vec(Vec::with_capacity(alloc, COMMON_BYTES)?);
    write_varint(&mut out, TYPE, u64::from(number))?;
    write_bytes(&mut out, number, body.as_slice())?;
    Ok(out)
}
