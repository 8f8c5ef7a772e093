//! Why bytes are no command.

ghost use Rattle.std.specs.Prelude.{◌≡◌};
ghost use Rattle.pulsar_commands.specs.declared.fault.CommandFault.TheVariants as fault;
ghost use Rattle.pulsar_commands.specs.Faults.{of_message};

use geo_base::Memory;
use pb_fields::PbFault;
use pb_fields::message::MessageFault;
use std::error::Error;
use std::fmt;

/// Why bytes are no command, in the order of judgement: first the bytes as fields; then field 1, the type; then the
/// type's number; then the field of that number, with what it holds; then the values of enumerations.
#[derive(Clone, Copy, Debug, PartialEq, Eq)]
pub enum CommandFault {
    /// The bytes, or those of a message in them, are no fields. The offset counts from that message's first byte.
    Pb(PbFault),
    /// A field of this number has another wire type than its row.
    WrongWire(u32),
    /// A text of this number is not UTF-8.
    NotText(u32),
    /// No field has this required number, and the lower ones that are required are there.
    Missing(u32),
    /// The command's type is not 2 to 19, or an enumeration does not have this value.
    UnknownType(u64),
    /// No memory was left. It says nothing of the bytes.
    Memory,
}

impl fmt::Display for CommandFault {
    ghost use Rattle.std.specs.Prelude.{Some};
    ghost use Rattle.pulsar_commands.specs.Printed.{command_fault_text};

    ghost output = { λ fault. Some (command_fault_text fault) };

    fn fmt<W: fmt::Write>(&self, f: &mut fmt::Formatter<W>) -> fmt::Result {
        match self {
            CommandFault::Pb(why) => write!(f, "Pb({why})"),
            CommandFault::WrongWire(number) => write!(f, "WrongWire({number})"),
            CommandFault::NotText(number) => write!(f, "NotText({number})"),
            CommandFault::Missing(number) => write!(f, "Missing({number})"),
            CommandFault::UnknownType(number) => write!(f, "UnknownType({number})"),
            CommandFault::Memory => write!(f, "Memory"),
        }
    }
}

impl Error for CommandFault {}

impl From<MessageFault> for CommandFault {
    ghost from_gives = { λ from e. e ≡ of_message from };

    fn from(fault: MessageFault) -> CommandFault {
        match fault {
            MessageFault::Pb(why) => CommandFault::Pb(why),
            MessageFault::WrongWire(number) => CommandFault::WrongWire(number),
            MessageFault::NotText(number) => CommandFault::NotText(number),
            MessageFault::Missing(number) => CommandFault::Missing(number),
            MessageFault::Memory => CommandFault::Memory,
        }
    }
}

impl From<Memory> for CommandFault {
    ghost from_gives = { λ _ e. e ≡ fault.Memory };

    fn from(_error: Memory) -> CommandFault {
        CommandFault::Memory
    }
}
