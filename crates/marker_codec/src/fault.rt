//! Why bytes are no marker.

ghost use Rattle.std.specs.Prelude.{◌≡◌};
ghost use Rattle.marker_codec.specs.declared.fault.MarkerFault.TheVariants as fault;
ghost use Rattle.marker_codec.specs.Faults.{marker_fault};

use geo_base::Memory;
use pb_fields::PbFault;
use pb_fields::message::MessageFault;
use std::error::Error;
use std::fmt;

/// Why bytes of a kind are no marker, in the order of judgement: first the kind; then the bytes as fields; then the
/// fields in their order, a fault of an embedded message in its place with its own offsets and numbers; then what is
/// missing.
#[derive(Clone, Copy, Debug, PartialEq, Eq)]
pub enum MarkerFault {
    /// The kind is not 10 to 13.
    UnknownKind(u64),
    /// The bytes are no fields.
    Pb(PbFault),
    /// A field of this number has another wire type than its row.
    WrongWire(u32),
    /// A text of this number is not UTF-8.
    NotText(u32),
    /// No field has this required number, and the lower ones that are required are there.
    Missing(u32),
    /// No memory was left. It says nothing of the bytes.
    Memory,
}

impl fmt::Display for MarkerFault {
    ghost use Rattle.std.specs.Prelude.{Some};
    ghost use Rattle.marker_codec.specs.Printed.{marker_fault_text};

    ghost output = { λ fault. Some (marker_fault_text fault) };

    fn fmt<W: fmt::Write>(&self, f: &mut fmt::Formatter<W>) -> fmt::Result {
        match self {
            MarkerFault::UnknownKind(kind) => write!(f, "UnknownKind({kind})"),
            MarkerFault::Pb(why) => write!(f, "Pb({why})"),
            MarkerFault::WrongWire(number) => write!(f, "WrongWire({number})"),
            MarkerFault::NotText(number) => write!(f, "NotText({number})"),
            MarkerFault::Missing(number) => write!(f, "Missing({number})"),
            MarkerFault::Memory => write!(f, "Memory"),
        }
    }
}

impl Error for MarkerFault {}

impl From<MessageFault> for MarkerFault {
    ghost from_gives = { λ from e. e ≡ marker_fault from };

    fn from(fault: MessageFault) -> MarkerFault {
        match fault {
            MessageFault::Pb(fault) => MarkerFault::Pb(fault),
            MessageFault::WrongWire(number) => MarkerFault::WrongWire(number),
            MessageFault::NotText(number) => MarkerFault::NotText(number),
            MessageFault::Missing(number) => MarkerFault::Missing(number),
            MessageFault::Memory => MarkerFault::Memory,
        }
    }
}

impl From<Memory> for MarkerFault {
    ghost from_gives = { λ _ e. e ≡ fault.Memory };

    fn from(_error: Memory) -> MarkerFault {
        MarkerFault::Memory
    }
}
