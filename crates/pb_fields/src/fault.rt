//! Why bytes are no list of fields.

ghost use Rattle.std.specs.Prelude.{◌≡◌};
ghost use Rattle.pb_fields.specs.declared.fault.FieldError.TheVariants as field_error;
ghost use Rattle.pb_fields.specs.declared.fault.PbFault.TheVariants as pb;
ghost use Rattle.pb_fields.specs.Faults.{fault_at};

use geo_base::Memory;
use std::alloc::{AllocError, AllocFailed};
use std::error::Error;
use std::fmt;

/// Why the bytes at a place are no field. A field is judged in this order: its tag as a varint, the tag's wire
/// type, its number, its value; and in a value its length, as a varint, before its content.
#[derive(Clone, Copy, PartialEq, Eq)]
pub enum FieldFault {
    /// The bytes end within the tag, the value, the length or the content.
    Truncated,
    /// A varint has a tenth byte above 1, so its number is 2^64 or more, or the tag is 2^32 or more.
    Varint,
    /// The wire type is 3, 4, 6 or 7.
    WireType,
    /// The field's number is 0.
    FieldZero,
}

impl FieldFault {
    /// The fault of the bytes, where the field's tag begins at `at`.
    pub fn at(self, at: usize) -> PbFault
        ensures { result ≡ fault_at self at }
    {
        match self {
            FieldFault::Truncated => PbFault::Truncated { at },
            FieldFault::Varint => PbFault::Varint { at },
            FieldFault::WireType => PbFault::WireType { at },
            FieldFault::FieldZero => PbFault::FieldZero { at },
        }
    }
}

/// Why a field was not read.
#[derive(Clone, Copy, PartialEq, Eq)]
pub(crate) enum FieldError {
    Fault(FieldFault),
    /// No memory was left for the field's content.
    Memory,
}

impl From<FieldFault> for FieldError {
    ghost from_gives = { λ why e. e ≡ field_error.Fault why };

    fn from(why: FieldFault) -> FieldError {
        FieldError::Fault(why)
    }
}

impl From<Memory> for FieldError {
    ghost from_gives = { λ _ e. e ≡ field_error.Memory };

    fn from(_error: Memory) -> FieldError {
        FieldError::Memory
    }
}

/// Why bytes were not read: the first field without a reading, `at` being the offset of its tag's first byte.
#[derive(Clone, Copy, Debug, PartialEq, Eq)]
pub enum PbFault {
    /// The bytes end within the field.
    Truncated { at: usize },
    /// A varint is 2^64 or more or has more than ten bytes, or the tag is 2^32 or more.
    Varint { at: usize },
    /// The wire type is 3, 4, 6 or 7.
    WireType { at: usize },
    /// The field's number is 0.
    FieldZero { at: usize },
    /// No memory was left. It says nothing of the bytes.
    Memory,
}

impl fmt::Display for PbFault {
    ghost use Rattle.std.specs.Prelude.{Some};
    ghost use Rattle.pb_fields.specs.Printed.{pb_fault_text};

    ghost output = { λ fault. Some (pb_fault_text fault) };

    fn fmt<W: fmt::Write>(&self, f: &mut fmt::Formatter<W>) -> fmt::Result {
        match self {
            PbFault::Truncated { at } => write!(f, "Truncated(1, {at})"),
            PbFault::Varint { at } => write!(f, "Varint(2, {at})"),
            PbFault::WireType { at } => write!(f, "WireType(3, {at})"),
            PbFault::FieldZero { at } => write!(f, "FieldZero(4, {at})"),
            PbFault::Memory => write!(f, "Memory"),
        }
    }
}

impl Error for PbFault {}

impl From<AllocError> for PbFault {
    ghost from_gives = { λ _ e. e ≡ pb.Memory };

    fn from(_error: AllocError) -> PbFault {
        PbFault::Memory
    }
}

impl<T: Drop> From<AllocFailed<T>> for PbFault {
    ghost from_gives = { λ _ e. e ≡ pb.Memory };

    fn from(_error: AllocFailed<T>) -> PbFault {
        PbFault::Memory
    }
}

impl From<Memory> for PbFault {
    ghost from_gives = { λ _ e. e ≡ pb.Memory };

    fn from(_error: Memory) -> PbFault {
        PbFault::Memory
    }
}
