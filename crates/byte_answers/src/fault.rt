//! Why there is no answer.

use geo_base::{Memory, NameFault};
use std::alloc::AllocError;
use thiserror::Error;

/// Why lines have no answers.
#[derive(Clone, Copy, Debug, Error)]
pub enum Fault {
    /// A growth of memory was refused.
    #[error("out of memory")]
    Memory,
    /// A script has too many bytes.
    #[error("a script of more than 1000000 bytes")]
    LongScript,
    /// A name of the broker's setup is none.
    #[error("a name that is none")]
    BadName,
    /// The broker does not accept the event.
    #[error("an event that the broker does not accept")]
    NotAccepted,
}

impl From<Memory> for Fault {
    fn from(_memory: Memory) -> Fault {
        Fault::Memory
    }
}

impl From<AllocError> for Fault {
    fn from(_error: AllocError) -> Fault {
        Fault::Memory
    }
}

impl From<NameFault> for Fault {
    fn from(fault: NameFault) -> Fault {
        match fault {
            NameFault::Memory => Fault::Memory,
            _ => Fault::BadName,
        }
    }
}
