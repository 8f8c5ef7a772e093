//! Why a topic was not compacted.
ghost use Rattle.std.specs.Prelude.{◌≡◌};
ghost use Rattle.topic_compaction.specs.declared.fault.CompactFault.TheVariants as fault;

use geo_base::Memory;
use std::alloc::{AllocError, AllocFailed};
use thiserror::Error;

/// Why a topic was not compacted. Nothing has changed. Where both rules are broken, the first one is told.
#[derive(Clone, Copy, Debug, Drop, PartialEq, Eq, Error)]
pub enum CompactFault {
    /// The horizon is above the topic's length, so it names entries that are not there.
    #[error("horizon {horizon} is past the end {len}")]
    PastEnd { horizon: u64, len: u64 },
    /// The horizon is below the one that is kept; a compacted view only grows.
    #[error("horizon {given} is below {kept}")]
    Backward { kept: u64, given: u64 },
    /// A growth of memory was refused.
    #[error("out of memory")]
    Memory,
}

impl From<Memory> for CompactFault {
    ghost from_gives = { λ _ e. e ≡ fault.Memory };

    fn from(_error: Memory) -> CompactFault {
        CompactFault::Memory
    }
}

impl From<AllocError> for CompactFault {
    ghost from_gives = { λ _ e. e ≡ fault.Memory };

    fn from(_error: AllocError) -> CompactFault {
        CompactFault::Memory
    }
}

impl<T: Drop> From<AllocFailed<T>> for CompactFault {
    ghost from_gives = { λ _ e. e ≡ fault.Memory };

    fn from(_error: AllocFailed<T>) -> CompactFault {
        CompactFault::Memory
    }
}
