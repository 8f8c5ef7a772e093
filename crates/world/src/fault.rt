//! Why a run does not come to its end.
use geo_base::Memory;
use thiserror::Error;

/// What was done before stays done.
#[derive(Clone, Copy, Debug, Drop, Error)]
pub enum RunFault {
    /// The next event would pass the limit of this number: 2, events and idle events together above 2,000,000; 3, the bytes of all
    /// frames above 1 GiB (own: so that every run ends, in bounded memory).
    #[error("too large {0}")]
    TooLarge(u64),
    /// No memory was left. It says nothing of the run.
    #[error("out of memory")]
    Memory,
}

impl From<Memory> for RunFault {
    ghost use Rattle.std.specs.Prelude.{◌≡◌};
    ghost use Rattle.world.specs.declared.fault.RunFault.TheVariants as fault;

    ghost from_gives = { λ _ f. f ≡ fault.Memory };

    fn from(_memory: Memory) -> RunFault {
        RunFault::Memory
    }
}
