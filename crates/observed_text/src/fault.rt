//! Why an observation is not judged.
use geo_base::Memory;
use thiserror::Error;

/// The first refused line of an observation, or want of memory.
#[derive(Clone, Copy, Debug, Drop, Error)]
pub enum ObserveFault {
    /// The number of the line, as that of the head is told; and the lowest rule that it breaks, of 1 to 7.
    #[error("line {line} rule {rule}")]
    Rule { line: u64, rule: u32 },
    /// No memory was left. It says nothing of the observation.
    #[error("out of memory")]
    Memory,
}

impl From<Memory> for ObserveFault {
    ghost use Rattle.std.specs.Prelude.{◌≡◌};
    ghost use Rattle.observed_text.specs.declared.fault.ObserveFault.TheVariants as fault;

    ghost from_gives = { λ _ f. f ≡ fault.Memory };

    fn from(_memory: Memory) -> ObserveFault {
        ObserveFault::Memory
    }
}
