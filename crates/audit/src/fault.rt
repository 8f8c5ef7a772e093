//! Why an audit ends.
use geo_base::Memory;
use thiserror::Error;

/// The first refused line of a trace, or want of memory.
#[derive(Clone, Copy, Debug, Drop, Error)]
pub enum AuditFault {
    /// The number of the last event that was accepted, 0 where none was, and the lowest rule that the next line breaks, of 1 to 12.
    #[error("event {event} rule {rule}")]
    Rule { event: u64, rule: u32 },
    /// No memory was left. It says nothing of the trace.
    #[error("out of memory")]
    Memory,
}

impl From<Memory> for AuditFault {
    ghost use Rattle.std.specs.Prelude.{◌≡◌};
    ghost use Rattle.audit.specs.declared.fault.AuditFault.TheVariants as fault;

    ghost from_gives = { λ _ f. f ≡ fault.Memory };

    fn from(_memory: Memory) -> AuditFault {
        AuditFault::Memory
    }
}
