//! Why a script is refused.
use thiserror::Error;

/// Why a script or a schedule is refused: the first line that breaks a rule, counted from 1 with the skipped lines, and the
/// lowest rule that it breaks; or want of memory.
#[derive(Clone, Copy, Debug, Drop, PartialEq, Eq, Error)]
pub enum ScriptFault {
    #[error("bad script line {line} rule {rule}")]
    Rule { line: u64, rule: u32 },
    #[error("out of memory")]
    Memory,
}
