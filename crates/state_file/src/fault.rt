//! Why a file is no state.
ghost use Rattle.state_file.specs.Faults.{IsFaultIn};

use state_items::ItemFault;
use thiserror::Error;

/// Why a file was not loaded.
#[derive(Clone, Copy, Debug, Drop, Error)]
pub enum StateFault {
    /// The item whose first byte is at the offset breaks the rule of a number.
    #[error("bad state: offset {offset} rule {rule}")]
    BadState { offset: usize, rule: u32 },
    /// No version that is read.
    #[error("version {0}")]
    Version(u32),
    /// No memory was left. It says nothing of the bytes.
    #[error("out of memory")]
    Memory,
}

/// The fault of an item among so many bytes.
pub(crate) fn fault_in(whole: usize, fault: ItemFault) -> StateFault
    ensures { IsFaultIn whole fault result }
{
    match fault {
        ItemFault::Memory => StateFault::Memory,
        ItemFault::Broken(broken) => StateFault::BadState {
            offset: whole.saturating_sub(broken.left),
            rule: broken.rule.number(),
        },
    }
}
