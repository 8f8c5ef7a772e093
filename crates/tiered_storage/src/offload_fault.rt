//! What can go wrong.
ghost use Rattle.std.specs.Prelude.{◌≡◌};
ghost use Rattle.tiered_storage.specs.declared.offload_fault.OffloadFault.TheVariants as offload;
ghost use Rattle.tiered_storage.specs.declared.offload_fault.TierFault.TheVariants as tier;

use crate::{Failed, TierGet};
use geo_base::Memory;
use thiserror::Error;

/// Why a ledger was not offloaded. It is not, and the list of entries is as it was. The first two come exactly where their rules say.
#[derive(Clone, Copy, Debug, Drop, PartialEq, Eq, Error)]
pub enum OffloadFault {
    /// The ledger is above the open one, so it was never opened.
    #[error("ledger {0} is unknown")]
    Unknown(u64),
    /// The ledger is the open one: entries are still appended to it.
    #[error("ledger {0} is open")]
    Open(u64),
    /// The tier failed; its count of faults rose in this call.
    #[error("the tier failed")]
    Failed,
    /// A growth of memory was refused.
    #[error("out of memory")]
    Memory,
}

impl From<Memory> for OffloadFault {
    ghost from_gives = { λ _ e. e ≡ offload.Memory };

    fn from(_error: Memory) -> OffloadFault {
        OffloadFault::Memory
    }
}

impl From<Failed> for OffloadFault {
    ghost from_gives = { λ _ e. e ≡ offload.Failed };

    fn from(_error: Failed) -> OffloadFault {
        OffloadFault::Failed
    }
}

/// Why an entry was not read. The list of entries is as it was.
#[derive(Clone, Copy, Debug, Drop, Error)]
pub enum TierFault {
    /// The tier failed; its count of faults rose in this call.
    #[error("the tier failed")]
    Failed,
    /// A growth of memory was refused.
    #[error("out of memory")]
    Memory,
}

impl From<Memory> for TierFault {
    ghost from_gives = { λ _ e. e ≡ tier.Memory };

    fn from(_error: Memory) -> TierFault {
        TierFault::Memory
    }
}

impl From<TierGet> for TierFault {
    ghost use Rattle.tiered_storage.specs.Calls.{of_get};

    ghost from_gives = { λ error e. e ≡ of_get error };

    fn from(error: TierGet) -> TierFault {
        match error {
            TierGet::Failed => TierFault::Failed,
            TierGet::Memory => TierFault::Memory,
        }
    }
}
