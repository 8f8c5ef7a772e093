//! A store for the bytes of ledgers.
ghost use Rattle.std.specs.Prelude.{◌≡◌, ◌≤◌, ℕ, List, Option, IfOk, OnOk, OnErr, IsErrOf};
ghost use Rattle.geo_io.specs.Faults.{Rose, Stood, one_more};
ghost use Rattle.tiered_storage.specs.Kept.{IsRead, KeepsAll, MayPut, Puts};

use geo_base::{Blob, Memory};
use thiserror::Error;

/// A call of a tier failed.
#[derive(Clone, Copy, Debug, Drop, Error)]
#[error("the tier failed")]
pub struct Failed;

/// Whether a tier keeps bytes for a ledger.
#[derive(Clone, Copy, Drop)]
pub enum Held {
    Yes,
    No,
}

/// Why the bytes of a ledger were not read.
#[derive(Clone, Copy, Debug, Drop, Error)]
pub enum TierGet {
    /// The tier failed.
    #[error("the tier failed")]
    Failed,
    /// A growth of memory was refused.
    #[error("out of memory")]
    Memory,
}

impl From<Failed> for TierGet {
    ghost use Rattle.std.specs.Prelude.{◌≡◌};
    ghost use Rattle.tiered_storage.specs.declared.tier.TierGet.TheVariants as fault;

    ghost from_gives = { λ _ e. e ≡ fault.Failed };

    fn from(_failed: Failed) -> TierGet {
        TierGet::Failed
    }
}

impl From<Memory> for TierGet {
    ghost use Rattle.std.specs.Prelude.{◌≡◌};
    ghost use Rattle.tiered_storage.specs.declared.tier.TierGet.TheVariants as fault;

    ghost from_gives = { λ _ e. e ≡ fault.Memory };

    fn from(_memory: Memory) -> TierGet {
        TierGet::Memory
    }
}

/// A store for the bytes of ledgers, which no one else writes. It may fail.
pub trait Tier {
    /// The bytes that it keeps for each ledger.
    ghost kept: { Self → ℕ → Option (List ℕ) };

    /// How many calls failed so far.
    ghost faults: { Self → ℕ };

    /// How many calls were made so far.
    ghost calls: { Self → ℕ };

    /// Keeps bytes for a ledger in place of what was kept for it. `Failed` comes only where the count of faults rose; then what is
    /// kept for the ledger is what was, or these bytes.
    fn put(&mut self, ledger: u64, bytes: &[u8]) -> Result<(), Failed>
        ensures ok { OnOk result (Puts (kept self.old) (kept self.new) ledger bytes.now) }
        ensures err { OnErr result (MayPut (kept self.old) (kept self.new) ledger bytes.now) }
        ensures later { faults self.old ≤ faults self.new }
        ensures cause { OnErr result (Rose (faults self.old) (faults self.new)) }
        ensures steady { OnOk result (Stood (faults self.old) (faults self.new)) }
        ensures counted { calls self.new ≡ one_more (calls self.old) };

    /// Appends the bytes of a ledger to a buffer; `No` exactly where nothing is kept for it. A refusal leaves the buffer as it was,
    /// and `Failed` comes only where the count of faults rose.
    fn get(&mut self, ledger: u64, out: &mut Blob) -> Result<Held, TierGet>
        ensures ok { IfOk result (IsRead (kept self.old ledger) out.old out.new) }
        ensures err { OnErr result (out.new ≡ out.old) }
        ensures kept { KeepsAll (kept self.old) (kept self.new) }
        ensures later { faults self.old ≤ faults self.new }
        ensures cause { IsErrOf result TierGet.Failed → Rose (faults self.old) (faults self.new) }
        ensures steady { OnOk result (Stood (faults self.old) (faults self.new)) }
        ensures counted { calls self.new ≡ one_more (calls self.old) };
}
