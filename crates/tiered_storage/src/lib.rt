//! Ledgers that move to another store (Pulsar manual, tiered storage).
//!
//! A [`Tier`] keeps bytes for ledgers, and tells contracts which. It counts its calls and its faults, so that a call may answer a fault
//! only where that count rose. [`MemTier`] keeps them in memory, and fails at stated calls. The trait and its rules are this project's
//! own, after the offloaders of Pulsar.
//!
//! A [`TieredLedger`] is a topic whose closed ledgers move to a tier, and which is still the list of its entries. A closed ledger goes
//! there as one text, and its entries leave memory; a read of one of them fetches the text, and the last ledger that was fetched is kept.
//! What a caller gets is what the store had: tiers change where entries stand, and nothing else. A text is read as the entries that it
//! was written of, and no others (own: Pulsar offloads a ledger's entries as they stand on disk). Bytes that were written otherwise are a
//! fault or read as some entries: a reader is safe on any bytes, and need not know where they come from.
#![tactic(auto)]

mod cut;
mod mem_tier;
mod offload_fault;
mod part;
mod reading;
mod tier;
mod tiered;
mod writing;

pub use mem_tier::MemTier;
pub use offload_fault::{OffloadFault, TierFault};
pub use reading::read_ledger;
pub use tier::{Failed, Held, Tier, TierGet};
pub use tiered::TieredLedger;
pub use writing::put_ledger;
