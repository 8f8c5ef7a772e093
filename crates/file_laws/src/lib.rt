//! Laws of files: the bytes of a state file are loaded as a state, or as the first item that breaks a rule; and what a run stores in
//! ledgers of another store reads back.
//!
//! As in `world_laws`, a law is a public function without parameters and without an answer. Its contract is the statement, in the words of
//! the definitions; nothing is done in its body, and its proof stands in `proofs/`.
#![tactic(auto)]

mod loads;
mod stored;

pub use loads::{law_brokers, law_entries, law_loaded};
pub use stored::law_readable;
