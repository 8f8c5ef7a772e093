//! Laws of traces: what a run writes of its trace is accepted by the audit, also where it judges gaps, and makes what the run makes; what an
//! audit accepts is safe, and has no gap where it judges these; and what is written of a trace reads back.
//!
//! As in `world_laws`, a law is a public function without parameters and without an answer. Its contract is the statement, in the words of
//! the definitions; nothing is done in its body, and its proof stands in `proofs/`.
#![tactic(auto)]

mod laws;
mod traces;

pub use laws::{law_audited, law_gapless, law_traced, law_traced_whole};
pub use traces::law_trace_read;
