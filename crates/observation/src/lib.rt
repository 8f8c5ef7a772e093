//! What was read of clusters that run elsewhere, and when it is safe: the words of an observation, the findings about one, and what it
//! means that there is none.
//!
//! As in `world_laws`, a law is a public function without parameters and without an answer. Its contract is the statement, in the words of
//! the definitions; nothing is done in its body, and its proof stands in `proofs/`.
#![tactic(auto)]

mod finding;
mod safety;
mod said;

pub use finding::Finding;
pub use safety::{law_failed_over, law_observed_safe};
pub use said::Said;
