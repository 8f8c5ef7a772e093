//! What is lost, what comes again and what was never told, if a cluster goes now: the measures of a world, as definitions, the lines that
//! print them, and laws that tie them to what holds of every run.
//!
//! As in `world_laws`, a law is a public function without parameters and without an answer. Its contract is the statement, in the words of
//! the definitions; nothing is done in its body, and its proof stands in `proofs/`.
#![tactic(auto)]

mod losses;

pub use losses::{law_comes_again, law_lost, law_missing};
