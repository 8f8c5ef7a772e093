//! Laws of the steps of a run: what is told of each event is what a reader of reports lacks, and nothing else.
//!
//! As in `world_laws`, a law is a public function without parameters and without an answer. Its contract is the statement, in the words of
//! the definitions; nothing is done in its body, and its proof stands in `proofs/`.
#![tactic(auto)]

mod steps;

pub use steps::law_steps_fold;
