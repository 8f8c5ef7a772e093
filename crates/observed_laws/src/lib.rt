//! What is observed of a run of the machine is safe, at whatever moments it is read: the judge of an observation raises no false alarm.
//!
//! As in `world_laws`, a law is a public function without parameters and without an answer. Its contract is the statement, in the words of
//! the definitions; nothing is done in its body, and its proof stands in `proofs/`.
#![tactic(auto)]

mod observing;

pub use observing::law_observed;
