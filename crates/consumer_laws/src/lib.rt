//! What consumers were given of what cursors pass, and in which order.
//!
//! A law is a public function without parameters and without an answer, as in `world_laws`: its contract is the statement, in the words of
//! the definitions, and its proof stands in `proofs/`.
#![tactic(auto)]

pub mod anew;
pub mod handed;

pub use anew::law_anew;
pub use handed::{law_handed, law_rising, law_still_handed};
