//! What is kept of a world, on its links and in a state file, and the world of the machine that it stands for.
//!
//! A world that keeps bytes on its links stands for the machine's: whatever event is done, in the way that the kept world does it, it
//! stands for the machine's world after the event. And the state which a script's run leaves after a stop fits a file: it is loaded as
//! it was saved.
//!
//! A law is a function without parameters and without an answer: its contract is the statement, and its proof stands in `proofs/`.
#![tactic(auto)]

mod laws;
mod saved_laws;

pub use laws::{
    law_brokers, law_clients, law_counts, law_input, law_opening, law_reached, law_stop,
};
pub use saved_laws::law_saved;
