//! Laws of a failover: what a subscription's cursor keeps, what an update of another cluster puts into it, that none of it is given again,
//! and how far back what can be given again may be. And of a move that is planned: what is to be done, and seen, before consumers of one
//! cluster go to another, so that nothing is given to them again.
//!
//! As in `world_laws`, a law is a public function without parameters and without an answer. Its contract is the statement, in the words of
//! the definitions; nothing is done in its body, and its proof stands in `proofs/`.
#![tactic(auto)]

mod again;
mod moves;

pub use again::{law_again, law_behind, law_effects, law_follows, law_got, law_never_again};
pub use moves::{
    law_covers, law_drained, law_ended, law_handover, law_offered, law_room, law_switchover,
};
