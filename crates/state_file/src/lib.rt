//! State files: the state of a run's world after a stop, as bytes, from which a later run goes on.
//!
//! | bytes | what |
//! |---|---|
//! | 8 | `GEOSTATE` |
//! | 4 | the version: 2, or 1, which has no counts of seeks |
//! | 8 | the length of the body |
//! | | the length and the bytes of the declarations, a script in its canonical form |
//! | 32 | events, idle events, rounds, bytes of frames |
//! | | for each topic, for each cluster: lengths of ledgers, entries, subscriptions, replicators |
//! | | for each client: where it is, its lines in force, what it waits for, its counts, what it got |
//!
//! Numbers are eight bytes, the greatest first; a text is its length in four bytes and its bytes; a list is how many items it has,
//! and the items. All of this is this project's own. `specs/Texts.antt` has the bytes of a state, `specs/Reading.antt` and
//! `specs/Loading.antt` what bytes are loaded as: the first item that breaks a rule refuses them.
#![tactic(auto)]

mod body;
mod fault;
mod front;
mod laws;
mod loading;
mod saved;
mod saving;

pub use fault::StateFault;
pub use laws::{loaded_is_known, one_loading, saved_is_loaded};
pub use loading::load;
pub use saved::Saved;
pub use saving::save;
