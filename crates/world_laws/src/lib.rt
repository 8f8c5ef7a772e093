//! Laws over every run of the written machine.
//!
//! A law is a public function without parameters and without an answer. Its contract is the statement, in the words of
//! the definitions; nothing is done in its body, and its proof stands in `proofs/`.
#![tactic(auto)]

pub mod histories;
pub mod links;
pub mod numbers;
pub mod publishing;
pub mod replication;
pub mod residency;
pub mod resuming;
pub mod settled;
pub mod settling;
pub mod snapshots;
pub mod subscriptions;
pub mod topics;

pub use histories::{law_alike, law_merge};
pub use links::{law_fits, law_plain};
pub use numbers::{law_markers, law_numbers, law_reached};
pub use publishing::{law_answered, law_counted, law_published, law_repeated};
pub use replication::{law_prefix, law_receipt};
pub use residency::{law_in_run, law_marked, law_resident};
pub use resuming::law_resumed;
pub use settled::{law_safe, law_update};
pub use settling::{law_budget, law_settles_in_time};
pub use snapshots::{law_cut, law_position, law_second_round};
pub use subscriptions::{law_kept, law_offers};
pub use topics::law_once;
