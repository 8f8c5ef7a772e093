//! The measures of a loss: of a world, what is missing elsewhere, what would come again, what was never told and what would be lost, if a
//! cluster went now; and their lines, as the definitions of `loss_laws` have them.
//!
//! Each topic is walked at each cluster: once for a table of where its messages stand, by identity, and once for each measure that asks of
//! them. So what is asked costs nearly the entries of the topics, times the clusters and the replicated subscriptions, and no search. An
//! `Err` is want of memory; what stood before then stands with a part of what was to be appended, or none.
#![tactic(auto)]

mod ends;
mod gone;
mod identity;
mod losses;
mod missing;
mod named;
mod pairs;
mod places;
mod subs;
mod tables;
mod told;

pub use gone::Gone;
pub use losses::add_lost_lines;
