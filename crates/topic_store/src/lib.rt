//! What a topic keeps: its entries, in ledgers, and which messages it has had.
//!
//! A topic's store is one list of entries ([`TopicLedger`]). What the ledgers are for, positions, is read from the first index of each
//! ledger: the position of an index is found by binary search among them, the index of a position by one look, and an entry more is a
//! push. `ListStore` is the same by walking the ledgers' lengths, for tests.
//!
//! A [`DedupTable`] has for each origin and producer the highest sequence id that was stored (Pulsar manual, message deduplication; that
//! the origin counts is own). It answers what a search of the whole topic would, and a check takes the same time however long the topic
//! is.
#![tactic(auto)]

mod entry_of;
pub mod firsts;
mod laws;
mod ledger;
mod list_store;
mod position;
mod stream;
mod table;

pub use laws::{law_table_of_nothing, law_table_with_one_more};
pub use ledger::TopicLedger;
pub use list_store::ListStore;
pub use position::or_first;
pub use stream::Stream;
pub use table::{DedupTable, Verdict};
