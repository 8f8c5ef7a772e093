//! The rows of a script: which words a line of each kind has, what they say, and which rules they break; and the names, numbers and lists of
//! names that stand in its words.
//!
//! A script's bytes are cut into lines, words and lists without a copy: what is here points into them. [`NameTable`]
//! finds a declared name by a table, so that a line costs the same whichever of its kind it names.
//!
//! A row is a word, a list of columns, and one arm that makes its value. All that a reader judges is said of columns,
//! so that a new event is a row and an arm: `specs/Rows.antt` has the table, `specs/Columns.antt` what a word says in a
//! column and which rules it breaks there, `specs/Judging.antt` the same of a whole line, `specs/Values.antt` what the
//! values of a row make, and `specs/Written.antt` the words that write a step. All of this is this project's own.
#![tactic(auto)]

mod act_kind;
mod cell;
mod cells;
mod choice;
mod column;
mod columns;
mod cut;
mod event_kind;
mod fault;
mod heading;
mod judge;
mod kind;
mod law;
mod line_kind;
mod name_law;
mod name_list;
mod name_word;
mod names;
mod number;
mod progress;
mod row;
mod seen;
mod table;
mod value;
mod values;
mod words;
mod write;

pub use act_kind::ActKind;
pub use cells::Cells;
pub use column::{Column, Menu, Role};
pub use cut::{Parts, cut_at, is_word};
pub use event_kind::EventKind;
pub use fault::{LineFault, Rule};
pub use heading::{Heading, heading_of};
pub use kind::Kind;
pub use law::{steps_are_known, steps_read_back};
pub use line_kind::LineKind;
pub use name_law::{lists_read_back, numbers_read_back};
pub use name_list::{NameList, list_word, mask_of};
pub use name_word::{NameWord, has_name_bytes};
pub use names::{Member, Names};
pub use number::{number_of, number_word};
pub use progress::{Progress, Stage};
pub use row::Row;
pub use table::NameTable;
pub use value::{TextWord, Value};
pub use values::{item_at, line_of, name_at, rest, step_of};
