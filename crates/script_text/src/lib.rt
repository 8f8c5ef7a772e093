//! Scripts: the text that the program runs.
//!
//! A script is lines of words. An empty line and a line that begins with `#` are skipped, but counted. The others are
//! rows of the table of `script_rows`, which come in this order:
//!
//! | line | how many |
//! |---|---|
//! | `geo 1` | one, first |
//! | `ledger N`, `chance NUMBER LOST TWICE RESTART` | at most one of each |
//! | `cluster X` | 2 to 8 |
//! | `topic T` | 1 to 16 |
//! | `client C T X` | at most 32 of a topic |
//! | `do C` and a line of that client | any number, in any order |
//! | an event, `halt K` and an event, `settle`, `stop` | any number, in any order |
//!
//! A line that breaks a rule is refused by the lowest one. All of this is this project's own. The definition says it exactly:
//! `specs/Rules.antt` has the rules of a line and of the whole, `specs/Adding.antt` what a line adds, and `script_of` is what
//! the bytes of a script mean. [`read_script`] reads one, and a [`Scenario`] is what an accepted one says.
//! [`read_schedule`] and [`write_schedule`] read and write events that stand by themselves, and [`schedules_go_on`] says what
//! they say after a script.
#![tactic(auto)]

mod canonical;
mod chance;
mod client;
mod declarations;
mod draft;
mod fault;
mod form;
mod law;
mod line_ends;
mod lines;
mod names;
mod read;
mod recent;
mod said_lines;
mod same;
mod scenario;
mod schedule;
mod setup;
mod step_list;
mod steps;
mod subs;

pub use canonical::write_declarations;
pub use chance::Chance;
pub use client::ClientDecl;
pub use fault::ScriptFault;
pub use law::{declarations_read_back, schedules_go_on};
pub use read::read_script;
pub use said_lines::{SaidLine, SaidLines};
pub use scenario::{Scenario, ScenarioParts};
pub use schedule::{read_schedule, write_schedule};
pub use step_list::StepList;
