//! The kind of a line, and the words of its columns.
ghost use Rattle.std.specs.Prelude.{◌≡◌};
ghost use Rattle.script_rows.specs.Judging.{act_cells, do_heading, halt_heading, heading_of, other_headed};
ghost use Rattle.script_rows.specs.Rows.{halt_built, line_of_word};
ghost use Rattle.script_rows.specs.Words.{words_of};

use crate::act_kind::ActKind;
use crate::cells::Cells;
use crate::event_kind::EventKind;
use crate::is_word;
use crate::kind::Kind;
use crate::line_kind::LineKind;
use crate::words::{LineWords, Words};

/// Whether `halt` is read.
const IS_HALT_BUILT: bool = true;

/// What the first words of a line are.
#[derive(Drop)]
pub enum Heading<'a> {
    /// words of no row that is read
    Unknown,
    /// words without the form of a row
    Formless,
    /// the kind of a line, and the words of its columns
    Headed(Kind, Cells<'a>),
}

/// The heading of a line.
pub fn heading_of(line: &[u8]) -> Heading<'_>
    ensures { result ≡ heading_of (words_of line.now) }
{
    let mut words = LineWords::new(line);
    let Some(word) = words.next_word() else {
        return Heading::Unknown;
    };
    if is_word(word, b"do") {
        do_heading(words)
    } else if is_word(word, b"halt") {
        if IS_HALT_BUILT {
            halt_heading(words)
        } else {
            Heading::Unknown
        }
    } else {
        other_heading(word, words)
    }
}

/// `C` and a line of that client
fn do_heading(mut words: LineWords<'_>) -> Heading<'_>
    ensures { result ≡ do_heading words.entry }
{
    let Some(client) = words.next_word() else {
        return Heading::Formless;
    };
    let Some(word) = words.next_word() else {
        return Heading::Formless;
    };
    match ActKind::of(word) {
        Some(kind) => {
            if kind.is_built() {
                Heading::Headed(Kind::Do(kind), Cells::after(client, act_cells(kind, words)))
            } else {
                Heading::Unknown
            }
        }
        None => Heading::Unknown,
    }
}

/// The words of a client line's columns: a text is the last of them.
fn act_cells(kind: ActKind, words: LineWords<'_>) -> Words<'_>
    ensures { result ≡ act_cells kind words.entry }
{
    match kind {
        ActKind::Pub => Words::at_most(words, 4),
        _ => Words::all(words),
    }
}

/// `K` and an event
fn halt_heading(mut words: LineWords<'_>) -> Heading<'_>
    ensures { result ≡ halt_heading words.entry }
{
    let Some(count) = words.next_word() else {
        return Heading::Formless;
    };
    let Some(word) = words.next_word() else {
        return Heading::Formless;
    };
    match EventKind::of(word) {
        Some(kind) => {
            if !kind.is_built() {
                Heading::Unknown
            } else if kind.may_halt() {
                Heading::Headed(Kind::Halt(kind), Cells::after(count, Words::all(words)))
            } else {
                Heading::Formless
            }
        }
        None => Heading::Formless,
    }
}

/// An event, as most lines are, or a line of declarations
#[tactic(auto, using(crate::proofs::Heads::no_line))]
fn other_heading<'a>(word: &'a [u8], words: LineWords<'a>) -> Heading<'a>
    ensures { result ≡ other_headed word.now words.entry (line_of_word word.now) }
{
    if let Some(kind) = EventKind::of(word) {
        return if kind.is_built() {
            Heading::Headed(Kind::Event(kind), Cells::new(Words::all(words)))
        } else {
            Heading::Unknown
        };
    }
    match LineKind::of(word) {
        Some(kind) => {
            if kind.is_built() {
                Heading::Headed(Kind::Other(kind), Cells::new(Words::all(words)))
            } else {
                Heading::Unknown
            }
        }
        None => Heading::Unknown,
    }
}
