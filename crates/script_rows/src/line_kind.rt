//! The rows of the other lines.
ghost use Rattle.std.specs.Prelude.{◌≡◌};
ghost use Rattle.script_rows.specs.Rows.{line_built, line_columns, line_of_word, line_word};

use crate::column::{Column, Menu};
use crate::is_word;

/// The kind of a line that neither is a client's nor schedules an event.
#[derive(Clone, Copy, Drop, PartialEq, Eq)]
pub enum LineKind {
    /// `geo 1`
    Geo,
    /// `ledger N`
    Ledger,
    /// `chance NUMBER LOST TWICE RESTART`
    Chance,
    /// `cluster X`
    Cluster,
    /// `topic T`
    Topic,
    /// `client C T X`
    Client,
    /// `settle`
    Settle,
    /// `stop`
    Stop,
}

/// All kinds of other line.
const LINE_KINDS: [LineKind; 8] = [
    LineKind::Geo,
    LineKind::Ledger,
    LineKind::Chance,
    LineKind::Cluster,
    LineKind::Topic,
    LineKind::Client,
    LineKind::Settle,
    LineKind::Stop,
];

const GEO: &[Column] = &[Column::Menu(Menu::Version)];

/// A ledger takes 1 to 1,000,000 entries (own).
const LEDGER: &[Column] = &[Column::Count {
    least: 1,
    most: 1_000_000,
}];

const CHANCE: &[Column] = &[
    Column::Count {
        least: 0,
        most: u32::MAX,
    },
    Column::Lost,
    Column::Twice,
    Column::Count {
        least: 0,
        most: 1_000,
    },
];

const CLUSTER: &[Column] = &[Column::NewCluster];

const TOPIC: &[Column] = &[Column::NewTopic];

const CLIENT: &[Column] = &[Column::NewClient, Column::Home, Column::Cluster];

impl LineKind {
    /// The kind of line that begins with a word.
    #[tactic(auto, using(crate::proofs::WordParts::found_later))]
    pub(crate) fn of(word: &[u8]) -> Option<LineKind>
        ensures { result ≡ line_of_word word.now }
    {
        for kind in LINE_KINDS {
            if is_word(word, kind.word()) {
                return Some(kind);
            }
        }
        None
    }

    /// The word that it begins with.
    pub(crate) fn word(self) -> &'static [u8]
        ensures { result.now ≡ line_word self }
    {
        match self {
            LineKind::Geo => b"geo",
            LineKind::Ledger => b"ledger",
            LineKind::Chance => b"chance",
            LineKind::Cluster => b"cluster",
            LineKind::Topic => b"topic",
            LineKind::Client => b"client",
            LineKind::Settle => b"settle",
            LineKind::Stop => b"stop",
        }
    }

    /// Its columns.
    pub(crate) fn columns(self) -> &'static [Column]
        ensures { result.now ≡ line_columns self }
    {
        match self {
            LineKind::Geo => GEO,
            LineKind::Ledger => LEDGER,
            LineKind::Chance => CHANCE,
            LineKind::Cluster => CLUSTER,
            LineKind::Topic => TOPIC,
            LineKind::Client => CLIENT,
            LineKind::Settle | LineKind::Stop => &[],
        }
    }

    /// Whether its lines are read: all are.
    pub(crate) fn is_built(self) -> bool
        ensures { result ≡ line_built self }
    {
        true
    }
}
