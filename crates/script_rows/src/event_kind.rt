//! The rows of events.
ghost use Rattle.std.specs.Prelude.{◌≡◌};
ghost use Rattle.script_rows.specs.Rows.{event_built, event_columns, event_of_word, event_word, may_halt};

use crate::column::{Column, Menu};
use crate::is_word;

/// The kind of an event.
#[derive(Clone, Copy, Drop, PartialEq, Eq)]
pub enum EventKind {
    /// `go C`
    Go,
    /// `get C`
    Get,
    /// `reconnect C`
    Reconnect,
    /// `serve X C`
    Serve,
    /// `drop X C`
    Drop,
    /// `reset T X Y`
    Reset,
    /// `read T X Y`
    Read,
    /// `take T X Y FATE`
    Take,
    /// `receipt T X Y FATE`
    Receipt,
    /// `snap T X`
    Snap,
    /// `offer T X S`
    Offer,
    /// `seek T X S PLACE`
    Seek,
    /// `restart T X`
    Restart,
}

/// All kinds of event.
const EVENT_KINDS: [EventKind; 13] = [
    EventKind::Go,
    EventKind::Get,
    EventKind::Reconnect,
    EventKind::Serve,
    EventKind::Drop,
    EventKind::Reset,
    EventKind::Read,
    EventKind::Take,
    EventKind::Receipt,
    EventKind::Snap,
    EventKind::Offer,
    EventKind::Seek,
    EventKind::Restart,
];

const CLIENT: &[Column] = &[Column::Client];

const CONNECTION: &[Column] = &[Column::Cluster, Column::Client];

const LINK: &[Column] = &[Column::Topic, Column::Cluster, Column::Other];

const FATED_LINK: &[Column] = &[
    Column::Topic,
    Column::Cluster,
    Column::Other,
    Column::Menu(Menu::Fate),
];

const NODE: &[Column] = &[Column::Topic, Column::Cluster];

const OFFER: &[Column] = &[Column::Topic, Column::Cluster, Column::Offered];

const SEEK: &[Column] = &[
    Column::Topic,
    Column::Cluster,
    Column::Offered,
    Column::PositionOrEnd,
];

impl EventKind {
    /// The kind of event whose lines begin with a word.
    #[tactic(auto, using(crate::proofs::WordParts::found_later))]
    pub(crate) fn of(word: &[u8]) -> Option<EventKind>
        ensures { result ≡ event_of_word word.now }
    {
        for kind in EVENT_KINDS {
            if is_word(word, kind.word()) {
                return Some(kind);
            }
        }
        None
    }

    /// The word that its lines begin with.
    pub(crate) fn word(self) -> &'static [u8]
        ensures { result.now ≡ event_word self }
    {
        match self {
            EventKind::Go => b"go",
            EventKind::Get => b"get",
            EventKind::Reconnect => b"reconnect",
            EventKind::Serve => b"serve",
            EventKind::Drop => b"drop",
            EventKind::Reset => b"reset",
            EventKind::Read => b"read",
            EventKind::Take => b"take",
            EventKind::Receipt => b"receipt",
            EventKind::Snap => b"snap",
            EventKind::Offer => b"offer",
            EventKind::Seek => b"seek",
            EventKind::Restart => b"restart",
        }
    }

    /// Its columns.
    pub(crate) fn columns(self) -> &'static [Column]
        ensures { result.now ≡ event_columns self }
    {
        match self {
            EventKind::Go | EventKind::Get | EventKind::Reconnect => CLIENT,
            EventKind::Serve | EventKind::Drop => CONNECTION,
            EventKind::Reset | EventKind::Read => LINK,
            EventKind::Take | EventKind::Receipt => FATED_LINK,
            EventKind::Snap | EventKind::Restart => NODE,
            EventKind::Offer => OFFER,
            EventKind::Seek => SEEK,
        }
    }

    /// Whether its lines are read: all are.
    pub(crate) fn is_built(self) -> bool
        ensures { result ≡ event_built self }
    {
        true
    }

    /// Whether it may be halted: an event of a broker that it does by its own steps.
    pub(crate) fn may_halt(self) -> bool
        ensures { result ≡ may_halt self }
    {
        !matches!(
            self,
            EventKind::Go | EventKind::Get | EventKind::Reconnect | EventKind::Restart
        )
    }
}
