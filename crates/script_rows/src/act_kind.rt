//! The rows of a client's lines.
ghost use Rattle.std.specs.Prelude.{◌≡◌};
ghost use Rattle.script_rows.specs.Rows.{act_built, act_columns, act_of_word, act_word, role_of};

use crate::column::{Column, Menu, Role};
use crate::is_word;

/// The kind of a client's line, by the words after `do C`.
#[derive(Clone, Copy, Drop, PartialEq, Eq)]
pub enum ActKind {
    /// `produce`
    Produce,
    /// `pub SEQ TO KEY TEXT`
    Pub,
    /// `sub S KIND INIT REPL`
    Sub,
    /// `flow N`
    Flow,
    /// `ack X P SEQ`
    Ack,
    /// `ackto X P SEQ`
    AckTo,
    /// `ackall`
    AckAll,
    /// `unsub`
    Unsub,
    /// `close`
    Close,
    /// `closep`
    CloseProducer,
    /// `ping`
    Ping,
    /// `move X`
    Move,
}

/// All kinds of client line.
const ACT_KINDS: [ActKind; 12] = [
    ActKind::Produce,
    ActKind::Pub,
    ActKind::Sub,
    ActKind::Flow,
    ActKind::Ack,
    ActKind::AckTo,
    ActKind::AckAll,
    ActKind::Unsub,
    ActKind::Close,
    ActKind::CloseProducer,
    ActKind::Ping,
    ActKind::Move,
];

const PUB: &[Column] = &[Column::Seq, Column::Targets, Column::Key, Column::Text];

const SUB: &[Column] = &[
    Column::Sub,
    Column::Menu(Menu::SubKind),
    Column::Menu(Menu::Start),
    Column::Menu(Menu::Replication),
];

/// One FLOW asks for 1 to 1,000,000 messages (own).
const FLOW: &[Column] = &[Column::Count {
    least: 1,
    most: 1_000_000,
}];

const IDENT: &[Column] = &[Column::Cluster, Column::Producer, Column::Seq];

const MOVE: &[Column] = &[Column::Cluster];

impl ActKind {
    /// The kind of client line that a word stands for.
    #[tactic(auto, using(crate::proofs::WordParts::found_later))]
    pub(crate) fn of(word: &[u8]) -> Option<ActKind>
        ensures { result ≡ act_of_word word.now }
    {
        for kind in ACT_KINDS {
            if is_word(word, kind.word()) {
                return Some(kind);
            }
        }
        None
    }

    /// The word after `do C`.
    pub(crate) fn word(self) -> &'static [u8]
        ensures { result.now ≡ act_word self }
    {
        match self {
            ActKind::Produce => b"produce",
            ActKind::Pub => b"pub",
            ActKind::Sub => b"sub",
            ActKind::Flow => b"flow",
            ActKind::Ack => b"ack",
            ActKind::AckTo => b"ackto",
            ActKind::AckAll => b"ackall",
            ActKind::Unsub => b"unsub",
            ActKind::Close => b"close",
            ActKind::CloseProducer => b"closep",
            ActKind::Ping => b"ping",
            ActKind::Move => b"move",
        }
    }

    /// The columns after that word.
    pub(crate) fn columns(self) -> &'static [Column]
        ensures { result.now ≡ act_columns self }
    {
        match self {
            ActKind::Produce
            | ActKind::AckAll
            | ActKind::Unsub
            | ActKind::Close
            | ActKind::CloseProducer
            | ActKind::Ping => &[],
            ActKind::Pub => PUB,
            ActKind::Sub => SUB,
            ActKind::Flow => FLOW,
            ActKind::Ack | ActKind::AckTo => IDENT,
            ActKind::Move => MOVE,
        }
    }

    /// What it makes of its client.
    pub fn role(self) -> Role
        ensures { result ≡ role_of self }
    {
        match self {
            ActKind::Produce => Role::Producer,
            ActKind::Move => Role::Mover,
            _ => Role::Plain,
        }
    }

    /// Whether its lines are read: all are.
    pub(crate) fn is_built(self) -> bool
        ensures { result ≡ act_built self }
    {
        true
    }
}
