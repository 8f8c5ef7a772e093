//! The commands of the program.
ghost use Rattle.std.specs.Prelude.{◌≡◌};
ghost use Rattle.geo_top.specs.Commands.{alone_of, audit_of_word, big_of, command_of, compact_of, has_input, lost_command, lost_with, most_horizon, most_keep, most_number, numbered_of, stepped_of, steps_with, three_of, tier_of};
ghost use Rattle.script_rows.specs.Numbers.{number_of};

use audit::Strictness;
use geo_base::Text;
use script_rows::number_of;
use std::marker::Model;

/// A word of the command line.
pub type Word = Text;

/// The greatest number of a generated run: it has 32 bits.
const MOST_NUMBER: u64 = 4_294_967_295;

/// The greatest horizon of a compacted view: no run stores more entries than it has events.
const MOST_HORIZON: u64 = 2_000_000;

/// The greatest number of closed ledgers that stay: half as many as a run has events (own).
const MOST_KEEP: u64 = 1_000_000;

/// The word that names the cluster that goes; it is the word's bytes.
#[derive(Drop)]
pub struct ClusterWord<'a> {
    word: &'a Word,
}

impl<'a> Model for ClusterWord<'a> {
    ghost use Rattle.std.specs.Prelude.{List, ℕ};

    ghost Value = { List ℕ };

    ghost view = { λ c. c.word.now };
}

impl<'a> ClusterWord<'a> {
    /// The word's bytes.
    pub fn as_bytes(&self) -> &[u8]
        ensures { result.now ≡ self.entry.now }
    {
        self.word.as_bytes()
    }
}

/// What the program can be asked to do.
#[derive(Drop)]
pub enum Command<'a> {
    /// Read an input, and do something with it.
    Reads(Reading<'a>),
    /// Do the run that a number generates, and sum it up.
    Big(u32),
    /// Do that run, and show each of its steps.
    BigSteps(u32),
}

/// What is done with an input.
#[derive(Drop)]
pub enum Reading<'a> {
    /// A script is run, and something of its run is shown.
    Script(Shown),
    /// A script is run, everything is stopped, and the state file of what is left is written.
    Save,
    /// A run goes on from a state file with the steps after it, and something of it is shown.
    Resume(GoingOn),
    /// The trace of a run that stands after a script's declarations is judged, by how strictly.
    Audit(Strictness),
    /// A script is run, and each of its steps is shown with what it changed of a report.
    Steps,
    /// A script is run, and of the world at its end it is told what is lost if a cluster goes, with the messages' names or without.
    Lost(ClusterWord<'a>, bool),
    /// The same, with the names, of a run that goes on from a state file with the steps after it.
    LostOn(ClusterWord<'a>),
    /// What was read and logged of clusters that run elsewhere, which stands after a script's declarations, is judged.
    Observe,
}

/// What is shown of the run of a script.
#[derive(Clone, Copy, Drop)]
pub enum Shown {
    /// Its report.
    Report,
    /// The compacted view of each topic at each cluster, by its horizon.
    Compacted(u64),
    /// The entries of each topic at each cluster, read back once its closed ledgers moved to a tier, but for so many last ones.
    Tiered(u64),
    /// Each event with what it wrote durably.
    Trace,
}

/// What is shown of a run that goes on from a state.
#[derive(Clone, Copy, Drop)]
pub enum GoingOn {
    /// Its report.
    Report,
    /// Each of its steps with what it changed of a report.
    Steps,
}

impl<'a> Command<'a> {
    /// The command that words are.
    pub fn read(words: &'a [Word]) -> Option<Command<'a>>
        ensures { result ≡ command_of words.entry.now }
    {
        match words {
            [word] => Command::alone(word),
            [word, number] => Command::numbered(word, number),
            [word, what, number] => Command::three(word, what, number),
            _ => None,
        }
    }

    /// Whether words have an input.
    pub fn has_input(words: &[Word]) -> bool
        ensures { result ≡ has_input (command_of words.now) }
    {
        matches!(Command::read(words), Some(Command::Reads(_)))
    }

    /// The command of a word that stands alone.
    fn alone(word: &Word) -> Option<Command<'a>>
        ensures { result ≡ alone_of word.now }
    {
        let bytes = word.as_bytes();
        if bytes == b"run".as_slice() {
            Some(Command::Reads(Reading::Script(Shown::Report)))
        } else if bytes == b"save".as_slice() {
            Some(Command::Reads(Reading::Save))
        } else if bytes == b"resume".as_slice() {
            Some(Command::Reads(Reading::Resume(GoingOn::Report)))
        } else if bytes == b"audit".as_slice() {
            Some(Command::Reads(Reading::Audit(Strictness::Plain)))
        } else if bytes == b"trace".as_slice() {
            Some(Command::Reads(Reading::Script(Shown::Trace)))
        } else if bytes == b"steps".as_slice() {
            Some(Command::Reads(Reading::Steps))
        } else if bytes == b"observe".as_slice() {
            Some(Command::Reads(Reading::Observe))
        } else {
            None
        }
    }

    /// The command of a word with another.
    fn numbered(word: &Word, number: &'a Word) -> Option<Command<'a>>
        ensures { result ≡ numbered_of word.now number.entry.now }
    {
        let bytes = word.as_bytes();
        if bytes == b"big".as_slice() {
            Command::big(number)
        } else if bytes == b"compact".as_slice() {
            Command::compact(number)
        } else if bytes == b"tiered".as_slice() {
            Command::tiered(number)
        } else if bytes == b"steps".as_slice() {
            Command::steps_with(number)
        } else if bytes == b"audit".as_slice() {
            Command::audit(number)
        } else if bytes == b"lost".as_slice() {
            Some(Command::lost(number, true))
        } else {
            None
        }
    }

    /// What is lost if the cluster of a word goes, with the names or without.
    fn lost(cluster: &'a Word, with_names: bool) -> Command<'a>
        ensures { result ≡ lost_command cluster.entry.now with_names }
    {
        Command::Reads(Reading::Lost(ClusterWord { word: cluster }, with_names))
    }

    /// The same, as the word after the cluster's says.
    fn lost_with(cluster: &'a Word, how: &Word) -> Option<Command<'a>>
        ensures { result ≡ lost_with cluster.entry.now how.now }
    {
        if how.as_bytes() == b"numbers".as_slice() {
            Some(Command::lost(cluster, false))
        } else if how.as_bytes() == b"from".as_slice() {
            Some(Command::Reads(Reading::LostOn(ClusterWord { word: cluster })))
        } else {
            None
        }
    }

    /// The command of three words.
    fn three(word: &Word, what: &'a Word, more: &Word) -> Option<Command<'a>>
        ensures { result ≡ three_of word.now what.entry.now more.now }
    {
        if word.as_bytes() == b"lost".as_slice() {
            Command::lost_with(what, more)
        } else {
            Command::stepped(word, what, more)
        }
    }

    /// The steps of what a word names.
    fn steps_with(word: &Word) -> Option<Command<'a>>
        ensures { result ≡ steps_with word.now }
    {
        if word.as_bytes() == b"from".as_slice() {
            Some(Command::Reads(Reading::Resume(GoingOn::Steps)))
        } else {
            None
        }
    }

    /// The steps of a generated run.
    #[tactic(auto, using(script_rows::proofs::Chosen::number_small))]
    fn stepped(word: &Word, what: &Word, number: &Word) -> Option<Command<'a>>
        ensures { result ≡ stepped_of word.now what.now number.now }
    {
        if word.as_bytes() != b"steps".as_slice() || what.as_bytes() != b"big".as_slice() {
            return None;
        }
        match number_of(number.as_bytes(), MOST_NUMBER) {
            Some(number) => Some(Command::BigSteps(number as u32)),
            None => None,
        }
    }

    /// The compacted views of a word.
    fn compact(word: &Word) -> Option<Command<'a>>
        ensures { result ≡ compact_of (number_of most_horizon word.now) }
    {
        match number_of(word.as_bytes(), MOST_HORIZON) {
            Some(horizon) => Some(Command::Reads(Reading::Script(Shown::Compacted(horizon)))),
            None => None,
        }
    }

    /// The topics in tiers of a word.
    fn tiered(word: &Word) -> Option<Command<'a>>
        ensures { result ≡ tier_of (number_of most_keep word.now) }
    {
        match number_of(word.as_bytes(), MOST_KEEP) {
            Some(keep) => Some(Command::Reads(Reading::Script(Shown::Tiered(keep)))),
            None => None,
        }
    }

    /// The audit of the word after `audit`.
    fn audit(word: &Word) -> Option<Command<'a>>
        ensures { result ≡ audit_of_word word.now }
    {
        if word.as_bytes() == b"whole".as_slice() {
            Some(Command::Reads(Reading::Audit(Strictness::Whole)))
        } else {
            None
        }
    }

    /// The generated run of a word.
    #[tactic(auto, using(script_rows::proofs::Chosen::number_small))]
    fn big(word: &Word) -> Option<Command<'a>>
        ensures { result ≡ big_of (number_of most_number word.now) }
    {
        match number_of(word.as_bytes(), MOST_NUMBER) {
            Some(number) => Some(Command::Big(number as u32)),
            None => None,
        }
    }
}
