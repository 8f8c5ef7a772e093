//! The rules that a line may break.
ghost use Rattle.std.specs.Prelude.{◌≡◌};
ghost use Rattle.script_rows.specs.Judging.{rule_number};

use geo_base::Memory;
use std::alloc::AllocFailed;

/// A rule that a line may break; `number` gives the number under which a refusal names it.
#[derive(Clone, Copy, Drop, PartialEq, Eq)]
pub enum Rule {
    /// Each byte is printable, and a line feed ends the line.
    Bytes,
    /// The first line is `geo 1`.
    Head,
    /// The first word, and the word after `do C`, are known.
    Word,
    /// The words have the row's number and form.
    Form,
    /// A name has at most 16 bytes.
    LongName,
    /// The line's kind comes after that of the previous line, or is the same.
    Order,
    /// `geo`, `ledger` and `chance` come once.
    Twice,
    /// There are at most eight clusters.
    Clusters,
    /// A name is declared once among its kind.
    NameTwice,
    /// Two clusters come before a topic, and there is a topic.
    Lone,
    /// There are at most 16 topics.
    Topics,
    /// A topic has at most 32 clients.
    Clients,
    /// A topic has at most 32 subscriptions.
    Subscriptions,
    /// A text has at most 1,024 bytes.
    LongText,
    /// Clusters, topics and clients that are named are declared.
    Undeclared,
    /// A client that produces does not move.
    Mixed,
    /// A subscription that is offered is in a `sub` line of a client of its topic.
    StrangeSubscription,
    /// The two ends of a link differ.
    Loop,
    /// A list names a cluster once.
    TargetTwice,
}

impl Rule {
    /// The rule's number, as a refusal prints it.
    pub fn number(self) -> u32
        ensures { result ≡ rule_number self }
    {
        match self {
            Rule::Bytes => 1,
            Rule::Head => 2,
            Rule::Word => 3,
            Rule::Form => 4,
            Rule::LongName => 5,
            Rule::Order => 6,
            Rule::Twice => 7,
            Rule::Clusters => 8,
            Rule::NameTwice => 9,
            Rule::Lone => 10,
            Rule::Topics => 11,
            Rule::Clients => 12,
            Rule::Subscriptions => 13,
            Rule::LongText => 14,
            Rule::Undeclared => 15,
            Rule::Mixed => 16,
            Rule::StrangeSubscription => 17,
            Rule::Loop => 18,
            Rule::TargetTwice => 19,
        }
    }
}

/// Why a line is not taken in.
#[derive(Clone, Copy, Drop, PartialEq, Eq)]
pub enum LineFault {
    Broken(Rule),
    Memory,
}

impl From<Memory> for LineFault {
    ghost use Rattle.std.specs.Prelude.{◌≡◌};
    ghost use Rattle.script_rows.specs.declared.fault.LineFault.TheVariants as fault;

    ghost from_gives = { λ _ e. e ≡ fault.Memory };

    fn from(_error: Memory) -> LineFault {
        LineFault::Memory
    }
}

impl<T: Drop> From<AllocFailed<T>> for LineFault {
    ghost use Rattle.std.specs.Prelude.{◌≡◌};
    ghost use Rattle.script_rows.specs.declared.fault.LineFault.TheVariants as fault;

    ghost from_gives = { λ _ e. e ≡ fault.Memory };

    fn from(_error: AllocFailed<T>) -> LineFault {
        LineFault::Memory
    }
}
