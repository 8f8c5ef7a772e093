//! The rules of an audit.
ghost use Rattle.std.specs.Prelude.{◌≡◌};
ghost use Rattle.audit.specs.Rules.{rule_number};
ghost use Rattle.audit.specs.declared.fault.AuditFault.TheVariants as fault;

use crate::fault::AuditFault;

/// A rule that a line of a trace may break; `number` gives the number under which a refusal names it.
#[derive(Clone, Copy, Drop)]
pub(crate) enum Rule {
    /// A line has one of the forms of a trace and names what is declared, and an event the next number.
    Form,
    /// An entry's position is above those of the entries before it.
    Position,
    /// No entry of the same origin and producer stands there with its sequence id or a higher one.
    Duplicate,
    /// An entry of another cluster stands there too, and is meant to go here.
    Origin,
    /// A snapshot's positions belong together.
    Snapshot,
    /// An update tells a snapshot that its subscription has passed.
    Update,
    /// A subscription is there, or is not there where it is created.
    Subscription,
    /// An acknowledged index is stored, and was not acknowledged before.
    Acknowledged,
    /// A marker's acknowledgement covers markers alone.
    Marker,
    /// An update's acknowledgement stays at or below the position that it names, on messages that were meant for its cluster.
    Named,
    /// A seek stays within the topic.
    Seek,
    /// Of what another cluster has for this one, an entry is the next.
    Gap,
}

impl Rule {
    /// The rule's number, as a refusal prints it.
    pub(crate) fn number(self) -> u32
        ensures { result ≡ rule_number self }
    {
        match self {
            Rule::Form => 1,
            Rule::Position => 2,
            Rule::Duplicate => 3,
            Rule::Origin => 4,
            Rule::Snapshot => 5,
            Rule::Update => 6,
            Rule::Subscription => 7,
            Rule::Acknowledged => 8,
            Rule::Marker => 9,
            Rule::Named => 10,
            Rule::Seek => 11,
            Rule::Gap => 12,
        }
    }

    /// The refusal of a line that breaks the rule, after the event of a number.
    pub(crate) fn broken_after(self, event: u64) -> AuditFault
        ensures { result ≡ fault.Rule event (rule_number self) }
    {
        AuditFault::Rule {
            event,
            rule: self.number(),
        }
    }
}
