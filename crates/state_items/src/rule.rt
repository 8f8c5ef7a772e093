//! The rules of a state file.
ghost use Rattle.std.specs.Prelude.{◌≡◌};
ghost use Rattle.state_items.specs.Numbers.{number_of};

/// What an item of a state file can break. Where an item breaks several rules, the first of them here is told.
#[derive(Clone, Copy, Drop)]
pub enum Rule {
    /// The bytes, or the body, reach beyond the item.
    Whole,
    /// The file begins with `GEOSTATE`.
    Magic,
    /// The declarations are an accepted script in its canonical form.
    Declarations,
    /// An entry's metadata has a reading, its origin is a cluster, and it is small enough to be stored.
    Entry,
    /// An entry is no duplicate, and the sequence ids of own markers are 0, 1, 2 and so on.
    Identity,
    /// There is a ledger, none has more entries than a ledger takes, and together they have all entries.
    Ledgers,
    /// Ranges ascend with gaps, below the number of entries.
    Ranges,
    /// A subscription's kind, flag and name are ones, the name comes once, and there are at most 32.
    Subscription,
    /// A count is within its limit.
    Count,
    /// A client's state fits the script.
    Client,
    /// Nothing stands after the last item.
    End,
}

impl Rule {
    /// The rule's number, from 1.
    pub fn number(self) -> u32
        ensures { result ≡ number_of self }
    {
        match self {
            Rule::Whole => 1,
            Rule::Magic => 2,
            Rule::Declarations => 3,
            Rule::Entry => 4,
            Rule::Identity => 5,
            Rule::Ledgers => 6,
            Rule::Ranges => 7,
            Rule::Subscription => 8,
            Rule::Count => 9,
            Rule::Client => 10,
            Rule::End => 11,
        }
    }
}
