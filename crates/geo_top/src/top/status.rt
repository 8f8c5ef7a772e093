//! How the program ends.
ghost use Rattle.std.specs.Prelude.{◌≡◌};
ghost use Rattle.geo_top.specs.Statuses.{status_number};

/// How the program ends: with its output, or with a refusal.
#[derive(Clone, Copy, Drop, PartialEq, Eq)]
pub enum Status {
    /// The whole output went out.
    Ok,
    /// The words are no command.
    Usage,
    /// The first line that breaks a rule, counted from 1, and the lowest rule that it breaks: a line of the script, or of those
    /// after a state.
    BadScript { line: u64, rule: u32 },
    /// The source failed.
    ReadFault,
    /// The sink failed: the output went out in part.
    WriteFault,
    /// The limit of this number is passed: 1 is that of the bytes of an input, 2 that of events and idle events together, 3 that
    /// of the bytes of all frames.
    TooLarge(u64),
    /// A growth of memory was refused, and nothing went out.
    OutOfMemory,
    /// The first item of a state that breaks a rule, by the offset of its first byte, and the lowest rule that it breaks.
    BadState { offset: u64, rule: u32 },
    /// A state of a version that is not read.
    StateVersion(u32),
    /// The first line of a trace that breaks a rule of an audit: the number of the last event that was accepted, 0 before the first
    /// one, and the lowest rule that the line breaks.
    AuditRefused { event: u64, rule: u32 },
    /// The first line of an observation that breaks a rule, counted from 1 with the lines before it, and the lowest rule that it
    /// breaks.
    BadObservation { line: u64, rule: u32 },
    /// Something is found against an observation, and the whole of it went out.
    Found,
}

impl Status {
    /// The number that the program ends with (own).
    pub fn number(self) -> u8
        ensures { result ≡ status_number self }
    {
        match self {
            Status::Ok => 0,
            Status::Usage => 2,
            Status::BadScript { .. } | Status::BadObservation { .. } => 3,
            Status::ReadFault => 4,
            Status::WriteFault => 5,
            Status::TooLarge(_) => 6,
            Status::OutOfMemory => 8,
            Status::BadState { .. } | Status::StateVersion(_) => 9,
            Status::AuditRefused { .. } => 10,
            Status::Found => 11,
        }
    }
}
