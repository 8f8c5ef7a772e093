//! How strictly a trace is judged.

/// By which rules lines are judged.
#[derive(Clone, Copy, Debug, Drop, PartialEq, Eq)]
pub enum Strictness {
    /// By rules 1 to 11: what is written is safe, and messages may be missing.
    Plain,
    /// By rule 12 as well: a cluster stores the messages of another one without a gap.
    Whole,
}
