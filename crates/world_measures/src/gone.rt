//! What is asked.

/// Which cluster goes, by its number, and whether the messages are named after their numbers.
#[derive(Clone, Copy, Drop)]
pub struct Gone {
    pub cluster: u32,
    pub with_names: bool,
}

/// Of which topic.
#[derive(Clone, Copy, Drop)]
pub(crate) struct Topic {
    pub(crate) number: u32,
    pub(crate) gone: Gone,
}
