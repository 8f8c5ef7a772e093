//! What a node did.
ghost use Rattle.std.specs.Prelude.{◌≡◌};

use log_parts::Done;
use std::marker::Model;

/// What a node did, in order; not owned.
#[derive(Drop)]
pub struct History<'a> {
    events: &'a [Done],
}

impl<'a> Model for History<'a> {
    ghost use Rattle.std.specs.Prelude.{List};
    ghost use Rattle.merge_history.specs.Kept.{Kept};

    ghost Value = { List Kept };

    ghost view = { λ h. h.events.now };
}

impl<'a> History<'a> {
    /// The history of these events.
    pub fn new(events: &'a [Done]) -> History<'a>
        ensures { result ≡ events.now }
    {
        History { events }
    }

    /// The events.
    pub fn events(&self) -> &'a [Done]
        ensures { result.now ≡ self.now }
    {
        self.events
    }
}
