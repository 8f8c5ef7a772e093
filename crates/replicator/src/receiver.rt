//! The receiving side of a forward link.
ghost use Rattle.std.specs.Prelude.{◌≡◌, None, Some};
ghost use Rattle.replicator.specs.Taking.{open_after, taken};

use std::marker::Model;

/// What a packet's session makes of the packet.
#[derive(Clone, Copy, Drop, PartialEq, Eq)]
pub enum Taken {
    /// It opens its session, and any earlier one ends.
    Opened,
    /// It belongs to the session that is open, and is acted on.
    Process,
    /// It belongs to no open session, and has no effect.
    Discard,
}

/// The number of the session that is open, or none: what comes in another one is discarded, so that nothing is stored out of
/// order after a loss (own). Contracts see it as the machine has it.
#[derive(Drop)]
pub struct Receiver {
    session: Option<u64>,
}

impl Model for Receiver {
    ghost use Rattle.std.specs.Prelude.{Option, ℕ};

    ghost Value = { Option ℕ };

    ghost view = { λ r. r.session };
}

impl Receiver {
    /// No session is open.
    pub fn new() -> Receiver
        ensures { result ≡ None }
    {
        Receiver { session: None }
    }

    /// A packet of a session comes, which is to open the session or not.
    pub fn on_packet(&mut self, session: u64, opening: bool) -> Taken
        ensures taken { result ≡ taken self.old session opening }
        ensures session { self.new ≡ open_after self.old session opening }
    {
        let taken = self.next_packet(session, opening);
        if opening {
            self.open(session);
        }
        taken
    }

    /// What `on_packet` would answer.
    pub fn next_packet(&self, session: u64, opening: bool) -> Taken
        ensures { result ≡ taken self.now session opening }
    {
        if opening {
            return Taken::Opened;
        }
        if self.session == Some(session) {
            Taken::Process
        } else {
            Taken::Discard
        }
    }

    /// A session begins.
    pub fn open(&mut self, session: u64)
        ensures { self.new ≡ Some session }
    {
        self.session = Some(session);
    }

    /// No session is open any more: a packet was lost or could not be read or acted on, or the broker starts again.
    pub fn close(&mut self)
        ensures { self.new ≡ None }
    {
        self.session = None;
    }
}
