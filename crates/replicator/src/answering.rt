//! The beginning of a session, and what the back link answers.
ghost use Rattle.std.specs.Prelude.{◌≡◌, ◌<◌, ◌+◌, ◌^◌, ◌==◌, ◌&&◌, [], IfSome};
ghost use Rattle.geo_base.specs.Replicator.{replicator_reset};
ghost use Rattle.replicator.specs.Answering.{HeardFits, after_receipt, after_success, awaited, heard, is_opening};
ghost use Rattle.replicator.specs.Sending.{replicator_with, sending_of};

use crate::replicator::Replicator;
use geo_base::{Frame, ReplicatorState};

/// What a packet of the back link means to a replicator.
#[derive(Clone, Copy, Drop, PartialEq, Eq)]
pub enum Heard {
    /// It answers another session, or nothing that is awaited: it has no effect.
    Nothing,
    /// The other side opened the session.
    Opened,
    /// The receipt of a number came: the index that was sent under it is to be acknowledged on the cursor.
    Receipt { number: u64, index: u64 },
}

impl Replicator {
    /// The next session begins, whose number is answered: everything that the cursor lacks is to be sent again, from number 0.
    pub fn reset(&mut self) -> u64
        requires { self.old.sending.session + 1 < 2 ^ 64 }
        ensures session { result ≡ self.old.sending.session + 1 }
        ensures reset { self.new ≡ record self.old { sending = sending_of (replicator_reset (replicator_with [] (record self.old.sending { session = result }))) } }
    {
        let session = self.session() + 1;
        self.set_session(session);
        self.begin();
        session
    }

    /// What a packet of a session means, by its frame; `on_success` and `on_receipt` say what is awaited.
    pub fn next_answer(&self, session: u64, frame: &Frame) -> Heard
        ensures heard { result ≡ heard session frame.now self.now.sending }
        ensures fits { HeardFits result }
    {
        match frame {
            Frame::ProducerSuccess { .. } if self.awaits_success(session) => Heard::Opened,
            Frame::SendReceipt { seq, .. } => match self.awaited_index(session, *seq) {
                None => Heard::Nothing,
                Some(index) => Heard::Receipt {
                    number: *seq,
                    index,
                },
            },
            _ => Heard::Nothing,
        }
    }

    /// The other side says that it opened a session; no effect, unless the session is current, and was begun and not opened.
    pub fn on_success(&mut self, session: u64)
        ensures { self.new ≡ record self.old { sending = sending_of (after_success session (replicator_with [] self.old.sending)) } }
    {
        if self.awaits_success(session) {
            self.opened();
        }
    }

    /// The receipt of a number of a session came: the answer is the index to acknowledge, which awaits no receipt any more. `None`,
    /// with no effect, exactly where the session is not current or the number not pending.
    #[tactic(auto, using(crate::proofs::Pendings::none_taken))]
    pub fn on_receipt(&mut self, session: u64, number: u64) -> Option<u64>
        ensures index { result ≡ awaited session number (replicator_with [] self.old.sending) }
        ensures fits { IfSome result (λ i. i + 1 < 2 ^ 64) }
        ensures after { self.new ≡ record self.old { sending = sending_of (after_receipt session number (replicator_with [] self.old.sending)) } }
    {
        let index = self.awaited_index(session, number);
        if index.is_some() {
            self.unpend(number);
        }
        index
    }

    /// Whether a success of a session opens it: the session is current, and was begun and not opened.
    fn awaits_success(&self, session: u64) -> bool
        ensures { result ≡ ((session == self.now.sending.session) && is_opening self.now.sending.state) }
    {
        session == self.session() && self.state() == ReplicatorState::Opening
    }

    /// The index that was sent under a number of a session and awaits its receipt, where the session is current.
    fn awaited_index(&self, session: u64, number: u64) -> Option<u64>
        ensures index { result ≡ awaited session number (replicator_with [] self.now.sending) }
        ensures fits { IfSome result (λ i. i + 1 < 2 ^ 64) }
    {
        if session != self.session() {
            return None;
        }
        self.pending_index(number)
    }
}
