//! How many places are free for what a node sends.
ghost use Rattle.std.specs.Prelude.{◌≡◌, true};
ghost use Rattle.log_parts.specs.Rows.{free_to, has_peer, looks_to};
ghost use Rattle.node_log.specs.Acts.{SameLog};
ghost use Rattle.wire_ends.specs.Looks.{Looked};

use crate::logged::NodeLog;
use geo_base::Peer;
use wire_ends::End;

impl<E: End> NodeLog<E> {
    /// Looks how many places are free for what goes to a peer, and answers how many are known to be. State, history, clock and what
    /// was sent and taken are as they were.
    #[tactic(auto, using(crate::proofs::Openings::holds_still, crate::proofs::Openings::same_looked))]
    pub fn free(&mut self, to: Peer) -> usize
        requires { has_peer self.old.ends to ≡ true }
        ensures value { result ≡ free_to E.free self.new.ends to }
        ensures looked { Looked (looks_to E.looks self.old.ends to) (looks_to E.looks self.new.ends to) }
        ensures same { SameLog E.sent E.taken self.old self.new }
    {
        self.ends.free(to)
    }
}
