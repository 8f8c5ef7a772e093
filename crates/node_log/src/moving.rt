//! Packets moved by hand between logs, for tests: over ends that are lists.
ghost use Rattle.std.specs.Prelude.{◌≡◌, true, OnErr, OnOk, slice_get};
ghost use Rattle.log_parts.specs.Hand.{Gave, Kept, Put, held_for};
ghost use Rattle.log_parts.specs.Rows.{has_peer};
ghost use Rattle.node_log.specs.Logs.{SameButEnds};

use crate::logged::NodeLog;
use geo_base::{Memory, Peer};
use wire_ends::{ListEnd, WirePacket};

impl NodeLog<ListEnd> {
    /// The packet that was sent to a peer first and not given yet, and frees its place; `None` exactly where there is none.
    #[tactic(auto, using(crate::proofs::Openings::holds_still))]
    pub fn outgoing(&mut self, peer: Peer) -> Option<WirePacket>
        requires { has_peer self.old.ends peer ≡ true }
        ensures value { result ≡ slice_get (held_for self.old.ends peer) 0 }
        ensures gave { Gave peer self.old.ends self.new.ends }
        ensures rest { SameButEnds self.old self.new }
    {
        self.ends.give(peer)
    }

    /// Puts a packet after those from a peer that are still to be taken; it needs no free place. An `Err` is want of memory, and
    /// puts nothing there.
    #[tactic(auto, using(crate::proofs::Openings::holds_still))]
    pub fn incoming(&mut self, peer: Peer, packet: WirePacket) -> Result<(), Memory>
        requires { has_peer self.old.ends peer ≡ true }
        ensures put { OnOk result (Put peer packet self.old.ends self.new.ends) }
        ensures rest { SameButEnds self.old self.new }
        ensures err { OnErr result (Kept self.old.ends self.new.ends) }
    {
        self.ends.put(peer, packet)
    }
}
