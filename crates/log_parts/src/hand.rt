//! Packets moved by hand, for tests: over ends that are lists.
ghost use Rattle.std.specs.Prelude.{◌≡◌, true, OnErr, OnOk, slice_get};
ghost use Rattle.log_parts.specs.Hand.{Gave, Kept, Put, held_for};
ghost use Rattle.log_parts.specs.Rows.{SamePeers, has_peer};

use crate::table::EndTable;
use geo_base::{Memory, Peer};
use wire_ends::{ListEnd, WirePacket};

impl EndTable<ListEnd> {
    /// The packet that was sent to a peer first and not given yet, and frees its place; `None` exactly where there is none.
    pub fn give(&mut self, to: Peer) -> Option<WirePacket>
        requires { has_peer self.old.rows.items to ≡ true }
        ensures value { result ≡ slice_get (held_for self.old.rows.items to) 0 }
        ensures gave { Gave to self.old.rows.items self.new.rows.items }
        ensures peers { SamePeers self.old.rows.items self.new.rows.items }
    {
        let Some(at) = self.place(to) else {
            unreachable!();
        };
        self.rows[at].send.give()
    }

    /// Puts a packet after those from a peer that are still to be taken; it needs no free place. An `Err` is want of memory, and
    /// puts nothing there.
    pub fn put(&mut self, from: Peer, packet: WirePacket) -> Result<(), Memory>
        requires { has_peer self.old.rows.items from ≡ true }
        ensures put { OnOk result (Put from packet self.old.rows.items self.new.rows.items) }
        ensures err { OnErr result (Kept self.old.rows.items self.new.rows.items) }
        ensures peers { SamePeers self.old.rows.items self.new.rows.items }
    {
        let Some(at) = self.place(from) else {
            unreachable!();
        };
        self.rows[at].take.put(packet)
    }
}
