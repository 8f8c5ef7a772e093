//! The table of a node's ends.
ghost use Rattle.std.specs.Prelude.{◌≡◌, ◌≤◌, true, IfOk};
ghost use Rattle.wire_ends.specs.Looks.{Looked};
ghost use Rattle.log_parts.specs.Rows.{LooksRise, SamePeers, SameSends, SameTaken, SameTakes, SentOne, TookFrom, UsedAtMost, free_to, has_peer, looks_to, place_from, shown_from};

use crate::peer::same_peer;
use geo_base::{Memory, Peer};
use wire_ends::{End, Parcel, WirePacket};

/// A peer of a node, the end that takes what the peer sent, and the end that sends to it.
#[derive(Drop)]
pub struct EndRow<E: End> {
    pub peer: Peer,
    pub take: E,
    pub send: E,
}

/// The peers of a node and the ends of the links to them and from them.
#[derive(Drop)]
pub struct EndTable<E: End> {
    pub rows: Vec<EndRow<E>>,
}

impl<E: End> EndTable<E> {
    /// The place of a peer's row; `None` exactly where it has none.
    pub fn place(&self, peer: Peer) -> Option<usize>
        ensures { result ≡ place_from 0 self.now.rows.items peer }
    {
        for (at, row) in self.rows.iter().enumerate() {
            if same_peer(row.peer, peer) {
                return Some(at);
            }
        }
        None
    }

    /// Whether a peer is one of the node's.
    #[tactic(auto, using(crate::proofs::Tables::place_has, crate::proofs::Tables::place_one))]
    pub fn has(&self, peer: Peer) -> bool
        ensures { result ≡ has_peer self.now.rows.items peer }
    {
        self.place(peer).is_some()
    }

    /// Takes the packet that is shown of what a peer sent; `None` exactly where none is.
    pub fn take(&mut self, from: Peer) -> Option<WirePacket>
        ensures value { result ≡ shown_from E.shown self.old.rows.items from }
        ensures taken { TookFrom E.taken from result self.old.rows.items self.new.rows.items }
        ensures sends { SameSends E.sent E.free self.old.rows.items self.new.rows.items }
        ensures peers { SamePeers self.old.rows.items self.new.rows.items }
    {
        match self.place(from) {
            Some(at) => self.rows[at].take.take(),
            None => None,
        }
    }

    /// Makes a parcel of a packet that goes to a peer. An `Err` is want of memory.
    pub fn pack(&mut self, to: Peer, packet: WirePacket) -> Result<Parcel, Memory>
        requires { has_peer self.old.rows.items to ≡ true }
        ensures packet { IfOk result (λ p. p.packet ≡ packet) }
        ensures fits { IfOk result (λ p. E.fits p) }
        ensures looks { LooksRise E.looks self.old.rows.items self.new.rows.items }
        ensures sends { SameSends E.sent E.free self.old.rows.items self.new.rows.items }
        ensures takes { SameTakes E.taken E.shown self.old.rows.items self.new.rows.items }
        ensures peers { SamePeers self.old.rows.items self.new.rows.items }
    {
        let Some(at) = self.place(to) else {
            unreachable!();
        };
        self.rows[at].send.pack(packet)
    }

    /// Looks how many places are free for what goes to a peer.
    pub fn free(&mut self, to: Peer) -> usize
        requires { has_peer self.old.rows.items to ≡ true }
        ensures value { result ≡ free_to E.free self.new.rows.items to }
        ensures looked { Looked (looks_to E.looks self.old.rows.items to) (looks_to E.looks self.new.rows.items to) }
        ensures looks { LooksRise E.looks self.old.rows.items self.new.rows.items }
        ensures sends { SameSends E.sent E.free self.old.rows.items self.new.rows.items }
        ensures takes { SameTakes E.taken E.shown self.old.rows.items self.new.rows.items }
        ensures peers { SamePeers self.old.rows.items self.new.rows.items }
    {
        let Some(at) = self.place(to) else {
            unreachable!();
        };
        self.rows[at].send.free()
    }

    /// Sends a parcel to a peer, for which places are known to be free.
    pub fn send(&mut self, to: Peer, parcel: Parcel)
        requires has { has_peer self.old.rows.items to ≡ true }
        requires room { parcel.places ≤ free_to E.free self.old.rows.items to }
        requires fit { E.fits parcel }
        ensures sent { SentOne E.sent to parcel.packet self.old.rows.items self.new.rows.items }
        ensures free { UsedAtMost E.free to parcel.places self.old.rows.items self.new.rows.items }
        ensures taken { SameTaken E.taken self.old.rows.items self.new.rows.items }
        ensures peers { SamePeers self.old.rows.items self.new.rows.items }
    {
        let Some(at) = self.place(to) else {
            unreachable!();
        };
        self.rows[at].send.send(parcel);
    }
}
