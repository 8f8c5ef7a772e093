//! A link: the packets that are not taken yet.
ghost use Rattle.std.specs.Prelude.{◌≡◌, [], OnOk, OnErr};
ghost use Rattle.std.specs.Option.{option_copied};
ghost use Rattle.links.specs.Queues.{after_next, next_in, with_last, without_last};

use geo_base::Memory;
use std::alloc::Global;
use std::collections::VecDeque;
use std::marker::Model;
use wire_ends::{End, PART_BYTES, PieceEnd, WirePacket};

/// The packets that are not taken yet, in the order in which they were sent. A packet of several parts has come in pieces, which are
/// gathered as it is sent: no event stands between its pieces, so that none of them is lost. One of a single part has come as it is.
#[derive(Drop)]
pub(crate) struct Link {
    end: PieceEnd,
}

impl Model for Link {
    ghost use Rattle.std.specs.Prelude.{◌≡◌, [], None};
    ghost use Rattle.links.specs.Queues.{Queue};

    ghost Value = { Queue };

    ghost view = { λ l. l.end.gathered.whole };

    ghost invariant = { λ l. (l.end.pieces ≡ []) × (l.end.gathered.begun ≡ None) };
}

impl Link {
    /// An empty link; takes no memory.
    pub fn new(alloc: Global) -> Link
        ensures { result ≡ [] }
    {
        Link {
            end: PieceEnd::from_pieces(alloc, VecDeque::new(alloc), PART_BYTES),
        }
    }

    /// The packet that is taken next, if there is one.
    pub fn next(&self) -> Option<&WirePacket>
        ensures { option_copied result ≡ next_in self.now }
    {
        self.end.next()
    }

    /// Takes the next packet, if there is one.
    pub fn take(&mut self) -> Option<WirePacket>
        ensures taken { result ≡ next_in self.old }
        ensures rest { self.new ≡ after_next self.old }
    {
        self.end.take()
    }

    /// Sends a packet; unchanged where memory is wanting.
    #[tactic(auto, using(crate::proofs::Sending::sent, crate::proofs::Sending::kept))]
    pub fn send(&mut self, packet: WirePacket) -> Result<(), Memory>
        ensures ok { OnOk result (self.new ≡ with_last self.old packet) }
        ensures err { OnErr result (self.new ≡ self.old) }
    {
        if packet.frame.len() <= PART_BYTES {
            return self.end.add_whole(packet);
        }
        let before = self.end.len();
        let parcel = self.end.pack(packet)?;
        self.end.send(parcel);
        if self.end.gather().is_err() {
            self.end.keep(before);
            return Err(Memory);
        }
        Ok(())
    }

    /// Takes back what was sent last.
    pub fn unsend(&mut self)
        ensures { self.new ≡ without_last self.old }
    {
        let count = self.end.len();
        self.end.keep(count.saturating_sub(1));
    }

    /// Loses all packets.
    pub fn discard(&mut self)
        ensures { self.new ≡ [] }
    {
        self.end.keep(0);
    }
}
