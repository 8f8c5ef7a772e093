//! The end of a ring that sends.
ghost use Rattle.std.specs.Prelude.{◌≡◌, ◌≤◌, ◌<◌, ◌+◌, ◌∷◌, ◌++◌, [], length, None, IfOk};
ghost use Rattle.std.specs.Int.{div_ceil};
ghost use Rattle.rtrb.specs.Ring.{known_free, sent};
ghost use Rattle.wire_ends.specs.Looks.{Looked, one_more};
ghost use Rattle.wire_ends.specs.Parcels.{AreParts, IsCut, pieces_of};
ghost use Rattle.wire_ends.specs.Pieces.{packets};

use geo_base::Memory;
use rtrb::Producer;
use std::alloc::Global;
use std::fmt;
use std::marker::Model;
use wire_ends::{End, Parcel, Piece, Pieces, WirePacket};

/// The end of a ring that sends. It shows no packet.
#[derive(Drop)]
pub struct RingSend {
    alloc: Global,
    producer: Producer<Piece, Global>,
    most: usize,
    looks: u64,
}

impl Model for RingSend {
    ghost use Rattle.std.specs.Prelude.{◌≡◌, ◌<◌, None};
    ghost use Rattle.rtrb.specs.Ring.{known_free, sent};
    ghost use Rattle.link_rings.specs.Rings.{Sending};
    ghost use Rattle.wire_ends.specs.Pieces.{begun_at_end};

    ghost Value = { Sending };

    ghost view = { λ e. record { pieces = sent e.producer; places = known_free e.producer; most = e.most; looks = e.looks } };

    ghost invariant = { λ e. (0 < e.most) × (begun_at_end None (sent e.producer) ≡ None) };
}

impl RingSend {
    pub(crate) fn new(alloc: Global, producer: Producer<Piece, Global>, most: usize) -> RingSend
        requires most { 0 < most }
        requires empty { sent producer ≡ [] }
        ensures { result ≡ record { pieces = []; places = known_free producer; most = most; looks = 0 } }
    {
        RingSend {
            alloc,
            producer,
            most,
            looks: 0,
        }
    }

    fn look(&mut self)
        ensures more { self.new ≡ record self.old { looks = one_more self.old.looks } }
        ensures looked { Looked self.old.looks self.new.looks }
    {
        self.looks = self.looks.saturating_add(1);
    }
}

impl fmt::Debug for RingSend {
    fn fmt<W: fmt::Write>(&self, f: &mut fmt::Formatter<W>) -> fmt::Result {
        f.write_str("RingSend")
    }
}

/// Pushes pieces, for which places are known to be free.
fn put(producer: &mut Producer<Piece, Global>, pieces: Pieces)
    requires { length pieces ≤ known_free producer.old }
    ensures sent { sent producer.new ≡ sent producer.old ++ pieces }
    ensures free { known_free producer.old ≡ known_free producer.new + length pieces }
{
    let mut left = pieces;
    while let Some(piece) = left.next() {
        producer.push_reserved(piece);
    }
}

impl End for RingSend {
    ghost sent = { λ e. packets e.pieces };

    ghost taken = { λ _. [] };

    ghost free = { λ e. e.places };

    ghost shown = { λ _. None };

    ghost waiting = { λ _. [] };

    ghost looks = { λ e. e.looks };

    ghost fits = { λ p. IsCut p };

    fn pack(&mut self, packet: WirePacket) -> Result<Parcel, Memory>
        ensures packet { IfOk result (λ p. p.packet ≡ packet) }
        ensures fits { IfOk result (λ p. IsCut p) }
        ensures places { IfOk result (λ p. p.places ≡ div_ceil (length packet.frame) self.old.most + 1) }
        ensures sizes { IfOk result (λ p. AreParts self.old.most p.parts) }
        ensures same { self.new ≡ self.old }
        ensures free { self.old.places ≤ self.new.places }
    {
        Parcel::cut(self.alloc, packet, self.most)
    }

    fn free(&mut self) -> usize {
        self.look();
        self.producer.slots()
    }

    #[tactic(auto, using(crate::proofs::Sent::sent_more, crate::proofs::Sent::sent_rests))]
    fn send(&mut self, parcel: Parcel)
        requires room { parcel.places ≤ self.old.places }
        requires fit { IsCut parcel }
        ensures pieces { self.new.pieces ≡ self.old.pieces ++ pieces_of parcel }
        ensures sent { packets self.new.pieces ≡ packets self.old.pieces ++ parcel.packet ∷ [] }
        ensures free { self.new.places + parcel.places ≡ self.old.places }
        ensures rest { self.new ≡ record self.old { pieces = self.new.pieces; places = self.new.places } }
    {
        put(&mut self.producer, parcel.into_pieces());
    }

    fn gather(&mut self) -> Result<(), Memory> {
        self.look();
        Ok(())
    }

    fn peek(&mut self) -> Option<&WirePacket> {
        self.look();
        None
    }

    fn take(&mut self) -> Option<WirePacket> {
        None
    }
}
