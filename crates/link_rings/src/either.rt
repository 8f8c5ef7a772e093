//! Either end of a ring.
ghost use Rattle.std.specs.Prelude.{◌≡◌};
ghost use Rattle.wire_ends.specs.Parcels.{IsCut};

use crate::send::RingSend;
use crate::take::RingTake;
use geo_base::Memory;
use wire_ends::{End, Parcel, WirePacket};

/// Either end of a ring, as an end of a link. The end that takes shows no packet sent and no free place, so no parcel can be sent
/// there; the end that sends shows no packet.
#[derive(Debug, Drop)]
pub enum RingEnd {
    Send(RingSend),
    Take(RingTake),
}

impl End for RingEnd {
    ghost use Rattle.link_rings.specs.Ends.{free_of, looks_of, sent_by, shown_by, taken_by, waiting_at};

    ghost sent = { λ e. sent_by e };

    ghost taken = { λ e. taken_by e };

    ghost free = { λ e. free_of e };

    ghost shown = { λ e. shown_by e };

    ghost waiting = { λ e. waiting_at e };

    ghost looks = { λ e. looks_of e };

    ghost fits = { λ p. IsCut p };

    fn pack(&mut self, packet: WirePacket) -> Result<Parcel, Memory> {
        match self {
            RingEnd::Send(end) => end.pack(packet),
            RingEnd::Take(end) => end.pack(packet),
        }
    }

    fn free(&mut self) -> usize {
        match self {
            RingEnd::Send(end) => end.free(),
            RingEnd::Take(end) => {
                end.look();
                0
            }
        }
    }

    fn send(&mut self, parcel: Parcel) {
        match self {
            RingEnd::Send(end) => end.send(parcel),
            // Each parcel takes a place, and none is free here.
            RingEnd::Take(_) => {
                if parcel.places() > 0 {
                    unreachable!()
                }
            }
        }
    }

    fn gather(&mut self) -> Result<(), Memory> {
        match self {
            RingEnd::Send(end) => end.gather(),
            RingEnd::Take(end) => end.gather(),
        }
    }

    fn peek(&mut self) -> Option<&WirePacket> {
        match self {
            RingEnd::Send(end) => end.peek(),
            RingEnd::Take(end) => end.peek(),
        }
    }

    fn take(&mut self) -> Option<WirePacket> {
        match self {
            RingEnd::Send(end) => end.take(),
            RingEnd::Take(end) => end.take(),
        }
    }
}
