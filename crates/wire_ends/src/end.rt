//! What a node sees of a link.
ghost use Rattle.std.specs.Prelude.{◌≡◌, ◌≤◌, ◌+◌, ◌∷◌, ◌++◌, [], ℕ, List, Option, None, IfOk, OnOk, OnErr};
ghost use Rattle.std.specs.Borrow.{sem};
ghost use Rattle.std.specs.Io.BufRead.{Rests};
ghost use Rattle.std.specs.Option.{option_copied, option_to_list};
ghost use Rattle.wire_ends.specs.Looks.{Looked, Stays};

use crate::packet::WirePacket;
use crate::parcel::Parcel;
use geo_base::Memory;
use std::fmt::Debug;

/// An end of a link: it sends packets, or takes them, or both.
///
/// Contracts see the packets sent and those taken, from the first on; how many places are known to be free; the packet that is
/// shown, which is the next of those that were gathered; and a count of looks at the other end, which never falls. What the
/// other end did is known by a look alone, and no clause says that a look is up to date.
pub trait End: Drop + Debug {
    ghost use Rattle.wire_ends.specs.declared.packet.WirePacket.{WirePacket};
    ghost use Rattle.wire_ends.specs.declared.piece.Piece.{Piece};
    ghost use Rattle.wire_ends.specs.Parcels.{Packed};

    /// The packets sent here, in order.
    ghost sent: { Self → List WirePacket };

    /// The packets taken here, in order.
    ghost taken: { Self → List WirePacket };

    /// How many places are known to be free.
    ghost free: { Self → ℕ };

    /// The packet shown: what the next `take` gives.
    ghost shown: { Self → Option WirePacket };

    /// The pieces that a look has shown and that are joined to no packet yet.
    ghost waiting: { Self → List Piece };

    /// How often this end has looked; a count that gets to its greatest value stays there.
    ghost looks: { Self → ℕ };

    /// Whether a parcel is cut as ends of this type cut them, so that it can be sent here. What `pack` makes is so.
    ghost fits: { Packed → Type 0 };

    /// Makes a parcel of a packet, ready to be sent here. An `Err` is want of memory, and changes nothing.
    fn pack(&mut self, packet: WirePacket) -> Result<Parcel, Memory>
        ensures packet { IfOk result (λ p. p.packet ≡ packet) }
        ensures fits { IfOk result (λ p. fits p) }
        ensures sent { sent self.new ≡ sent self.old }
        ensures taken { taken self.new ≡ taken self.old }
        ensures shown { shown self.new ≡ shown self.old }
        ensures looks { looks self.new ≡ looks self.old }
        ensures free { free self.old ≤ free self.new };

    /// Looks how many places are free, and answers how many are known to be.
    fn free(&mut self) -> usize
        ensures value { result ≡ free self.new }
        ensures more { free self.old ≤ free self.new }
        ensures looked { Looked (looks self.old) (looks self.new) }
        ensures sent { sent self.new ≡ sent self.old }
        ensures taken { taken self.new ≡ taken self.old }
        ensures shown { shown self.new ≡ shown self.old };

    /// Sends a parcel, for which places are known to be free. It can't fail.
    fn send(&mut self, parcel: Parcel)
        requires room { parcel.places ≤ free self.old }
        requires fit { fits parcel }
        ensures sent { sent self.new ≡ sent self.old ++ parcel.packet ∷ [] }
        ensures free { free self.old ≤ free self.new + parcel.places }
        ensures taken { taken self.new ≡ taken self.old }
        ensures stays { Stays (shown self.old) (shown self.new) }
        ensures looks { looks self.new ≡ looks self.old };

    /// Looks what came, and brings it over. What was shown stays so; where no packet is shown then, no piece waits. An `Err` is
    /// want of memory.
    fn gather(&mut self) -> Result<(), Memory>
        ensures left { OnOk result (shown self.new ≡ None → waiting self.new ≡ []) }
        ensures looked { Looked (looks self.old) (looks self.new) }
        ensures sent { sent self.new ≡ sent self.old }
        ensures taken { taken self.new ≡ taken self.old }
        ensures free { free self.old ≤ free self.new }
        ensures stays { Stays (shown self.old) (shown self.new) };

    /// Looks at the next of the packets that were gathered; `None` exactly where none is left.
    fn peek(&mut self) -> Option<&WirePacket>
        ensures* after { sem 𝓛 (Rests Self.row self.entry (λ new.
            (Self.shown new ≡ option_copied result) × (Self.shown new ≡ Self.shown self.old) × (Self.sent new ≡ Self.sent self.old)
            × (Self.taken new ≡ Self.taken self.old) × (Self.free new ≡ Self.free self.old)
            × Looked (Self.looks self.old) (Self.looks new))) };

    /// Takes the packet that is shown; `None` exactly where none is.
    fn take(&mut self) -> Option<WirePacket>
        ensures value { result ≡ shown self.old }
        ensures taken { taken self.new ≡ taken self.old ++ option_to_list result }
        ensures sent { sent self.new ≡ sent self.old }
        ensures free { free self.old ≤ free self.new }
        ensures looks { looks self.new ≡ looks self.old };
}
