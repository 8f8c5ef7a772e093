//! Packets that lost bytes on their way.
ghost use Rattle.std.specs.Prelude.{◌≡◌, ℕ, List, [], Some};
ghost use Rattle.geo_base.specs.declared.event.Fate.TheVariants as fate;
ghost use Rattle.geo_base.specs.declared.frame.Frame.{Frame};
ghost use Rattle.geo_base.specs.declared.frame.Frame.TheVariants as frame;
ghost use Rattle.geo_base.specs.declared.packet.Packet.{Packet};
ghost use Rattle.geo_base.specs.Broker.{Broker, Site};
ghost use Rattle.geo_base.specs.Forwarding.{receipt, take_packet};
ghost use Rattle.frame_values.specs.Standing.{Reads};
ghost use Rattle.frame_laws.specs.BytePackets.{StandsForPacket};
ghost use Rattle.frame_laws.specs.CutOff.{cut_off};

/// No byte is the text of no frame: it says that it can't be read.
pub fn law_no_bytes()
    ensures { (names : List (List ℕ)) (f : Frame) → Reads names [] f → f ≡ frame.Unreadable }
{}

/// A packet that was cut off on a link between two brokers leaves the broker that takes it as its loss does: the event has the
/// same plan. So a part that is lost on the way is a packet that is lost, and no fate of its own.
pub fn law_cut_off()
    ensures take { (h : Site) (b : Broker) (x : ℕ) (p cut : Packet) → StandsForPacket h.clusters (cut_off p) cut
        → take_packet h b x fate.Good (Some cut) ≡ take_packet h b x fate.Lost (Some p) }
    ensures receipt { (h : Site) (b : Broker) (y : ℕ) (p cut : Packet) → StandsForPacket h.clusters (cut_off p) cut
        → receipt h b y fate.Good (Some cut) ≡ receipt h b y fate.Lost (Some p) }
{}
