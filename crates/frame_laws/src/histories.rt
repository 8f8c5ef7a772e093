//! Packets and histories of bytes.
ghost use Rattle.std.specs.Prelude.{◌≡◌, ℕ, List, Some};
ghost use Rattle.geo_base.specs.declared.event.Fate.{Fate};
ghost use Rattle.geo_base.specs.declared.packet.Packet.{Packet};
ghost use Rattle.geo_base.specs.Agreement.{AreHistories, IsAlike};
ghost use Rattle.geo_base.specs.Broker.{Broker, Site};
ghost use Rattle.geo_base.specs.Client.{Client};
ghost use Rattle.geo_base.specs.Forwarding.{receipt, take_packet};
ghost use Rattle.geo_base.specs.Getting.{get};
ghost use Rattle.geo_base.specs.History.{RecordedEvent};
ghost use Rattle.geo_base.specs.Serving.{serve};
ghost use Rattle.geo_base.specs.Setup.{Declared, Setup};
ghost use Rattle.world_laws.specs.ByteHistories.{AreByteHistories, ByteEvent};
ghost use Rattle.wire_ends.specs.declared.packet.WirePacket.{WirePacket};
ghost use Rattle.frame_laws.specs.BytePackets.{StandsForPacket, bare_packet};

/// Two packets that the same packet of bytes stands for are alike: no event at any state tells them apart. They may differ in
/// the origin of an entry, which bytes do not say, and in nothing else.
pub fn law_alike_bytes()
    ensures { (s : Setup) (b : WirePacket) (p q : Packet) → StandsForPacket s.clusters b p → StandsForPacket s.clusters b q → IsAlike s p q }
{}

/// An event that takes a packet does with it just what it does with the packet that its bytes say: none looks at which
/// cluster stored an entry first, which bytes do not say.
pub fn law_bare()
    ensures serve { (h : Site) (b : Broker) (c : ℕ) (p : Packet) → serve h b c (Some (bare_packet p)) ≡ serve h b c (Some p) }
    ensures take { (h : Site) (b : Broker) (x : ℕ) (fate : Fate) (p : Packet) → take_packet h b x fate (Some (bare_packet p)) ≡ take_packet h b x fate (Some p) }
    ensures receipt { (h : Site) (b : Broker) (y : ℕ) (fate : Fate) (p : Packet) → receipt h b y fate (Some (bare_packet p)) ≡ receipt h b y fate (Some p) }
    ensures get { (d : Declared) (k : Client) (p : Packet) → get d k (Some (bare_packet p)) ≡ get d k (Some p) }
{}

/// Histories that keep bytes, that stand for histories of values of which each replays, and of which the bytes taken from
/// each link are a beginning of the bytes sent on it, stand for histories that agree: `law_merge` of `world_laws` holds of
/// what they stand for.
pub fn law_byte_histories()
    ensures { (s : Setup) (kept : ℕ → List (ByteEvent WirePacket)) (hs : List (List RecordedEvent))
        → AreByteHistories (StandsForPacket s.clusters) s kept hs → AreHistories s hs }
{}
