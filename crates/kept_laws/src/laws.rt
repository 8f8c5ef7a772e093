//! What a kept world stands for, event by event.
ghost use Rattle.std.specs.Prelude.{◌≡◌, ℕ, true, false, List, [], Option, Some, None, length, map, slice_index_or};
ghost use Rattle.geo_base.specs.declared.event.Event.{Event};
ghost use Rattle.geo_base.specs.declared.event.Event.TheVariants as event;
ghost use Rattle.geo_base.specs.Broker.{Broker, no_broker};
ghost use Rattle.geo_base.specs.Client.{Client, new_client, unconnected};
ghost use Rattle.geo_base.specs.Happening.{client_acted as machine_acted, halts_planned, happens, stops};
ghost use Rattle.geo_base.specs.Link.{next_packet};
ghost use Rattle.geo_base.specs.Plan.{Plan, done, halted};
ghost use Rattle.geo_base.specs.Planned.{has_client, in_range, planned};
ghost use Rattle.geo_base.specs.Run.{all_limits};
ghost use Rattle.geo_base.specs.Scripted.{IsScripted};
ghost use Rattle.geo_base.specs.Seeking.{restart};
ghost use Rattle.geo_base.specs.Setup.{Setup};
ghost use Rattle.geo_base.specs.World.{ToClient, World, client_at, link_at, opening_world, packet_at};
ghost use Rattle.frame_values.specs.Told.{IsTold};
ghost use Rattle.frame_laws.specs.BytePackets.{StandsForPacket};
ghost use Rattle.links.specs.declared.name.LinkName.{LinkName};
ghost use Rattle.links.specs.declared.name.LinkName.TheVariants as name;
ghost use Rattle.links.specs.declared.name.Node.TheVariants as wire_node;
ghost use Rattle.geo_base.specs.declared.packet.WireOut.{WireOut};
ghost use Rattle.wire_ends.specs.declared.packet.WirePacket.{WirePacket};
ghost use Rattle.links.specs.Each.{Both};
ghost use Rattle.links.specs.Names.{taken_name};
ghost use Rattle.links.specs.Queues.{packet_on};
ghost use Rattle.links.specs.Standing.{OutsStand};
ghost use Rattle.kept_laws.specs.Events.{IsBrokers, node_of, plan_in, sender_of, takes_of, taken_in};
ghost use Rattle.kept_laws.specs.Kept.{Kept, all_stopped, broker_acted, broker_stopped, client_acted, idled, opening_kept};
ghost use Rattle.kept_laws.specs.Reached.{Reached, started_kept};
ghost use Rattle.kept_laws.specs.Standing.{Stands, limit_of};
ghost use Rattle.world_laws.specs.Frames.{AllFrames};
ghost use Rattle.world_laws.specs.Reached.{IsGround};
ghost use Rattle.world_laws.specs.Starts.{IsStart};

/// The opening world, and every other start: as its brokers, clients and counts, with nothing on the links.
pub fn law_opening()
    ensures opening { (s : Setup) → Stands s (opening_kept s) (opening_world s) }
    ensures start { (s : Setup) (v : World) → IsStart s v → Stands s (started_kept s v) v }
{}

/// In a world that a run comes to from a start whose stored entries their texts tell, texts tell what is on the links, and there is what
/// code needs that does the next event. Such are the opening world and all that events, stops and rounds lead to from one.
pub fn law_reached()
    ensures told { (s : Setup) (w : World) → IsScripted s → Reached s w → AllFrames (IsTold s.clusters) w }
    ensures ground { (s : Setup) → IsScripted s → (w : World) → Reached s w → IsGround s w }
    ensures opening { (s : Setup) → Reached s (opening_world s) }
    ensures event { (s : Setup) (w : World) (e : Event) → Reached s w → Reached s (happens s w e) }
    ensures halt { (s : Setup) (w : World) (n : ℕ) (e : Event) → Reached s w → Reached s (halts_planned s w n (planned s w e)) }
    ensures stop { (s : Setup) (w : World) → Reached s w → Reached s (stops s w) }
    ensures idle { (s : Setup) (w : World) (n : ℕ) → Reached s w → Reached s (record w { idle = n }) }
    ensures round { (s : Setup) (w : World) (n : ℕ) → Reached s w → Reached s (record w { rounds = n }) }
{}

/// The packet that an event takes is there where the machine's is, and its bytes stand for it, but for which cluster stored an entry
/// first, which no event looks at. So it is where texts tell what is on the links.
pub fn law_input()
    ensures { (s : Setup) (k : Kept) (w : World) (takes : Option LinkName) → AllFrames (IsTold s.clusters) w → Stands s k w
        → Both (StandsForPacket s.clusters) (packet_on k.links takes) (packet_at w.links (taken_name (length s.clusters) takes)) }
{}

/// An event of a broker whose numbers are in range: done by its plan, idle, or stopped after its first `n` durable writes.
pub fn law_brokers()
    ensures done { (s : Setup) (k : Kept) (w : World) (e : Event) (os : List WireOut) → IsBrokers e → in_range s e ≡ true → IsGround s w → Stands s k w
        → (plan_in s w e).idle ≡ false → OutsStand s.clusters os (plan_in s w e).sent
        → Stands s (broker_acted k (node_of s e) (sender_of s e) (takes_of e) (done s.per_ledger (slice_index_or k.brokers (node_of s e) no_broker) (plan_in s w e)) os) (happens s w e) }
    ensures idle { (s : Setup) (k : Kept) (w : World) (e : Event) → IsBrokers e → in_range s e ≡ true → Stands s k w
        → (plan_in s w e).idle ≡ true → Stands s (idled k) (happens s w e) }
    ensures halted { (s : Setup) (k : Kept) (w : World) (n : ℕ) (e : Event) → IsBrokers e → in_range s e ≡ true → Stands s k w
        → Stands s (broker_stopped k (node_of s e) (takes_of e) (halted s.per_ledger (slice_index_or k.brokers (node_of s e) no_broker) n (plan_in s w e))) (halts_planned s w n (planned s w e)) }
{}

/// An event of a client whose number is in range.
pub fn law_clients()
    ensures goes { (s : Setup) (k : Kept) (w : World) (c : ℕ) (os : List WireOut) → has_client s c ≡ true → IsGround s w → Stands s k w
        → (machine_acted s (client_at s w c) (event.Go c) None).idle ≡ false → OutsStand s.clusters os (machine_acted s (client_at s w c) (event.Go c) None).sent
        → Stands s (client_acted k c (wire_node.Client c) None (machine_acted s (client_at s w c) (event.Go c) None).client os) (happens s w (event.Go c)) }
    ensures stays { (s : Setup) (k : Kept) (w : World) (c : ℕ) → has_client s c ≡ true → Stands s k w
        → (machine_acted s (client_at s w c) (event.Go c) None).idle ≡ true → Stands s (idled k) (happens s w (event.Go c)) }
    ensures reconnects { (s : Setup) (k : Kept) (w : World) (c : ℕ) (os : List WireOut) → has_client s c ≡ true → IsGround s w → Stands s k w
        → (machine_acted s (client_at s w c) (event.Reconnect c) None).idle ≡ false → OutsStand s.clusters os (machine_acted s (client_at s w c) (event.Reconnect c) None).sent
        → Stands s (client_acted k c (wire_node.Client c) None (machine_acted s (client_at s w c) (event.Reconnect c) None).client os) (happens s w (event.Reconnect c)) }
    ensures gets { (s : Setup) (k : Kept) (w : World) (c : ℕ) → has_client s c ≡ true → Stands s k w
        → (machine_acted s (client_at s w c) (event.Get c) (next_packet (link_at w.links (ToClient c (client_at s w c).cluster)))).idle ≡ false
        → Stands s (client_acted k c (wire_node.Client c) (Some (name.ToClient c (client_at s w c).cluster))
        (machine_acted s (client_at s w c) (event.Get c) (next_packet (link_at w.links (ToClient c (client_at s w c).cluster)))).client []) (happens s w (event.Get c)) }
    ensures waits { (s : Setup) (k : Kept) (w : World) (c : ℕ) → has_client s c ≡ true → Stands s k w
        → (machine_acted s (client_at s w c) (event.Get c) (next_packet (link_at w.links (ToClient c (client_at s w c).cluster)))).idle ≡ true
        → Stands s (idled k) (happens s w (event.Get c)) }
{}

/// A stop of everything.
pub fn law_stop()
    ensures { (s : Setup) (k : Kept) (w : World) → Stands s k w
        → Stands s (all_stopped k (map (λ (b : Broker). done s.per_ledger b restart) k.brokers) (map unconnected k.clients)) (stops s w) }
{}

/// The limits look at counts alone.
pub fn law_counts()
    ensures { (s : Setup) (k : Kept) (w : World) → Stands s k w → all_limits w ≡ limit_of k.events k.idle k.frame_bytes }
{}
