//! What the kept links stand for, event by event. A law is a function without parameters and without an answer: its contract is
//! the statement.
ghost use Rattle.std.specs.Prelude.{◌≡◌, ℕ, List, Option, Some, length, true};
ghost use Rattle.std.specs.List.{AllByRecursion};
ghost use Rattle.geo_base.specs.declared.packet.Out.{Out};
ghost use Rattle.geo_base.specs.FrameSizes.{sent_bytes};
ghost use Rattle.geo_base.specs.Happening.{stamp_of as machine_stamp};
ghost use Rattle.geo_base.specs.Setup.{Setup};
ghost use Rattle.geo_base.specs.World.{Links, ToClient, delivered as machine_delivered, from_broker, from_client, opening_world, packet_at, taken_from as machine_taken};
ghost use Rattle.links.specs.declared.name.LinkName.{LinkName};
ghost use Rattle.links.specs.declared.name.LinkName.TheVariants as name;
ghost use Rattle.links.specs.declared.name.Node.TheVariants as node;
ghost use Rattle.geo_base.specs.declared.packet.WireOut.{WireOut};
ghost use Rattle.links.specs.Each.{Both};
ghost use Rattle.links.specs.Names.{taken_name};
ghost use Rattle.links.specs.Queues.{WireLinks, all_discarded, bytes_of, delivered, empty_links, packet_on, stamp_of, taken_from};
ghost use Rattle.links.specs.Standing.{IsReadableOut, LinksStand, OutsStand, PacketStands, stopped_links};

/// New links stand for those of the opening world.
pub fn law_opening()
    ensures { (s : Setup) → LinksStand s.clusters (empty_links (length s.topics) (length s.clusters) (length s.clients)) (opening_world s).links }
{}

/// The packet that an event takes stands for the one that the machine's event takes, and has its stamp; where there is none, the
/// machine has none.
pub fn law_next()
    ensures packet { (names : List (List ℕ)) (takes : Option LinkName) (ls : WireLinks) (ms : Links) → LinksStand names ls ms
        → Both (PacketStands names) (packet_on ls takes) (packet_at ms (taken_name (length names) takes)) }
    ensures stamp { (names : List (List ℕ)) (takes : Option LinkName) (ls : WireLinks) (ms : Links) → LinksStand names ls ms
        → stamp_of (packet_on ls takes) ≡ machine_stamp (packet_at ms (taken_name (length names) takes)) }
{}

/// A packet that is taken and nothing else, as where a broker stops after a durable write.
pub fn law_taken()
    ensures { (names : List (List ℕ)) (takes : Option LinkName) (ls : WireLinks) (ms : Links) → LinksStand names ls ms
        → LinksStand names (taken_from takes ls) (machine_taken (taken_name (length names) takes) ms) }
{}

/// An event of the broker of a topic at a cluster: what it sends, and then what it takes.
pub fn law_broker()
    ensures { (s : Setup) (t x stamp : ℕ) (takes : Option LinkName) (os : List WireOut) (vs : List Out) (ls : WireLinks) (ms : Links)
        → LinksStand s.clusters ls ms → OutsStand s.clusters os vs
        → LinksStand s.clusters (taken_from takes (delivered (node.Broker t x) stamp os ls))
        (machine_taken (taken_name (length s.clusters) takes) (machine_delivered (from_broker s t x) stamp vs ms)) }
{}

/// An event of a client. The machine takes first and then sends; it sends to brokers alone and takes from a broker, so that the
/// order is one.
pub fn law_client()
    ensures goes { (names : List (List ℕ)) (c stamp : ℕ) (os : List WireOut) (vs : List Out) (ls : WireLinks) (ms : Links)
        → LinksStand names ls ms → OutsStand names os vs
        → LinksStand names (delivered (node.Client c) stamp os ls) (machine_delivered (from_client c) stamp vs ms) }
    ensures gets { (names : List (List ℕ)) (c x stamp : ℕ) (os : List WireOut) (vs : List Out) (ls : WireLinks) (ms : Links)
        → LinksStand names ls ms → OutsStand names os vs
        → LinksStand names (taken_from (Some (name.ToClient c x)) (delivered (node.Client c) stamp os ls))
        (machine_delivered (from_client c) stamp vs (machine_taken (Some (ToClient c x)) ms)) }
{}

/// A stop of everything: every packet that is not taken is lost.
pub fn law_discarded()
    ensures { (names : List (List ℕ)) (ls : WireLinks) (ms : Links) → LinksStand names ls ms → LinksStand names (all_discarded ls) (stopped_links ms) }
{}

/// The bytes of all frames of an event are as many as the machine counts. It sends none that can't be read.
pub fn law_bytes()
    ensures { (names : List (List ℕ)) (os : List WireOut) (vs : List Out) → OutsStand names os vs → AllByRecursion IsReadableOut vs
        → bytes_of os ≡ sent_bytes names vs }
{}
