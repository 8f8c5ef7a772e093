//! What it means that nodes took what their peers sent.
ghost use Rattle.std.specs.Prelude.{◌≡◌, ◌<◌, ◌++◌, ℕ, List, length, true};
ghost use Rattle.geo_base.specs.declared.packet.Peer.{Peer};
ghost use Rattle.geo_base.specs.History.{RecordedEvent};
ghost use Rattle.geo_base.specs.Merge.{Merged, history_of, merge_of, of_node, steps_of};
ghost use Rattle.geo_base.specs.Run.{run};
ghost use Rattle.geo_base.specs.NodeState.{NodeState};
ghost use Rattle.geo_base.specs.Nodes.{Node, has_link, is_node, is_peer, link_from, link_to, node_number};
ghost use Rattle.geo_base.specs.Setup.{Setup};
ghost use Rattle.geo_base.specs.World.{LinkName};
ghost use Rattle.world_laws.specs.ByteHistories.{AreByteHistories, bytes_sent_in, bytes_taken_in};
ghost use Rattle.world_laws.specs.Recorded.{IsAsRecorded, merged_world};
ghost use Rattle.frame_laws.specs.Logs.{StandsAs};
ghost use Rattle.merge_history.specs.Ends.{AreStood, IsLayoutOf, LinkEnds, SendsToPeers, TakesFromPeers, layout_of, other_end};
ghost use Rattle.wire_ends.specs.declared.packet.WirePacket.{WirePacket};
ghost use Rattle.merge_history.specs.Kept.{Kept, kept_by};
ghost use Rattle.merge_history.specs.Differences.{AllSent};
ghost use Rattle.merge_history.specs.Peers.{LayoutView, end_of, home_of, sent_to, taken_from};

/// Where each packet that a node took is the one that was sent, what it took from each peer is a beginning of what that peer
/// sent to it.
pub fn law_agree()
    ensures { (l : LayoutView) (kept : List (List Kept)) (n : ℕ) (q : Peer) → AllSent l kept n
        → (rest : List WirePacket) × (sent_to (end_of l n q).peer (kept_by kept (end_of l n q).node) ≡ taken_from q (home_of l n).cluster (kept_by kept n) ++ rest) }
{}

/// What a history sent on a link is what it sent to the peer there, and what it took from a link is what it took from the peer
/// there; and what a node takes from, its peer sends on.
pub fn law_ends()
    ensures sent { (s : Setup) (n : Node) (q : Peer) (ds : List Kept) → is_peer s n q ≡ true → SendsToPeers s n ds → bytes_sent_in s (link_to s n q) ds ≡ sent_to q ds }
    ensures taken { (s : Setup) (n : Node) (q : Peer) (x : ℕ) (st : NodeState) (xs : List Kept) (ds : List RecordedEvent) → is_peer s n q ≡ true
        → TakesFromPeers s n x st xs ds → bytes_taken_in s (link_from s n q) st xs ds ≡ taken_from q x xs }
    ensures one { (s : Setup) (n : Node) (q : Peer) → is_peer s n q ≡ true → link_from s n q ≡ link_to s (other_end s n q).node (other_end s n q).peer }
    ensures number { (s : Setup) (l : LayoutView) (n : Node) (q : Peer) → IsLayoutOf s l → is_node s n ≡ true → is_peer s n q ≡ true
        → ((end_of l (node_number s n) q).node ≡ node_number s (other_end s n q).node) × ((end_of l (node_number s n) q).peer ≡ (other_end s n q).peer) }
    ensures each { (s : Setup) (k : LinkName) → 0 < length s.clusters → has_link s k ≡ true → LinkEnds s k }
{}

/// Where each packet that any node took is the one that was sent, histories of bytes agree on every link: they are those of the
/// law of the merge.
pub fn law_linked()
    ensures { (s : Setup) (l : LayoutView) (kept : List (List Kept)) (hs : List (List RecordedEvent)) → AreStood s l kept hs
        → ((n : ℕ) → AllSent l kept n) → AreByteHistories (StandsAs s.clusters) s (λ n. kept_by kept n) hs }
{}

/// So the machine's run over their merge, without limits, leaves each node in the state and with the last stamp to which its
/// history replays, and on each link the packets that its sender recorded, as many of them taken as its taker recorded; and at
/// every moment of that run it is so for what the nodes recorded up to there.
pub fn law_run()
    ensures run { (s : Setup) (l : LayoutView) (kept : List (List Kept)) (hs : List (List RecordedEvent))
        → AreStood s l kept hs → ((n : ℕ) → AllSent l kept n)
        → IsAsRecorded s (history_of hs) (merged_world s hs) }
    ensures moment { (s : Setup) (l : LayoutView) (kept : List (List Kept)) (hs : List (List RecordedEvent)) (ms later : List Merged)
        → AreStood s l kept hs → ((n : ℕ) → AllSent l kept n) → merge_of hs ≡ ms ++ later
        → IsAsRecorded s (λ n. of_node n ms) (run s (steps_of ms)) }
    ensures layout { (s : Setup) → IsLayoutOf s (layout_of s) }
{}
