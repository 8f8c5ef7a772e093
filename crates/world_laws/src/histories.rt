//! What the histories of all nodes are together.
ghost use Rattle.std.specs.Prelude.{◌≡◌, ◌++◌, ℕ, List, length};
ghost use Rattle.geo_base.specs.Agreement.{AreExactHistories, AreHistories, IsAlike, without_origin};
ghost use Rattle.geo_base.specs.declared.packet.Packet.{Packet};
ghost use Rattle.geo_base.specs.History.{RecordedEvent};
ghost use Rattle.geo_base.specs.Merge.{IsMerge, Merged, history_of, merge_of, of_node, steps_of};
ghost use Rattle.geo_base.specs.Run.{run};
ghost use Rattle.geo_base.specs.Scripted.{IsScripted};
ghost use Rattle.geo_base.specs.Setup.{Setup};
ghost use Rattle.world_laws.specs.Recorded.{IsAsRecorded, merged_world};

/// What the nodes of a script recorded, each for itself, is one run of the machine. Given are histories of all nodes, each of
/// which replays from its node's opening state; of each link, the packets taken from it are a beginning of those sent on it,
/// or at least no event tells them apart (`exact`: the very same packets are a special case of that). Their merge has all
/// their events and no others, each node's in their order, ordered by stamp and node, and it is the only such list. The
/// machine's run over it, without limits, leaves each node in the state and with the last stamp to which its history replays,
/// and on each link the packets that its sender recorded, as many of them taken as its taker recorded. So it is at every
/// moment of that run too, for what the nodes recorded up to there. No event of the run is idle, and it has as many events as
/// were recorded.
pub fn law_merge()
    ensures exact { (s : Setup) (hs : List (List RecordedEvent)) → AreExactHistories s hs → AreHistories s hs }
    ensures order { (s : Setup) (hs : List (List RecordedEvent)) → AreHistories s hs → IsMerge hs (merge_of hs) }
    ensures only { (s : Setup) (hs : List (List RecordedEvent)) (ms : List Merged) → AreHistories s hs → IsMerge hs ms → ms ≡ merge_of hs }
    ensures run { (s : Setup) (hs : List (List RecordedEvent)) → IsScripted s → AreHistories s hs → IsAsRecorded s (history_of hs) (merged_world s hs) }
    ensures moment { (s : Setup) (hs : List (List RecordedEvent)) (ms later : List Merged) → IsScripted s → AreHistories s hs → merge_of hs ≡ ms ++ later
        → IsAsRecorded s (λ n. of_node n ms) (run s (steps_of ms)) }
    ensures counts { (s : Setup) (hs : List (List RecordedEvent)) → IsScripted s → AreHistories s hs
        → ((merged_world s hs).idle ≡ 0) × ((merged_world s hs).events ≡ length (merge_of hs)) }
{}

/// Two packets of one session and one stamp whose frames differ at most in the origin of their entry are alike: no event at
/// any state tells them apart. Bytes do not say that origin, so two packets that the same bytes stand for are alike.
pub fn law_alike()
    ensures { (s : Setup) (p q : Packet) → p.session ≡ q.session → p.stamp ≡ q.stamp → without_origin p.frame ≡ without_origin q.frame → IsAlike s p q }
{}
