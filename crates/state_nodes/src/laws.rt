//! What holds of the texts of parts alone.
ghost use Rattle.std.specs.Prelude.{◌≡◌, ℕ, ◌<◌, ◌^◌, ◌++◌, List, length, Ok};
ghost use Rattle.geo_base.specs.Broker.{Broker};
ghost use Rattle.geo_base.specs.Replicator.{Replicator};
ghost use Rattle.geo_base.specs.Subscription.{Subscription};
ghost use Rattle.state_nodes.specs.declared.counts.Counts.{Counts};
ghost use Rattle.state_nodes.specs.Counts.{counts_at, counts_text};
ghost use Rattle.state_nodes.specs.Fitting.{AreCounts, AreReplicators, AreSubs, IsDurable};
ghost use Rattle.state_nodes.specs.Known.{IsKnownNode};
ghost use Rattle.state_nodes.specs.Nodes.{IsNode, node_text};
ghost use Rattle.state_nodes.specs.Replicators.{replicators_at, replicators_text};
ghost use Rattle.state_nodes.specs.Subs.{subs_at, subs_text};

/// What was written in the newest version is read again, whatever stands after it.
#[tactic(auto, using(crate::proofs::Back::counts_again, crate::proofs::Back::subs_again, crate::proofs::Back::replicators_again))]
pub fn parts_read_back()
    ensures counts { (c : Counts) (rest : List ℕ) → AreCounts c → counts_at (counts_text c ++ rest) ≡ Ok (c, rest) }
    ensures subs { (n : ℕ) → n < 2 ^ 64 → (ss : List Subscription) (rest : List ℕ) → AreSubs n ss → subs_at 2 n (subs_text n ss ++ rest) ≡ Ok (ss, rest) }
    ensures replicators { (n own : ℕ) → n < 2 ^ 64 → (ss : List Replicator) (rest : List ℕ) → AreReplicators n own ss → replicators_at n own (length ss) (replicators_text n own ss ++ rest) ≡ Ok (ss, rest) }
    ensures node { (per : ℕ) (names : List (List ℕ)) (own : ℕ) (b : Broker) (rest : List ℕ) → IsDurable per names own b → IsNode 2 per names own (node_text names own b ++ rest) (Ok (b, rest)) }
{}

/// What was read passed each test, whatever the version: it is what a run counted, or the durable part of a broker.
pub fn parts_are_known()
    ensures counts { (bytes : List ℕ) (x : Counts × List ℕ) → counts_at bytes ≡ Ok x → AreCounts x.0 }
    ensures node { (version per : ℕ) (names : List (List ℕ)) (own : ℕ) (bytes : List ℕ) (x : Broker × List ℕ) → IsNode version per names own bytes (Ok x) → IsKnownNode per names own x.0 }
{}
