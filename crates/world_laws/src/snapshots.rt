//! What a snapshot of replicated subscriptions means.
ghost use Rattle.geo_base.specs.Laws.{LawCut, LawPosition, LawSecondRound};

/// A response of a cluster, in that cluster's topic, goes to one cluster alone, has the id of a request that stands in that
/// cluster's topic, and names the position of the entry just before itself: at the end of every run, also of one that a limit
/// ends, and at every moment of it, also inside settling and after each single durable write, for every setup and every list
/// of steps.
pub fn law_position()
    ensures always { LawPosition }
{}

/// Where a cluster makes a snapshot in its second round and another cluster has answered that round, every entry of the
/// answering cluster that the position kept for a third one covers stood in the answering cluster's own topic before that
/// answer: at the end of every run, also of one that a limit ends, and at every moment of it, also inside settling and after
/// each single durable write, for every setup that a script can declare and every list of steps, in runs of fewer than 2^62
/// events (beyond, an id may come again).
pub fn law_second_round()
    ensures always { LawSecondRound }
{}

/// Each snapshot marker in a cluster's topic is of that cluster and stands for a cut, and so does each snapshot in a
/// subscription's cache there, which keeps the index of its local position. A cut has a stored local position, and for each
/// other cluster a stored one, such that every message that stands there at or below it and is meant for the cluster stands in
/// the cluster's own topic at or below the local position. At the end of every run, also of one that a limit ends, and at every
/// moment of it, also inside settling and after each single durable write, for every setup that a script can declare and every
/// list of steps, in runs of fewer than 2^62 events.
pub fn law_cut()
    ensures always { LawCut }
{}
