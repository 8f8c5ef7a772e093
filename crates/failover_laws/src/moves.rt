//! Moving a consumer: what a drained subscription means, what a snapshot covers, that snapshots end, and that a planned move repeats nothing.
ghost use Rattle.failover_laws.specs.Covers.{LawCovers};
ghost use Rattle.failover_laws.specs.Drained.{LawDrained};
ghost use Rattle.failover_laws.specs.Ended.{LawEnded};
ghost use Rattle.failover_laws.specs.Procedure.{LawHandover, LawOffered};
ghost use Rattle.failover_laws.specs.Room.{LawRoom};
ghost use Rattle.failover_laws.specs.Switched.{LawSwitchover};

/// A subscription of which a report says `backlog 0` has acknowledged every message of its topic; and from there on, until somebody deletes or
/// seeks it, messages alone are given to its consumers that were stored later.
pub fn law_drained()
    ensures { LawDrained }
{}

/// A snapshot reaches, in each other cluster, over all that stood there when it was asked for, whoever stored it first: so where a
/// subscription has passed over what its update names, none of that is given again.
pub fn law_covers()
    ensures { LawCovers }
{}

/// No replicator acknowledges an update that it did not act on; and an update that came is acted on once all has settled.
pub fn law_switchover()
    ensures { LawSwitchover }
{}

/// After a settling no snapshot is in the making; and one that is asked for then stands after the next.
pub fn law_ended()
    ensures { LawEnded }
{}

/// In a script's run a topic has room for each subscription that the script names there, and for the one that an update names.
pub fn law_room()
    ensures { LawRoom }
{}

/// Where a snapshot stands, and a subscription that has acknowledged each message below it is offered past it, all that the snapshot
/// covers is acknowledged at the other clusters after one settling, whatever came between.
pub fn law_offered()
    ensures { LawOffered }
{}

/// The procedure of a planned move, of a subscription that is drained, hands it over to every other cluster.
pub fn law_handover()
    ensures { LawHandover }
{}
