//! What code may count on that does the events of a run one by one: room for numbers that rise, and what was sent and stored.
ghost use Rattle.world_laws.specs.Reached.{LawReached};
ghost use Rattle.world_laws.specs.Within.{LawMarkers, LawNumbers};

/// A run counts no faster than its events: each replicator's session and the number of its next frame, how often seeks set a
/// subscription, each client's connection and the counts of what came, each node's last stamp and the stamp of each packet that
/// was ever sent are at most the number of events that were not idle. So in a run of fewer than 2^63 events each of them has
/// room for one more. At the end of every run, also of one that a limit ends, and between any two events of it, also inside
/// settling, for every setup and every list of steps.
pub fn law_numbers()
    ensures between { LawNumbers }
{}

/// The sequence id of a cluster's next own marker has 64 bits, in runs of fewer than 2^62 events: own markers are numbered one after
/// another, and no client has their producer's name, since a name has no full stop. At the end of every run, also of one that a
/// limit ends, and between any two events of it, also inside settling, for every setup that a script can declare and every list of
/// steps.
pub fn law_markers()
    ensures between { LawMarkers }
{}

/// A run starts in the opening world, or where a run was kept after a stop: with brokers that have nothing in memory, clients that
/// are not connected, counts within the limits, and links that were never used; the opening world is such a start (`opening`).
/// Between any two events of a run, also inside settling, the world is one that is reached by events, stops inside an event and
/// stops of everything from where it started (`comes` from the opening world, `goes_on` from any). In each world that is reached
/// from a start, for every setup that a script can declare, there are as many nodes, clients and places as the setup says, its
/// numbers have room, and what the next event sends can be read (`ground`); each entry that is stored or was sent is plain or one
/// of the start's, and no message stands twice (`carried`); and, for every setup, each index in a cursor is that of a stored entry
/// (`indexes`). What is kept of such a world after a stop is a start again, where its counts and the lengths of its topics are such
/// as a start may have (`kept`), as they are after the steps of every script's run that no limit ends (`saved`).
pub fn law_reached()
    ensures { LawReached }
{}
