//! What a cursor keeps, what an update of another cluster puts into it, that none of it is given again, and how far behind what can be
//! given again may be.
ghost use Rattle.failover_laws.specs.Again.{LawAgain};
ghost use Rattle.failover_laws.specs.Behind.{LawBehind};
ghost use Rattle.failover_laws.specs.Got.{LawGot};
ghost use Rattle.failover_laws.specs.UpdatedTo.{LawEffects};
ghost use Rattle.failover_laws.specs.Run.{LawFollows, LawNeverAgain};

/// What the cursor of a subscription has stays in it until the subscription is deleted or sought there: through events, stops inside
/// an event, stops of everything, settling, and where a run that was kept goes on; also after each single durable write. An update
/// that a replicator acts on puts into the cursor every marker, and every message that is meant for the update's cluster, at or below the
/// index that it names; so it stays, and no event gives such a message to a consumer of that subscription again. It holds for every
/// setup and every world, whether a run comes to it or not.
pub fn law_again()
    ensures { LawAgain }
{}

/// An update that a replicator reads next names one stored position of its topic, and a name; so it has an effect where its subscription
/// is there or may be made, and only the limit on a topic's subscriptions is in its way. It holds at the end of every run, also of one
/// that a limit ends, and between any two events of it, also inside settling, for every setup that a script can declare and every list
/// of steps, in runs of fewer than 2^62 events.
pub fn law_effects()
    ensures between { LawEffects }
{}

/// What further steps of a run lead to, under whatever limits and settling included, follows without a deletion and a seek of a
/// subscription at a cluster, where no event of these steps is one.
pub fn law_follows()
    ensures { LawFollows }
{}

/// After a step that acts on an update of a cluster (a read of it, a stop inside that read after the write of the cursor, or a
/// settling in one of whose rounds it is read), and further steps that neither delete nor seek its subscription there, no event gives a
/// message at or below the index that the update names, and that is meant for the update's cluster, to a consumer of the subscription
/// there; and of the messages that the update's cluster stored first, an event gives such alone as that cluster stored after the
/// request of the snapshot whose update it was. So it is whatever event comes next, also inside settling, in the run of every list of
/// steps from the opening world, and in a run that goes on from a world that is alike to where such a run came, as one that was kept;
/// for every setup that a script can declare, where there is room for the subscription (`law_room`: in a script's run there is), in runs
/// of fewer than 2^62 events.
pub fn law_never_again()
    ensures { LawNeverAgain }
{}

/// The requests that a cluster stored first differ by their ids; all that it had for another cluster before such a request stands there
/// at or below the index that the other's answer names; and wherever an update of the cluster stands, it is that of a snapshot, and all
/// that the cluster had for another one before that snapshot's request stands there at or below the index that the update names. So
/// where a subscription has passed over such an index, whatever event comes next gives of that cluster's own messages such alone as it
/// stored after the request. At the end of every run, also of one that a limit ends, and at every moment of it, also inside settling and
/// after each single durable write, for every setup that a script can declare and every list of steps, in runs of fewer than 2^62 events
/// (beyond, an id may come again).
pub fn law_behind()
    ensures always { LawBehind }
{}

/// What a client gets after a move. Where a client's subscription has passed over an index at a cluster, each message that a `get` adds
/// to what it got, on a connection to that cluster that it opened since then, stands there after the index, or is not meant for the
/// update's cluster; as long as the subscription is neither deleted nor sought there, and the client's sub line names it. It holds for
/// every setup, in each world that a run comes to, also one that was kept and gone on from, however often (`gets`). So it is after a
/// step that acts on an update, in the run of every list of steps (`script`), and in a run that goes on from what was kept of such a one
/// (`resumed`), for every setup that a script can declare, where the update is read in a world of fewer than 2^62 events.
pub fn law_got()
    ensures { LawGot }
{}
