//! What is handed out: a cursor passes nothing that nobody was given, and where one consumer at a time is served, nothing comes before
//! what stands before it.
ghost use Rattle.consumer_laws.specs.Laws.{LawHanded, LawStillHanded};
ghost use Rattle.consumer_laws.specs.Rising.{LawRising};

/// Nothing is skipped unseen. Each message that the cursor of a subscription has, at whatever cluster, is handed out on that subscription
/// by then: some client took it by a get while its sub line in force named the subscription, at whatever cluster; or it was passed over
/// openly, by a creation at Latest after it or by an operator's seek. At the end of every run, also of one that a limit ends, and at every
/// moment of it, also inside settling and after each single durable write. It is told by topic and name, over all lives of a name, and says
/// nothing of what a client did with a message that it took.
///
/// In order: between any two events, where the next get of a client takes a message for its sub line in force, of kind Exclusive or
/// Failover, on its connection, each message that stands before it at that cluster is handed out, and so is each that its producer
/// published before it with a smaller sequence id, that the cluster of its origin has and that is for that cluster: over reconnects,
/// failovers and moves to another region.
///
/// Where each sub line is earliest and no step seeks, each message that a cursor has is in the list of what a client got that has a sub
/// line for the subscription.
///
/// For every setup that a script can declare and every list of steps, in worlds of fewer than 2^62 events.
pub fn law_handed()
    ensures { LawHanded }
{}

/// The same of a run that goes on from a world that is alike to the one to which other steps came, as one that is resumed from its state
/// file is; what the other steps handed out counts.
pub fn law_still_handed()
    ensures { LawStillHanded }
{}

/// Of two messages that were ever sent on a client's link from a cluster, in one session, to the consumer of one of its lines, of kind
/// Exclusive or Failover, the later one stands at the greater index of the topic there: so on one connection such a consumer gets each
/// message once at most, and in the order of the topic. Between any two events of every run, also of one that a limit ends and inside
/// settling, for every setup that a script can declare, in worlds of fewer than 2^62 events.
pub fn law_rising()
    ensures { LawRising }
{}
