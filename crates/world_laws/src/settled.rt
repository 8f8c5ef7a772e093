//! What is settled, by a client's acknowledgement, by a creation at Latest or by an operator's seek: updates name nothing else,
//! and subscriptions acknowledge no other message.
ghost use Rattle.geo_base.specs.Laws.{LawSafe, LawUpdate};

/// An update of a cluster for a subscription, at whatever cluster it stands, names for each other cluster exactly one position,
/// which is stored there, and every message that stands there at or below it and is meant for the update's cluster is settled
/// on that subscription by then: at the end of every run, also of one that a limit ends, and at every moment of it, also inside
/// settling and after each single durable write, for every setup that a script can declare and every list of steps, in runs of
/// fewer than 2^62 events (beyond, an id may come again). What is settled is told from the packets of clients and from seeks,
/// not from what a broker writes.
pub fn law_update()
    ensures always { LawUpdate }
{}

/// Nothing is acknowledged that is not settled, no message stands twice, and nothing due is forgotten. Each index in the cursor
/// of a subscription is that of a marker or of a message that is settled on the subscription by then, in setups that a script
/// can declare and in runs of fewer than 2^62 events; of two entries of the same origin and producer in a topic the earlier has
/// the smaller sequence id: both at the end of every run, also of one that a limit ends, and at every moment of it, also inside
/// settling and after each single durable write. And each index outside a cursor is out with a consumer that is attached, due
/// again, or still to be read, and none inside is out or due again: between any two events (memory changes after the durable
/// writes).
pub fn law_safe()
    ensures safe { LawSafe }
{}
