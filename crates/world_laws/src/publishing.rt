//! What is published, stored, receipted and got.
ghost use Rattle.world_laws.specs.Publishing.{LawAnswered, LawCounted, LawPublished, LawRepeated};

/// Each message that stands anywhere is that of a `pub` line of a client of its topic, declared at the cluster that the
/// message names as its origin: producer, sequence id, list, key and text, and nothing else. Each SEND_RECEIPT that a client
/// was ever sent comes from the cluster where it is declared, and names a position: unless that is -1:-1 the message stands
/// there, and a message of its producer with its sequence id or a greater one stands in any case. Each MESSAGE that a client
/// was ever sent is an entry that stands where it came from, whole, at the position that it names; and each identity that a
/// client got is that of a message that stands at a cluster. So it is at the same moments as `law_prefix`, for what a script
/// can declare and every list of steps.
pub fn law_published()
    ensures always { LawPublished }
{}

/// Of each `pub` line that a client has done and whose receipt it does not await: the client counted an error; or a message
/// of its producer stands at its cluster with this sequence id or a greater one, and where it counted no duplicate, this very
/// message stands there. At the same moments as `law_published`.
pub fn law_answered()
    ensures always { LawAnswered }
{}

/// A client counts no more receipts than entries of its origin and producer stand at its cluster. At the same moments as
/// `law_published`.
pub fn law_counted()
    ensures always { LawCounted }
{}

/// Of a client whose `pub` lines rise in their sequence ids, and to which its cluster never sent a SEND_ERROR: each
/// SEND_RECEIPT that it was ever sent from there, one of -1:-1 too, is of a message that stands there. At the same moments as
/// `law_published`.
pub fn law_repeated()
    ensures always { LawRepeated }
{}
