//! What replication brings over, for each pair of clusters of a topic.
ghost use Rattle.geo_base.specs.Laws.{LawPrefix, LawReceipt};

/// Of each pair of clusters x and y: the entries that y's topic has of origin x are a beginning of the entries of x's topic
/// that are of origin x and go to y, equal in all and in their order. So it is at the end of every run, also of one that a
/// limit ends, and at every moment of it, also inside settling and after each single durable write, for every setup and
/// every list of steps.
pub fn law_prefix()
    ensures always { LawPrefix }
{}

/// Of each pair of clusters x and y: each index that x's cursor for y has acknowledged, and whose entry is of origin x and
/// goes to y, has that very entry in y's topic; at the same moments as `law_prefix`.
pub fn law_receipt()
    ensures always { LawReceipt }
{}
