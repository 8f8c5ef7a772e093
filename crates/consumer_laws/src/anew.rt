//! Begun anew: what a seek or a deletion at every cluster leaves of what was settled before.
ghost use Rattle.consumer_laws.specs.Anew.{LawAnew};

/// Where a settling has brought all over, and an operator then seeks a subscription at every cluster, in whatever order and with nothing
/// between, each to a position that is stored at its cluster or to its end, then whatever comes later, each message that the cursor of
/// the subscription has, at whatever cluster, was settled since the settling: it stands below the place to which one of these seeks went
/// at its own cluster, or a client acknowledged it later, a creation at Latest passed over it, or a later seek did. So where all seeks go
/// to the first entry, and nobody settles anything since, no update moves the cursor over a message; and where they go to different
/// places, what stands below the furthest may be passed over everywhere.
///
/// Where a subscription is at no cluster, and no update of it was stored since a settling, only what is settled from then on counts, if it
/// ever is there again: a deletion everywhere is not undone.
///
/// Between any two events after the last seek, or from where the subscription is gone, also inside settling, for every setup that a
/// script can declare, in worlds of fewer than 2^62 events.
pub fn law_anew()
    ensures { LawAnew }
{}
