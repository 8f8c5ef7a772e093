//! What it means that nothing is found.
ghost use Rattle.observation.specs.Safety.{LawFailedOver, LawObservedSafe};

/// Where nothing is found, what was read is safe; and where it is safe, nothing is found. So each finding is a place where it is not.
pub fn law_observed_safe()
    ensures { LawObservedSafe }
{}

/// Of what is safe, a consumer that goes on from a cursor that was read misses nothing: each message that stands there and that nobody
/// dealt with is outside the cursor.
pub fn law_failed_over()
    ensures { LawFailedOver }
{}
