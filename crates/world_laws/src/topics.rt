//! What holds of the entries of a topic.
ghost use Rattle.geo_base.specs.Laws.{LawOnce};

/// Of two entries of the same origin and producer in a topic at a cluster the earlier has the smaller sequence id, so no
/// identity stands twice: at the end of every run, also of one that a limit ends, and at every moment of it, also inside
/// settling and after each single durable write. It holds for every setup and every list of steps.
pub fn law_once()
    ensures always { LawOnce }
{}
