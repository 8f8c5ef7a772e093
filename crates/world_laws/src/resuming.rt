//! That a run goes on from where it was kept as if it had not ended there.
ghost use Rattle.world_laws.specs.AlikeWorlds.{LawResumed};

/// Two worlds are alike where brokers, clients and counts are the same, and on each link the same packets wait, whatever their
/// stamps; what was taken before may differ, and so may all clocks. No event tells such worlds apart, nor does a stop inside one, a
/// stop of everything, a step or a settling, also under limits that look at counts alone, and the report of both is one (`event`,
/// `halt`, `stop`, `runs`, `settling`, `reports`). A world that was stopped is alike to the one that is loaded of it (`loaded`), so
/// the run that goes on there is alike to the one that went on after the stop (`goes_on`, `script`), however often it is kept and
/// resumed (`through`); and messages stand once and in order in it, only what is settled is acknowledged, and nothing due is
/// forgotten, at the moments at which `law_once` and `law_safe` say it of a run that was not interrupted (`once`, `safe`, `kept`).
/// It holds for every setup, `safe` for those that a script can declare, in runs of fewer than 2^62 events.
pub fn law_resumed()
    ensures { LawResumed }
{}
