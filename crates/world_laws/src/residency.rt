//! Where messages stand and go, and what a replicator's mark says.
ghost use Rattle.world_laws.specs.InRun.{LawInRun};
ghost use Rattle.world_laws.specs.Residency.{LawMarked, LawResident};

/// What stands at a cluster was stored there first, or its list is empty or names the cluster. What was ever sent on the
/// forward link from x to y, taken or not, is an entry that stands at x, which x stored first, and whose list is empty or
/// names y. At the same moments as `law_prefix`, for every setup and every list of steps.
pub fn law_resident()
    ensures always { LawResident }
{}

/// Of each pair of clusters x and y: of the first entries of x's topic, as many as the mark of x's cursor for y, those that
/// are of origin x and go to y stand at y. What y lacks of them is the last of it, and no more than the entries of x's topic
/// at or after the mark. At the same moments as `law_resident`.
pub fn law_marked()
    ensures always { LawMarked }
{}

/// In the run of any steps of a setup all this holds always: `law_prefix`, `law_receipt`, `law_resident` and `law_marked`, and
/// `law_published`, `law_answered`, `law_counted` and `law_repeated` where a script can declare the setup.
pub fn law_in_run()
    ensures { LawInRun }
{}
