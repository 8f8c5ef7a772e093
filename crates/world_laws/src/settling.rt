//! How settling ends.
ghost use Rattle.geo_base.specs.Laws.{BetweenEvents, LawBudget, SettlesInTime};
ghost use Rattle.geo_base.specs.Setup.{Setup};

/// Settling, begun in whatever world a run comes to, ends within its budget of rounds, in a world where each event of a round is
/// idle; and each round before that does an event that is not. So it is of the world at the end of every run, also of one that a
/// limit ends, and between any two events of it, also inside another settling, for every setup and every list of steps. That
/// all has come over by then is said by `law_budget`.
pub fn law_settles_in_time()
    ensures between { (s : Setup) → BetweenEvents s (SettlesInTime s) }
{}

/// Settling ends in time, as `law_settles_in_time` says, and then all has come over: for every topic and every two clusters the
/// replicator of the one to the other is open and has acknowledged every index of its topic, and the other has, in order, all that
/// the one stored first and has for it. The second part is of setups that a script can declare, and of runs that come to fewer
/// than 2^62 events with the settling (beyond, an id may be too long for an entry that is stored); it holds from the same worlds
/// as the first.
pub fn law_budget()
    ensures budget { LawBudget }
{}
