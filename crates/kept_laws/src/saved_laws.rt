//! What of a run is read back.
ghost use Rattle.kept_laws.specs.Saved.{LawSaved};

/// The state that steps of an accepted script leave after a stop of everything, within the limits of a run, fits a file, if the
/// file is below 4 GiB: each topic's ledgers have its entries, each of which is new after those before it, small, and told whole by
/// its texts, which are UTF-8 and whose numbers have 64 bits; names of subscriptions are names, and differ; cursors ascend and are
/// below the topic's end; a cluster has no replicator to itself; a client's lines in force and the publishes that it waits for are
/// lines that it did; what it got is of clusters of the script; and no count is above its limit. So it is loaded as it was
/// saved, with as many bytes as were written, whatever stands after them; and no event tells the world that goes on from it from the
/// one that was stopped. It holds for every list of steps, not
/// only those that the script lists, and where the run was kept on the way and went on from there, however often (`law_resumed`).
pub fn law_saved()
    ensures { LawSaved }
{}
