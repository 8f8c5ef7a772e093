//! What holds of the frames that are sent and of the entries that are stored.
ghost use Rattle.world_laws.specs.Frames.{LawFits, LawPlain};

/// What is sent on a link, and what is stored, is plain: a list of targets names clusters by their names and in their order, a
/// place is a cluster, a marker is its canonical text, no field stands beside those that are read, and no frame is one that
/// can't be read. At the end of every run, also of one that a limit ends, and at every moment of it, also inside settling and
/// after each single durable write, for every setup that a script can declare and every list of steps.
pub fn law_plain()
    ensures always { LawPlain }
{}

/// No frame that is sent is larger than a link carries (5,253,120 bytes after the four of its size), and no entry that is
/// stored is larger than a topic stores (5,242,880 bytes). At the end of every run, also of one that a limit ends, and at
/// every moment of it, also inside settling and after each single durable write, for every setup that a script can declare
/// and every list of steps, in runs of fewer than 2^62 events (beyond, an id may take any number of digits).
pub fn law_fits()
    ensures always { LawFits }
{}
