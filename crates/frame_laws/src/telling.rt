//! What bytes say of the frames that are sent and of the entries that are stored.
ghost use Rattle.std.specs.Prelude.{ℕ, List};
ghost use Rattle.geo_base.specs.declared.frame.Frame.{Frame};
ghost use Rattle.geo_base.specs.Scripted.{AreDistinct};
ghost use Rattle.world_laws.specs.Plain.{IsPlain};
ghost use Rattle.frame_values.specs.Told.{IsTold};
ghost use Rattle.frame_laws.specs.Telling.{LawTold, LawWritten};

/// Plain frames are told whole by their texts, where the clusters' names are told apart.
pub fn plain_told()
    ensures { (names : List (List ℕ)) (f : Frame) → AreDistinct names → IsPlain names f → IsTold names f }
{}

/// Of every frame that is sent on a link, and of every entry that is stored, the canonical text tells all but the cluster
/// that stored the entry first, which no event looks at in a packet. At the end of every run, also of one that a limit
/// ends, and at every moment of it, also inside settling and after each single durable write, for every setup that a
/// script can declare and every list of steps.
pub fn law_told()
    ensures always { LawTold }
{}

/// Every frame that is sent on a link has a text that is within the limit on frames, so that writing it fails for want of
/// memory alone. At the end of every run, also of one that a limit ends, and at every moment of it, also inside settling
/// and after each single durable write, for every setup that a script can declare and every list of steps, in runs of
/// fewer than 2^62 events.
pub fn law_written()
    ensures always { LawWritten }
{}
