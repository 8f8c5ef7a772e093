//! What the schedule of such a run is.
ghost use Rattle.std.specs.Prelude.{◌≡◌, List, [], None};
ghost use Rattle.geo_base.specs.declared.event.Step.{Step};
ghost use Rattle.geo_base.specs.Run.{all_limits, run_under};
ghost use Rattle.geo_base.specs.Setup.{Setup};
ghost use Rattle.live_output.specs.Schedules.{EndsSettled, IsLongest, longest, scheduled};

/// The longest part of given steps whose run passes no limit, with `settle` after it exactly where that passes none. So the
/// run over the whole schedule passes no limit; and its last step is to settle, unless settling after it passes one.
pub fn law_schedules()
    ensures longest { (s : Setup) (es : List Step) → IsLongest s es (longest s [] es) }
    ensures within { (s : Setup) (es : List Step) → (run_under all_limits s (scheduled s es)).ended ≡ None }
    ensures settled { (s : Setup) (es : List Step) → EndsSettled s (scheduled s es) }
    ensures whole { (s : Setup) (es : List Step) → (run_under all_limits s es).ended ≡ None → longest s [] es ≡ es }
{}
