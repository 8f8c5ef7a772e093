//! That a run which goes on from its state file is one run.
ghost use Rattle.geo_top.specs.OneRun.{AnswersAlike, FilesAlike, TextsAlike};

/// A run that was saved and goes on from its state file is the run of the script with a stop and the further steps after its own: it
/// prints the same report, or passes the same limit (`answers`). That script is the text of the saved one with a `stop` line and the
/// further lines after it; where one of these breaks a rule, it breaks it after the state too (`texts`). So what `resume` answers to
/// the bytes that `save` wrote, with these lines after them, `run` answers to that text (`files`).
pub fn resumed_runs_are_one()
    ensures answers { AnswersAlike }
    ensures texts { TextsAlike }
    ensures files { FilesAlike }
{}
