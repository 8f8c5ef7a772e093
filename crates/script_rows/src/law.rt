//! Steps that are written read back the same.
ghost use Rattle.std.specs.Prelude.{List, ℕ};
ghost use Rattle.geo_base.specs.declared.event.Step.{Step};
ghost use Rattle.script_rows.specs.Known.{IsStep, ReadsAs};
ghost use Rattle.script_rows.specs.Names.{Names};
ghost use Rattle.script_rows.specs.Written.{AreDeclared, step_line};
ghost use Rattle.script_rows.specs.declared.progress.Progress.{Progress};

/// The line that writes a step breaks no rule of its words, and reads back as that step.
pub fn steps_read_back()
    ensures { (p : Progress) (n : Names) (s : Step) → AreDeclared n → IsStep n s
        → ReadsAs p n (step_line n s) s }
{}

/// A step that is read is of a kind that is read, and its numbers are in range.
pub fn steps_are_known()
    ensures { (p : Progress) (n : Names) (line : List ℕ) (s : Step) → AreDeclared n
        → ReadsAs p n line s → IsStep n s }
{}
