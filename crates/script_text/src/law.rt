//! What is written reads back, and what a schedule says after a script.
ghost use Rattle.std.specs.Prelude.{◌≡◌, ℕ, ◌+◌, List, [], ◌∷◌, ◌++◌, length, Ok, IsOkAnd};
ghost use Rattle.geo_base.specs.declared.event.Step.{Step};
ghost use Rattle.script_rows.specs.Written.{step_line};
ghost use Rattle.script_text.specs.Canonical.{declarations_text, declared_alone};
ghost use Rattle.script_text.specs.Lines.{lines_of};
ghost use Rattle.script_text.specs.Naming.{names_of};
ghost use Rattle.script_text.specs.Rules.{script_of};
ghost use Rattle.script_text.specs.Scenario.{IsScenario, IsStep};
ghost use Rattle.script_text.specs.Schedule.{IsWithSteps, followed, schedule_of};
ghost use Rattle.script_text.specs.Script.{Script};

/// The text that writes what a script declares says the same, and no step.
pub fn declarations_read_back()
    ensures { (s : Script) → IsScenario s
        → script_of (declarations_text s.setup s.chance) ≡ Ok (declared_alone s.setup s.chance) }
{}

/// A schedule by itself says what its lines say after a script, of which a line feed ends the last line.
pub fn schedules_go_on()
    // What stands after the declarations of an accepted script is its schedule.
    ensures parted { (s : Script) (events : List ℕ) → IsScenario s
        → script_of (declarations_text s.setup s.chance ++ events) ≡ Ok s → schedule_of s.setup events ≡ Ok s.steps }

    // A schedule that is accepted by itself adds its steps to a script.
    ensures joined { (text events : List ℕ) (s : Script) (more : List Step) → script_of (text ++ 10 ∷ []) ≡ Ok s
        → schedule_of s.setup events ≡ Ok more
        → IsOkAnd (script_of (text ++ 10 ∷ events)) (IsWithSteps s (s.steps ++ more)) }

    // After a step, whatever bytes a schedule has, it adds the same steps, or breaks the same rule at a line that counts on.
    ensures behind { (text events : List ℕ) (s : Script) (e : Step) → IsScenario s → script_of (text ++ 10 ∷ []) ≡ Ok s
        → IsStep s.setup e
        → script_of (text ++ 10 ∷ (step_line (names_of s.setup) e ++ 10 ∷ events))
        ≡ followed s (length (lines_of (text ++ 10 ∷ [])) + 1) e (schedule_of s.setup events) }
{}
