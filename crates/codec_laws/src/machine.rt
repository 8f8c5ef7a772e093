//! Bytes as values of the machine.
ghost use Rattle.std.specs.Prelude.{ℕ, List, Option};
ghost use Rattle.codec_laws.specs.Answers.{AreBytes};
ghost use Rattle.codec_laws.specs.Contents.{HasContent, HasValue};

/// Any payload of an entry is something, whatever its marker type: what a reader keeps of it is there.
pub fn law_content()
    ensures { (names : List (List ℕ)) (number : Option ℕ) (payload : List ℕ) → AreBytes payload → HasContent names number payload }
{}

/// Any bytes say a value of the machine, and stand for it.
pub fn law_value()
    ensures { (names : List (List ℕ)) (bytes : List ℕ) → AreBytes bytes → HasValue names bytes }
{}
