//! What holds of the bytes of states alone.
ghost use Rattle.std.specs.Prelude.{◌≡◌, ℕ, ◌++◌, List, length, Ok};
ghost use Rattle.state_file.specs.Fitting.{IsState};
ghost use Rattle.state_file.specs.Known.{IsKnownState};
ghost use Rattle.state_file.specs.Loading.{IsLoaded, Loaded};
ghost use Rattle.state_file.specs.State.{SavedState};
ghost use Rattle.state_file.specs.Texts.{state_text};

/// A state is loaded as it was saved, with as many bytes as were written, whatever stands after them.
pub fn saved_is_loaded()
    ensures { (s : SavedState) (more : List ℕ) → IsState s → IsLoaded (state_text s ++ more) (Ok (s, length (state_text s))) }
{}

/// Bytes are loaded in one way at most.
pub fn one_loading()
    ensures { (bytes : List ℕ) (a b : Loaded) → IsLoaded bytes a → IsLoaded bytes b → a ≡ b }
{}

/// A state that was loaded passed each test of one: it is what a run may go on from.
pub fn loaded_is_known()
    ensures { (bytes : List ℕ) (s : SavedState) (used : ℕ) → IsLoaded bytes (Ok (s, used)) → IsKnownState s }
{}
