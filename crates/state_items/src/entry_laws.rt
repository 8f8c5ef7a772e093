//! What holds of the texts of an entry alone.
ghost use Rattle.std.specs.Prelude.{ℕ, List};
ghost use Rattle.geo_base.specs.declared.entry.Entry.{Entry};
ghost use Rattle.message_meta.specs.Metadata.{Metadata};
ghost use Rattle.state_items.specs.EntryTexts.{HasTexts};
ghost use Rattle.state_items.specs.Told.{IsSaid, IsTold};

/// The texts of an entry say it.
#[tactic(auto, using(crate::proofs::Told::some_said))]
pub fn texts_say_the_entry()
    ensures { (names : List (List ℕ)) (own : ℕ) (e : Entry) → HasTexts names own e → IsTold names own e → (m : Metadata) × IsSaid names own e m }
{}
