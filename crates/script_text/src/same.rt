//! When two scenarios are equal.
ghost use Rattle.std.specs.Prelude.{◌≡◌, IfOk, false, true};
ghost use Rattle.script_text.specs.Same.{AreTexts};

use crate::canonical::write_declarations;
use crate::scenario::Scenario;
use crate::schedule::write_schedule;
use geo_base::{Blob, Memory};
use std::alloc::Global;

impl Scenario {
    /// Whether another scenario is equal: it declares the same and schedules the same steps, the first of them on the same
    /// line. Their texts are compared, since each has one. An `Err` is want of memory.
    #[tactic(auto, using(crate::proofs::OneText::same_scripts, crate::proofs::OneText::same_texts))]
    pub fn is_same(&self, alloc: Global, other: &Scenario) -> Result<bool, Memory>
        ensures same { IfOk result (λ t. t ≡ true → self.now ≡ other.now) }
        ensures differs { IfOk result (λ t. t ≡ false → self.now ≡ other.now → ⊥) }
    {
        if self.first_event() != other.first_event() {
            return Ok(false);
        }
        let one = self.texts(alloc)?;
        let two = other.texts(alloc)?;
        Ok(one.is_same(&two))
    }

    /// The texts of what is declared and of the schedule.
    fn texts(&self, alloc: Global) -> Result<Texts, Memory>
        ensures { IfOk result (AreTexts self.now) }
    {
        Ok(Texts {
            declared: write_declarations(alloc, self)?,
            steps: write_schedule(alloc, self, self.steps())?,
        })
    }
}

/// The text of what a scenario declares, and that of its schedule.
#[derive(Drop)]
struct Texts {
    declared: Blob,
    steps: Blob,
}

impl Texts {
    fn is_same(&self, other: &Texts) -> bool
        ensures same { result ≡ true → self.now ≡ other.now }
        ensures differs { result ≡ false → self.now ≡ other.now → ⊥ }
    {
        self.declared.as_slice() == other.declared.as_slice()
            && self.steps.as_slice() == other.steps.as_slice()
    }
}
