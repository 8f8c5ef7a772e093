//! Lists of steps, in a third of the memory that the steps take one beside the other.
ghost use Rattle.std.specs.Prelude.{◌≡◌, ◌<◌, ◌++◌, [], ◌∷◌, length, slice_index_or, OnErr, OnOk};

use crate::form::{Form, Short};
use geo_base::{Memory, Step};
use std::alloc::Global;
use std::marker::Model;

/// Steps in their order. Contracts see the list of them.
#[derive(Drop)]
pub struct StepList {
    forms: Vec<Form>,
    apart: Vec<Step>,
}

impl Model for StepList {
    ghost use Rattle.std.specs.Prelude.{List, All, length, map};
    ghost use Rattle.geo_base.specs.declared.event.Step.{Step};
    ghost use Rattle.script_text.specs.Forms.{IsAmong, step_in};

    ghost Value = { List Step };

    ghost view = { λ l. map (step_in l.apart.items) l.forms.items };

    ghost invariant = { λ l. All (IsAmong (length l.apart.items)) l.forms.items };
}

impl StepList {
    /// No step; takes no memory.
    pub fn new(alloc: Global) -> StepList
        ensures { result ≡ [] }
    {
        StepList {
            forms: Vec::new(alloc),
            apart: Vec::new(alloc),
        }
    }

    /// How many steps there are.
    pub fn len(&self) -> usize
        ensures { result ≡ length self.now }
    {
        self.forms.len()
    }

    /// A step by its place.
    pub fn at(&self, place: usize) -> Step
        requires { place < length self.now }
        ensures { slice_index_or self.now place result ≡ result }
    {
        self.forms[place].step(self.apart.as_slice())
    }

    /// One more step; unchanged where memory is wanting.
    pub fn push(&mut self, step: Step) -> Result<(), Memory>
        ensures ok { OnOk result (self.new ≡ self.old ++ step ∷ []) }
        ensures err { OnErr result (self.new ≡ self.old) }
    {
        match Short::of(&step) {
            Some(short) => self.push_short(&short),
            None => self.push_apart(step),
        }
    }

    /// One more step that has a short form; unchanged where memory is wanting.
    #[tactic(auto, using(crate::proofs::Formed::pushed_short, crate::proofs::Formed::short_kept))]
    pub(crate) fn push_short(&mut self, step: &Short) -> Result<(), Memory>
        ensures ok { OnOk result (self.new ≡ self.old ++ step.now ∷ []) }
        ensures err { OnErr result (self.new ≡ self.old) }
    {
        self.forms.push(step.form())?;
        Ok(())
    }

    /// One more step, which stands apart; unchanged where memory is wanting.
    #[tactic(auto, using(crate::proofs::Formed::pushed_apart, crate::proofs::Formed::apart_kept))]
    fn push_apart(&mut self, step: Step) -> Result<(), Memory>
        ensures ok { OnOk result (self.new ≡ self.old ++ step ∷ []) }
        ensures err { OnErr result (self.new ≡ self.old) }
    {
        self.forms.reserve(1)?;
        let place = self.apart.len();
        self.apart.push(step)?;
        match self.forms.push(Form::Apart(place)) {
            Ok(()) => Ok(()),
            Err(_) => unreachable!(),
        }
    }
}
