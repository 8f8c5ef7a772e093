//! An actor.
ghost use Rattle.std.specs.Prelude.{◌≡◌};
ghost use Rattle.actors.specs.Tries.{new_actor};

use crate::{Draws, Role};
use script_text::Scenario;
use std::marker::Model;

/// An actor of a run on threads: its number, what it does, what it draws, and for how many of its turns in a row it waited for others.
#[derive(Drop)]
pub struct Actor {
    pub(crate) number: u32,
    pub(crate) role: Role,
    pub(crate) draws: Draws,
    pub(crate) waited: u32,
}

impl Model for Actor {
    ghost use Rattle.actors.specs.Tries.{Actor as ActorValue};

    ghost Value = { ActorValue };

    ghost view = { λ a. record { number = a.number; role = a.role; drawing = a.draws; waited = a.waited } };
}

impl Actor {
    /// The actor of a number, which has had no turn. A scenario's actors are numbered in the order of `crate::roles`.
    pub fn new(scenario: &Scenario, number: u32, role: Role) -> Actor
        ensures { result ≡ new_actor scenario.now number role }
    {
        Actor {
            number,
            role,
            draws: Draws::new(scenario.chance(), number),
            waited: 0,
        }
    }

    /// Its number.
    pub fn number(&self) -> u32
        ensures { result ≡ self.now.number }
    {
        self.number
    }

    /// What it does.
    pub fn role(&self) -> Role
        ensures { result ≡ self.now.role }
    {
        self.role
    }
}
