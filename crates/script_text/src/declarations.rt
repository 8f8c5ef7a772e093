//! What a script declares.
ghost use Rattle.std.specs.Prelude.{◌≡◌, length, slice_get, IfOk, IfSome};
ghost use Rattle.std.specs.Option.{option_copied};
ghost use Rattle.geo_base.specs.Scripted.{AreDistinct};
ghost use Rattle.geo_base.specs.Setup.{Declared, sub_names};
ghost use Rattle.script_text.specs.Drafts.{IsDeclared};

use crate::chance::Chance;
use crate::client::ClientDecl;
use crate::setup::SetupParts;
use crate::subs::{SubNames, all_names};
use geo_base::{ClusterName, Memory, Sequence, SubName, TopicName};
use script_rows::Progress;
use std::alloc::Global;
use std::marker::Model;

/// What the lines before the first event declare, with the names of the subscriptions in the order of their numbers.
#[derive(Drop)]
pub(crate) struct Declarations {
    progress: Progress,
    chance: Option<Chance>,
    setup: SetupParts,
    subs: Sequence<SubNames>,
}

impl Model for Declarations {
    ghost use Rattle.script_text.specs.Drafts.{IsDeclared};
    ghost use Rattle.script_text.specs.Script.{Declarations};
    ghost use Rattle.script_text.specs.Subs.{AreNamed};

    ghost Value = { Declarations };

    ghost view = { λ d. record { progress = d.progress; chance = d.chance; setup = d.setup } };

    ghost invariant = { λ d. IsDeclared d.setup × AreNamed d.setup d.subs };
}

impl Declarations {
    /// What is declared by its parts.
    pub(crate) fn new(
        alloc: Global,
        progress: Progress,
        chance: Option<Chance>,
        setup: SetupParts,
    ) -> Result<Declarations, Memory>
        requires { IsDeclared setup }
        ensures { IfOk result (λ d. d ≡ record { progress = progress; chance = chance; setup = setup }) }
    {
        let subs = all_names(alloc, setup.clients(), setup.topics().len() as u32)?;
        Ok(Declarations {
            progress,
            chance,
            setup,
            subs,
        })
    }

    /// Which kinds of line came.
    pub(crate) fn progress(&self) -> Progress
        ensures { result ≡ self.now.progress }
    {
        self.progress
    }

    /// The chances of a run on threads, where a line says them.
    pub(crate) fn chance(&self) -> Option<Chance>
        ensures { result ≡ self.now.chance }
    {
        self.chance
    }

    /// Entries of a ledger, clusters, topics and clients.
    pub(crate) fn setup(&self) -> &SetupParts
        ensures setup { result.now ≡ self.now.setup }
        ensures known { IsDeclared self.now.setup }
    {
        &self.setup
    }

    /// The names of a topic's subscriptions; none where the topic is not declared.
    pub(crate) fn sub_names(&self, topic: u32) -> &[SubName]
        ensures { result.now ≡ sub_names self.now.setup topic }
    {
        match self.subs.as_slice().get(topic as usize) {
            Some(names) => names.as_slice(),
            None => &[],
        }
    }
}
