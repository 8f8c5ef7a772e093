//! The subscriptions of a topic that lines name.
ghost use Rattle.std.specs.Prelude.{◌≡◌, [], OnOk, OnErr};
ghost use Rattle.observed_text.specs.Observing.{is_named, may_name, with_name};

use geo_base::{Memory, Text};
use std::alloc::Global;
use std::marker::Model;

/// Subscriptions of a topic: as many as a topic of the machine takes (own).
const MOST_SUBS: usize = 32;

/// Names of subscriptions, each once. There are few, so that a walk finds one.
#[derive(Drop)]
pub(crate) struct NamedSubs {
    names: Vec<Text>,
}

impl Model for NamedSubs {
    ghost use Rattle.std.specs.Prelude.{List, ℕ};

    ghost Value = { List (List ℕ) };

    ghost view = { λ n. n.names.items };
}

impl NamedSubs {
    /// None; takes no memory.
    pub(crate) fn none(alloc: Global) -> NamedSubs
        ensures { result ≡ [] }
    {
        NamedSubs {
            names: Vec::new(alloc),
        }
    }

    /// Whether a name is one of them.
    fn is_named(&self, name: &Text) -> bool
        ensures { result ≡ is_named self.now name.now }
    {
        self.names
            .iter()
            .any(|known| name.as_bytes() == known.as_bytes())
    }

    /// Whether a topic may have a subscription of a name: it has it, or has room for one more.
    pub(crate) fn may_name(&self, name: &Text) -> bool
        ensures { result ≡ may_name self.now name.now }
    {
        self.is_named(name) || self.names.len() < MOST_SUBS
    }

    /// A name, where it is none of them yet. An `Err` is want of memory, with no change.
    pub(crate) fn add(&mut self, alloc: Global, name: &Text) -> Result<(), Memory>
        ensures ok { OnOk result (self.new ≡ with_name self.old name.now) }
        ensures err { OnErr result (self.new ≡ self.old) }
    {
        if self.is_named(name) {
            return Ok(());
        }
        self.names.push(name.copy(alloc)?)?;
        Ok(())
    }
}
