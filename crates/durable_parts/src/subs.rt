//! The durable parts of a topic's subscriptions.
ghost use Rattle.std.specs.Prelude.{◌≡◌, ◌<◌, [], ◌∷◌, ◌++◌, Bool, None, length, map, not, position, if◌then◌else◌, OnOk, OnErr};
ghost use Rattle.std.specs.List.{filter};
ghost use Rattle.std.specs.Option.{option_copied, option_map};
ghost use Rattle.std.specs.Str.{bytes_eq};
ghost use Rattle.geo_base.specs.Broker.{sub_named};
ghost use Rattle.geo_base.specs.Subscription.{Subscription};
ghost use Rattle.durable_parts.specs.declared.durable.DurableSub.{DurableSub};
ghost use Rattle.durable_parts.specs.Changed.{with_part};
ghost use Rattle.durable_parts.specs.Parts.{AreNamedApart, sub_of, subs_of};

use crate::durable::{DurableSub, SubPart};
use geo_base::{Memory, SubName};
use std::alloc::Global;
use std::marker::Model;

/// Subscriptions in order of creation, no two of one name. Contracts see the machine's subscriptions, with nothing in memory.
#[derive(Drop)]
pub struct DurableSubs {
    subs: Vec<DurableSub>,
}

impl Model for DurableSubs {
    ghost use Rattle.std.specs.Prelude.{List};
    ghost use Rattle.geo_base.specs.Subscription.{Subscription};
    ghost use Rattle.durable_parts.specs.Parts.{AreNamedApart, subs_of};

    ghost Value = { List Subscription };

    ghost view = { λ s. subs_of s.subs.items };

    ghost invariant = { λ s. AreNamedApart (subs_of s.subs.items) };
}

impl DurableSubs {
    /// No subscription; takes no memory.
    pub fn new(alloc: Global) -> DurableSubs
        ensures { result ≡ [] }
    {
        DurableSubs {
            subs: Vec::new(alloc),
        }
    }

    /// The subscriptions in order.
    pub fn as_slice(&self) -> &[DurableSub]
        ensures { subs_of result.now ≡ self.now }
    {
        self.subs.as_slice()
    }

    /// The subscriptions as a vector, in order; takes no memory.
    pub fn into_vec(self) -> Vec<DurableSub>
        ensures subs { subs_of result.items ≡ self }
        ensures apart { AreNamedApart self }
    {
        self.subs
    }

    /// The subscription of a name; `None` exactly where there is none.
    pub fn named(&self, name: &SubName) -> Option<&DurableSub>
        ensures { option_map sub_of (option_copied result) ≡ sub_named self.now name.now }
    {
        named(self.subs.as_slice(), name)
    }

    /// One more subscription, last in order; unchanged where memory is wanting.
    pub fn add(&mut self, sub: DurableSub) -> Result<(), Memory>
        requires new { sub_named self.old sub.name ≡ None }
        ensures ok { OnOk result (self.new ≡ self.old ++ sub_of sub ∷ []) }
        ensures err { OnErr result (self.new ≡ self.old) }
    {
        match self.subs.reserve(1) {
            Err(_) => {
                drop(sub);
                Err(Memory)
            }
            Ok(()) => {
                self.subs.push_reserved(sub);
                Ok(())
            }
        }
    }

    /// A part of the subscription of a name is another one, if it is here.
    pub(crate) fn set(&mut self, name: &SubName, part: SubPart)
        ensures { self.new ≡ map (λ (s : Subscription). if bytes_eq s.name name.now then with_part part s else s) self.old }
    {
        if let Some(place) = self.place_of(name) {
            self.subs[place].set(part);
        } else {
            drop(part);
        }
    }

    /// No subscription has a name.
    pub(crate) fn remove(&mut self, name: &SubName)
        ensures { self.new ≡ filter (λ (s : Subscription). not (bytes_eq s.name name.now)) self.old }
    {
        remove_named(&mut self.subs, name);
    }

    /// The place of the subscription of a name; `None` exactly where there is none.
    fn place_of(&self, name: &SubName) -> Option<usize>
        ensures { result ≡ position (λ (s : Subscription). bytes_eq s.name name.now) self.now }
    {
        place_of(self.subs.as_slice(), name)
    }
}

/// The place of the first subscription of a name.
fn place_of(subs: &[DurableSub], name: &SubName) -> Option<usize>
    ensures { result ≡ position (λ (s : DurableSub). bytes_eq s.name name.now) subs.now }
{
    subs.iter().position(|sub| sub.name.as_str().as_bytes() == name.as_str().as_bytes())
}

/// The subscription of a name.
fn named<'a>(subs: &'a [DurableSub], name: &SubName) -> Option<&'a DurableSub>
    ensures { option_map sub_of (option_copied result) ≡ sub_named (subs_of subs.now) name.now }
{
    for sub in subs {
        if sub.name.as_str().as_bytes() == name.as_str().as_bytes() {
            return Some(sub);
        }
    }
    None
}

/// No subscription has a name.
fn remove_named(subs: &mut Vec<DurableSub>, name: &SubName)
    ensures { subs.new.items ≡ filter (λ (s : DurableSub). not (bytes_eq s.name name.now)) subs.old.items }
{
    subs.retain(|sub| sub.name.as_str().as_bytes() != name.as_str().as_bytes());
}
