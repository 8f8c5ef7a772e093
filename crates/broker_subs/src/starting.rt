//! Subscriptions over a restart.
ghost use Rattle.std.specs.Prelude.{◌≡◌, ◌++◌, ◌∷◌, [], map, IfOk, OnOk};
ghost use Rattle.geo_base.specs.Subscription.{cleared};
ghost use Rattle.durable_parts.specs.Parts as durable;
ghost use Rattle.broker_subs.specs.SubView.{subs_of};

use crate::sub::Sub;
use crate::table::SubTable;
use durable_parts::{DurableSub, DurableSubs};
use geo_base::Memory;
use std::alloc::Global;

impl SubTable {
    /// What is durable of the subscriptions.
    pub fn durable(&self, alloc: Global) -> Result<DurableSubs, Memory>
        ensures { IfOk result (λ d. d ≡ map cleared (subs_of self.now.subs)) }
    {
        let mut parts = DurableSubs::new(alloc);
        for sub_index in 0..self.subs.len() {
            parts.add(self.subs[sub_index].durable().copy(alloc)?)?;
        }
        Ok(parts)
    }

    /// The subscriptions as they are after a restart, from what is durable of them.
    #[tactic(auto, using(crate::proofs::Anew::names_apart))]
    pub fn restored(alloc: Global, parts: DurableSubs) -> Result<SubTable, Memory>
        ensures { IfOk result (λ t. subs_of t.subs ≡ parts) }
    {
        let subs = restored_subs(alloc, parts.into_vec())?;
        Ok(SubTable { subs, room: 0 })
    }
}

fn restored_subs(alloc: Global, parts: Vec<DurableSub>) -> Result<Vec<Sub>, Memory>
    ensures { IfOk result (λ subs. subs_of subs.items ≡ durable.subs_of parts.items) }
{
    let mut subs = Vec::new(alloc);
    for part in parts {
        add(&mut subs, Sub::restored(alloc, part)?)?;
    }
    Ok(subs)
}

fn add(subs: &mut Vec<Sub>, sub: Sub) -> Result<(), Memory>
    ensures { OnOk result (subs.new.items ≡ subs.old.items ++ sub ∷ []) }
{
    subs.push(sub)?;
    Ok(())
}
