//! How many entries here the entries of another topic need.
ghost use Rattle.std.specs.Prelude.{◌≡◌, ◌<◌, ◌&&◌, ℕ, Some, length, slice_get, IfOk};
ghost use Rattle.audit.specs.Stored.{identity_of};
ghost use Rattle.observation.specs.Findings.{is_covered};
ghost use Rattle.observe.specs.Needed.{AreNeeds, NeedOf, covers_upto};

use crate::entries::{is_meant_for, is_message};
use crate::seen::SeenTopic;
use audit::Identity;
use geo_base::{Entry, Memory};
use std::alloc::Global;
use std::marker::Model;

/// For each entry of another topic how many entries here all up to it need that are meant for a cluster: one more than the greatest index
/// at which one of them stands; None where one stands nowhere.
#[derive(Drop)]
pub(crate) struct Needs {
    counts: Vec<Option<usize>>,
}

impl Model for Needs {
    ghost use Rattle.std.specs.Prelude.{List, ℕ, Option};

    ghost Value = { List (Option ℕ) };

    ghost view = { λ n. n.counts.items };
}

/// How many entries here an entry of another topic needs at a cluster; None where it does not stand here.
#[tactic(auto, using(crate::proofs::Needing::needs_none, crate::proofs::Needing::needs_place, crate::proofs::Needing::needs_more))]
fn need_of(cluster: u32, here: &SeenTopic, entry: &Entry, identity: &Identity) -> Option<usize>
    requires { identity.now ≡ identity_of entry.now.ident }
    ensures { (l : ℕ) → is_covered cluster here.now.topic.entries l entry.now ≡ covers_upto result l }
{
    if !is_message(entry) || !is_meant_for(cluster, entry) {
        return Some(0);
    }
    // an index is below this, so that one more than it is a number
    let _len = here.entries().len();
    let place = here.place_of(entry, identity)?;
    Some(place + 1)
}

/// What both of two need.
#[tactic(auto, using(crate::proofs::Needing::most_of))]
fn most(need: Option<usize>, other: Option<usize>) -> Option<usize>
    ensures { (l : ℕ) → covers_upto result l ≡ (covers_upto need l && covers_upto other l) }
{
    match (need, other) {
        (Some(need), Some(other)) => Some(need.max(other)),
        _ => None,
    }
}

impl Needs {
    /// Of all entries of another topic. An `Err` is want of memory.
    #[tactic(auto, using(crate::proofs::Needing::none_needed, crate::proofs::Needing::one_needed, crate::proofs::Needing::all_needed))]
    pub(crate) fn of(
        alloc: Global,
        cluster: u32,
        here: &SeenTopic,
        there: &SeenTopic,
    ) -> Result<Needs, Memory>
        ensures { IfOk result (λ needs. AreNeeds cluster here.now.topic.entries there.now.topic.entries needs) }
    {
        let mut counts = Vec::new(alloc);
        let mut last = Some(0);
        let entries = there.entries();
        for index in 0..entries.len() {
            let need = need_of(cluster, here, &entries[index], there.identity_at(index));
            last = most(last, need);
            counts.push(last)?;
        }
        Ok(Needs { counts })
    }

    /// Whether all up to an index there stand here at or below an index.
    pub(crate) fn are_covered(&self, index: usize, local: usize) -> bool
        requires { index < length self.now }
        ensures { (n : NeedOf) → slice_get self.now index ≡ Some n → result ≡ covers_upto n local }
    {
        match self.counts[index] {
            None => false,
            Some(count) => count.saturating_sub(1) <= local,
        }
    }
}
