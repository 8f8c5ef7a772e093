//! Which subscription an event is about.
ghost use Rattle.std.specs.Prelude.{◌≡◌, ◌<◌, None, length, slice_get, MatchOption};
ghost use Rattle.std.specs.List.{list_any};
ghost use Rattle.geo_base.specs.Broker.{sub_named};
ghost use Rattle.geo_base.specs.Subscribing.{consumed_by};
ghost use Rattle.geo_base.specs.Subscription.{Subscription, is_attached};
ghost use Rattle.broker_subs.specs.SubView.{subs_of};

use crate::sub::Sub;
use crate::table::SubTable;

impl SubTable {
    /// The place of the subscription of a name; `None` exactly where there is none.
    pub fn find(&self, name: &[u8]) -> Option<usize>
        ensures { MatchOption result (sub_named (subs_of self.now.subs) name.now ≡ None)
            (λ k. (k < length self.now.subs) × (sub_named (subs_of self.now.subs) name.now ≡ slice_get (subs_of self.now.subs) k)) }
    {
        find(self.subs.as_slice(), name)
    }

    /// The place of the subscription where a client has the consumer of an id; `None` exactly where there is none.
    pub fn find_consumer(&self, client: u32, id: u64) -> Option<usize>
        ensures { MatchOption result (consumed_by (subs_of self.now.subs) client id ≡ None)
            (λ k. (k < length self.now.subs) × (consumed_by (subs_of self.now.subs) client id ≡ slice_get (subs_of self.now.subs) k)) }
    {
        find_consumer(self.subs.as_slice(), client, id)
    }

    /// Whether a client has a consumer.
    pub fn is_attached(&self, client: u32) -> bool
        ensures { result ≡ list_any (is_attached client) (subs_of self.now.subs) }
    {
        is_attached(self.subs.as_slice(), client)
    }

    /// Whether other clusters are told of a subscription.
    pub fn any_replicated(&self) -> bool
        ensures { result ≡ list_any (λ (s : Subscription). s.replicated) (subs_of self.now.subs) }
    {
        any_replicated(self.subs.as_slice())
    }
}

#[tactic(auto, using(crate::proofs::Places::found_here, crate::proofs::Places::found_later))]
fn find(subs: &[Sub], name: &[u8]) -> Option<usize>
    ensures { MatchOption result (sub_named (subs_of subs.now) name.now ≡ None)
        (λ k. (k < length subs.now) × (sub_named (subs_of subs.now) name.now ≡ slice_get (subs_of subs.now) k)) }
{
    for sub_index in 0..subs.len() {
        if subs[sub_index].name().as_str().as_bytes() == name {
            return Some(sub_index);
        }
    }
    None
}

#[tactic(auto, using(crate::proofs::Places::found_here, crate::proofs::Places::found_later))]
fn find_consumer(subs: &[Sub], client: u32, id: u64) -> Option<usize>
    ensures { MatchOption result (consumed_by (subs_of subs.now) client id ≡ None)
        (λ k. (k < length subs.now) × (consumed_by (subs_of subs.now) client id ≡ slice_get (subs_of subs.now) k)) }
{
    for sub_index in 0..subs.len() {
        if subs[sub_index].has_consumer(client, id) {
            return Some(sub_index);
        }
    }
    None
}

fn is_attached(subs: &[Sub], client: u32) -> bool
    ensures { result ≡ list_any (is_attached client) (subs_of subs.now) }
{
    for sub in subs {
        if sub.is_attached(client) {
            return true;
        }
    }
    false
}

fn any_replicated(subs: &[Sub]) -> bool
    ensures { result ≡ list_any (λ (s : Subscription). s.replicated) (subs_of subs.now) }
{
    for sub in subs {
        if sub.is_replicated() {
            return true;
        }
    }
    false
}
