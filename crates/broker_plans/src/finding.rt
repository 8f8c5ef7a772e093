//! Which subscription an event is about: found once, and named by its place from then on.
ghost use Rattle.std.specs.Prelude.{◌≡◌, ◌<◌, true, None, Some, length, MatchOption};
ghost use Rattle.geo_base.specs.Broker.{sub_named};
ghost use Rattle.geo_base.specs.Name.{is_name};
ghost use Rattle.geo_base.specs.Subscribing.{consumed_by};
ghost use Rattle.broker_subs.specs.Table.{sub_at};

use broker_state::BrokerState;
use broker_subs::Sub;

/// The place of the subscription of a name; `None` exactly where there is none.
#[tactic(auto, using(crate::proofs::Places::found))]
pub fn sub_index_named(state: &BrokerState, name: &[u8]) -> Option<usize>
    ensures { MatchOption result (sub_named state.now.broker.subs name.now ≡ None)
        (λ k. (k < length state.now.broker.subs) × (sub_named state.now.broker.subs name.now ≡ Some (sub_at state.now.broker.subs k))) }
{
    state.subs().find(name)
}

/// The place of the subscription where a client has the consumer of an id; `None` exactly where there is none.
#[tactic(auto, using(crate::proofs::Places::found))]
pub fn sub_index_consumed(state: &BrokerState, client: u32, id: u64) -> Option<usize>
    ensures { MatchOption result (consumed_by state.now.broker.subs client id ≡ None)
        (λ k. (k < length state.now.broker.subs) × (consumed_by state.now.broker.subs client id ≡ Some (sub_at state.now.broker.subs k))) }
{
    state.subs().find_consumer(client, id)
}

/// The subscription at a place.
#[tactic(auto, using(crate::proofs::Places::many))]
pub fn sub_at(state: &BrokerState, sub_index: usize) -> &Sub
    requires { sub_index < length state.now.broker.subs }
    ensures sub { result.now.sub ≡ sub_at state.now.broker.subs sub_index }
    ensures name { is_name (sub_at state.now.broker.subs sub_index).name ≡ true }
{
    let sub = state.subs().at(sub_index);
    let _text = sub.name().as_str();
    sub
}
