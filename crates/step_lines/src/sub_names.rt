//! The subscriptions of a broker by their names.
ghost use Rattle.std.specs.Prelude.{◌≡◌, is_some};
ghost use Rattle.std.specs.Str.{bytes_eq};
ghost use Rattle.geo_base.specs.Broker.{sub_named};
ghost use Rattle.step_lines.specs.Resting.{are_apart, has_from};

use broker::Broker;
use broker_subs::Sub;

/// Whether a broker has a subscription of a name.
pub(crate) fn has_sub(broker: &Broker, name: &[u8]) -> bool
    ensures { result ≡ is_some (sub_named broker.now.broker.subs name.now) }
{
    has_sub_from(broker, 0, name)
}

/// Whether it has one from a place on.
#[tactic(auto, using(crate::proofs::Finding::has_here, crate::proofs::Finding::has_next))]
fn has_sub_from(broker: &Broker, first: usize, name: &[u8]) -> bool
    ensures { result ≡ has_from name.now first broker.now.broker.subs }
{
    for place in first..broker.subs() {
        match broker.sub(place) {
            Some(sub) if is_named(sub, name) => return true,
            Some(_) => {}
            None => unreachable!(),
        }
    }
    false
}

/// Whether a subscription has a name.
pub(crate) fn is_named(sub: &Sub, name: &[u8]) -> bool
    ensures { result ≡ bytes_eq sub.now.sub.name name.now }
{
    sub.name().as_str().as_bytes() == name
}

/// Whether no two subscriptions of a broker have one name; it is so in each run.
#[tactic(auto, using(crate::proofs::Finding::apart_next))]
pub(crate) fn are_apart(broker: &Broker) -> bool
    ensures { result ≡ are_apart broker.now.broker.subs }
{
    for place in 0..broker.subs() {
        match broker.sub(place) {
            Some(sub) if is_named_later(broker, place + 1, sub) => return false,
            Some(_) => {}
            None => unreachable!(),
        }
    }
    true
}

/// Whether one from a place on has the name of a subscription.
fn is_named_later(broker: &Broker, first: usize, sub: &Sub) -> bool
    ensures { result ≡ has_from sub.now.sub.name first broker.now.broker.subs }
{
    has_sub_from(broker, first, sub.name().as_str().as_bytes())
}
