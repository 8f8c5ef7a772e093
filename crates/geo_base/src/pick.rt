//! Which consumer a message goes to.
ghost use Rattle.std.specs.Prelude.{◌≡◌, ◌<◌, ℕ, List, Option, Some, length, nat_lt, position};
ghost use Rattle.geo_base.specs.declared.consumer.Consumer.{Consumer};
ghost use Rattle.geo_base.specs.Dispatcher.{consumer_at, first_permitted, if_permitted};

use crate::consumer::Consumer;
use crate::frame::SubKind;

/// A rule that names, among the consumers of a subscription in order, the place of the one that a message of a key goes to.
pub trait Pick {
    ghost use Rattle.geo_base.specs.declared.consumer.Consumer.{Consumer};
    ghost use Rattle.geo_base.specs.declared.frame.SubKind.{SubKind};

    /// The rule, as a function of the kind, the consumers and the key.
    ghost chosen: { SubKind → List Consumer → List ℕ → Option ℕ };

    /// The place that the rule names, which is that of a consumer with a permit; `None` exactly where it names none.
    fn pick(&self, kind: SubKind, consumers: &[Consumer], key: &[u8]) -> Option<usize>
        ensures { result ≡ chosen kind consumers.now key.now };

    /// A law: the place is that of a consumer with a permit.
    ghost permitted: { (kind : SubKind) (ks : List Consumer) (key : List ℕ) (i : ℕ) → chosen kind ks key ≡ Some i → (i < length ks) × (0 < (consumer_at ks i).permits) };
}

/// A place, where the consumer there has a permit.
pub fn if_permitted(consumers: &[Consumer], place: usize) -> Option<usize>
    ensures { result ≡ if_permitted consumers.now place }
{
    if place < consumers.len() && consumers[place].permits > 0 {
        Some(place)
    } else {
        None
    }
}

/// The first place of a consumer with a permit.
pub fn first_permitted(consumers: &[Consumer]) -> Option<usize>
    ensures { result ≡ first_permitted 0 consumers.now }
{
    place_permitted(consumers)
}

fn place_permitted(consumers: &[Consumer]) -> Option<usize>
    ensures { result ≡ position (λ (k : Consumer). nat_lt 0 k.permits) consumers.now }
{
    consumers.iter().position(|consumer| consumer.permits > 0)
}
