//! The cluster that stored a message first.
ghost use Rattle.std.specs.Prelude.{◌≡◌, ◌<◌, ◌^◌, length};
ghost use Rattle.state_items.specs.Origins.{origin_of};

use frame_values::number_of;
use geo_base::{ClusterName, Text};

/// The cluster that stored a message first, by the name that its metadata gives as `replicated_from`: the storing one where there
/// is none. None exactly where no cluster has that name.
#[tactic(auto, using(crate::proofs::Origins::number_is))]
pub fn origin_of(names: &[ClusterName], own: u32, from: &Option<Text>) -> Option<u32>
    requires { length names.now < 2 ^ 32 }
    ensures { result ≡ origin_of names.now own from.now }
{
    match from {
        None => Some(own),
        Some(name) => number_of(names, 0, name.as_bytes()),
    }
}
