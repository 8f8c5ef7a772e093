//! What is looked for once, as a key.
ghost use Rattle.std.specs.Prelude.{◌≡◌, ◌++◌, nat_eq};
ghost use Rattle.std.proofs.Common.{rules};
ghost use Rattle.std.specs.Cmp.Rules.{comparing, hashing};
ghost use Rattle.std.specs.Hash as fed;
ghost use Rattle.std.specs.Ordering.{eq_of_both, on};
ghost use Rattle.std.specs.Str.{bytes_eq};

use geo_base::Text;
use std::hash::{Hash, Hasher};

/// A subscription, a cluster for which messages are meant, and the cluster at which they stand.
#[derive(Drop)]
pub(crate) struct Asked {
    pub(crate) origin: u32,
    pub(crate) of: u32,
    pub(crate) sub: Text,
}

impl PartialEq for Asked {
    ghost eq = { eq_of_both (eq_of_both (on (λ s. s.origin) nat_eq) (on (λ s. s.of) nat_eq)) (on (λ s. s.sub) bytes_eq) };

    ghost laws = { Prim.search (comparing, rules) };

    fn eq(&self, other: &Asked) -> bool {
        self.origin == other.origin
            && self.of == other.of
            && self.sub.as_bytes() == other.sub.as_bytes()
    }
}

impl Eq for Asked {
    ghost laws = { Prim.search (comparing, rules) };
}

impl Hash for Asked {
    ghost hash_input = { λ s. fed.u32 s.origin ++ (fed.u32 s.of ++ fed.slice fed.u8 s.sub) };

    ghost respects_eq = { Prim.search (hashing, rules) };

    fn hash<H: Hasher>(&self, state: &mut H) {
        state.write_u32(self.origin);
        state.write_u32(self.of);
        self.sub.as_bytes().hash(state);
    }
}
