//! What names an entry, as a key.
ghost use Rattle.std.specs.Prelude.{◌≡◌, ◌++◌, nat_eq, IfOk};
ghost use Rattle.std.proofs.Common.{rules};
ghost use Rattle.std.specs.Cmp.Rules.{comparing, hashing};
ghost use Rattle.std.specs.Hash as fed;
ghost use Rattle.std.specs.Ordering.{eq_of_both, on};
ghost use Rattle.std.specs.Str.{bytes_eq};
ghost use Rattle.audit.specs.Stored.{identity_of};

use geo_base::{Ident, Memory, ProducerName};
use std::alloc::Global;
use std::hash::{Hash, Hasher};

/// The cluster that stored an entry first, its producer there, and the sequence id.
#[derive(Drop)]
pub struct Identity {
    pub origin: u32,
    pub producer: ProducerName,
    pub seq: u64,
}

impl Identity {
    /// The identity of an entry.
    pub fn of(alloc: Global, ident: &Ident) -> Result<Identity, Memory>
        ensures { IfOk result (λ identity. identity ≡ identity_of ident.now) }
    {
        Ok(Identity {
            origin: ident.origin,
            producer: ident.producer.copy(alloc)?,
            seq: ident.seq,
        })
    }
}

impl PartialEq for Identity {
    ghost eq = { eq_of_both (eq_of_both (on (λ s. s.origin) nat_eq) (on (λ s. s.producer) bytes_eq)) (on (λ s. s.seq) nat_eq) };

    ghost laws = { Prim.search (comparing, rules) };

    fn eq(&self, other: &Identity) -> bool {
        self.origin == other.origin
            && self.producer.as_bytes() == other.producer.as_bytes()
            && self.seq == other.seq
    }
}

impl Eq for Identity {
    ghost laws = { Prim.search (comparing, rules) };
}

impl Hash for Identity {
    ghost hash_input = { λ s. fed.u32 s.origin ++ (fed.slice fed.u8 s.producer ++ fed.u64 s.seq) };

    ghost respects_eq = { Prim.search (hashing, rules) };

    fn hash<H: Hasher>(&self, state: &mut H) {
        state.write_u32(self.origin);
        self.producer.as_bytes().hash(state);
        state.write_u64(self.seq);
    }
}
