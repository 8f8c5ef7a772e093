//! Whose sequence ids compare.
ghost use Rattle.std.specs.Prelude.{◌≡◌, ◌++◌, nat_eq, IfOk};
ghost use Rattle.std.proofs.Common.{rules};
ghost use Rattle.std.specs.Cmp.Rules.{comparing, hashing};
ghost use Rattle.std.specs.Hash as fed;
ghost use Rattle.std.specs.Ordering.{eq_of_both, on};
ghost use Rattle.std.specs.Str.{bytes_eq};
ghost use Rattle.topic_store.specs.Table.{stream_of};

use geo_base::{Ident, Memory, ProducerName};
use std::alloc::Global;
use std::hash::{Hash, Hasher};

/// The messages of one origin and producer, in whose order sequence ids rise.
#[derive(Drop)]
pub struct Stream {
    pub origin: u32,
    pub producer: ProducerName,
}

impl Stream {
    /// The stream that an entry belongs to.
    pub fn of(alloc: Global, ident: &Ident) -> Result<Stream, Memory>
        ensures { IfOk result (λ s. s ≡ stream_of ident.now) }
    {
        Ok(Stream {
            origin: ident.origin,
            producer: ident.producer.copy(alloc)?,
        })
    }
}

impl PartialEq for Stream {
    ghost eq = { eq_of_both (on (λ s. s.origin) nat_eq) (on (λ s. s.producer) bytes_eq) };

    ghost laws = { Prim.search (comparing, rules) };

    fn eq(&self, other: &Stream) -> bool {
        self.origin == other.origin && self.producer.as_bytes() == other.producer.as_bytes()
    }
}

impl Eq for Stream {
    ghost laws = { Prim.search (comparing, rules) };
}

impl Hash for Stream {
    ghost hash_input = { λ s. fed.u32 s.origin ++ fed.slice fed.u8 s.producer };

    ghost respects_eq = { Prim.search (hashing, rules) };

    fn hash<H: Hasher>(&self, state: &mut H) {
        state.write_u32(self.origin);
        self.producer.as_bytes().hash(state);
    }
}
