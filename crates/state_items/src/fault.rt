//! Why items could not be read.
ghost use Rattle.std.specs.Prelude.{◌≡◌};
ghost use Rattle.state_items.specs.declared.fault.ItemFault.TheVariants as item_fault;
ghost use Rattle.state_items.specs.Reading.{broken};

use crate::rule::Rule;
use geo_base::Memory;
use std::alloc::{AllocError, AllocFailed};

/// The first item that breaks a rule, and the lowest rule that it breaks. The item is told by how many bytes there are from its
/// first one on.
#[derive(Clone, Copy, Drop)]
pub struct Broken {
    pub left: usize,
    pub rule: Rule,
}

/// Why an item was not read.
#[derive(Clone, Copy, Drop)]
pub enum ItemFault {
    /// An item breaks a rule.
    Broken(Broken),
    /// No memory was left. It says nothing of the bytes.
    Memory,
}

impl ItemFault {
    /// The item at the front of the bytes breaks a rule.
    pub fn at(bytes: &[u8], rule: Rule) -> ItemFault
        ensures { result ≡ item_fault.Broken (broken bytes.now rule) }
    {
        ItemFault::Broken(Broken {
            left: bytes.len(),
            rule,
        })
    }
}

impl From<Memory> for ItemFault {
    ghost from_gives = { λ _ e. e ≡ item_fault.Memory };

    fn from(_error: Memory) -> ItemFault {
        ItemFault::Memory
    }
}

impl From<AllocError> for ItemFault {
    ghost from_gives = { λ _ e. e ≡ item_fault.Memory };

    fn from(_error: AllocError) -> ItemFault {
        ItemFault::Memory
    }
}

impl<T: Drop> From<AllocFailed<T>> for ItemFault {
    ghost from_gives = { λ _ e. e ≡ item_fault.Memory };

    fn from(_error: AllocFailed<T>) -> ItemFault {
        ItemFault::Memory
    }
}
