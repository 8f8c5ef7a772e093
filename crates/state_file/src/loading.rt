//! Loading a state.
ghost use Rattle.std.specs.Prelude.{◌≡◌, ◌≤◌, ◌<◌, ◌^◌, length, take};
ghost use Rattle.state_file.specs.Faults.{TellsLoaded};
ghost use Rattle.state_file.specs.Loading.{IsLoaded, is_known};

use crate::body::body_at;
use crate::fault::{StateFault, fault_in};
use crate::front::version_at;
use crate::saved::Saved;
use state_items::number_at;
use std::alloc::Global;

/// The version that is written.
pub(crate) const NEWEST: u32 = 2;

/// The first version, which has no counts of seeks.
const FIRST: u32 = 1;

/// Bytes before the body: the magic ones, the version and the body's length.
const FRONT_BYTES: usize = 20;

/// Loads the state at the front of the bytes, of which there are fewer than 2^32, and tells how many bytes it takes: what stands
/// after them is not looked at.
///
/// `BadState` comes exactly where an item breaks a rule, and names the first one and the lowest rule that it breaks; `Version` where
/// the version is neither 1 nor 2. `Memory` may come at any bytes. It takes memory only for what the bytes hold.
#[tactic(auto, using(crate::proofs::Loaded::has_no_version, crate::proofs::Loaded::has_no_size, crate::proofs::Loaded::is_broken))]
pub fn load(alloc: Global, bytes: &[u8]) -> Result<(Saved, usize), StateFault>
    requires { length bytes.now < 2 ^ 32 }
    ensures { TellsLoaded result (IsLoaded bytes.now) }
{
    let (version, rest) = match version_at(bytes) {
        Ok(read) => read,
        Err(fault) => return Err(fault_in(bytes.len(), fault)),
    };
    if !is_known(version) {
        return Err(StateFault::Version(version));
    }
    let (size, rest) = match number_at(rest) {
        Ok(read) => read,
        Err(fault) => return Err(fault_in(bytes.len(), fault)),
    };
    let body = front_of(rest, size);
    match body_at(alloc, version, size, body) {
        Ok(saved) => Ok((saved, FRONT_BYTES + size as usize)),
        Err(fault) => Err(fault_in(FRONT_BYTES + body.len(), fault)),
    }
}

/// Whether a version is read.
fn is_known(version: u32) -> bool
    ensures { result ≡ is_known version }
{
    version == FIRST || version == NEWEST
}

/// So many bytes, or all where there are fewer.
fn front_of(bytes: &[u8], size: u64) -> &[u8]
    ensures front { result.now ≡ take size bytes.now }
    ensures shorter { length result.now ≤ length bytes.now }
{
    if size < bytes.len() as u64 {
        &bytes[..size as usize]
    } else {
        bytes
    }
}
