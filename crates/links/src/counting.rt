//! How many bytes are sent.
ghost use Rattle.std.specs.Prelude.{◌≡◌, ◌≤◌, ◌^◌, IfOk, OnErr};
ghost use Rattle.links.specs.Queues.{bytes_of};

use geo_base::{Memory, WireOut};
use std::collections::VecDeque;

/// How many bytes the frames have that are sent in an event. So many that 64 bits can't count them are in no memory.
#[tactic(auto, using(crate::proofs::Pairs::rest_bytes, crate::proofs::Pairs::last_bytes, crate::proofs::Pairs::many_bytes))]
pub fn frame_bytes(sent: &VecDeque<WireOut>) -> Result<u64, Memory>
    ensures ok { IfOk result (λ n. n ≡ bytes_of sent.now.items) }
    ensures err { OnErr result (2 ^ 64 ≤ bytes_of sent.now.items) }
{
    let mut bytes: u64 = 0;
    for place in 0..sent.len() {
        bytes = match bytes.checked_add(sent[place].frame.len() as u64) {
            Some(sum) => sum,
            None => return Err(Memory),
        };
    }
    Ok(bytes)
}
