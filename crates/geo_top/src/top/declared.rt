//! The name of a cluster among the words of a command: its number, and how it is refused where no cluster has it.
ghost use Rattle.std.specs.Prelude.{◌≡◌, ◌<◌, ◌≤◌, ◌+◌, ◌^◌, IfOk, IfSome, None, Some, fold, if◌then◌else◌, length, position};
ghost use Rattle.std.specs.Str.{bytes_eq};
ghost use Rattle.geo_top.specs.Losing.{is_cut, with_end};
ghost use Rattle.geo_top.specs.Outputs.{refused};
ghost use Rattle.geo_top.specs.declared.top.status.Status.TheVariants as status;
ghost use Rattle.script_rows.specs.NameBytes.{is_among, number_in};
ghost use Rattle.script_text.specs.Lines.{lines_of};

use crate::top::answer::{Answer, refusal};
use crate::top::status::Status;
use geo_base::limits::INPUT_BYTES;
use geo_base::{ClusterName, Memory};
use std::alloc::Global;

/// The rule that a name is declared (docs/SCRIPT.md).
const DECLARED: u32 = 15;

/// The number of a cluster's name; None exactly where no cluster has it.
pub fn number_of(clusters: &[ClusterName], name: &[u8]) -> Option<u32>
    requires { length clusters.now < 2 ^ 32 }
    ensures number { result ≡ (if is_among clusters.now name.now then Some (number_in clusters.now name.now) else None) }
    ensures within { IfSome result (λ k. k < length clusters.now) }
{
    match broker_ref_of(clusters, name) {
        Some(place) => Some(place as u32),
        None => None,
    }
}

/// The first place of a name.
fn broker_ref_of(clusters: &[ClusterName], name: &[u8]) -> Option<usize>
    ensures { result ≡ position (λ n. bytes_eq n name.now) clusters.now }
{
    clusters
        .iter()
        .position(|known| known.as_str().as_bytes() == name)
}

/// The number of the line after the last, counted from 1.
#[tactic(auto, using(crate::proofs::Losing::behind_cut, crate::proofs::Losing::behind_ended))]
pub fn line_behind(bytes: &[u8]) -> u64
    requires { length bytes.now ≤ INPUT_BYTES }
    ensures number { result ≡ length (lines_of bytes.now) + 1 }
    ensures few { result ≤ INPUT_BYTES + 2 }
{
    let ended = line_ends(bytes);
    if is_cut(bytes) { ended + 2 } else { ended + 1 }
}

/// How many lines a line feed ends.
fn line_ends(bytes: &[u8]) -> u64
    ensures count { result ≡ fold with_end 0 bytes.now }
    ensures few { result ≤ length bytes.now }
{
    let mut ended = 0;
    for byte in bytes {
        ended = with_end(ended, *byte);
    }
    ended
}

/// One line more, after a line feed.
fn with_end(ended: u64, byte: u8) -> u64
    requires { ended + 1 < 2 ^ 64 }
    ensures is { result ≡ with_end ended byte }
    ensures few { result ≤ ended + 1 }
{
    if byte == b'\n' { ended + 1 } else { ended }
}

/// Whether the last line has no line feed.
fn is_cut(bytes: &[u8]) -> bool
    ensures { result ≡ is_cut bytes.now }
{
    !bytes.is_empty() && bytes[bytes.len() - 1] != b'\n'
}

/// The refusal of a name that no cluster has. It stands after the last line, whose next number `line` is. An `Err` is want of memory.
pub fn undeclared(alloc: Global, line: u64) -> Result<Answer, Memory>
    ensures { IfOk result (λ a. a ≡ refused (status.BadScript line 15)) }
{
    refusal(
        alloc,
        Status::BadScript {
            line,
            rule: DECLARED,
        },
    )
}
