//! What the program is to write, made whole before its first byte goes out.
ghost use Rattle.std.specs.Prelude.{◌≡◌, ◌++◌, ◌∷◌, [], codes, decimal, IfOk, string_bytes};
ghost use Rattle.geo_top.specs.Outputs.{refused};
ghost use Rattle.geo_top.specs.Statuses.{refusal_line};

use crate::top::status::Status;
use geo_base::{Blob, Memory};
use std::alloc::Global;

/// How the program is to end, and what goes out.
#[derive(Drop)]
pub struct Answer {
    pub status: Status,
    pub bytes: Blob,
}

/// A refusal, with its one line. An `Err` is want of memory.
pub fn refusal(alloc: Global, status: Status) -> Result<Answer, Memory>
    ensures { IfOk result (λ a. a ≡ refused status) }
{
    let line = refusal_line(alloc, status)?;
    Ok(Answer {
        status,
        bytes: Blob::from_slice(alloc, line.as_bytes())?,
    })
}

/// The one line of a refusal.
fn refusal_line(alloc: Global, status: Status) -> Result<String, Memory>
    ensures { IfOk result (λ line. string_bytes line ≡ refusal_line status) }
{
    match status {
        Status::Usage => Ok(String::from_str(
            alloc,
            "usage: geo run, live WORKERS TURNS, big NUMBER, save, resume, audit, compact HORIZON, tiered KEEP, trace, steps, steps from, steps big NUMBER, audit whole, lost CLUSTER, lost CLUSTER numbers, lost CLUSTER from, observe\n",
        )?),
        Status::BadScript { line, rule } => ruled_line(alloc, "bad script line ", line, rule),
        Status::ReadFault => Ok(String::from_str(alloc, "read fault\n")?),
        Status::TooLarge(limit) => numbered_line(alloc, "too large ", limit),
        Status::BadState { offset, rule } => ruled_line(alloc, "bad state at ", offset, rule),
        Status::StateVersion(number) => {
            numbered_line(alloc, "bad state version ", u64::from(number))
        }
        Status::AuditRefused { event, rule } => ruled_line(alloc, "audit refused ", event, rule),
        Status::BadObservation { line, rule } => {
            ruled_line(alloc, "bad observation line ", line, rule)
        }
        Status::Ok | Status::Found | Status::WriteFault | Status::OutOfMemory => {
            Ok(String::new(alloc))
        }
    }
}

/// The line of a refusal that has a number.
fn numbered_line(alloc: Global, what: &str, number: u64) -> Result<String, Memory>
    ensures { IfOk result (λ line. string_bytes line ≡ what.now ++ (decimal number ++ 10 ∷ [])) }
{
    Ok(format!(in alloc; "{what}{number}\n")?)
}

/// The line of a refusal that tells the place where a rule is broken, and the rule.
fn ruled_line(alloc: Global, what: &str, place: u64, rule: u32) -> Result<String, Memory>
    ensures { IfOk result (λ line. string_bytes line ≡ what.now ++ (decimal place ++ (codes " rule " ++ (decimal rule ++ 10 ∷ [])))) }
{
    Ok(format!(in alloc; "{what}{place} rule {rule}\n")?)
}
