//! The answer to a trace that stands after a script's declarations.
ghost use Rattle.std.specs.Prelude.{◌≡◌, ◌≤◌, IfOk, length};
ghost use Rattle.audit.specs.AuditOf.{audit_by};
ghost use Rattle.geo_top.specs.Audits.{audit_line};
ghost use Rattle.geo_top.specs.Outputs.{answer_to_auditing, answer_to_judged};
ghost use Rattle.geo_top.specs.declared.top.status.Status.TheVariants as status;

use crate::top::answer::{Answer, refusal};
use crate::top::status::Status;
use audit::{AuditFault, Strictness, audit};
use geo_base::limits::INPUT_BYTES;
use geo_base::{Blob, Memory};
use script_generator::trace_start;
use script_text::{Scenario, ScriptFault, read_script};
use std::alloc::Global;

/// The answer to declarations and a trace, by how strictly it is judged.
pub fn answer_to_audit(
    alloc: Global,
    strictness: Strictness,
    bytes: &[u8],
) -> Result<Answer, Memory>
    requires { length bytes.now ≤ INPUT_BYTES }
    ensures { IfOk result (λ a. a ≡ answer_to_auditing strictness bytes.now) }
{
    let start = trace_start(bytes);
    let trace = &bytes[start..];
    match read_script(alloc, &bytes[..start]) {
        Ok(scenario) => {
            let answer = judge(alloc, &scenario, strictness, trace);
            drop(scenario);
            answer
        }
        Err(ScriptFault::Rule { line, rule }) => refusal(alloc, Status::BadScript { line, rule }),
        Err(ScriptFault::Memory) => Err(Memory),
    }
}

/// The answer to a trace of a script's topics.
fn judge(
    alloc: Global,
    scenario: &Scenario,
    strictness: Strictness,
    trace: &[u8],
) -> Result<Answer, Memory>
    requires { length trace.now ≤ INPUT_BYTES }
    ensures { IfOk result (λ a. a ≡ answer_to_judged (audit_by strictness scenario.now.setup trace.now)) }
{
    match audit(alloc, scenario, strictness, trace) {
        Ok(events) => accepted(alloc, events),
        Err(AuditFault::Rule { event, rule }) => {
            refusal(alloc, Status::AuditRefused { event, rule })
        }
        Err(AuditFault::Memory) => Err(Memory),
    }
}

/// The answer that tells how many events an accepted trace tells.
fn accepted(alloc: Global, events: u64) -> Result<Answer, Memory>
    ensures { IfOk result (λ a. (a.status ≡ status.Ok) × (a.bytes ≡ audit_line events)) }
{
    let line = format!(in alloc; "audit ok events {events}\n")?;
    Ok(Answer {
        status: Status::Ok,
        bytes: Blob::from_slice(alloc, line.as_bytes())?,
    })
}
