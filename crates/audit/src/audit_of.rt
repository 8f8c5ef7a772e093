//! The audit.
ghost use Rattle.std.specs.Prelude.{ℕ, ◌≡◌, Ok, Err, IfOk};
ghost use Rattle.geo_base.specs.Mirror.{opening_mirrors};
ghost use Rattle.script_rows.specs.NameWords.{cut_by};
ghost use Rattle.audit.specs.AuditOf.{IsAccepted, audit_by, lines_audited, names_of};
ghost use Rattle.audit.specs.declared.fault.AuditFault.TheVariants as fault;

use crate::fault::AuditFault;
use crate::mirrors::AllMirrors;
use crate::rule::Rule;
use crate::strictness::Strictness;
use script_rows::{cut_at, is_word};
use script_text::Scenario;
use std::alloc::Global;
use trace_lines::Names;

/// Audits a trace, from its line `trace` on, of a run of what a scenario declares, by the rules of a strictness: how many events it tells,
/// where no line breaks one. `Rule` comes exactly where a line does, with the last event before it and the lowest rule that it breaks. The schedule of the
/// scenario says nothing. `Memory` says nothing of the trace.
#[tactic(auto, unfolding(crate::specs::AuditOf::audit_by), using(crate::proofs::Accepting::accepted_says))]
pub fn audit(
    alloc: Global,
    scenario: &Scenario,
    strictness: Strictness,
    bytes: &[u8],
) -> Result<u64, AuditFault>
    ensures audited { IfOk result (λ events. audit_by strictness scenario.now.setup bytes.now ≡ Ok events) }
    ensures refused { (event rule : ℕ) → result ≡ Err (fault.Rule event rule) → audit_by strictness scenario.now.setup bytes.now ≡ Err (record { event = event; rule = rule }) }
    ensures accepted { IfOk result (λ events. IsAccepted strictness scenario.now.setup bytes.now events) }
{
    let Some((head, lines)) = cut_at(bytes, b'\n') else {
        return Err(Rule::Form.broken_after(0));
    };
    if !is_word(head, b"trace") {
        return Err(Rule::Form.broken_after(0));
    }
    audit_lines(alloc, scenario, strictness, lines)
}

/// Audits the lines of a trace after `trace`.
fn audit_lines(
    alloc: Global,
    scenario: &Scenario,
    strictness: Strictness,
    lines: &[u8],
) -> Result<u64, AuditFault>
    ensures audited { IfOk result (λ events. lines_audited strictness scenario.now.setup (opening_mirrors scenario.now.setup) (cut_by 10 lines.now) ≡ Ok events) }
    ensures refused { (event rule : ℕ) → result ≡ Err (fault.Rule event rule) → lines_audited strictness scenario.now.setup (opening_mirrors scenario.now.setup) (cut_by 10 lines.now) ≡ Err (record { event = event; rule = rule }) }
{
    let names = Names::new(alloc, scenario.clusters(), scenario.topics())?;
    let audited = audit_named(alloc, scenario, strictness, &names, lines);
    drop(names);
    audited
}

/// Audits such lines, whose names are looked up in tables.
fn audit_named(
    alloc: Global,
    scenario: &Scenario,
    strictness: Strictness,
    names: &Names<'_>,
    lines: &[u8],
) -> Result<u64, AuditFault>
    requires { names.now ≡ names_of scenario.now.setup }
    ensures audited { IfOk result (λ events. lines_audited strictness scenario.now.setup (opening_mirrors scenario.now.setup) (cut_by 10 lines.now) ≡ Ok events) }
    ensures refused { (event rule : ℕ) → result ≡ Err (fault.Rule event rule) → lines_audited strictness scenario.now.setup (opening_mirrors scenario.now.setup) (cut_by 10 lines.now) ≡ Err (record { event = event; rule = rule }) }
{
    let mut mirrors = AllMirrors::new(alloc, scenario)?;
    let audited = mirrors.read_all(alloc, scenario, strictness, names, lines);
    drop(mirrors);
    audited
}
