//! The text of an observation.
ghost use Rattle.std.specs.Prelude.{ℕ, ◌≡◌, ◌≤◌, ◌+◌, ◌^◌, ◌<◌, None, Some, Ok, Err, length, IfOk, OnOk};
ghost use Rattle.audit.specs.AuditOf.{names_of};
ghost use Rattle.observe.specs.Topics.{IsOf, entries_in};
ghost use Rattle.observed_text.specs.Observing.{lines_observed, nothing_told, read_observation, refused, taken};
ghost use Rattle.observed_text.specs.Lines.{line_said};
ghost use Rattle.observed_text.specs.Sizes.{IsSized};
ghost use Rattle.observed_text.specs.declared.fault.ObserveFault.TheVariants as fault;
ghost use Rattle.script_rows.specs.NameWords.{cut_by};

use crate::asked::head_of;
use crate::fault::ObserveFault;
use crate::lines::line_of;
use crate::so_far::LinesSoFar;
use geo_base::Memory;
use observe::Observed;
use script_rows::cut_at;
use script_text::Scenario;
use std::alloc::Global;
use trace_lines::Names;

/// Reads an observation of a scenario's topics, from its head on, which is the line of this number. `Rule` comes exactly where a line breaks
/// one, with the first such line and the lowest rule that it breaks; the schedule of the scenario says nothing. `Memory` says nothing of the
/// observation.
#[tactic(auto, unfolding(crate::specs::Observing::read_observation), using(crate::proofs::Told::by_head, crate::proofs::Walks::cut_length))]
pub fn read_observed(
    alloc: Global,
    scenario: &Scenario,
    line: u64,
    bytes: &[u8],
) -> Result<Observed, ObserveFault>
    requires { line + length bytes.now + 1 < 2 ^ 64 }
    ensures read { IfOk result (λ o. read_observation scenario.now.setup line bytes.now ≡ Ok o) }
    ensures refused { (at rule : ℕ) → result ≡ Err (fault.Rule at rule) → read_observation scenario.now.setup line bytes.now ≡ Err (record { line = at; rule = rule }) }
    ensures numbers { IfOk result (λ o. IsOf scenario.now.setup o) }
    ensures few { IfOk result (λ o. entries_in o.topics ≤ length bytes.now) }
{
    let refused = ObserveFault::Rule { line, rule: 1 };
    let Some((head, lines)) = cut_at(bytes, b'\n') else {
        return Err(refused);
    };
    let Some(quiet) = head_of(head) else {
        return Err(refused);
    };
    let names = Names::new(alloc, scenario.clusters(), scenario.topics())?;
    let read = read_named(alloc, scenario, &names, quiet, line + 1, lines);
    drop(names);
    read
}

/// Reads the lines after the head, whose names are looked up in tables; the first has the number `line`.
#[tactic(auto, using(crate::proofs::Counts::opening_count, crate::proofs::Sizes::opening_sized, crate::proofs::Sizes::sized_of))]
fn read_named(
    alloc: Global,
    scenario: &Scenario,
    names: &Names<'_>,
    quiet: bool,
    line: u64,
    lines: &[u8],
) -> Result<Observed, ObserveFault>
    requires names { names.now ≡ names_of scenario.now.setup }
    requires line { line + length lines.now < 2 ^ 64 }
    ensures read { IfOk result (λ o. lines_observed scenario.now.setup (nothing_told scenario.now.setup quiet) line (cut_by 10 lines.now) ≡ Ok o) }
    ensures refused { (at rule : ℕ) → result ≡ Err (fault.Rule at rule) → lines_observed scenario.now.setup (nothing_told scenario.now.setup quiet) line (cut_by 10 lines.now) ≡ Err (record { line = at; rule = rule }) }
    ensures numbers { IfOk result (λ o. IsOf scenario.now.setup o) }
    ensures few { IfOk result (λ o. entries_in o.topics ≤ length lines.now) }
{
    let mut so_far = LinesSoFar::new(alloc, scenario, quiet)?;
    match so_far.read_all(alloc, scenario, names, line, lines) {
        Ok(()) => Ok(so_far.observed()),
        Err(fault) => {
            drop(so_far);
            Err(fault)
        }
    }
}

impl LinesSoFar {
    /// Reads lines, of which the first has the number `line`.
    #[tactic(auto, using(crate::proofs::Told::line_ends, crate::proofs::Told::line_goes_on, crate::proofs::Walks::cut_length))]
    fn read_all(
        &mut self,
        alloc: Global,
        scenario: &Scenario,
        names: &Names<'_>,
        line: u64,
        lines: &[u8],
    ) -> Result<(), ObserveFault>
        requires names { names.now ≡ names_of scenario.now.setup }
        requires sized { IsSized scenario.now.setup self.old }
        requires line { line + length lines.now < 2 ^ 64 }
        ensures read { OnOk result (lines_observed scenario.now.setup self.old line (cut_by 10 lines.now) ≡ Ok self.new.seen) }
        ensures refused { (at rule : ℕ) → result ≡ Err (fault.Rule at rule) → lines_observed scenario.now.setup self.old line (cut_by 10 lines.now) ≡ Err (record { line = at; rule = rule }) }
        ensures sized { OnOk result (IsSized scenario.now.setup self.new) }
        ensures few { OnOk result (entries_in self.new.seen.topics ≤ entries_in self.old.seen.topics + length lines.now) }
    {
        let mut rest = lines;
        let mut number = line;
        while let Some((line, behind)) = cut_at(rest, b'\n') {
            if let Some(rule) = self.read(alloc, scenario, names, line)? {
                return Err(ObserveFault::Rule { line: number, rule });
            }
            rest = behind;
            number += 1;
        }
        if rest.is_empty() {
            Ok(())
        } else {
            Err(ObserveFault::Rule {
                line: number,
                rule: 1,
            })
        }
    }

    /// Reads a line: the lowest rule that it breaks, else what it tells is taken.
    #[tactic(auto, using(crate::proofs::Counts::taken_count, crate::proofs::Numbers::line_numbers, crate::proofs::Sizes::taken_sized))]
    fn read(
        &mut self,
        alloc: Global,
        scenario: &Scenario,
        names: &Names<'_>,
        line: &[u8],
    ) -> Result<Option<u32>, Memory>
        requires names { names.now ≡ names_of scenario.now.setup }
        requires sized { IsSized scenario.now.setup self.old }
        ensures refused { IfOk result (λ rule. rule ≡ refused scenario.now.setup self.old (line_said (names_of scenario.now.setup) line.now)) }
        ensures taken { IfOk result (λ rule. rule ≡ None → self.new ≡ taken scenario.now.setup self.old (line_said (names_of scenario.now.setup) line.now)) }
        ensures sized { IfOk result (λ rule. rule ≡ None → IsSized scenario.now.setup self.new) }
        ensures few { IfOk result (λ rule. rule ≡ None → entries_in self.new.seen.topics ≤ entries_in self.old.seen.topics + 1) }
    {
        let Some(line) = line_of(alloc, names, line)? else {
            return Ok(Some(1));
        };
        match self.line_refused(alloc, scenario, &line) {
            None => {
                self.take(alloc, scenario, line)?;
                Ok(None)
            }
            Some(rule) => {
                drop(line);
                Ok(Some(rule))
            }
        }
    }
}
