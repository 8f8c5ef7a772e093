//! The reader of a script.
ghost use Rattle.std.specs.Prelude.{◌≡◌, ℕ, ◌+◌, ◌<◌, ◌≤◌, ◌^◌, ◌⊎◌, length, All, Err, Ok, IfOk, IfSome, OnOk};
ghost use Rattle.geo_base.specs.Scripted.{IsScripted};
ghost use Rattle.script_text.specs.Drafts.{Answers, Finishes, Goes, IsDeclared, StartsWithStep, Takes, no_draft, so_far};
ghost use Rattle.script_text.specs.Kept.{IsKept};
ghost use Rattle.script_text.specs.Naming.{names_of};
ghost use Rattle.script_text.specs.Recent.{IsNothing};
ghost use Rattle.script_text.specs.Rules.{at_line, completed, script_from, script_of, script_with};
ghost use Rattle.script_text.specs.Scenario.{IsChance, IsClient, IsScenario, IsStep};
ghost use Rattle.script_text.specs.Script.{Script, no_line, no_steps};
ghost use Rattle.script_text.specs.Script as scripts;

use crate::declarations::Declarations;
use crate::draft::Draft;
use crate::fault::ScriptFault;
use crate::lines::Lines;
use crate::recent::Recent;
use crate::scenario::Scenario;
use crate::steps::Steps;
use geo_base::Memory;
use script_rows::{LineFault, Names, Rule, Stage};
use std::alloc::Global;

/// Reads a script of fewer than 2^32 bytes.
///
/// `ScriptFault::Rule` comes exactly for a script with an offending line, and names the first one and the lowest rule
/// that it breaks. `ScriptFault::Memory` may come at any script.
pub fn read_script(alloc: Global, bytes: &[u8]) -> Result<Scenario, ScriptFault>
    requires { length bytes.now < 2 ^ 32 }

    // What is answered is what the script says.
    ensures ok { IfOk result (λ scenario. script_of bytes.now ≡ Ok scenario) }
    ensures rule { (line rule : ℕ) → result ≡ Err (ScriptFault.Rule line rule)
        → script_of bytes.now ≡ Err (record { line = line; rule = rule }) }
    ensures known { IfOk result IsScenario }

    // What the script says is answered, unless memory is wanting.
    ensures accepts { (script : Script) → script_of bytes.now ≡ Ok script
        → (result ≡ Ok script) ⊎ (result ≡ Err ScriptFault.Memory) }
    ensures refuses { (line rule : ℕ) → script_of bytes.now ≡ Err (record { line = line; rule = rule })
        → (result ≡ Err (ScriptFault.Rule line rule)) ⊎ (result ≡ Err ScriptFault.Memory) }
{
    read(alloc, bytes)
}

/// The same, said at once.
#[tactic(auto, using(crate::proofs::LineCounts::length_lines_of))]
fn read(alloc: Global, bytes: &[u8]) -> Result<Scenario, ScriptFault>
    requires { length bytes.now < 2 ^ 32 }
    ensures answers { Answers result (script_of bytes.now) }
    ensures known { IfOk result IsScenario }
{
    let mut lines = Lines::new(bytes);
    read_lines(alloc, &mut lines)
}

/// The script of all lines.
fn read_lines(alloc: Global, lines: &mut Lines<'_>) -> Result<Scenario, ScriptFault>
    requires { length lines.old < 2 ^ 32 }
    ensures answers { Answers result (script_from 1 no_line lines.old) }
    ensures known { IfOk result IsScenario }
{
    let mut draft = Draft::new(alloc);
    let scenario = read_into(alloc, &mut draft, lines);
    // by a call, so that the end of a draft is proved by itself
    drop(draft);
    scenario
}

/// The script of all lines, by a draft that is empty before the first.
#[tactic(auto, using(crate::proofs::Answered::part_refused))]
fn read_into<'a>(
    alloc: Global,
    draft: &mut Draft<'a>,
    lines: &mut Lines<'a>,
) -> Result<Scenario, ScriptFault>
    requires fresh { draft.old ≡ no_draft }
    requires few { length lines.old < 2 ^ 32 }
    ensures answers { Answers result (script_from 1 no_line lines.old) }
    ensures known { IfOk result IsScenario }
{
    match draft.read_declarations(alloc, lines) {
        Ok(number) => read_after(alloc, draft, lines, number),
        Err(fault) => Err(fault),
    }
}

/// The script of a draft and of the lines that are left, of which the first has a number.
#[tactic(auto, using(crate::proofs::Answered::unfinished))]
fn read_after(
    alloc: Global,
    draft: &mut Draft<'_>,
    lines: &Lines<'_>,
    number: u64,
) -> Result<Scenario, ScriptFault>
    requires kept { IsKept number draft.old.declared }
    requires starts { StartsWithStep lines.now }
    requires few { number + length lines.now ≤ 2 ^ 32 }
    ensures answers { Answers result (script_from number (so_far draft.old.declared) lines.now) }
    ensures known { IfOk result IsScenario }
{
    match finished(alloc, draft, number) {
        Ok(declared) => declared.read_rest(alloc, lines.copied(), number),
        Err(fault) => Err(fault),
    }
}

/// What the lines before line `number` declare.
#[tactic(auto, using(crate::proofs::Accepted::kept_declared, crate::proofs::Accepted::kept_clients))]
fn finished(alloc: Global, draft: &mut Draft<'_>, number: u64) -> Result<Declarations, ScriptFault>
    requires kept { IsKept number draft.old.declared }
    requires few { number ≤ 2 ^ 32 }
    ensures declared { Finishes result draft.old.declared }
    ensures clients { IfOk result (λ d. All IsClient d.setup.clients) }
    ensures chance { IfOk result (λ d. IfSome d.chance IsChance) }
{
    match draft.finish(alloc) {
        Ok(declared) => Ok(declared),
        Err(Memory) => Err(ScriptFault::Memory),
    }
}

impl<'a> Draft<'a> {
    /// Takes in the lines before the first that schedules a step, and answers that line's number.
    fn read_declarations(
        &mut self,
        alloc: Global,
        lines: &mut Lines<'a>,
    ) -> Result<u64, ScriptFault>
        requires fresh { self.old ≡ no_draft }
        requires few { length lines.old < 2 ^ 32 }
        ensures goes { Goes result (script_from 1 no_line lines.old)
            (λ number. script_from number (so_far self.new.declared) lines.new) }
        ensures count { IfOk result (λ number. number + length lines.new ≤ length lines.old + 1) }
        ensures kept { IfOk result (λ number. IsKept number self.new.declared) }
        ensures starts { OnOk result (StartsWithStep lines.new) }
    {
        let mut number = 1;
        while let Some(line) = lines.next_declaration() {
            match self.read_line(alloc, &line) {
                Ok(()) => number += 1,
                Err(LineFault::Broken(rule)) => {
                    return Err(ScriptFault::Rule {
                        line: number,
                        rule: rule.number(),
                    });
                }
                Err(LineFault::Memory) => return Err(ScriptFault::Memory),
            }
        }
        Ok(number)
    }
}

impl Declarations {
    /// The script of what is declared and of the lines that are left, of which the first has a number.
    #[tactic(auto, using(crate::proofs::Answered::not_taken))]
    fn read_rest(self, alloc: Global, lines: Lines<'_>, first: u64) -> Result<Scenario, ScriptFault>
        requires clients { All IsClient self.setup.clients }
        requires chance { IfSome self.chance IsChance }
        requires starts { StartsWithStep lines }
        requires few { first + length lines ≤ 2 ^ 32 }
        ensures answers { Answers result (script_from first (so_far self) lines.entry) }
        ensures known { IfOk result IsScenario }
    {
        let mut steps = Steps::new(alloc);
        match self.read_all(alloc, &mut steps, lines, first) {
            Ok(()) => Ok(Scenario::new(self, steps)),
            Err(fault) => {
                drop(steps);
                drop(self);
                Err(fault)
            }
        }
    }

    /// Takes in the steps that lines schedule, of which the first has a number, and looks whether all makes a script.
    fn read_all(
        &self,
        alloc: Global,
        steps: &mut Steps,
        lines: Lines<'_>,
        first: u64,
    ) -> Result<(), ScriptFault>
        requires clients { All IsClient self.now.setup.clients }
        requires chance { IfSome self.now.chance IsChance }
        requires fresh { steps.old ≡ no_steps }
        requires starts { StartsWithStep lines }
        requires few { first + length lines ≤ 2 ^ 32 }
        ensures takes { Takes result (script_with (record { declared = self.now; steps = steps.new }))
            (script_from first (so_far self.now) lines.entry) }
        ensures known { OnOk result (IsScenario (script_with (record { declared = self.now; steps = steps.new }))) }
    {
        let end = self.read_steps(alloc, steps, lines, first)?;
        self.complete(end)
    }

    /// Whether what is declared makes a script with whatever steps; `number` is that of the line after the last.
    #[tactic(auto, using(crate::proofs::Accepted::scripted))]
    fn complete(&self, number: u64) -> Result<(), ScriptFault>
        ensures takes { (steps : scripts.Steps) → Takes result (script_with (record { declared = self.now; steps = steps }))
            (at_line number (completed (record { declared = self.now; steps = steps })) Ok) }
        ensures known { OnOk result (IsScripted self.now.setup) }
    {
        if !self.progress().begun {
            return Err(ScriptFault::Rule {
                line: number,
                rule: Rule::Head.number(),
            });
        }
        if self.setup().topics().len() == 0 {
            return Err(ScriptFault::Rule {
                line: number,
                rule: Rule::Lone.number(),
            });
        }
        Ok(())
    }

    /// Takes in the steps that lines schedule, of which the first has a number, and answers that of the line after the last.
    fn read_steps(
        &self,
        alloc: Global,
        steps: &mut Steps,
        lines: Lines<'_>,
        first: u64,
    ) -> Result<u64, ScriptFault>
        requires fresh { steps.old ≡ no_steps }
        requires starts { StartsWithStep lines }
        requires few { first + length lines ≤ 2 ^ 32 }
        ensures goes { Goes result (script_from first (so_far self.now) lines.entry)
            (λ number. at_line number (completed (record { declared = self.now; steps = steps.new })) Ok) }
        ensures known { OnOk result (All (IsStep self.now.setup) steps.new.list) }
    {
        match self.names(alloc) {
            Ok(names) => {
                let end = self.read_by(alloc, &names, steps, lines, first);
                // by a call, so that the end of names is proved once
                drop(names);
                end
            }
            Err(Memory) => Err(ScriptFault::Memory),
        }
    }

    /// The same by the names that are declared.
    fn read_by(
        &self,
        alloc: Global,
        names: &Names<'_>,
        steps: &mut Steps,
        lines: Lines<'_>,
        first: u64,
    ) -> Result<u64, ScriptFault>
        requires names { names.now ≡ names_of self.now.setup }
        requires declared { IsDeclared self.now.setup }
        requires fresh { steps.old ≡ no_steps }
        requires starts { StartsWithStep lines }
        requires few { first + length lines ≤ 2 ^ 32 }
        ensures goes { Goes result (script_from first (so_far self.now) lines.entry)
            (λ number. at_line number (completed (record { declared = self.now; steps = steps.new })) Ok) }
        ensures known { OnOk result (All (IsStep self.now.setup) steps.new.list) }
    {
        match Recent::new(alloc) {
            Ok(mut recent) => self.read_noting(names, steps, lines, first, &mut recent),
            Err(Memory) => Err(ScriptFault::Memory),
        }
    }

    /// The same; each line that schedules a step is noted among the recent ones, where none stands yet.
    fn read_noting<'a>(
        &self,
        names: &Names<'_>,
        steps: &mut Steps,
        lines: Lines<'a>,
        first: u64,
        recent: &mut Recent<'a>,
    ) -> Result<u64, ScriptFault>
        requires names { names.now ≡ names_of self.now.setup }
        requires declared { IsDeclared self.now.setup }
        requires fresh { steps.old ≡ no_steps }
        requires starts { StartsWithStep lines }
        requires few { first + length lines ≤ 2 ^ 32 }
        requires recent { All IsNothing recent.old }
        ensures goes { Goes result (script_from first (so_far self.now) lines.entry)
            (λ number. at_line number (completed (record { declared = self.now; steps = steps.new })) Ok) }
        ensures known { OnOk result (All (IsStep self.now.setup) steps.new.list) }
    {
        let mut lines = lines;
        let mut progress = self.progress();
        let mut number = first;
        while let Some(line) = lines.next_line() {
            match steps.read_next(progress, names, number, line, recent) {
                Ok(()) => {}
                Err(LineFault::Broken(rule)) => {
                    return Err(ScriptFault::Rule {
                        line: number,
                        rule: rule.number(),
                    });
                }
                Err(LineFault::Memory) => return Err(ScriptFault::Memory),
            }
            progress.last = Stage::Event;
            number += 1;
        }
        Ok(number)
    }
}
