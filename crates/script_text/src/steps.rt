//! The steps that lines schedule.
ghost use Rattle.std.specs.Prelude.{◌≡◌, true, [], All, None, Some, IfErr, OnOk};
ghost use Rattle.script_rows.specs.declared.fault.LineFault.TheVariants as LineFault;
ghost use Rattle.script_rows.specs.declared.progress.Stage.TheVariants as stage;
ghost use Rattle.script_rows.specs.Reading.{values_in};
ghost use Rattle.script_text.specs.Adding.{first_of, with_step};
ghost use Rattle.script_text.specs.Drafts.{Judges, heads_step, says_step};
ghost use Rattle.script_text.specs.Recent.{Means, Schedules, among_events};
ghost use Rattle.script_text.specs.Rules.{lowest, said_by};
ghost use Rattle.script_text.specs.Schedule.{scheduled};
ghost use Rattle.script_text.specs.Script.{no_steps};

use crate::form::Short;
use crate::lines::TextLine;
use crate::recent::Recent;
use crate::step_list::StepList;
use geo_base::{Memory, Step};
use script_rows::{Heading, LineFault, Names, Progress, Row, Rule, Stage, heading_of};
use std::alloc::Global;
use std::marker::Model;

/// Steps in the order of their lines, and the number of the first one's line.
#[derive(Drop)]
pub(crate) struct Steps {
    first: Option<u64>,
    list: StepList,
}

impl Model for Steps {
    ghost use Rattle.script_text.specs.Script.{Steps};

    ghost Value = { Steps };

    ghost view = { λ s. record { first = s.first; list = s.list } };
}

impl Steps {
    /// No step; takes no memory.
    pub(crate) fn new(alloc: Global) -> Steps
        ensures { result ≡ no_steps }
    {
        Steps {
            first: None,
            list: StepList::new(alloc),
        }
    }

    /// Steps that no line scheduled; takes no memory.
    pub(crate) fn of_list(list: StepList) -> Steps
        ensures { result ≡ record { first = None; list = list } }
    {
        Steps { first: None, list }
    }

    /// The number of the first one's line.
    pub(crate) fn first(&self) -> Option<u64>
        ensures { result ≡ self.now.first }
    {
        self.first
    }

    /// The steps.
    pub(crate) fn list(&self) -> &StepList
        ensures { result.now ≡ self.now.list }
    {
        &self.list
    }

    /// The steps alone.
    pub(crate) fn into_list(self) -> StepList
        ensures { result ≡ self.list }
    {
        self.list
    }

    /// Takes the step of a line in, unless the line breaks a rule.
    pub(crate) fn read_line(
        &mut self,
        progress: Progress,
        names: &Names<'_>,
        number: u64,
        line: &TextLine<'_>,
    ) -> Result<(), LineFault>
        ensures { Judges result self.new (scheduled number progress names.now self.old line.now) }
    {
        match step_of(progress, names, line) {
            Err(rule) => Err(LineFault::Broken(rule)),
            Ok(step) => self.take(number, step),
        }
    }

    /// The same, where lines that schedule steps among events were noted. The line is moved on, so that it stands in memory only
    /// where it is read.
    pub(crate) fn read_next<'a>(
        &mut self,
        progress: Progress,
        names: &Names<'_>,
        number: u64,
        line: TextLine<'a>,
        recent: &mut Recent<'a>,
    ) -> Result<(), LineFault>
        requires recent { All (Means (among_events progress) names.now) recent.old }
        ensures judges { Judges result self.new (scheduled number progress names.now self.old line.entry) }
        ensures recent { All (Means (among_events progress) names.now) recent.new }
    {
        if progress.last == Stage::Event && line.is_ended() {
            self.read_again(progress, names, number, line, recent)
        } else {
            self.read_unnoted(progress, names, number, line)
        }
    }

    /// The same of a line among events that ends.
    #[tactic(auto, using(crate::proofs::RecentLines::noted_schedules))]
    fn read_again<'a>(
        &mut self,
        progress: Progress,
        names: &Names<'_>,
        number: u64,
        line: TextLine<'a>,
        recent: &mut Recent<'a>,
    ) -> Result<(), LineFault>
        requires late { progress.last ≡ stage.Event }
        requires ended { line.ended ≡ true }
        requires recent { All (Means (among_events progress) names.now) recent.old }
        ensures judges { Judges result self.new (scheduled number progress names.now self.old line.entry) }
        ensures recent { All (Means (among_events progress) names.now) recent.new }
    {
        match recent.find(line.bytes()) {
            Some(step) => self.take_short(number, step),
            None => self.read_and_note(progress, names, number, line, recent),
        }
    }

    /// The same of a line that is not noted.
    fn read_unnoted(
        &mut self,
        progress: Progress,
        names: &Names<'_>,
        number: u64,
        line: TextLine<'_>,
    ) -> Result<(), LineFault>
        ensures { Judges result self.new (scheduled number progress names.now self.old line.entry) }
    {
        self.read_line(progress, names, number, &line)
    }

    /// The same of a line that was not noted, and is now if it schedules a step.
    fn read_and_note<'a>(
        &mut self,
        progress: Progress,
        names: &Names<'_>,
        number: u64,
        line: TextLine<'a>,
        recent: &mut Recent<'a>,
    ) -> Result<(), LineFault>
        requires late { progress.last ≡ stage.Event }
        requires ended { line.ended ≡ true }
        requires recent { All (Means (among_events progress) names.now) recent.old }
        ensures judges { Judges result self.new (scheduled number progress names.now self.old line.entry) }
        ensures recent { All (Means (among_events progress) names.now) recent.new }
    {
        match step_noted(progress, names, &line, recent) {
            Err(rule) => Err(LineFault::Broken(rule)),
            Ok(step) => self.take(number, step),
        }
    }

    /// The step of a line, where it schedules one.
    fn take(&mut self, number: u64, step: Option<Step>) -> Result<(), LineFault>
        ensures ok { OnOk result (self.new ≡ with_step number self.old step) }
        ensures err { IfErr result (λ why. why ≡ LineFault.Memory) }
    {
        if let Some(step) = step {
            self.push(number, step)?;
        }
        Ok(())
    }

    /// One more step.
    fn push(&mut self, number: u64, step: Step) -> Result<(), Memory>
        ensures { OnOk result (self.new ≡ with_step number self.old (Some step)) }
    {
        self.list.push(step)?;
        self.note_first(number);
        Ok(())
    }

    /// The step of a line that was noted.
    fn take_short(&mut self, number: u64, step: &Short) -> Result<(), LineFault>
        ensures ok { OnOk result (self.new ≡ with_step number self.old (Some step.now)) }
        ensures err { IfErr result (λ why. why ≡ LineFault.Memory) }
    {
        self.list.push_short(step)?;
        self.note_first(number);
        Ok(())
    }

    /// A line scheduled a step: it is the first one's where none did before.
    fn note_first(&mut self, number: u64)
        ensures { self.new ≡ record self.old { first = first_of self.old.first number } }
    {
        if self.first.is_none() {
            self.first = Some(number);
        }
    }
}

/// The step that a line schedules, if it schedules one, or the lowest rule that it breaks.
fn step_of(progress: Progress, names: &Names<'_>, line: &TextLine<'_>) -> Result<Option<Step>, Rule>
    ensures { Schedules progress names.now line.now result }
{
    if line.is_skipped() {
        return Ok(None);
    }
    let heading = heading_of(line.bytes());
    let mut row = Row::empty();
    if let Some(rule) = read_row(progress, names, line, &heading, &mut row) {
        return Err(rule);
    }
    Ok(heading.step(row.as_slice()))
}

/// The same among events of a line that ends. What it schedules is noted.
#[tactic(auto, using(crate::proofs::RecentLines::note_means))]
fn step_noted<'a>(
    progress: Progress,
    names: &Names<'_>,
    line: &TextLine<'a>,
    recent: &mut Recent<'a>,
) -> Result<Option<Step>, Rule>
    requires late { progress.last ≡ stage.Event }
    requires ended { line.now.ended ≡ true }
    requires recent { All (Means (among_events progress) names.now) recent.old }
    ensures schedules { Schedules progress names.now line.now result }
    ensures recent { All (Means (among_events progress) names.now) recent.new }
{
    let step = step_of(progress, names, line)?;
    if let Some(step) = step {
        recent.note(line.bytes(), &step);
    }
    Ok(step)
}

/// The lowest rule that a line breaks. Where it breaks none, what its words say stands in the row.
#[tactic(auto, using(crate::proofs::Lowest::not_plain, crate::proofs::Lowest::no_head, crate::proofs::Lowest::words_begun, crate::proofs::Lowest::words_head))]
pub(crate) fn read_row<'a>(
    progress: Progress,
    names: &Names<'_>,
    line: &TextLine<'_>,
    heading: &Heading<'a>,
    row: &mut Row<'a>,
) -> Option<Rule>
    requires said { heading.now ≡ said_by line.now }
    requires empty { row.old ≡ [] }
    ensures lowest { result ≡ lowest progress names.now line.now }
    ensures values { result ≡ None → values_in names.now heading.now ≡ Some row.new }
{
    if !line.is_plain() {
        return Some(Rule::Bytes);
    }
    if progress.begun {
        return names.read(progress, heading, row);
    }
    if line.bytes() == b"geo 1".as_slice() {
        return names.read(progress, heading, row);
    }
    Some(Rule::Head)
}

/// Whether a line schedules a step.
pub(crate) fn says_step(line: &TextLine<'_>) -> bool
    ensures { result ≡ says_step line.now }
{
    !line.is_skipped() && heads_step(&heading_of(line.bytes()))
}

fn heads_step(heading: &Heading<'_>) -> bool
    ensures { result ≡ heads_step heading.now }
{
    match heading {
        Heading::Headed(kind, _) => kind.schedules(),
        Heading::Unknown | Heading::Formless => false,
    }
}
