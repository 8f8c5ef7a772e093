//! The text of a run's steps in the making.
ghost use Rattle.std.specs.Prelude.{◌≡◌, ◌++◌, ◌∷◌, [], false, OnErr, OnOk};
ghost use Rattle.step_laws.specs.Steps.{step_head};
ghost use Rattle.step_lines.specs.Telling.{Rises, idle_words, tells_begin, tells_event, tells_head};
ghost use Rattle.step_lines.specs.Texts.{telling_of};

use crate::heads::{Indent, add_done_step, add_idle_step};
use geo_base::{Blob, Event, Memory, Step};
use report_lines::add_number;
use script_rows::Names;
use script_text::SaidLines;
use std::alloc::Global;

/// The lines so far, how many steps they tell, the lines of the steps that are left in their text, and the names of a step's words.
#[derive(Drop)]
pub struct Telling<'a> {
    pub(crate) text: Blob,
    pub(crate) number: u64,
    pub(crate) said: SaidLines<'a>,
    pub(crate) names: Names<'a>,
}

impl<'a> Telling<'a> {
    /// Appends the head of the next step, which was idle or was not.
    pub(crate) fn add_step(&mut self, idle: bool) -> Result<(), Memory>
        requires { Rises self.old.number self.old.said }
        ensures told { OnOk result (telling_of self.new ≡ tells_head (telling_of self.old) idle) }
        ensures rises { Rises self.new.number self.new.said }
        ensures names { self.new.names ≡ self.old.names }
    {
        match self.said.next_said() {
            Some(said) => {
                self.number += 1;
                add_head(&mut self.text, self.number, said.line(), said.bytes(), idle)
            }
            None => add_head(&mut self.text, self.number, 0, b"", idle),
        }
    }

    /// Appends the head of an event that was done: of a step, or of an event of settling by its number among such events.
    pub(crate) fn begin(
        &mut self,
        alloc: Global,
        indent: Indent,
        number: u64,
        event: &Event,
    ) -> Result<(), Memory>
        requires { Rises self.old.number self.old.said }
        ensures told { OnOk result (telling_of self.new ≡ tells_begin indent self.old.names number event.now (telling_of self.old)) }
        ensures rises { Rises self.new.number self.new.said }
        ensures names { self.new.names ≡ self.old.names }
    {
        match indent {
            Indent::Step => self.add_step(false),
            Indent::Event => self.add_event(alloc, number, event),
        }
    }

    /// Appends the head of an event of settling that was done, by its number among such events.
    pub(crate) fn add_event(
        &mut self,
        alloc: Global,
        number: u64,
        event: &Event,
    ) -> Result<(), Memory>
        ensures told { OnOk result (telling_of self.new ≡ tells_event self.old.names number event.now (telling_of self.old)) }
        ensures number { self.new.number ≡ self.old.number }
        ensures said { self.new.said ≡ self.old.said }
        ensures names { self.new.names ≡ self.old.names }
    {
        self.text.append(b"  event ")?;
        add_number(&mut self.text, number)?;
        self.text.append(b" ")?;
        self.names
            .write_step(alloc, &mut self.text, &Step::Plain(*event))?;
        self.text.append(b"\n")
    }
}

/// Appends the head of a step.
fn add_head(
    lines: &mut Blob,
    number: u64,
    line: u64,
    bytes: &[u8],
    idle: bool,
) -> Result<(), Memory>
    ensures { OnOk result (lines.new ≡ lines.old ++ (step_head number (record { line = line; bytes = bytes.now }) (idle_words idle) ++ 10 ∷ [])) }
{
    if idle {
        add_idle_step(lines, number, line, bytes)
    } else {
        add_done_step(lines, number, line, bytes)
    }
}
