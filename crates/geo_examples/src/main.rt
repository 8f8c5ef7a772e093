//! Does many runs in one. The input has each script after a line `== NAME`; the output has that line again, and after it what the
//! program writes for the script: its report, or the line that refuses it. Lines before the first `== NAME` are left out.
//!
//! After `== compact HORIZON NAME` the compacted views of the script's run are shown, and after `== tiered KEEP NAME` its entries, read
//! back from ledgers that moved; after `== save NAME` the script's run is saved, and the state file shown in hexadecimal; after
//! `== resume NAME` an input of `resume` stands in hexadecimal, of which the report or the refusal is shown, and after `== cuts NAME`
//! one of which each beginning is answered; after `== stop NAME` a script is saved where its first `stop` line stands, and the run goes
//! on from that file with the lines after it. After `== ask NAME WORD..` an input of the command of these words stands in hexadecimal,
//! and the number of its status is shown with what it writes; where a `stop` line parts it, it is the state of the script before that
//! line, and the bytes after it.
//!
//! After `== vectors NAME` vectors of the codecs stand, after `== packets NAME` packets of one link, and after `== back NAME` a script
//! that is written as it was read: what `byte_answers` says of them.
//!
//! The input is made of the repository's examples, runs, answers and bytes by `geo_tools examples`, and what is expected of their reports.
#![tactic(auto)]

mod section;

use anyhow::Result;
use section::{HEADING, Section};
use std::alloc::Global;
use std::io::{self, BufRead, BufReader, BufWriter, Write};

fn main(rt: HostRuntime) -> Result<()> {
    run(&rt)
}

fn run<R: Input + Print + AllocGlobal>(rt: &R) -> Result<()> {
    let alloc = rt.alloc();
    let mut out = BufWriter::new(alloc, io::writer(rt))?;
    let mut sections = Sections { current: None };
    for line in BufReader::new(alloc, rt.reader())?.split(alloc, b'\n') {
        let text = sections.next(alloc, line?.as_slice())?;
        out.write_all(text.as_slice())?;
    }
    let text = sections.answer(alloc)?;
    out.write_all(text.as_slice())?;
    out.flush()?;
    Ok(())
}

/// The section whose lines are read, if one has begun.
#[derive(Drop)]
struct Sections {
    current: Option<Section>,
}

impl Sections {
    /// What is written when a line was read: after the last line of a section its answer, and then the line that names the next.
    fn next(&mut self, alloc: Global, line: &[u8]) -> Result<Vec<u8>> {
        if line.starts_with(HEADING) {
            let mut text = self.answer(alloc)?;
            text.extend_from_slice(line)?;
            text.push(b'\n')?;
            self.current = Some(Section::new(alloc, line)?);
            return Ok(text);
        }
        if let Some(section) = &mut self.current {
            section.add(alloc, line)?;
        }
        Ok(Vec::new(alloc))
    }

    /// What is written for the section that was read; nothing before the first one.
    fn answer(&self, alloc: Global) -> Result<Vec<u8>> {
        match &self.current {
            Some(section) => section.answer(alloc),
            None => Ok(Vec::new(alloc)),
        }
    }
}
