//! A section of the input, and what is written for it.
use anyhow::Result;
use byte_answers::{Lines, answer_lines};
use geo_base::{Blob, Memory};
use geo_io::{MemSink, MemSource};
use geo_top::{Answer, Status, Word, answer, geo_alone};
use std::alloc::Global;

/// What the line begins with that names a section.
pub const HEADING: &[u8] = b"== ";

/// Bytes that a source or a sink moves in a call: several calls for each script and each report.
const PIECE: usize = 100;

/// Digits in a line of hexadecimal.
const DIGITS: usize = 64;

/// What is asked of a section.
#[derive(Clone, Copy, Debug, Drop, PartialEq, Eq)]
enum Task {
    /// A script is run.
    Run,
    /// The compacted views of a script's run are shown.
    Compact,
    /// The entries of a script's run are shown, read back from ledgers that moved.
    Tiered,
    /// A script's run is saved.
    Save,
    /// A run goes on from bytes in hexadecimal.
    Resume,
    /// A script is saved at its first `stop` line, and goes on with the lines after it.
    Stop,
    /// A run is to go on from bytes in hexadecimal, of which the last ones are cut off.
    Cuts,
    /// Vectors of the codecs are answered.
    Vectors,
    /// Packets of one link are answered.
    Packets,
    /// A script is written as it was read.
    Back,
    /// A command is asked, by both calls, for an input in hexadecimal; one with a `stop` line begins with the state of the script before
    /// that line.
    Ask,
}

impl Task {
    /// The task of a line that names a section.
    fn of(heading: &[u8]) -> Task {
        if heading.starts_with(b"== compact ") {
            Task::Compact
        } else if heading.starts_with(b"== tiered ") {
            Task::Tiered
        } else if heading.starts_with(b"== save ") {
            Task::Save
        } else if heading.starts_with(b"== resume ") {
            Task::Resume
        } else if heading.starts_with(b"== stop ") {
            Task::Stop
        } else if heading.starts_with(b"== cuts ") {
            Task::Cuts
        } else if heading.starts_with(b"== vectors ") {
            Task::Vectors
        } else if heading.starts_with(b"== packets ") {
            Task::Packets
        } else if heading.starts_with(b"== back ") {
            Task::Back
        } else if heading.starts_with(b"== ask ") {
            Task::Ask
        } else {
            Task::Run
        }
    }

    /// Whether a `stop` line parts the lines.
    fn has_parts(self) -> bool {
        self == Task::Stop || self == Task::Ask
    }

    /// Whether the lines are hexadecimal.
    fn is_in_hex(self) -> bool {
        self == Task::Resume || self == Task::Cuts || self == Task::Ask
    }

    /// Adds a line to lines: digits of hexadecimal without a line feed.
    fn add(self, lines: &mut Vec<u8>, line: &[u8]) -> Result<()> {
        if self.is_in_hex() {
            Ok(lines.extend_from_slice(line)?)
        } else {
            add_line(lines, line)
        }
    }
}

/// A task with the line that names it and its lines so far; those after the `stop` line that parts them stand apart.
#[derive(Drop)]
pub struct Section {
    task: Task,
    heading: Vec<u8>,
    first: Vec<u8>,
    behind: Option<Vec<u8>>,
}

impl Section {
    /// The section that a line names.
    pub fn new(alloc: Global, heading: &[u8]) -> Result<Section> {
        Ok(Section {
            task: Task::of(heading),
            heading: heading.to_vec(alloc)?,
            first: Vec::new(alloc),
            behind: None,
        })
    }

    /// Adds a line.
    pub fn add(&mut self, alloc: Global, line: &[u8]) -> Result<()> {
        let task = self.task;
        match &mut self.behind {
            Some(behind) => task.add(behind, line),
            None if task.has_parts() && line == b"stop".as_slice() => {
                self.behind = Some(Vec::new(alloc));
                Ok(())
            }
            None => task.add(&mut self.first, line),
        }
    }

    /// What is written for it.
    pub fn answer(&self, alloc: Global) -> Result<Vec<u8>> {
        match self.task {
            Task::Run => Ok(ask(alloc, &["run"], self.first.as_slice())?.bytes),
            Task::Compact => self.numbered(alloc, "compact"),
            Task::Tiered => self.numbered(alloc, "tiered"),
            Task::Save => self.saved(alloc),
            Task::Resume => {
                let bytes = hex::decode(alloc, self.first.as_slice())?;
                Ok(ask(alloc, &["resume"], bytes.as_slice())?.bytes)
            }
            Task::Stop => self.resumed(alloc),
            Task::Cuts => self.cuts(alloc),
            Task::Vectors => self.lines(alloc, Lines::Vectors),
            Task::Packets => self.lines(alloc, Lines::Packets),
            Task::Back => self.lines(alloc, Lines::Script),
            Task::Ask => self.asked(alloc),
        }
    }

    /// What is answered to its lines.
    fn lines(&self, alloc: Global, kind: Lines) -> Result<Vec<u8>> {
        Ok(answer_lines(alloc, kind, self.first.as_slice())?)
    }

    /// What a command shows of the script's run, with the number that the section's line has after the command's word.
    fn numbered(&self, alloc: Global, word: &str) -> Result<Vec<u8>> {
        let heading = str::from_utf8(self.heading.as_slice())?;
        let number = heading.split_whitespace().nth(2).unwrap_or("");
        Ok(ask(alloc, &[word, number], self.first.as_slice())?.bytes)
    }

    /// The state file in hexadecimal, or the line that refuses the script.
    fn saved(&self, alloc: Global) -> Result<Vec<u8>> {
        let written = ask(alloc, &["save"], self.first.as_slice())?;
        if written.status == Status::Ok {
            in_hex(alloc, written.bytes.as_slice())
        } else {
            Ok(written.bytes)
        }
    }

    /// The report of the run that goes on from the state file.
    fn resumed(&self, alloc: Global) -> Result<Vec<u8>> {
        let mut input = ask(alloc, &["save"], self.first.as_slice())?.bytes;
        if let Some(behind) = &self.behind {
            input.extend_from_slice(behind.as_slice())?;
        }
        Ok(ask(alloc, &["resume"], input.as_slice())?.bytes)
    }

    /// What is answered to the bytes before each of them.
    fn cuts(&self, alloc: Global) -> Result<Vec<u8>> {
        let bytes = hex::decode(alloc, self.first.as_slice())?;
        let mut text = Vec::new(alloc);
        for cut in 0..bytes.len() {
            let written = ask(alloc, &["resume"], &bytes[..cut])?;
            text.extend_from_slice(written.bytes.as_slice())?;
        }
        Ok(text)
    }

    /// How the command ends whose words stand after the section's name, and what it writes; and what is answered over bytes, where that
    /// is something else.
    fn asked(&self, alloc: Global) -> Result<Vec<u8>> {
        let words = self.words(alloc)?;
        let text = self.asked_in_words(alloc, words.as_slice());
        drop(words);
        text
    }

    fn asked_in_words(&self, alloc: Global, words: &[Word]) -> Result<Vec<u8>> {
        let input = self.input(alloc)?;
        let mut text = over_source(alloc, words, input.as_slice())?;
        let other = over_bytes(alloc, words, input.as_slice())?;
        if text.as_slice() != other.as_slice() {
            text.extend_from_slice(b"over bytes ")?;
            text.extend_from_slice(other.as_slice())?;
        }
        Ok(text)
    }

    /// The words after the section's name.
    fn words(&self, alloc: Global) -> Result<Vec<Word>> {
        let heading = str::from_utf8(self.heading.as_slice())?;
        let mut words = Vec::new(alloc);
        for word in heading.split_whitespace().skip(3) {
            words.push(Word::from_str(alloc, word)?)?;
        }
        Ok(words)
    }

    /// The bytes of its lines: where a `stop` line parts them, the state file of the script before it, and the bytes after it.
    fn input(&self, alloc: Global) -> Result<Vec<u8>> {
        let first = hex::decode(alloc, self.first.as_slice())?;
        let Some(behind) = &self.behind else {
            return Ok(first);
        };
        let mut input = ask(alloc, &["save"], first.as_slice())?.bytes;
        let bytes = hex::decode(alloc, behind.as_slice())?;
        input.extend_from_slice(bytes.as_slice())?;
        Ok(input)
    }
}

/// How a command ended, and what it wrote.
#[derive(Drop)]
struct Written {
    status: Status,
    bytes: Vec<u8>,
}

/// What a command writes for an input.
fn ask(alloc: Global, command: &[&str], input: &[u8]) -> Result<Written> {
    let mut words = Vec::new(alloc);
    for word in command {
        words.push(Word::from_str(alloc, word)?)?;
    }
    let written = ask_in_words(alloc, words.as_slice(), input);
    drop(words);
    written
}

fn ask_in_words(alloc: Global, words: &[Word], input: &[u8]) -> Result<Written> {
    let mut source = MemSource::new(alloc, input, PIECE, &[])?;
    let mut sink = MemSink::new(alloc, PIECE, &[])?;
    let status = end_of(alloc, words, &mut source, &mut sink);
    drop(source);
    let bytes = sink.bytes().to_vec(alloc);
    drop(sink);
    if status == Status::OutOfMemory {
        anyhow::bail!("out of memory");
    }
    Ok(Written {
        status,
        bytes: bytes?,
    })
}

/// How the program ends: a function of its own, since what the call promises is long, and whoever holds it is slow to prove.
fn end_of(alloc: Global, words: &[Word], source: &mut MemSource, sink: &mut MemSink) -> Status {
    geo_alone(alloc, words, source, sink)
}

/// How the program ends over a source and a sink, and what it writes.
fn over_source(alloc: Global, words: &[Word], input: &[u8]) -> Result<Vec<u8>> {
    let written = ask_in_words(alloc, words, input)?;
    with_number(alloc, written.status.number(), written.bytes.as_slice())
}

/// What the program answers over bytes.
fn over_bytes(alloc: Global, words: &[Word], input: &[u8]) -> Result<Vec<u8>> {
    let shown = answered(alloc, words, Blob::from_slice(alloc, input)?)?;
    with_number(alloc, shown.status.number(), shown.bytes.as_slice())
}

fn answered(alloc: Global, words: &[Word], input: Blob) -> Result<Answer, Memory> {
    answer(alloc, words, input)
}

/// A line with a status's number, and what comes with it.
fn with_number(alloc: Global, number: u8, bytes: &[u8]) -> Result<Vec<u8>> {
    let line = format!(in alloc; "status {number}\n")?;
    let mut text = line.as_bytes().to_vec(alloc)?;
    text.extend_from_slice(bytes)?;
    Ok(text)
}

/// Bytes in lines of hexadecimal.
fn in_hex(alloc: Global, bytes: &[u8]) -> Result<Vec<u8>> {
    let digits = hex::encode(alloc, bytes)?;
    let mut text = Vec::new(alloc);
    for line in digits.as_bytes().chunks(DIGITS) {
        add_line(&mut text, line)?;
    }
    Ok(text)
}

/// A line, with its line feed.
fn add_line(text: &mut Vec<u8>, line: &[u8]) -> Result<()> {
    text.extend_from_slice(line)?;
    text.push(b'\n')?;
    Ok(())
}
