//! The program's calls, each in a function of its own that owns nothing: what they promise is long, and a function that holds it is slow
//! to prove.
ghost use Rattle.std.specs.Prelude.{◌<◌};

use geo_base::{Blob, Memory};
use geo_io::{MemSink, MemSource};
use geo_top::{Answer, Status, Word, answer, geo_alone};
use std::alloc::Global;
use std::test::Fail;

/// What the program prints for words that are no command.
pub const USAGE: &[u8] =
    b"usage: geo run, live WORKERS TURNS, big NUMBER, save, resume, audit, compact HORIZON, tiered KEEP, trace, steps, steps from, steps big NUMBER, audit whole, lost CLUSTER, lost CLUSTER numbers, lost CLUSTER from, observe\n";

/// The words of a command line.
pub fn words_of(alloc: Global, line: &[&str]) -> Result<Vec<Word>, Fail> {
    let mut words = Vec::new(alloc);
    for word in line {
        words.push(Word::from_str(alloc, word)?)?;
    }
    Ok(words)
}

/// How many bytes a source or a sink moves in a call, one at least, and the call at which it fails, counted from 1; 0 where it never does.
#[derive(Clone, Copy)]
pub struct Pace {
    pub most: usize,
    pub fails: u64,
}

/// More than most tests move.
pub const AT_ONCE: Pace = Pace {
    most: 1_000_000,
    fails: 0,
};

impl Pace {
    fn bytes(self) -> usize
        ensures { 0 < result }
    {
        if self.most > 0 { self.most } else { 1 }
    }
}

/// A command line and its input, and the paces of the source and of the sink.
#[derive(Clone, Copy)]
pub struct Asked<'a> {
    pub line: &'a [&'a str],
    pub input: &'a [u8],
    pub source: Pace,
    pub sink: Pace,
}

/// Whether the program ends by a status with these bytes in the sink, or with bytes that begin so.
pub fn ends_with(
    alloc: Global,
    asked: &Asked<'_>,
    status: Status,
    bytes: &[u8],
    is_beginning: bool,
) -> Result<bool, Fail> {
    let words = words_of(alloc, asked.line)?;
    let mut source = MemSource::new(
        alloc,
        asked.input,
        asked.source.bytes(),
        &[asked.source.fails],
    )?;
    let mut sink = MemSink::new(alloc, asked.sink.bytes(), &[asked.sink.fails])?;
    let given = ended(alloc, words.as_slice(), &mut source, &mut sink);
    Ok(given == status && is_text(sink.bytes(), bytes, is_beginning))
}

fn is_text(text: &[u8], wanted: &[u8], is_beginning: bool) -> bool {
    text == wanted || is_beginning && text.starts_with(wanted)
}

fn ended(alloc: Global, words: &[Word], source: &mut MemSource, sink: &mut MemSink) -> Status {
    geo_alone(alloc, words, source, sink)
}

/// What a command answers over bytes to a text that it takes.
pub fn bytes_of(alloc: Global, word: &str, input: &[u8]) -> Result<Blob, Fail> {
    let words = words_of(alloc, &[word])?;
    let shown = answered(alloc, words.as_slice(), Blob::from_slice(alloc, input)?);
    drop(words);
    let shown = shown?;
    match shown.status {
        Status::Ok => Ok(shown.bytes),
        _ => Err(Fail::new("another answer")),
    }
}

fn answered(alloc: Global, words: &[Word], input: Blob) -> Result<Answer, Memory> {
    answer(alloc, words, input)
}
