//! The program `geo`: its words, the standard input and the standard output, and the number that it ends with.
#![tactic(auto)]

ghost use Rattle.std.specs.Prelude.{◌≡◌, ◌++◌, ℕ, List, IsOkAnd, Some};
ghost use Rattle.run_report.specs.Claims.{HoldsWithin};
ghost use Rattle.geo_top.specs.Commands.{command_of, run_command};
ghost use Rattle.run_report.specs.Reports.{report_of};
ghost use Rattle.script_text.specs.Rules.{script_of};

use geo_base::Text;
use geo_io::{OpenGate, StdSink, StdSource};
use geo_live::geo_main;
use geo_top::{Status, Word};
use std::alloc::Global;
use std::io::{Read, Write};
use std::process::ExitCode;
use std::rt::Env;
use std::sync::Wait;
use std::thread::Threads;
use std::{env, io};

fn main(rt: HostRuntime) -> ExitCode {
    let status = match words(&rt) {
        Ok(words) => {
            let mut source = StdSource::new(rt.stdin());
            let mut sink = StdSink::new(rt.stdout());
            answer(&rt, rt.alloc(), words.as_slice(), &mut source, &mut sink)
        }
        // The one thing that is refused before the program's own words are read.
        Err(_) => Status::OutOfMemory,
    };
    ExitCode::from(status.number())
}

/// The program over a reader and a writer. All that is promised of it stands at [`geo_main`]; here is what that says of `run` over ends
/// that tell neither what they have left nor what they hold, as standard input and output.
fn answer<R: Threads + Wait + Sync, T: Read, W: Write>(
    rt: &R,
    alloc: Global,
    words: &[Word],
    source: &mut StdSource<T>,
    sink: &mut StdSink<W>,
) -> Status
    // With Ok the bytes that the reads gave, one after the other, are a script, and those that the writes took are the report of the
    // written machine's run over it, which passes no limit, and of which all holds that is claimed of a run.
    ensures { result ≡ Status.Ok → command_of words.now ≡ Some run_command → (input output : List ℕ)
        × (source.new.gave ≡ source.old.gave ++ input) × (sink.new.took ≡ sink.old.took ++ output)
        × IsOkAnd (script_of input) (λ n. (output ≡ report_of n) × HoldsWithin n) }
{
    geo_main(rt, alloc, words, source, sink, &OpenGate)
}

/// The words after the program's name. None where an argument is no UTF-8 text: no command has such a word, so the answer is
/// that of words that are no command.
fn words<R: Env + AllocGlobal>(rt: &R) -> io::Result<Vec<Word>> {
    let mut words = Vec::new(rt.alloc());
    let arguments = match env::args(rt) {
        Ok(arguments) => arguments,
        Err(fault) => match fault.kind() {
            io::ErrorKind::InvalidData => return Ok(words),
            _ => return Err(fault),
        },
    };
    for word in arguments.skip(1) {
        words.push(Text::from_string(word))?;
    }
    Ok(words)
}
