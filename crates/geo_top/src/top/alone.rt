//! The program as a call over a source and a sink.
ghost use Rattle.std.specs.Prelude.{◌≡◌, ℕ, List, IfOk, OnErr};
ghost use Rattle.geo_io.specs.Faults.{Stood};
ghost use Rattle.geo_io.specs.Sink.{Gains};
ghost use Rattle.geo_top.specs.Answered.{IsAnswered, IsRead};
ghost use Rattle.geo_top.specs.Commands.{Reads, command_of};
ghost use Rattle.geo_top.specs.Founded.{IsReady};
ghost use Rattle.geo_top.specs.declared.top.status.Status.TheVariants as status;

use crate::top::answer::{Answer, refusal};
use crate::top::bytes::answer;
use crate::top::command::{Command, Word};
use crate::top::status::Status;
use geo_base::limits::INPUT_BYTES;
use geo_base::{Blob, Memory};
use geo_io::{ReadFault, Sink, Source, read_all, write_all};
use std::alloc::Global;

/// The whole program but for the words of `live`: it reads all of the source, where the words have an input, and writes all that
/// [`answer`] answers to these bytes to the sink. It takes no runtime and starts no thread.
///
/// The whole output is made before its first byte is written. Of the refusals, a fault of the source comes after words that are no
/// command, and before all that is told from the input; a fault of the sink comes last.
pub fn geo_alone<S: Source, K: Sink>(
    alloc: Global,
    words: &[Word],
    source: &mut S,
    sink: &mut K,
) -> Status
    // All that is promised of the answer, over the bytes that the source gave (where it was read to its end, all of them) and those that
    // the sink took.
    ensures answered { (input output : List ℕ)
        × IsRead (command_of words.now) (S.given source.old source.new) (S.left source.old) (S.faults source.old) (S.faults source.new) result input
        × K.taken sink.old sink.new output
        × Gains (K.held sink.old) (K.held sink.new) output
        × IsAnswered (command_of words.now) input output (record {
          source = S.faults source.old;
          source_now = S.faults source.new;
          sink = K.faults sink.old;
          sink_now = K.faults sink.new;
        }) result }

    // Words that have no input read nothing.
    ensures unread { (Reads (command_of words.now) → ⊥) → source.new ≡ source.old }
{
    let Ok(answer) = answer_from(alloc, words, source) else {
        return Status::OutOfMemory;
    };
    match write_all(sink, answer.bytes.as_slice()) {
        Ok(()) => answer.status,
        Err(_) => Status::WriteFault,
    }
}

/// The answer to words, and to all that a source holds where they have an input. The line of a read fault is made before anything is
/// read, so that a fault of the source is never told as want of memory.
fn answer_from<S: Source>(alloc: Global, words: &[Word], source: &mut S) -> Result<Answer, Memory>
    ensures ready { IfOk result (λ a. (input : List ℕ)
        × IsRead (command_of words.now) (S.given source.old source.new) (S.left source.old) (S.faults source.old) (S.faults source.new) a.status input
        × IsReady (command_of words.now) input (S.faults source.old) (S.faults source.new) a) }
    ensures wanting { OnErr result ((input : List ℕ)
        × IsRead (command_of words.now) (S.given source.old source.new) (S.left source.old) (S.faults source.old) (S.faults source.new) status.OutOfMemory input) }
    ensures memory { OnErr result (Stood (S.faults source.old) (S.faults source.new)) }
    ensures unread { (Reads (command_of words.now) → ⊥) → source.new ≡ source.old }
{
    if Command::has_input(words) {
        let read_fault = refusal(alloc, Status::ReadFault)?;
        match read_all(alloc, source, INPUT_BYTES) {
            Ok(bytes) => answer(alloc, words, bytes),
            Err(ReadFault::Failed) => Ok(read_fault),
            Err(ReadFault::TooLong) => refusal(alloc, Status::TooLarge(1)),
            Err(ReadFault::Memory) => Err(Memory),
        }
    } else {
        answer(alloc, words, Blob::new(alloc))
    }
}
