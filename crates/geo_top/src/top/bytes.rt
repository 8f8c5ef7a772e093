//! The program as a call over bytes.
ghost use Rattle.std.specs.Prelude.{◌≤◌, Some, IfOk, OnOk, length};
ghost use Rattle.geo_top.specs.Answered.{IsAnswered, no_faults};
ghost use Rattle.geo_top.specs.Commands.{command_of};
ghost use Rattle.geo_top.specs.Founded.{IsFounded, IsKnown};
ghost use Rattle.geo_top.specs.Outputs.{IsAnswerToBytes};
ghost use Rattle.geo_top.specs.Statuses.{IsMade};
ghost use Rattle.geo_top.specs.declared.top.command.Command.TheVariants as command;

use crate::top::answer::{Answer, refusal};
use crate::top::auditing::answer_to_audit;
use crate::top::command::{Command, Reading, Word};
use crate::top::losing::{answer_to_losing, answer_to_losing_on};
use crate::top::observing::answer_to_observing;
use crate::top::scripts::{answer_to_number, answer_to_script};
use crate::top::states::{answer_to_file, answer_to_saving};
use crate::top::status::Status;
use crate::top::stepping::{answer_to_big_steps, answer_to_steps};
use geo_base::limits::INPUT_BYTES;
use geo_base::{Blob, Memory};
use std::alloc::Global;

/// The whole program but for the words of `live`, over the bytes of its input: how it ends, and the bytes that it writes. For `run` the
/// input is a script, and the output the report of its run; for `compact HORIZON` it is the compacted view of each topic at the run's
/// end; for `tiered KEEP` the entries of each topic there, read back once its closed ledgers but the last ones moved to a tier; for
/// `trace` each event of the run with what it wrote durably; for `steps` each step with what it changed of a report; for `save` it is the
/// state file of the run and a stop after it; for `resume` the input is a state file and a schedule after it, and the output the report
/// of the run that goes on from there, and for `steps from` its steps; for `lost CLUSTER` what is lost if the cluster goes at the run's
/// end, with `numbers` after it without the messages' names, and with `from` for the input of `resume`; for `audit`, and for `audit whole`, which judges gaps as well, the
/// input is what a script declares and a trace after it, and the output how many events the trace tells; for `observe` an observation
/// stands there, and the output is what is found against it, or that it is safe; for `big NUMBER` it is the
/// summary of the run that the number generates, and for `steps big NUMBER` its steps. Else, and where it refuses, it is one line.
///
/// It takes the input, and gives the memory of a script back before the run, but for `steps`, whose lines it cites. The first of these
/// refusals wins: words that are no command; more than 67,108,864 bytes; an item of the state that breaks a rule, or its version; a line
/// of the script or the schedule that breaks a rule; a line of the trace or the observation that does; more than 2,000,000 events and idle events, or more
/// than 1 GiB of frames. `Memory` comes where a growth of memory is refused.
#[tactic(auto, using(crate::proofs::Answered::answered_free, crate::proofs::Answered::founded_made))]
pub fn answer(alloc: Global, words: &[Word], input: Blob) -> Result<Answer, Memory>
    // All that is promised of it, of which neither source nor sink fails.
    ensures answered { IfOk result (λ a. IsAnswered (command_of words.now) input a.bytes no_faults a.status) }
    ensures made { IfOk result (λ a. IsMade a.status) }
{
    answer_to_command(alloc, Command::read(words), input)
}

/// The answer to a command, or to words that are none.
#[tactic(auto, using(crate::proofs::Answered::founded_usage, crate::proofs::Answered::founded_big, crate::proofs::Answered::founded_big_steps))]
fn answer_to_command(
    alloc: Global,
    asked: Option<Command<'_>>,
    input: Blob,
) -> Result<Answer, Memory>
    ensures { IfOk result (IsFounded asked.entry input) }
{
    match asked {
        Some(Command::Reads(reading)) => answer_to_input(alloc, reading, input),
        Some(Command::Big(number)) => answer_to_number(alloc, number),
        Some(Command::BigSteps(number)) => answer_to_big_steps(alloc, number),
        None => refusal(alloc, Status::Usage),
    }
}

/// The answer to an input.
#[tactic(auto, using(crate::proofs::Answered::founded_large, crate::proofs::Answered::founded_bytes))]
fn answer_to_input(alloc: Global, reading: Reading<'_>, input: Blob) -> Result<Answer, Memory>
    ensures { IfOk result (IsFounded (Some (command.Reads reading.entry)) input) }
{
    if input.len() > INPUT_BYTES {
        return refusal(alloc, Status::TooLarge(1));
    }
    answer_to_bytes(alloc, reading, input)
}

/// The answer to the bytes of an input that is not too long.
fn answer_to_bytes(alloc: Global, reading: Reading<'_>, bytes: Blob) -> Result<Answer, Memory>
    requires { length bytes ≤ INPUT_BYTES }
    ensures answer { IfOk result (IsAnswerToBytes reading.entry bytes) }
    ensures known { OnOk result (IsKnown reading.entry bytes) }
{
    match reading {
        Reading::Script(shown) => answer_to_script(alloc, shown, bytes),
        Reading::Save => answer_to_saving(alloc, bytes),
        Reading::Resume(shown) => answer_to_file(alloc, shown, bytes.as_slice()),
        Reading::Audit(strictness) => answer_to_audit(alloc, strictness, bytes.as_slice()),
        Reading::Steps => answer_to_steps(alloc, bytes.as_slice()),
        Reading::Lost(cluster, with_names) => {
            answer_to_losing(alloc, cluster.as_bytes(), with_names, bytes)
        }
        Reading::LostOn(cluster) => {
            answer_to_losing_on(alloc, cluster.as_bytes(), bytes.as_slice())
        }
        Reading::Observe => answer_to_observing(alloc, bytes.as_slice()),
    }
}
