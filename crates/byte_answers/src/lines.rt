//! Lines of a section, and their answers.

use crate::fault::Fault;
use crate::packet::answer_packet;
use crate::script::answer_script;
use crate::vector::answer_vector;
use std::alloc::Global;

/// What lines are.
#[derive(Clone, Copy)]
pub enum Lines {
    /// Vectors of the codecs, a line each.
    Vectors,
    /// Packets of one link, a line each.
    Packets,
    /// A script.
    Script,
}

/// What is answered to lines: a line for each vector or packet, or a script as it was read.
///
/// `Fault::Memory` may come at any lines. `Fault::LongScript` comes exactly for a script of more than 1,000,000 bytes; the other faults
/// come of the broker's setup, which is the same for all packets.
pub fn answer_lines(alloc: Global, kind: Lines, lines: &[u8]) -> Result<Vec<u8>, Fault> {
    let mut answers = Vec::new(alloc);
    match add_answers(alloc, kind, lines, &mut answers) {
        Ok(()) => Ok(answers),
        Err(fault) => {
            drop(answers);
            Err(fault)
        }
    }
}

fn add_answers(
    alloc: Global,
    kind: Lines,
    lines: &[u8],
    answers: &mut Vec<u8>,
) -> Result<(), Fault> {
    // after the last line feed no line stands
    let whole = lines.strip_suffix(b"\n").unwrap_or(lines);
    match kind {
        Lines::Vectors => {
            for line in whole.split(|byte| *byte == b'\n') {
                answer_vector(alloc, line, answers)?;
            }
            Ok(())
        }
        Lines::Packets => {
            for line in whole.split(|byte| *byte == b'\n') {
                answer_packet(alloc, line, answers)?;
            }
            Ok(())
        }
        Lines::Script => answer_script(alloc, lines, answers),
    }
}
