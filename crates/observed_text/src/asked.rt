//! Where an observation begins after its declarations.
ghost use Rattle.std.specs.Prelude.{◌≡◌, ◌≤◌, length};
ghost use Rattle.observed_text.specs.Starts.{head_of, observed_start};

use script_rows::{cut_at, is_word};

/// The first words of an observation.
const HEAD: &[u8] = b"observed";

const QUIET: &[u8] = b"observed quiet";

/// What a line says as the head: whether nothing moved while all was read; None exactly where it is none.
pub(crate) fn head_of(line: &[u8]) -> Option<bool>
    ensures { result ≡ head_of line.now }
{
    if is_word(line, HEAD) {
        Some(false)
    } else if is_word(line, QUIET) {
        Some(true)
    } else {
        None
    }
}

/// Where the first line begins that is the head of an observation; the length of the bytes where none is.
#[tactic(auto, unfolding(crate::specs::Starts::observed_start), using(crate::proofs::Walks::begins_here, crate::proofs::Walks::begins_later, crate::proofs::Walks::begins_nowhere, crate::proofs::Walks::cut_length))]
pub fn observed_start(input: &[u8]) -> usize
    ensures start { result ≡ observed_start input.now }
    ensures within { result ≤ length input.now }
{
    let mut rest = input;
    while let Some((line, behind)) = cut_at(rest, b'\n') {
        if head_of(line).is_some() {
            return input.len() - rest.len();
        }
        rest = behind;
    }
    input.len()
}
