//! The input of an audit: a script's declarations, and after them the trace of a run.

ghost use Rattle.std.specs.Prelude.{◌≡◌, ◌==◌, ◌≤◌, length, position};
ghost use Rattle.script_generator.specs.Apart.{LawApart};
ghost use Rattle.script_generator.specs.Starts.{trace_start};

/// The line that begins a trace.
const TRACE: &[u8] = b"trace";

/// Where the trace of an input begins: at its first line that is `trace`, with a line feed; after all bytes where there is none.
#[tactic(auto, unfolding(crate::specs::Starts::trace_start))]
pub fn trace_start(input: &[u8]) -> usize
    ensures start { result ≡ trace_start input.now }
    ensures within { result ≤ length input.now }
{
    let mut at: usize = 0;
    while let Some(end) = line_end(&input[at..]) {
        if &input[at..at + end] == TRACE {
            return at;
        }
        at += end + 1;
    }
    input.len()
}

/// Where the first line ends, that a line feed ends.
fn line_end(bytes: &[u8]) -> Option<usize>
    ensures { result ≡ position (λ b. b == 10) bytes.now }
{
    bytes.iter().position(|b| *b == b'\n')
}

/// The canonical declarations of an accepted script are told apart from the trace after them, and say what it declares.
pub fn law_apart()
    ensures { LawApart }
{}
