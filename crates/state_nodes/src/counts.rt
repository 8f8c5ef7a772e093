//! What a run counted.
ghost use Rattle.std.specs.Prelude.{◌≡◌, ◌+◌, nat_le};
ghost use Rattle.state_items.specs.Reading.{Gives};
ghost use Rattle.state_nodes.specs.Counts.{counts_at};

use geo_base::limits::{EVENTS, SENT_BYTES};
use state_items::{ItemFault, MOST_COUNT, Rule, judge, number_at, number_within};

/// Events that were done, idle ones, rounds of settling, and the bytes of all frames that were sent.
#[derive(Clone, Copy, Drop)]
pub struct Counts {
    pub events: u64,
    pub idle: u64,
    pub rounds: u64,
    pub frame_bytes: u64,
}

/// Reads the counts of a run.
#[tactic(auto, unfolding(crate::specs::Counts::counts_at))]
pub fn counts_at(bytes: &[u8]) -> Result<(Counts, &[u8]), ItemFault>
    ensures { Gives (λ x. (x.0, x.1.now)) result (counts_at bytes.now) }
{
    let (events, behind) = number_within(bytes, MOST_COUNT, Rule::Count)?;
    let (idle, rest) = number_at(behind)?;
    let few = idle <= MOST_COUNT && is_run(events, idle);
    judge(few, behind, Rule::Count)?;
    let (rounds, rest) = number_within(rest, MOST_COUNT, Rule::Count)?;
    let (frame_bytes, rest) = number_within(rest, SENT_BYTES, Rule::Count)?;
    let counts = Counts {
        events,
        idle,
        rounds,
        frame_bytes,
    };
    Ok((counts, rest))
}

/// Whether a run may have so many events and idle events together.
fn is_run(events: u64, idle: u64) -> bool
    ensures { result ≡ nat_le (events + idle) EVENTS }
{
    events <= EVENTS && idle <= EVENTS - events
}
