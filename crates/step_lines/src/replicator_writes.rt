//! Events that leave a broker's entries and subscriptions as they are.
ghost use Rattle.std.specs.Prelude.{◌≡◌};
ghost use Rattle.step_lines.specs.Resting.{are_of_replicators, is_of_replicator};

use broker_state::{Plan, StateWrite};

/// Whether all that an event writes is of replicators: then of what a report shows of its broker nothing else changes.
#[tactic(auto, using(crate::proofs::Resting::of_replicators_here))]
pub(crate) fn writes_replicators_alone(plan: &Plan) -> bool
    ensures { result ≡ are_of_replicators plan.now.writes }
{
    for number in 0..plan.write_count() {
        if !is_of_replicator(plan.write_at(number)) {
            return false;
        }
    }
    true
}

/// Whether a write is of a replicator.
fn is_of_replicator(write: &StateWrite) -> bool
    ensures { result ≡ is_of_replicator write.now }
{
    match write {
        StateWrite::ReplicatorAck { .. } | StateWrite::SessionNumber { .. } => true,
        StateWrite::Append { .. }
        | StateWrite::Create { .. }
        | StateWrite::Delete
        | StateWrite::Sub(_)
        | StateWrite::Ledger => false,
    }
}
