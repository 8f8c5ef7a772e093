//! A generated run.
ghost use Rattle.std.specs.Prelude.{◌≡◌, IfOk};
ghost use Rattle.script_generator.specs.Generated.{generated_run};
ghost use Rattle.script_text.specs.Scenario.{IsScenario};

use crate::scenario::{clients, cluster_names, topic_names};
use crate::schedule::steps;
use geo_base::Memory;
use script_text::ScenarioParts;
use std::alloc::Global;

/// How many entries a ledger takes: few, so that there are many.
const LEDGER_ENTRIES: u64 = 100;

/// The run of a number: its parts are a scenario. An `Err` is want of memory.
#[tactic(auto, using(crate::proofs::InRange::is_scenario))]
pub fn generate(alloc: Global, number: u32) -> Result<ScenarioParts, Memory>
    ensures run { IfOk result (λ parts. parts ≡ generated_run number) }
    ensures scenario { IfOk result IsScenario }
{
    let parts = put_together(alloc, number)?;
    Ok(parts)
}

#[tactic(auto, unfolding(crate::specs::Scenario::generated_setup))]
fn put_together(alloc: Global, number: u32) -> Result<ScenarioParts, Memory>
    ensures { IfOk result (λ parts. parts ≡ generated_run number) }
{
    let clusters = cluster_names(alloc)?;
    let topics = topic_names(alloc)?;
    let clients = clients(alloc)?;
    let steps = steps(alloc, number)?;
    Ok(ScenarioParts {
        per_ledger: LEDGER_ENTRIES,
        clusters,
        topics,
        clients,
        steps,
    })
}
