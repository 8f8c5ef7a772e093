//! The trace of a script's run.
ghost use Rattle.std.specs.Prelude.{◌≡◌, ◌++◌, ◌∷◌, ℕ, [], codes, Err, IfOk, None, OnOk, Some};
ghost use Rattle.run_report.specs.Reports.{exceeded_limit};
ghost use Rattle.geo_top.specs.Traced.{traced_of};
ghost use Rattle.script_text.specs.Canonical.{declarations_text};

use geo_base::{Blob, Memory};
use script_text::{Scenario, write_declarations};
use std::alloc::Global;
use trace_runs::Trace;
use world::{RunFault, World};

/// The trace of a script's run, or the limit that the run passes.
pub fn trace_script(alloc: Global, scenario: &Scenario) -> Result<Blob, RunFault>
    ensures done { IfOk result (λ bytes. bytes ≡ traced_of scenario.now) }
    ensures within { OnOk result (exceeded_limit scenario.now ≡ None) }
    ensures large { (limit : ℕ) → result ≡ Err (RunFault.TooLarge limit) → exceeded_limit scenario.now ≡ Some limit }
{
    let head = head(alloc, scenario)?;
    let mut world = World::new(alloc, scenario)?;
    let mut trace = Trace::behind(alloc, head);
    let told = trace.run(alloc, &mut world, scenario, scenario.steps());
    world.let_go();
    match told {
        Ok(()) => Ok(trace.into_text()),
        Err(fault) => {
            drop(trace);
            Err(fault)
        }
    }
}

/// What stands before the lines of what a run tells: what the script declares, and the line `trace`.
fn head(alloc: Global, scenario: &Scenario) -> Result<Blob, Memory>
    ensures { IfOk result (λ text. text ≡ declarations_text scenario.now.setup scenario.now.chance ++ (codes "trace" ++ 10 ∷ [])) }
{
    let mut text = write_declarations(alloc, scenario)?;
    text.append(b"trace\n")?;
    Ok(text)
}
