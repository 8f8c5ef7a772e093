//! Who shares links with whom in a scenario.
ghost use Rattle.std.specs.Prelude.{◌≡◌, IfOk, OnOk, map};
ghost use Rattle.geo_base.specs.Scripted.{IsScripted};
ghost use Rattle.merge_history.specs.Ends.{home_declared, layout_of};

use crate::{Home, Layout};
use geo_base::Memory;
use script_text::Scenario;
use std::alloc::Global;

/// The layout of a scenario.
#[tactic(auto, using(world_laws::proofs::Merges::FewNodes::few_brokers, crate::proofs::FewNodes::is_layout))]
pub(crate) fn layout_of(alloc: Global, scenario: &Scenario) -> Result<Layout, Memory>
    ensures layout { IfOk result (λ l. l ≡ layout_of scenario.now.setup) }
    ensures known { OnOk result (IsScripted scenario.now.setup) }
{
    let clusters = scenario.clusters().len();
    let brokers = scenario.topics().len() * clusters;
    Ok(Layout::new(clusters as u32, brokers, homes_of(alloc, scenario)?))
}

/// Where the clients of a scenario are declared.
fn homes_of(alloc: Global, scenario: &Scenario) -> Result<Vec<Home>, Memory>
    ensures { IfOk result (λ hs. hs.items ≡ map home_declared scenario.now.setup.clients) }
{
    let mut homes = Vec::new(alloc);
    let clients = scenario.clients();
    for client in clients {
        homes.push(Home {
            topic: client.topic(),
            cluster: client.cluster(),
        })?;
    }
    Ok(homes)
}
