//! How many there are.
ghost use Rattle.std.specs.Prelude.{◌≡◌, ◌<◌, ◌↔◌, length, IsTrue};
ghost use Rattle.geo_base.specs.Setup.{declared_at, sub_names};

use geo_base::limits::SUBSCRIPTIONS;
use script_text::Scenario;

/// How many topics a scenario has.
#[tactic(auto, using(world_laws::proofs::Merges::FewNodes::few_topics))]
pub fn topic_count(scenario: &Scenario) -> u32
    ensures { result ≡ length scenario.now.setup.topics }
{
    scenario.topics().len() as u32
}

/// How many clusters it has.
#[tactic(auto, using(world_laws::proofs::Merges::FewNodes::few_clusters))]
pub fn cluster_count(scenario: &Scenario) -> u32
    ensures { result ≡ length scenario.now.setup.clusters }
{
    scenario.clusters().len() as u32
}

/// How many clients it has.
#[tactic(auto, using(world_laws::proofs::Merges::FewNodes::few_clients))]
pub fn client_count(scenario: &Scenario) -> u32
    ensures { result ≡ length scenario.now.setup.clients }
{
    scenario.clients().len() as u32
}

/// How many names of subscriptions a topic has.
#[tactic(auto, using(crate::proofs::Subs::few))]
pub fn sub_count(scenario: &Scenario, topic: u32) -> u32
    ensures { result ≡ length (sub_names scenario.now.setup topic) }
{
    let _known = scenario.topics();
    let mut count = 0;
    for sub in 0..SUBSCRIPTIONS as u32 {
        if has_sub(scenario, topic, sub) {
            count += 1;
        }
    }
    count
}

#[tactic(auto, using(crate::proofs::Subs::within, crate::proofs::Subs::past))]
fn has_sub(scenario: &Scenario, topic: u32, sub: u32) -> bool
    ensures { IsTrue result ↔ (sub < length (sub_names scenario.now.setup topic)) }
{
    scenario.sub_name(topic, sub).is_some()
}

/// The topic of a client.
#[tactic(auto, using(world_laws::proofs::Merges::FewNodes::topic_there))]
pub fn topic_of(scenario: &Scenario, client: u32) -> u32
    requires { client < length scenario.now.setup.clients }
    ensures topic { result ≡ (declared_at scenario.now.setup client).topic }
    ensures there { result < length scenario.now.setup.topics }
{
    scenario.clients()[client as usize].topic()
}
