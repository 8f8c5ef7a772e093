//! What a client knows.
ghost use Rattle.std.specs.Prelude.{◌≡◌, ◌<◌, length, true};
ghost use Rattle.std.specs.List.{list_all};
ghost use Rattle.client.specs.Site.{is_short_line, known_setup};
ghost use Rattle.geo_base.specs.Setup.{declared_at};

use client::ClientSite;
use script_text::{ClientDecl, Scenario};

/// What a client knows of the setup: the names of clusters and topics, and what it declares itself.
#[tactic(auto, using(crate::proofs::Known::short_lines, crate::proofs::Known::few_clusters, crate::proofs::Known::names_are))]
pub fn site_of(scenario: &Scenario, client: u32) -> ClientSite<'_>
    requires { client < length scenario.now.setup.clients }
    ensures setup { result.setup ≡ known_setup scenario.now.setup.clusters scenario.now.setup.topics }
    ensures declared { result.declared ≡ declared_at scenario.now.setup client }
{
    let declared = declared_of(scenario, client);
    ClientSite::new(
        scenario.clusters(),
        scenario.topics(),
        declared.name(),
        declared.topic(),
        declared.cluster(),
        declared.lines(),
    )
}

/// What a script declares of a client.
#[tactic(auto, using(crate::proofs::Known::lines_short))]
fn declared_of(scenario: &Scenario, client: u32) -> &ClientDecl
    requires { client < length scenario.now.setup.clients }
    ensures declared { result.now ≡ declared_at scenario.now.setup client }
    ensures lines { list_all is_short_line (declared_at scenario.now.setup client).lines ≡ true }
{
    &scenario.clients()[client as usize]
}
