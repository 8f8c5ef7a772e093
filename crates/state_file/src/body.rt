//! The body of a file.
ghost use Rattle.std.specs.Prelude.{◌≡◌, ◌≤◌, ◌<◌, ◌*◌, ◌^◌, List, [], length, map, OnOk};
ghost use Rattle.client.specs.State.{stopped};
ghost use Rattle.geo_base.specs.Broker.{Broker};
ghost use Rattle.state_nodes.specs.declared.counts.Counts.{Counts};
ghost use Rattle.state_items.specs.Reading.{Gives, many};
ghost use Rattle.state_items.specs.Telling.{Many, Tells};
ghost use Rattle.state_nodes.specs.Nodes.{broker_of};
ghost use Rattle.state_file.specs.Reading.{AreNodes, IsBody, client_behind, tail_at};
ghost use Rattle.state_file.specs.State.{state_of, with_clients};

use crate::front::head_at;
use crate::saved::Saved;
use client::ClientState;
use script_text::Scenario;
use state_items::{ItemFault, Rule, judge};
use state_nodes::{Counts, NodeParts, client_at, node_at};
use std::alloc::Global;

/// The state in a body of `size` bytes, of which these are there.
pub(crate) fn body_at(
    alloc: Global,
    version: u32,
    size: u64,
    body: &[u8],
) -> Result<Saved, ItemFault>
    requires { length body.now < 2 ^ 32 }
    ensures told { Tells state_of result (IsBody version size body.now) }
    ensures size { OnOk result (size ≤ length body.now) }
{
    let ((scenario, counts), rest) = head_at(alloc, body)?;
    match nodes_at(alloc, version, &scenario, rest) {
        Ok((brokers, rest)) => {
            let begun = Begun {
                scenario,
                counts,
                brokers,
            };
            tail_at(alloc, size, body.len(), begun, rest)
        }
        Err(fault) => {
            drop(scenario);
            Err(fault)
        }
    }
}

/// What stands before the clients.
#[derive(Drop)]
struct Begun {
    scenario: Scenario,
    counts: Counts,
    brokers: Vec<NodeParts>,
}

/// The clients, after which nothing stands.
fn tail_at(
    alloc: Global,
    size: u64,
    whole: usize,
    begun: Begun,
    bytes: &[u8],
) -> Result<Saved, ItemFault>
    ensures read { Gives state_of result (tail_at size whole begun.scenario begun.counts (map broker_of begun.brokers.items) bytes.now) }
    ensures size { OnOk result (size ≤ whole) }
{
    match last_clients_at(alloc, size, whole, &begun.scenario, bytes) {
        Ok(clients) => Ok(Saved {
            scenario: begun.scenario,
            counts: begun.counts,
            brokers: begun.brokers,
            clients,
        }),
        Err(fault) => {
            drop(begun);
            Err(fault)
        }
    }
}

/// The clients alone, after which nothing stands; what stands before them says nothing of them but by the script.
#[tactic(auto, unfolding(crate::specs::Reading::tail_at))]
fn last_clients_at(
    alloc: Global,
    size: u64,
    whole: usize,
    scenario: &Scenario,
    bytes: &[u8],
) -> Result<Vec<ClientState>, ItemFault>
    ensures read { (counts : Counts) (brokers : List Broker)
        → Gives (λ v. with_clients scenario.now counts brokers v.items) result (tail_at size whole scenario.now counts brokers bytes.now) }
    ensures size { OnOk result (size ≤ whole) }
{
    let (clients, rest) = clients_at(alloc, scenario, bytes)?;
    let used = whole.saturating_sub(rest.len());
    match judge(used as u64 == size, rest, Rule::End) {
        Ok(()) => Ok(clients),
        Err(fault) => {
            drop(clients);
            Err(fault)
        }
    }
}

/// The brokers by topic and then by cluster.
#[tactic(auto, using(crate::proofs::Loops::nodes_begin, crate::proofs::Loops::nodes_done))]
fn nodes_at<'a>(
    alloc: Global,
    version: u32,
    scenario: &Scenario,
    bytes: &'a [u8],
) -> Result<(Vec<NodeParts>, &'a [u8]), ItemFault>
    ensures { Tells (λ x. (map broker_of x.0.items, x.1.now)) result (AreNodes version scenario.now.setup bytes.now) }
{
    let names = scenario.clusters();
    let count = scenario.topics().len() * names.len();
    let mut brokers: Vec<NodeParts> = Vec::new(alloc);
    let mut rest = bytes;
    for number in 0..count {
        let own = (number % names.len()) as u32;
        let (node, after) = node_at(alloc, version, scenario.per_ledger(), names, own, rest)?;
        brokers.push(node)?;
        rest = after;
    }
    Ok((brokers, rest))
}

/// The clients in the script's order.
#[tactic(auto, using(crate::proofs::Loops::clients_begin))]
fn clients_at<'a>(
    alloc: Global,
    scenario: &Scenario,
    bytes: &'a [u8],
) -> Result<(Vec<ClientState>, &'a [u8]), ItemFault>
    ensures { Gives (λ x. (map stopped x.0.items, x.1.now)) result (many (client_behind scenario.now.setup) (length scenario.now.setup.clients) [] bytes.now) }
{
    let clusters = scenario.clusters().len() as u32;
    let mut clients: Vec<ClientState> = Vec::new(alloc);
    let mut rest = bytes;
    for declared in scenario.clients() {
        let (client, after) = client_at(alloc, clusters, declared.lines(), rest)?;
        clients.push(client)?;
        rest = after;
    }
    Ok((clients, rest))
}
