//! Saving a state.
ghost use Rattle.std.specs.Prelude.{◌≡◌, ◌<◌, ◌^◌, ◌++◌, length, map, IfOk, OnOk};
ghost use Rattle.std.specs.List.{All};
ghost use Rattle.client.specs.State.{stopped};
ghost use Rattle.state_nodes.specs.Nodes.{broker_of};
ghost use Rattle.state_file.specs.State.{state_of};
ghost use Rattle.state_file.specs.Texts.{body_text, clients_text, declared_text, nodes_from, state_text};
ghost use Rattle.state_file.specs.Writing.{CanSave};
ghost use Rattle.state_nodes.specs.Writing.{CanWrite};

use crate::front::MAGIC;
use crate::loading::NEWEST;
use crate::saved::Saved;
use client::ClientState;
use geo_base::{Blob, ClusterName, Memory};
use script_text::{Scenario, write_declarations};
use state_items::{put_number, put_word};
use state_nodes::{NodeParts, put_client, put_counts, put_node};
use std::alloc::Global;

/// The bytes of a state.
pub fn save(alloc: Global, saved: &Saved) -> Result<Blob, Memory>
    requires { CanSave (state_of saved.now) }
    ensures { IfOk result (λ bytes. bytes ≡ state_text (state_of saved.now)) }
{
    let body = body_of(alloc, saved)?;
    let mut out = Blob::from_slice(alloc, MAGIC)?;
    put_word(&mut out, NEWEST)?;
    put_number(&mut out, body.as_slice().len() as u64)?;
    out.append(body.as_slice())?;
    Ok(out)
}

fn body_of(alloc: Global, saved: &Saved) -> Result<Blob, Memory>
    requires { CanSave (state_of saved.now) }
    ensures { IfOk result (λ bytes. bytes ≡ body_text (state_of saved.now)) }
{
    let mut out = Blob::new(alloc);
    put_declarations(alloc, &mut out, &saved.scenario)?;
    put_counts(&mut out, &saved.counts)?;
    put_nodes(
        alloc,
        &mut out,
        saved.scenario.clusters(),
        saved.brokers.as_slice(),
    )?;
    put_clients(&mut out, saved.clients.as_slice())?;
    Ok(out)
}

fn put_declarations(alloc: Global, out: &mut Blob, scenario: &Scenario) -> Result<(), Memory>
    ensures { OnOk result (out.new ≡ out.old ++ declared_text scenario.now) }
{
    let text = write_declarations(alloc, scenario)?;
    put_number(out, text.as_slice().len() as u64)?;
    out.append(text.as_slice())
}

/// The brokers by topic and then by cluster.
#[tactic(auto, using(crate::proofs::Rows::nodes_end))]
fn put_nodes(
    alloc: Global,
    out: &mut Blob,
    names: &[ClusterName],
    brokers: &[NodeParts],
) -> Result<(), Memory>
    requires some { 0 < length names.now }
    requires few { length names.now < 2 ^ 32 }
    requires can { All CanWrite (map broker_of brokers.now) }
    ensures { OnOk result (out.new ≡ out.old ++ nodes_from names.now 0 (map broker_of brokers.now)) }
{
    for number in 0..brokers.len() {
        let own = (number % names.len()) as u32;
        put_node(alloc, out, names, own, &brokers[number])?;
    }
    Ok(())
}

#[tactic(auto, using(crate::proofs::Rows::clients_end))]
fn put_clients(out: &mut Blob, clients: &[ClientState]) -> Result<(), Memory>
    ensures { OnOk result (out.new ≡ out.old ++ clients_text (map stopped clients.now)) }
{
    for number in 0..clients.len() {
        put_client(out, &clients[number])?;
    }
    Ok(())
}
