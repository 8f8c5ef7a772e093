//! A client does an event.
ghost use Rattle.std.specs.Prelude.{◌↔◌, ◌<◌, IfOk, IsTrue, None, OnErr, is_some, length, not};
ghost use Rattle.client.specs.Changing.{ClientFits, client_after};
ghost use Rattle.geo_base.specs.NodeState.{ClientState};
ghost use Rattle.node_log.specs.Acting.{Outcome};
ghost use Rattle.node_log.specs.Acts.{ClientRises, SameLog};
ghost use Rattle.node_log.specs.Logs.{LogHolds, log_view};
ghost use Rattle.node_log.specs.Looking.{IsSeen};
ghost use Rattle.node_log.specs.Owning.{IsAtClient, IsGet};
ghost use Rattle.node_log.specs.declared.state.NodeState.TheVariants as kept;

use crate::acting::finish;
use crate::getting::get;
use crate::log::Log;
use crate::owning::{is_clients, is_get, is_go};
use crate::packing::make_ready;
use crate::state::NumberedClient;
use client::{Client, Prepared};
use geo_base::{Event, Memory};
use log_parts::EndTable;
use node_starts::site_of;
use script_text::Scenario;
use std::alloc::Global;
use wire_ends::End;

/// Does an event of a client: see `NodeLog::act`.
pub(crate) fn act_at_client<E: End>(
    alloc: Global,
    scenario: &Scenario,
    own: &mut NumberedClient,
    log: &mut Log,
    ends: &mut EndTable<E>,
    event: &Event,
) -> Result<bool, Memory>
    requires { LogHolds scenario.now.setup (kept.Client own.old) log.old.history.items log.old.clock ends.old.rows.items }
    ensures holds { LogHolds scenario.now.setup (kept.Client own.new) log.new.history.items log.new.clock ends.new.rows.items }
    ensures outcome { IfOk result (Outcome E.sent E.taken E.shown E.free E.looks E.fits event.now
        (log_view scenario.now (kept.Client own.old) log.old.history.items log.old.clock ends.old.rows.items)
        (log_view scenario.now (kept.Client own.new) log.new.history.items log.new.clock ends.new.rows.items)) }
    ensures err { OnErr result (SameLog E.sent E.taken
        (log_view scenario.now (kept.Client own.old) log.old.history.items log.old.clock ends.old.rows.items)
        (log_view scenario.now (kept.Client own.new) log.new.history.items log.new.clock ends.new.rows.items)) }
{
    if !is_clients(own.number, event) {
        return Ok(false);
    }
    if !can_raise(&own.client, event) {
        return Ok(false);
    }
    if is_get(event) {
        return get(alloc, scenario, own, log, ends, event);
    }
    send(alloc, scenario, own, log, ends, event)
}

/// Whether the numbers that an event of a client raises have room.
fn can_raise(client: &Client, event: &Event) -> bool
    ensures { IsTrue result ↔ ClientRises client.now event.now }
{
    match *event {
        Event::Go { .. } | Event::Reconnect { .. } => client.can_connect(),
        Event::Get { .. } => client.can_count(),
        _ => true,
    }
}

/// Does an event that takes no packet.
#[tactic(auto, using(crate::proofs::ClientActs::client_err))]
fn send<E: End>(
    alloc: Global,
    scenario: &Scenario,
    own: &mut NumberedClient,
    log: &mut Log,
    ends: &mut EndTable<E>,
    event: &Event,
) -> Result<bool, Memory>
    requires holds { LogHolds scenario.now.setup (kept.Client own.old) log.old.history.items log.old.clock ends.old.rows.items }
    requires at { IsAtClient own.old.number event.now }
    requires numbers { ClientRises own.old.client event.now }
    requires other { IsGet event.now → ⊥ }
    ensures holds { LogHolds scenario.now.setup (kept.Client own.new) log.new.history.items log.new.clock ends.new.rows.items }
    ensures outcome { IfOk result (Outcome E.sent E.taken E.shown E.free E.looks E.fits event.now
        (log_view scenario.now (kept.Client own.old) log.old.history.items log.old.clock ends.old.rows.items)
        (log_view scenario.now (kept.Client own.new) log.new.history.items log.new.clock ends.new.rows.items)) }
    ensures err { OnErr result (SameLog E.sent E.taken
        (log_view scenario.now (kept.Client own.old) log.old.history.items log.old.clock ends.old.rows.items)
        (log_view scenario.now (kept.Client own.new) log.new.history.items log.new.clock ends.new.rows.items)) }
{
    let mut prepared = prepare(alloc, scenario, own, event)?;
    let outs = prepared.take_sent(alloc).into_vec();
    let Some(packed) = make_ready(alloc, ends, log, prepared.is_idle(), 0, outs)? else {
        return Ok(false);
    };
    own.client.commit(prepared);
    finish(ends, log, *event, None, packed);
    Ok(true)
}

/// What an event that takes no packet will do.
#[tactic(auto, using(crate::proofs::ClientSeen::go_seen, crate::proofs::ClientSeen::reconnect_seen, crate::proofs::ClientSeen::connects))]
fn prepare(
    alloc: Global,
    scenario: &Scenario,
    own: &NumberedClient,
    event: &Event,
) -> Result<Prepared, Memory>
    requires there { own.now.number < length scenario.now.setup.clients }
    requires at { IsAtClient own.now.number event.now }
    requires numbers { ClientRises own.now.client event.now }
    requires other { IsGet event.now → ⊥ }
    ensures seen { IfOk result (λ p. IsSeen scenario.now.setup (ClientState own.now.client) event.now None 0 (not (is_some p.change)) p.sent (ClientState (client_after p.change own.now.client))) }
    ensures fits { IfOk result (λ p. ClientFits p.change own.now.client) }
{
    let site = site_of(scenario, own.number);
    if is_go(event) {
        let prepared = own.client.prepare_go(alloc, &site)?;
        return Ok(prepared);
    }
    let prepared = own.client.prepare_reconnect(alloc, &site)?;
    Ok(prepared)
}
