//! A client takes the next packet of its broker.
ghost use Rattle.std.specs.Prelude.{◌≡◌, ◌<◌, ◌≤◌, IfNone, IfOk, IfSome, OnErr, Some, length};
ghost use Rattle.log_parts.specs.Rows.{SamePeers, SameSends, SameTaken};
ghost use Rattle.client.specs.Counted.{CanCount};
ghost use Rattle.geo_base.specs.Setup.{declared_at};
ghost use Rattle.node_log.specs.Acting.{Outcome};
ghost use Rattle.node_log.specs.Acts.{ClientRises, LookedFor, SameLog, shown_for};
ghost use Rattle.node_log.specs.Logs.{LogHolds, log_view};
ghost use Rattle.node_log.specs.Looking.{IsGot, IsNotGot};
ghost use Rattle.node_log.specs.Owning.{IsAtClient, IsGet};
ghost use Rattle.node_log.specs.declared.state.NodeState.TheVariants as kept;
ghost use Rattle.wire_ends.specs.Looks.{Looked};

use crate::acting::finish;
use crate::log::Log;
use crate::packing::{Packed, STAMPS};
use crate::state::NumberedClient;
use client::{Client, ClientSite};
use geo_base::{Event, Memory, Peer, Stamp};
use log_parts::EndTable;
use node_starts::site_of;
use script_text::Scenario;
use std::alloc::Global;
use wire_ends::End;

/// Takes the next packet of the broker that the client is connected to, or was last.
pub(crate) fn get<E: End>(
    alloc: Global,
    scenario: &Scenario,
    own: &mut NumberedClient,
    log: &mut Log,
    ends: &mut EndTable<E>,
    event: &Event,
) -> Result<bool, Memory>
    requires holds { LogHolds scenario.now.setup (kept.Client own.old) log.old.history.items log.old.clock ends.old.rows.items }
    requires at { IsAtClient own.old.number event.now }
    requires numbers { ClientRises own.old.client event.now }
    requires get { IsGet event.now }
    ensures holds { LogHolds scenario.now.setup (kept.Client own.new) log.new.history.items log.new.clock ends.new.rows.items }
    ensures outcome { IfOk result (Outcome E.sent E.taken E.shown E.free E.looks E.fits event.now
        (log_view scenario.now (kept.Client own.old) log.old.history.items log.old.clock ends.old.rows.items)
        (log_view scenario.now (kept.Client own.new) log.new.history.items log.new.clock ends.new.rows.items)) }
    ensures err { OnErr result (SameLog E.sent E.taken
        (log_view scenario.now (kept.Client own.old) log.old.history.items log.old.clock ends.old.rows.items)
        (log_view scenario.now (kept.Client own.new) log.new.history.items log.new.clock ends.new.rows.items)) }
{
    log.history.reserve(1)?;
    let from = Peer::Broker(own.client.view().cluster);
    let Some(last) = get_from(alloc, scenario, own, log.clock, ends, from)? else {
        return Ok(false);
    };
    let packed = Packed {
        stamp: Stamp::new(1 + last),
        sent: Vec::new(alloc),
        parcels: Vec::new(alloc),
    };
    finish(ends, log, *event, Some(from), packed);
    Ok(true)
}

/// What is shown of those from a peer is got, and stays there; the greater of the last stamp and the packet's. `None` where nothing
/// is shown, or its event's stamp has no room. An `Err` is want of memory. Then nothing is got.
#[tactic(auto, using(crate::proofs::Gets::no_look, crate::proofs::Finishing::same_sends))]
fn get_from<E: End>(
    alloc: Global,
    scenario: &Scenario,
    own: &mut NumberedClient,
    clock: Stamp,
    ends: &mut EndTable<E>,
    from: Peer,
) -> Result<Option<u64>, Memory>
    requires there { own.old.number < length scenario.now.setup.clients }
    requires counts { CanCount own.old.client }
    ensures got { IfOk result (λ o. IfSome o (IsGot scenario.now.setup.clusters (declared_at scenario.now.setup own.old.number) own.old.client clock (shown_for E.shown ends.new.rows.items (Some from)) own.new.client)) }
    ensures none { IfOk result (λ o. IfNone o (IsNotGot clock (shown_for E.shown ends.new.rows.items (Some from)))) }
    ensures stays { IfOk result (λ o. IfNone o (own.new ≡ own.old)) }
    ensures err { OnErr result (own.new ≡ own.old) }
    ensures number { own.new.number ≡ own.old.number }
    ensures looks { IfOk result (λ o. LookedFor E.looks ends.old.rows.items ends.new.rows.items (Some from)) }
    ensures sends { SameSends E.sent E.free ends.old.rows.items ends.new.rows.items }
    ensures taken { SameTaken E.taken ends.old.rows.items ends.new.rows.items }
    ensures peers { SamePeers ends.old.rows.items ends.new.rows.items }
{
    let site = site_of(scenario, own.number);
    match ends.place(from) {
        Some(at) => get_at(
            alloc,
            &site,
            &mut own.client,
            clock,
            &mut ends.rows[at].take,
        ),
        None => Ok(None),
    }
}

/// The same of an end.
fn get_at<E: End>(
    alloc: Global,
    site: &ClientSite,
    client: &mut Client,
    clock: Stamp,
    end: &mut E,
) -> Result<Option<u64>, Memory>
    requires { CanCount client.old }
    ensures got { IfOk result (λ o. IfSome o (IsGot site.now.setup.clusters site.now.declared client.old clock (E.shown end.new) client.new)) }
    ensures none { IfOk result (λ o. IfNone o (IsNotGot clock (E.shown end.new))) }
    ensures stays { IfOk result (λ o. IfNone o (client.new ≡ client.old)) }
    ensures err { OnErr result (client.new ≡ client.old) }
    ensures looks { IfOk result (λ o. Looked (E.looks end.old) (E.looks end.new)) }
    ensures sent { E.sent end.new ≡ E.sent end.old }
    ensures free { E.free end.old ≤ E.free end.new }
    ensures taken { E.taken end.new ≡ E.taken end.old }
{
    end.gather()?;
    match end.peek() {
        None => Ok(None),
        Some(packet) => {
            let last = clock.number().max(packet.stamp.number());
            if last >= STAMPS {
                return Ok(None);
            }
            client.get(alloc, site, Some(packet))?;
            Ok(Some(last))
        }
    }
}
