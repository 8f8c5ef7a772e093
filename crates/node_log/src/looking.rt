//! What came for an event of a broker, and what it will do.
ghost use Rattle.std.specs.Prelude.{◌≡◌, ◌≤◌, IfOk, None, OnOk, Some};
ghost use Rattle.log_parts.specs.Rows.{LooksRise, SamePeers, SameSends, SameTaken};
ghost use Rattle.broker.specs.Events.{IsOfNode, NumbersRise};
ghost use Rattle.broker.specs.Node.{IsReady, SameNode};
ghost use Rattle.broker_state.specs.Plan.{IsEmptyPlan};
ghost use Rattle.node_log.specs.Acts.{LookedFor, shown_for};
ghost use Rattle.node_log.specs.Looking.{IsLooked};
ghost use Rattle.wire_ends.specs.Looks.{Looked};

use broker::Broker;
use broker_state::Plan;
use geo_base::{Event, Memory, Peer};
use log_parts::EndTable;
use std::alloc::Global;
use wire_ends::End;

/// Looks what came for an event from the peer that it takes from, if it takes from one, and prepares what it will do with that; the
/// stamp of the packet, 0 where there is none. An `Err` is want of memory. The state is as it was.
#[tactic(auto, using(crate::proofs::Finishing::same_sends))]
pub(crate) fn look<E: End>(
    alloc: Global,
    event: &Event,
    node: &mut Broker,
    ends: &mut EndTable<E>,
    from: Option<Peer>,
    plan: &mut Plan,
) -> Result<u64, Memory>
    requires node { IsOfNode node.old event.now }
    requires numbers { NumbersRise node.old event.now }
    requires empty { IsEmptyPlan plan.old }
    ensures looked { IfOk result (λ n. IsLooked node.old event.now (shown_for E.shown ends.new.rows.items from) n plan.new) }
    ensures ready { OnOk result (IsReady node.new plan.new) }
    ensures broker { node.new.broker ≡ node.old.broker }
    ensures node { SameNode node.old node.new }
    ensures looks { OnOk result (LookedFor E.looks ends.old.rows.items ends.new.rows.items from) }
    ensures rise { LooksRise E.looks ends.old.rows.items ends.new.rows.items }
    ensures sends { SameSends E.sent E.free ends.old.rows.items ends.new.rows.items }
    ensures taken { SameTaken E.taken ends.old.rows.items ends.new.rows.items }
    ensures peers { SamePeers ends.old.rows.items ends.new.rows.items }
{
    match from {
        Some(peer) => look_from(alloc, event, node, ends, peer, plan),
        None => prepare_nothing(alloc, event, node, plan),
    }
}

/// An event that takes no packet, or finds none.
#[tactic(auto, using(crate::proofs::Looks::looked_nothing))]
fn prepare_nothing(
    alloc: Global,
    event: &Event,
    node: &mut Broker,
    plan: &mut Plan,
) -> Result<u64, Memory>
    requires node { IsOfNode node.old event.now }
    requires numbers { NumbersRise node.old event.now }
    requires empty { IsEmptyPlan plan.old }
    ensures looked { IfOk result (λ n. IsLooked node.old event.now None n plan.new) }
    ensures ready { OnOk result (IsReady node.new plan.new) }
    ensures broker { node.new.broker ≡ node.old.broker }
    ensures node { SameNode node.old node.new }
{
    node.prepare(alloc, event, None, plan)?;
    Ok(0)
}

/// The same of an event that takes from a peer; nothing came where the node has no such peer.
#[tactic(auto, using(crate::proofs::Finishing::same_sends))]
fn look_from<E: End>(
    alloc: Global,
    event: &Event,
    node: &mut Broker,
    ends: &mut EndTable<E>,
    from: Peer,
    plan: &mut Plan,
) -> Result<u64, Memory>
    requires node { IsOfNode node.old event.now }
    requires numbers { NumbersRise node.old event.now }
    requires empty { IsEmptyPlan plan.old }
    ensures looked { IfOk result (λ n. IsLooked node.old event.now (shown_for E.shown ends.new.rows.items (Some from)) n plan.new) }
    ensures ready { OnOk result (IsReady node.new plan.new) }
    ensures broker { node.new.broker ≡ node.old.broker }
    ensures node { SameNode node.old node.new }
    ensures looks { OnOk result (LookedFor E.looks ends.old.rows.items ends.new.rows.items (Some from)) }
    ensures rise { LooksRise E.looks ends.old.rows.items ends.new.rows.items }
    ensures sends { SameSends E.sent E.free ends.old.rows.items ends.new.rows.items }
    ensures taken { SameTaken E.taken ends.old.rows.items ends.new.rows.items }
    ensures peers { SamePeers ends.old.rows.items ends.new.rows.items }
{
    match ends.place(from) {
        Some(at) => look_at(alloc, event, node, &mut ends.rows[at].take, plan),
        None => prepare_nothing(alloc, event, node, plan),
    }
}

/// The same of an end.
fn look_at<E: End>(
    alloc: Global,
    event: &Event,
    node: &mut Broker,
    end: &mut E,
    plan: &mut Plan,
) -> Result<u64, Memory>
    requires node { IsOfNode node.old event.now }
    requires numbers { NumbersRise node.old event.now }
    requires empty { IsEmptyPlan plan.old }
    ensures looked { IfOk result (λ n. IsLooked node.old event.now (E.shown end.new) n plan.new) }
    ensures ready { OnOk result (IsReady node.new plan.new) }
    ensures broker { node.new.broker ≡ node.old.broker }
    ensures node { SameNode node.old node.new }
    ensures looks { OnOk result (Looked (E.looks end.old) (E.looks end.new)) }
    ensures sent { E.sent end.new ≡ E.sent end.old }
    ensures free { E.free end.old ≤ E.free end.new }
    ensures taken { E.taken end.new ≡ E.taken end.old }
{
    end.gather()?;
    match end.peek() {
        None => prepare_nothing(alloc, event, node, plan),
        Some(packet) => {
            node.prepare(alloc, event, Some(packet), plan)?;
            Ok(packet.stamp.number())
        }
    }
}
