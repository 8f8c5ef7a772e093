//! A broker does an event.
ghost use Rattle.std.specs.Prelude.{IfOk, OnErr};
ghost use Rattle.broker.specs.Events.{CanHappen};
ghost use Rattle.broker_state.specs.Plan.{IsEmptyPlan};
ghost use Rattle.node_log.specs.Acting.{Outcome};
ghost use Rattle.node_log.specs.Acts.{SameLog};
ghost use Rattle.node_log.specs.Logs.{LogHolds, log_view};
ghost use Rattle.node_log.specs.Owning.{IsAtBroker};
ghost use Rattle.node_log.specs.declared.state.NodeState.TheVariants as kept;

use crate::acting::finish;
use crate::log::Log;
use crate::looking::look;
use crate::owning::{is_brokers, taken_from};
use crate::packing::make_ready;
use broker::Broker;
use broker_state::Plan;
use geo_base::{Event, Memory};
use log_parts::EndTable;
use script_text::Scenario;
use std::alloc::Global;
use wire_ends::End;

/// Does an event of a broker: see `NodeLog::act`.
pub(crate) fn act_at_broker<E: End>(
    alloc: Global,
    scenario: &Scenario,
    node: &mut Broker,
    log: &mut Log,
    ends: &mut EndTable<E>,
    event: &Event,
) -> Result<bool, Memory>
    requires { LogHolds scenario.now.setup (kept.Broker node.old) log.old.history.items log.old.clock ends.old.rows.items }
    ensures holds { LogHolds scenario.now.setup (kept.Broker node.new) log.new.history.items log.new.clock ends.new.rows.items }
    ensures outcome { IfOk result (Outcome E.sent E.taken E.shown E.free E.looks E.fits event.now
        (log_view scenario.now (kept.Broker node.old) log.old.history.items log.old.clock ends.old.rows.items)
        (log_view scenario.now (kept.Broker node.new) log.new.history.items log.new.clock ends.new.rows.items)) }
    ensures err { OnErr result (SameLog E.sent E.taken
        (log_view scenario.now (kept.Broker node.old) log.old.history.items log.old.clock ends.old.rows.items)
        (log_view scenario.now (kept.Broker node.new) log.new.history.items log.new.clock ends.new.rows.items)) }
{
    if !is_brokers(scenario, node, event) {
        return Ok(false);
    }
    if !node.accepts(event) {
        return Ok(false);
    }
    let mut plan = Plan::new(alloc);
    let acted = act_by(alloc, scenario, node, log, ends, event, &mut plan);
    // by a call, so that the end of a plan is proved by itself
    drop(plan);
    acted
}

/// Does an event of its own, whose numbers have room, by a plan that is empty.
#[tactic(auto, using(crate::proofs::BrokerActs::broker_err, crate::proofs::BrokerActs::broker_err_late))]
fn act_by<E: End>(
    alloc: Global,
    scenario: &Scenario,
    node: &mut Broker,
    log: &mut Log,
    ends: &mut EndTable<E>,
    event: &Event,
    plan: &mut Plan,
) -> Result<bool, Memory>
    requires holds { LogHolds scenario.now.setup (kept.Broker node.old) log.old.history.items log.old.clock ends.old.rows.items }
    requires at { IsAtBroker scenario.now.setup node.old.topic node.old.site.own event.now }
    requires can { CanHappen node.old event.now }
    requires empty { IsEmptyPlan plan.old }
    ensures holds { LogHolds scenario.now.setup (kept.Broker node.new) log.new.history.items log.new.clock ends.new.rows.items }
    ensures outcome { IfOk result (Outcome E.sent E.taken E.shown E.free E.looks E.fits event.now
        (log_view scenario.now (kept.Broker node.old) log.old.history.items log.old.clock ends.old.rows.items)
        (log_view scenario.now (kept.Broker node.new) log.new.history.items log.new.clock ends.new.rows.items)) }
    ensures err { OnErr result (SameLog E.sent E.taken
        (log_view scenario.now (kept.Broker node.old) log.old.history.items log.old.clock ends.old.rows.items)
        (log_view scenario.now (kept.Broker node.new) log.new.history.items log.new.clock ends.new.rows.items)) }
{
    let from = taken_from(event);
    let shown = look(alloc, event, node, ends, from, plan)?;
    let outs = plan.take_sent(alloc).into_vec();
    let Some(packed) = make_ready(alloc, ends, log, plan.is_idle(), shown, outs)? else {
        return Ok(false);
    };
    node.commit(plan);
    finish(ends, log, *event, from, packed);
    Ok(true)
}
