//! A new broker has nothing to offer and no cursor to set, and may start again.
ghost use Rattle.std.specs.Prelude.{◌≡◌, [], IfOk};
ghost use Rattle.broker_plans.specs.Prepared.{CanWrite};

use broker_state::{BrokerState, Plan, Site};
use broker_tasks::*;
use geo_base::{ClusterName, TopicName};
use std::alloc::Global;
use std::test::Fail;

/// A new broker of the first of two clusters.
fn new_broker(alloc: Global) -> Result<BrokerState, Fail>
    ensures can { IfOk result (λ b. CanWrite b.site b.broker) }
    ensures none { IfOk result (λ b. b.broker.subs ≡ []) }
{
    let mut clusters = Vec::new(alloc);
    clusters.push(ClusterName::read(alloc, "west")?)?;
    clusters.push(ClusterName::read(alloc, "east")?)?;
    let site = Site::new(0, clusters, TopicName::read(alloc, "t")?, 2);
    Ok(BrokerState::new(alloc, site, 1)?)
}

/// Whether a broker's plan is idle. Both end here, since what their end does is long to show, and is so shown once.
fn is_idle(broker: BrokerState, plan: Plan) -> bool {
    let is_idle = plan.is_idle();
    drop(broker);
    drop(plan);
    is_idle
}

#[test]
fn nothing_is_offered(rt: HostRuntime) -> Result<(), Fail> {
    let mut broker = new_broker(rt.alloc())?;
    let mut plan = Plan::new(rt.alloc());
    let prepared = prepare_offer(rt.alloc(), &mut broker, b"s", &mut plan);
    let is_idle = is_idle(broker, plan);
    prepared?;
    assert!(rt; is_idle);
    Ok(())
}

#[test]
fn no_cursor_is_set(rt: HostRuntime) -> Result<(), Fail> {
    let mut broker = new_broker(rt.alloc())?;
    let mut plan = Plan::new(rt.alloc());
    let prepared = prepare_seek(rt.alloc(), &mut broker, b"s", None, &mut plan);
    let is_idle = is_idle(broker, plan);
    prepared?;
    assert!(rt; is_idle);
    Ok(())
}

#[test]
fn a_restart_is_no_idle_event(rt: HostRuntime) -> Result<(), Fail> {
    let mut broker = new_broker(rt.alloc())?;
    let mut plan = Plan::new(rt.alloc());
    let prepared = prepare_restart(&mut broker, &mut plan);
    let is_idle = is_idle(broker, plan);
    prepared?;
    assert!(rt; !is_idle);
    Ok(())
}
