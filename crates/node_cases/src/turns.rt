//! First turns of actors.
ghost use Rattle.std.specs.Prelude.{◌≡◌, IfOk};
ghost use Rattle.std.specs.Arc.{arc_value};

use actors::{Actor, Link, Role};
use geo_base::{Event, Memory};
use link_rings::RingEnd;
use live_run::NodeRings;
use node_log::NodeLog;
use script_text::{Scenario, read_script};
use std::alloc::Global;
use std::sync::Arc;
use std::test::Fail;

/// Two clusters and a client, without chances.
const SCRIPT: &[u8] =
    b"geo 1\ncluster a\ncluster b\ntopic t\nclient p t a\ndo p produce\ndo p pub 0 * - hi\n";

/// The log of the broker of the first topic at the first cluster, before any event.
fn first_log(alloc: Global, scenario: &Arc<Scenario, Global>) -> Result<NodeLog<RingEnd>, Memory> {
    let _known = scenario.topics();
    let mut rings = NodeRings::new(alloc, scenario)?;
    let ends = rings.broker(alloc, scenario, 0, 0);
    drop(rings);
    let ends = ends?;
    let shared = Arc::try_clone(scenario)?;
    NodeLog::broker(alloc, shared, 0, 0, ends)
}

/// What an actor's first turn on that log was.
#[derive(Clone, Copy)]
struct Turn {
    /// Whether it did something.
    did: bool,
    /// How many events the log has then.
    events: usize,
    /// The first of them.
    first: Option<Event>,
}

fn first_turn(alloc: Global, actor: u32, role: Role) -> Result<Turn, Fail> {
    let scenario = Arc::new(alloc, read_script(alloc, SCRIPT)?)?;
    let turn = turn_of(alloc, &scenario, actor, role);
    drop(scenario);
    Ok(turn?)
}

fn turn_of(
    alloc: Global,
    scenario: &Arc<Scenario>,
    actor: u32,
    role: Role,
) -> Result<Turn, Memory> {
    let mut log = first_log(alloc, scenario)?;
    let turn = turn_at(alloc, scenario, actor, role, &mut log);
    log.let_go();
    turn
}

fn turn_at(
    alloc: Global,
    scenario: &Arc<Scenario>,
    actor: u32,
    role: Role,
    log: &mut NodeLog<RingEnd>,
) -> Result<Turn, Memory> {
    let mut actor = Actor::new(scenario, actor, role);
    let did = actor.turn(alloc, log)?;
    Ok(Turn {
        did,
        events: log.history().len(),
        first: log.history().first().map(|done| done.event),
    })
}

#[test]
fn a_replicators_first_turn_begins_a_session(rt: HostRuntime) -> Result<(), Fail> {
    let role = Role::Replicator(Link {
        topic: 0,
        source: 0,
        target: 1,
    });
    let reset = Event::Reset {
        topic: 0,
        source: 0,
        target: 1,
    };
    let turn = first_turn(rt.alloc(), 0, role)?;
    assert!(rt; turn.did && turn.events == 1 && turn.first == Some(reset));
    Ok(())
}

#[test]
fn a_receiver_finds_nothing_on_an_empty_link(rt: HostRuntime) -> Result<(), Fail> {
    let role = Role::Receiver(Link {
        topic: 0,
        source: 1,
        target: 0,
    });
    let turn = first_turn(rt.alloc(), 3, role)?;
    assert!(rt; !turn.did && turn.events == 0);
    Ok(())
}
