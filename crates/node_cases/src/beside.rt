//! Four logs do the events of a script beside a world that does them too: each event is done at one node where it is not idle in
//! the world, and at none where it is; and both come to the same.
ghost use Rattle.std.specs.Prelude.{◌<◌, ◌≤◌, length};
ghost use Rattle.world.specs.World.{IsAt};

use crate::logs::{Logs, act, add_broker, add_client, carry};
use broker::Broker;
use client::Client;
use geo_base::{EntryStore, Event, Memory, Peer, Step};
use node_log::NodeState;
use script_text::{Scenario, read_script};
use std::alloc::Global;
use std::sync::Arc;
use std::test::Fail;
use world::World;

/// p publishes at a; c consumes there by a replicated subscription, and acknowledges; a snapshot is made, and the other cluster
/// learns of the acknowledgement. So each kind of actor has something to do. The last events find nothing to do.
const SCRIPT: &[u8] = b"geo 1
cluster a
cluster b
topic t
client p t a
client c t a
do p produce
do p pub 0 * - m0
do c sub s1 exclusive earliest replicated
do c flow 10
do c ack a p 0
reconnect p
serve a p
go p
serve a p
go p
serve a p
reconnect c
serve a c
go c
serve a c
go c
serve a c
snap t a
reset t a b
take t a b good
receipt t a b good
reset t b a
take t b a good
receipt t b a good
read t a b
read t a b
take t a b good
take t a b good
receipt t a b good
receipt t a b good
read t b a
read t b a
read t b a
take t b a good
receipt t b a good
read t a b
offer t a s1
offer t a s1
offer t a s1
offer t a s1
get c
get c
get c
go c
serve a c
read t a b
read t a b
take t a b good
receipt t a b good
read t b a
get p
get p
get p
get p
read t b a
take t a b good
serve b p
go p
";

/// The logs of the four nodes by number.
const WEST: usize = 0;

const EAST: usize = 1;

const PUBLISHER: usize = 2;

const CONSUMER: usize = 3;

/// The logs of all nodes.
fn open(alloc: Global, scenario: &Arc<Scenario>, logs: &mut Logs) -> Result<(), Memory> {
    add_broker(alloc, scenario, 0, 64, logs)?;
    add_broker(alloc, scenario, 1, 64, logs)?;
    add_client(alloc, scenario, 0, 64, logs)?;
    add_client(alloc, scenario, 1, 64, logs)
}

/// At how many nodes an event is done; what they send is carried then.
fn act_at_all(alloc: Global, logs: &mut Logs, event: &Event) -> Result<u64, Memory> {
    let west = act(alloc, logs, WEST, event)?;
    let east = act(alloc, logs, EAST, event)?;
    let publisher = act(alloc, logs, PUBLISHER, event)?;
    let consumer = act(alloc, logs, CONSUMER, event)?;
    carry_all(logs)?;
    Ok(count_of(west) + count_of(east) + count_of(publisher) + count_of(consumer))
}

/// 1 for an event that was done.
fn count_of(is_done: bool) -> u64
    ensures { result ≤ 1 }
{
    if is_done { 1 } else { 0 }
}

/// Which nodes send to which peers, and where and from whom it comes.
const LINKS: &[((usize, Peer), (usize, Peer))] = &[
    // The links of both replicators.
    ((WEST, Peer::Forward(1)), (EAST, Peer::Back(0))),
    ((EAST, Peer::Back(0)), (WEST, Peer::Forward(1))),
    ((EAST, Peer::Forward(0)), (WEST, Peer::Back(1))),
    ((WEST, Peer::Back(1)), (EAST, Peer::Forward(0))),
    // Those of the clients.
    ((PUBLISHER, Peer::Broker(0)), (WEST, Peer::Client(0))),
    ((WEST, Peer::Client(0)), (PUBLISHER, Peer::Broker(0))),
    ((CONSUMER, Peer::Broker(0)), (WEST, Peer::Client(1))),
    ((WEST, Peer::Client(1)), (CONSUMER, Peer::Broker(0))),
    ((PUBLISHER, Peer::Broker(1)), (EAST, Peer::Client(0))),
    ((EAST, Peer::Client(0)), (PUBLISHER, Peer::Broker(1))),
    ((CONSUMER, Peer::Broker(1)), (EAST, Peer::Client(1))),
    ((EAST, Peer::Client(1)), (CONSUMER, Peer::Broker(1))),
];

/// Carries all that was sent.
fn carry_all(logs: &mut Logs) -> Result<(), Memory> {
    for &(from, to) in LINKS.iter() {
        carry(logs, from, to)?;
    }
    Ok(())
}

/// The first step at which the logs do another thing than the world; the number of steps where there is none.
fn first_wrong(
    alloc: Global,
    scenario: &Scenario,
    world: &mut World,
    logs: &mut Logs,
) -> Result<usize, Memory>
    requires { IsAt scenario.now.setup world.old }
    ensures { IsAt scenario.now.setup world.new }
{
    let steps = scenario.steps();
    for place in 0..steps.len() {
        let before = world.events();
        let step = steps.at(place);
        if world.step(alloc, scenario, &step).is_err() {
            return Err(Memory);
        }
        let Step::Plain(event) = step else {
            return Ok(place);
        };
        let is_done = world.events() != before;
        if act_at_all(alloc, logs, &event)? != count_of(is_done) {
            return Ok(place);
        }
    }
    Ok(steps.len())
}

/// What is compared of a broker: how many entries it has, its marks for both clusters, how many subscriptions there are, and the
/// backlog of the first one.
fn figures_of(broker: &Broker) -> [u64; 5] {
    [
        broker.store().len() as u64,
        mark_of(broker, 0),
        mark_of(broker, 1),
        broker.subs() as u64,
        backlog_of(broker),
    ]
}

fn mark_of(broker: &Broker, remote: u32) -> u64 {
    if (remote as usize) < broker.site().clusters().len() {
        broker.replicator_mark(remote)
    } else {
        0
    }
}

fn backlog_of(broker: &Broker) -> u64 {
    if broker.subs() > 0 {
        broker.backlog(0)
    } else {
        0
    }
}

/// And of a client: how many lines it did, how many messages it got, and how many receipts.
fn figures_of_client(client: &Client) -> [u64; 5] {
    let view = client.view();
    [
        view.done as u64,
        view.got.len() as u64,
        view.receipts,
        view.duplicates,
        view.errors,
    ]
}

/// The figures of a log; of none where there is no such log.
fn figures_in(logs: &Logs, number: usize) -> [u64; 5] {
    let Some(log) = logs.get(number) else {
        return [0; 5];
    };
    match log.state() {
        NodeState::Broker(broker) => figures_of(broker),
        NodeState::Client(own) => figures_of_client(&own.client),
    }
}

/// Whether a client of the world came to what its log did.
fn is_same_client(
    scenario: &Scenario,
    world: &World,
    client: u32,
    logs: &Logs,
    number: usize,
) -> bool
    requires at { IsAt scenario.now.setup world.now }
    requires client { client < length scenario.now.setup.clients }
{
    figures_in(logs, number) == figures_of_client(world.client(client))
}

/// Whether the world's nodes came to what the logs did.
fn are_same(scenario: &Scenario, world: &World, logs: &Logs) -> bool
    requires { IsAt scenario.now.setup world.now }
{
    if scenario.topics().is_empty()
        || scenario.clusters().len() < 2
        || scenario.clients().len() < 2
    {
        return false;
    }
    figures_in(logs, WEST) == figures_of(world.topic(scenario, 0, 0))
        && figures_in(logs, EAST) == figures_of(world.topic(scenario, 0, 1))
        && is_same_client(scenario, world, 0, logs, PUBLISHER)
        && is_same_client(scenario, world, 1, logs, CONSUMER)
}

/// Whether the logs did what the world did at each event of the script, and came to the same; how many events the world did, and how many
/// were idle.
type Told = (bool, bool, u64, u64);

/// Does the events of the script at the logs and in the world.
fn compare(
    alloc: Global,
    scenario: &Scenario,
    world: &mut World,
    logs: &mut Logs,
) -> Result<Told, Memory>
    requires { IsAt scenario.now.setup world.old }
{
    let first_wrong = first_wrong(alloc, scenario, world, logs)?;
    Ok((
        first_wrong == scenario.steps().len(),
        are_same(scenario, world, logs),
        world.events(),
        world.counts().idle,
    ))
}

/// And in a new world.
fn compare_new(alloc: Global, scenario: &Scenario, logs: &mut Logs) -> Result<Told, Memory> {
    let mut world = World::new(alloc, scenario)?;
    let told = compare(alloc, scenario, &mut world, logs);
    world.let_go();
    told
}

fn tell(alloc: Global, scenario: &Arc<Scenario>, logs: &mut Logs) -> Result<Told, Memory> {
    open(alloc, scenario, logs)?;
    compare_new(alloc, scenario, logs)
}

#[test]
fn logs_and_a_world_come_to_the_same(rt: HostRuntime) -> Result<(), Fail> {
    let alloc = rt.alloc();
    let scenario = Arc::new(alloc, read_script(alloc, SCRIPT)?)?;
    let mut logs = Vec::new(alloc);
    let told = tell(alloc, &scenario, &mut logs);
    drop(logs);
    drop(scenario);
    assert!(rt; told? == (true, true, 48, 5));
    Ok(())
}
