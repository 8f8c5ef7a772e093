//! A message is published at a broker, node by node.
use crate::logs::{Logs, act, add_broker, add_client, carry, events_of, scenario, stamp_of};
use geo_base::{Event, Memory, Peer};
use node_log::NodeState;
use script_text::Scenario;
use std::alloc::Global;
use std::sync::Arc;
use std::test::Fail;

const GO: Event = Event::Go { client: 0 };

const GET: Event = Event::Get { client: 0 };

const CONNECT: Event = Event::Reconnect { client: 0 };

const SERVE: Event = Event::Serve {
    cluster: 0,
    client: 0,
};

const RESET: Event = Event::Reset {
    topic: 0,
    source: 0,
    target: 1,
};

/// Whether it is the client's, the event, whether it is done, and the node's last stamp then. All that is sent comes before the next one.
const ROWS: &[(bool, Event, bool, u64)] = &[
    (true, CONNECT, true, 1),
    (false, SERVE, true, 2),
    (true, GET, true, 3),
    (true, GO, true, 4),
    (false, SERVE, true, 5),
    (true, GET, true, 6),
    (true, GO, true, 7),
    (false, SERVE, true, 8),
    (true, GET, true, 9),
    // No line is left, and no packet.
    (true, GO, false, 9),
    (true, GET, false, 9),
    (false, SERVE, false, 8),
    (false, RESET, true, 9),
];

/// The logs of the two nodes by number.
const CLIENT: usize = 0;

const BROKER: usize = 1;

/// The first row at which the logs are another than it says; the number of rows where there is none.
fn first_wrong(alloc: Global, logs: &mut Logs) -> Result<usize, Memory> {
    for (number, &(is_client, event, is_done, stamp)) in ROWS.iter().enumerate() {
        let node = if is_client { CLIENT } else { BROKER };
        if act(alloc, logs, node, &event)? != is_done || stamp_of(logs, node) != stamp {
            return Ok(number);
        }
        carry(logs, (CLIENT, Peer::Broker(0)), (BROKER, Peer::Client(0)))?;
        carry(logs, (BROKER, Peer::Client(0)), (CLIENT, Peer::Broker(0)))?;
    }
    Ok(ROWS.len())
}

/// How many receipts the client has.
fn receipts(logs: &Logs) -> u64 {
    let Some(log) = logs.get(CLIENT) else {
        return 0;
    };
    match log.state() {
        NodeState::Client(own) => own.client.view().receipts,
        NodeState::Broker(_) => 0,
    }
}

/// The number of a node; that of none where there is no such log.
fn number_of(logs: &Logs, number: usize) -> u32 {
    match logs.get(number) {
        Some(log) => log.number(),
        None => u32::MAX,
    }
}

/// The numbers of the rows that are right, of the client's receipts, of both nodes' events, and of the nodes.
fn tell(alloc: Global, scenario: &Arc<Scenario>, logs: &mut Logs) -> Result<[u64; 6], Memory> {
    add_client(alloc, scenario, 0, 8, logs)?;
    add_broker(alloc, scenario, 0, 8, logs)?;
    let right = first_wrong(alloc, logs)?;
    Ok([
        right as u64,
        receipts(logs),
        events_of(logs, CLIENT) as u64,
        events_of(logs, BROKER) as u64,
        number_of(logs, CLIENT) as u64,
        number_of(logs, BROKER) as u64,
    ])
}

#[test]
fn a_message_is_published(rt: HostRuntime) -> Result<(), Fail> {
    let alloc = rt.alloc();
    let scenario = scenario(alloc)?;
    let mut logs = Vec::new(alloc);
    let told = tell(alloc, &scenario, &mut logs);
    drop(logs);
    drop(scenario);
    assert!(rt; told? == [13, 1, 6, 4, 2, 0]);
    Ok(())
}
