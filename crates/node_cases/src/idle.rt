//! An event that is idle, or another node's, is not done.
use crate::logs::{Logs, act, add_broker, events_of, scenario, stamp_of};
use geo_base::{Event, Memory};
use script_text::Scenario;
use std::alloc::Global;
use std::sync::Arc;
use std::test::Fail;

/// At a broker without a session: none of them is done.
const EVENTS: &[Event] = &[
    // Nothing came, no session is open, no entry is there.
    Event::Serve {
        cluster: 0,
        client: 0,
    },
    Event::Drop {
        cluster: 0,
        client: 0,
    },
    Event::Read {
        topic: 0,
        source: 0,
        target: 1,
    },
    // At another cluster, of no topic, a client's.
    Event::Restart {
        topic: 0,
        cluster: 1,
    },
    Event::Restart {
        topic: 1,
        cluster: 0,
    },
    Event::Go { client: 0 },
];

/// Whether none is done.
fn does_none(alloc: Global, logs: &mut Logs) -> Result<bool, Memory> {
    for event in EVENTS.iter() {
        if act(alloc, logs, 0, event)? {
            return Ok(false);
        }
    }
    Ok(true)
}

const RESTART: Event = Event::Restart {
    topic: 0,
    cluster: 0,
};

/// Whether none is done and none stands in the log, and an event that is not idle is done; how many events stand there then, and the
/// last stamp.
fn tell(
    alloc: Global,
    scenario: &Arc<Scenario>,
    logs: &mut Logs,
) -> Result<(bool, bool, usize, u64), Memory> {
    add_broker(alloc, scenario, 0, 2, logs)?;
    let is_left = does_none(alloc, logs)? && events_of(logs, 0) == 0;
    let is_done = act(alloc, logs, 0, &RESTART)?;
    Ok((is_left, is_done, events_of(logs, 0), stamp_of(logs, 0)))
}

#[test]
fn an_idle_event_is_not_done(rt: HostRuntime) -> Result<(), Fail> {
    let alloc = rt.alloc();
    let scenario = scenario(alloc)?;
    let mut logs = Vec::new(alloc);
    let told = tell(alloc, &scenario, &mut logs);
    drop(logs);
    drop(scenario);
    assert!(rt; told? == (true, true, 1, 1));
    Ok(())
}
