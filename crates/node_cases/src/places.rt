//! An event whose packets do not all fit is not done.
use crate::logs::{Logs, act, add_client, events_of, next_of, scenario};
use geo_base::{Event, Memory, Peer};
use script_text::Scenario;
use std::alloc::Global;
use std::sync::Arc;
use std::test::Fail;

/// Whether the client connects again, which sends two packets from the first line on, or does its next line, which sends one; how many
/// packets the broker has taken before it; whether it is done; and how many events are.
const ROWS: &[(bool, u32, bool, usize)] = &[
    (true, 0, true, 1),
    (false, 0, true, 2),
    // Both places are full, and then one.
    (true, 0, false, 2),
    (true, 1, false, 2),
    (true, 1, true, 3),
    (false, 2, true, 4),
];

/// The first row at which the log is another than it says; the number of rows where there is none.
fn first_wrong(alloc: Global, logs: &mut Logs) -> Result<usize, Memory> {
    for (number, &(is_again, taken, is_done, events)) in ROWS.iter().enumerate() {
        for _ in 0..taken {
            if next_of(logs, 0, Peer::Broker(0)).is_none() {
                return Ok(number);
            }
        }
        let event = if is_again {
            Event::Reconnect { client: 0 }
        } else {
            Event::Go { client: 0 }
        };
        if act(alloc, logs, 0, &event)? != is_done || events_of(logs, 0) != events {
            return Ok(number);
        }
    }
    Ok(ROWS.len())
}

/// The number of the rows that are right.
fn tell(alloc: Global, scenario: &Arc<Scenario>, logs: &mut Logs) -> Result<usize, Memory> {
    add_client(alloc, scenario, 0, 2, logs)?;
    first_wrong(alloc, logs)
}

#[test]
fn a_full_end_holds_an_event(rt: HostRuntime) -> Result<(), Fail> {
    let alloc = rt.alloc();
    let scenario = scenario(alloc)?;
    let mut logs = Vec::new(alloc);
    let right = tell(alloc, &scenario, &mut logs);
    drop(logs);
    drop(scenario);
    assert_eq!(rt; right?, 6);
    Ok(())
}
