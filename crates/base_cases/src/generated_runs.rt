//! What no contract says: that memory suffices. The expected steps are those of PCG's reference code and of the rules in words.
use geo_base::{Event, Fate, Step};
use script_generator::*;
use script_text::StepList;
use std::process::Abort;
use std::test::Fail;

/// The number of the tested run.
const NUMBER: u32 = 7;

/// All its steps: 4 and 6, 20,000 turns, three producers with a reconnect and 4,000 rounds of 4, and the settling.
const STEPS: usize = 68_014;

/// Some of the steps, by their places.
const ROWS: &[(usize, Event)] = &[
    (0, Event::Reconnect { client: 0 }),
    (
        9,
        Event::Reset {
            topic: 0,
            source: 2,
            target: 1,
        },
    ),
    (10, Event::Go { client: 0 }),
    (
        11,
        Event::Offer {
            topic: 0,
            cluster: 2,
            sub: 0,
        },
    ),
    (12, Event::Get { client: 3 }),
    (
        13,
        Event::Serve {
            cluster: 2,
            client: 3,
        },
    ),
    (
        15,
        Event::Read {
            topic: 0,
            source: 2,
            target: 0,
        },
    ),
    (
        30,
        Event::Receipt {
            topic: 0,
            source: 1,
            target: 2,
            fate: Fate::Twice,
        },
    ),
    (
        31,
        Event::Take {
            topic: 0,
            source: 1,
            target: 2,
            fate: Fate::Good,
        },
    ),
    (1_009, Event::Reconnect { client: 0 }),
    (
        2_509,
        Event::Restart {
            topic: 0,
            cluster: 2,
        },
    ),
    (
        20_008,
        Event::Offer {
            topic: 0,
            cluster: 1,
            sub: 0,
        },
    ),
    (20_009, Event::Reconnect { client: 3 }),
    (36_012, Event::Go { client: 1 }),
];

#[test]
fn a_run_is_that_of_its_number(rt: HostRuntime) -> Result<(), Fail> {
    let run = generate(rt.alloc(), NUMBER)?;
    have_rows(&rt, &run.steps);
    drop(run);
    Ok(())
}

fn have_rows(rt: &impl Abort, steps: &StepList) {
    assert_eq!(rt; steps.len(), STEPS);
    for (place, event) in ROWS.iter() {
        assert!(rt; *place < STEPS);
        assert!(rt; steps.at(*place) == Step::Plain(*event), "at {place}");
    }
    assert!(rt; steps.at(STEPS - 1) == Step::Settle);
}
