//! Logs that are not those of their places.
use crate::merging::{Configs, SCRIPT, merge_of};
use geo_base::Memory;
use merge_history::{Difference, Merged};
use script_text::{Scenario, read_script};
use std::alloc::Global;
use std::sync::Arc;
use std::test::Fail;

/// Another client's name.
const OTHER: &[u8] = b"geo 1\ncluster a\ncluster b\ntopic t\nclient q t a\n";

/// The logs' numbers by place, which of them keeps the other script, the first strange place with the number of the log there,
/// and how many steps are left.
type Case = ([u32; 3], u32, u32, u32, usize);

const CASES: &[Case] = &[
    ([0, 1, 2], 0, 0, 0, 4),
    ([0, 1, 2], 1, 1, 1, 6),
    ([0, 1, 2], 2, 2, 2, 6),
    ([1, 0, 2], 3, 0, 1, 2),
    ([0, 2, 2], 3, 1, 2, 6),
];

#[test]
fn the_first_strange_log_is_told(rt: HostRuntime) -> Result<(), Fail> {
    let alloc = rt.alloc();
    let scenario = Arc::new(alloc, read_script(alloc, SCRIPT)?)?;
    let other = Arc::new(alloc, read_script(alloc, OTHER)?)?;
    let wrong = first_other(alloc, &scenario, &other);
    drop(other);
    drop(scenario);
    assert_eq!(rt; wrong?, None);
    Ok(())
}

/// The number of the first case that is told otherwise.
fn first_other(
    alloc: Global,
    scenario: &Arc<Scenario>,
    other: &Arc<Scenario>,
) -> Result<Option<usize>, Memory> {
    for (number, case) in CASES.iter().enumerate() {
        if !is_case(alloc, scenario, other, case)? {
            return Ok(Some(number));
        }
    }
    Ok(None)
}

/// Whether the first strange log of a case is told, and so many steps are left.
fn is_case(
    alloc: Global,
    scenario: &Arc<Scenario>,
    other: &Arc<Scenario>,
    case: &Case,
) -> Result<bool, Memory> {
    let (numbers, keeps_other, first, number, steps) = *case;
    let configs = configs_of(scenario, other, keeps_other)?;
    let merge = merge_of(alloc, scenario, &configs, numbers, &[]);
    drop(configs);
    let merge = merge?;
    let kept = if keeps_other < 3 { other } else { scenario };
    let is_told = is_told(alloc, &merge, first, number, kept, scenario);
    let has_steps = merge.steps.len() == steps;
    drop(merge);
    Ok(has_steps && is_told?)
}

/// The first scenario at all nodes but one.
fn configs_of(
    scenario: &Arc<Scenario>,
    other: &Arc<Scenario>,
    keeps_other: u32,
) -> Result<Configs, Memory> {
    let west = if keeps_other == 0 { other } else { scenario };
    let east = if keeps_other == 1 { other } else { scenario };
    let client = if keeps_other == 2 { other } else { scenario };
    Ok(Configs {
        west: Arc::try_clone(west)?,
        east: Arc::try_clone(east)?,
        client: Arc::try_clone(client)?,
    })
}

/// Whether the first strange log is at a place, and has this number and keeps this scenario.
fn is_told(
    alloc: Global,
    merge: &Merged,
    first: u32,
    number: u32,
    keeps: &Scenario,
    scenario: &Scenario,
) -> Result<bool, Memory> {
    match &merge.differs {
        Some(Difference::Config { node, kept, given }) => Ok(
            *node == first
                && kept.node == number
                && given.node == first
                && kept.scenario.is_same(alloc, keeps)?
                && given.scenario.is_same(alloc, scenario)?,
        ),
        _ => Ok(false),
    }
}
