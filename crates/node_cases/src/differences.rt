//! Packets that were taken and are not those that were sent.
use crate::merging::{Configs, ROWS, Row, SCRIPT, ScriptNode, Taken, Wrong, merge_of};
use geo_base::{Memory, Step};
use merge_history::{Difference, Merged};
use script_text::{Scenario, read_script};
use std::alloc::Global;
use std::sync::Arc;
use std::test::Fail;
use wire_ends::WirePacket;

/// Which rows are wrong and how, and the row whose packet is the first that differs.
const CASES: &[(&[(usize, Wrong)], usize)] = &[
    (&[(1, Wrong::Session)], 1),
    (&[(1, Wrong::Stamp)], 1),
    (&[(1, Wrong::Frame)], 1),
    (&[(3, Wrong::Session)], 3),
    (&[(3, Wrong::Stamp)], 3),
    (&[(3, Wrong::Frame)], 3),
    (&[(4, Wrong::Session)], 4),
    (&[(4, Wrong::Stamp)], 4),
    (&[(4, Wrong::Frame)], 4),
    (&[(5, Wrong::Session)], 5),
    (&[(5, Wrong::Stamp)], 5),
    (&[(5, Wrong::Frame)], 5),
    (&[(7, Wrong::Session)], 7),
    (&[(7, Wrong::Stamp)], 7),
    (&[(7, Wrong::Frame)], 7),
    (&[(0, Wrong::NothingSent)], 1),
    (&[(1, Wrong::NothingSent)], 3),
    (&[(4, Wrong::NothingSent)], 5),
    (&[(6, Wrong::NothingSent)], 7),
    (&[(4, Wrong::Frame), (3, Wrong::Frame)], 3),
    (&[(7, Wrong::Stamp), (5, Wrong::Session)], 5),
];

#[test]
fn the_first_difference_is_told(rt: HostRuntime) -> Result<(), Fail> {
    let alloc = rt.alloc();
    let scenario = Arc::new(alloc, read_script(alloc, SCRIPT)?)?;
    let configs = Configs::of(&scenario)?;
    let differs_nowhere = differs_nowhere(alloc, &scenario, &configs);
    let other = first_other(alloc, &scenario, &configs);
    drop(configs);
    drop(scenario);
    assert!(rt; differs_nowhere?, "nothing differs");
    assert_eq!(rt; other?, None);
    Ok(())
}

/// Whether nothing differs where no row is wrong.
fn differs_nowhere(
    alloc: Global,
    scenario: &Arc<Scenario>,
    configs: &Configs,
) -> Result<bool, Memory> {
    let merge = merge_of(alloc, scenario, configs, [0, 1, 2], &[])?;
    let differs_nowhere = merge.differs.is_none() && has_all(&merge);
    drop(merge);
    Ok(differs_nowhere)
}

/// The number of the first case that is told otherwise.
fn first_other(
    alloc: Global,
    scenario: &Arc<Scenario>,
    configs: &Configs,
) -> Result<Option<usize>, Memory> {
    for (number, (wrong, first)) in CASES.iter().enumerate() {
        let merge = merge_of(alloc, scenario, configs, [0, 1, 2], wrong)?;
        let is_told = is_case(&merge, wrong, *first);
        drop(merge);
        if !is_told {
            return Ok(Some(number));
        }
    }
    Ok(None)
}

/// Whether the row of a case is the first that differs, and the steps are those of all rows.
fn is_case(merge: &Merged, wrong: &[(usize, Wrong)], first: usize) -> bool {
    first < ROWS.len() && is_told(merge, &ROWS[first], wrong) && has_all(merge)
}

/// Whether the steps are those of all rows, in their order.
fn has_all(merge: &Merged) -> bool {
    if merge.steps.len() != ROWS.len() {
        return false;
    }
    for (place, row) in ROWS.iter().enumerate() {
        if merge.steps.at(place) != Step::Plain(row.event) {
            return false;
        }
    }
    true
}

/// Whether what differs is the packet that a row took, where the replicator sent it or nothing.
fn is_told(merge: &Merged, row: &Row, wrong: &[(usize, Wrong)]) -> bool {
    let Some(expected) = row.taken else {
        return false;
    };
    match &merge.differs {
        Some(
            Difference::Packet {
                node,
                peer,
                index,
                sent,
                taken,
            },
        ) => {
            *node == number_of(row.place)
                && *peer == expected.peer
                && *index == expected.index
                && is_sent(sent, &expected, wrong)
                && taken
                    .frame
                    .as_slice()
                    .starts_with(expected.frame.as_bytes())
        }
        _ => false,
    }
}

fn number_of(place: ScriptNode) -> u32 {
    match place {
        ScriptNode::West => 0,
        ScriptNode::East => 1,
        ScriptNode::Client => 2,
    }
}

/// Whether it is the packet that was sent, or none where nothing was.
fn is_sent(sent: &Option<WirePacket>, expected: &Taken, wrong: &[(usize, Wrong)]) -> bool {
    let nothing = wrong.iter().any(|(_, what)| *what == Wrong::NothingSent);
    match sent {
        Some(packet) => {
            !nothing
                && packet.session == 1
                && packet.stamp.number() == expected.stamp
                && packet.frame.as_slice() == expected.frame.as_bytes()
        }
        None => nothing,
    }
}
