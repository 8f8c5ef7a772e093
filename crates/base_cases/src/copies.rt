//! Copies.
use geo_base::{Cut, Memory, Position, Sequence};
use std::alloc::Global;
use std::test::Fail;

/// Where a cut of two clusters stands, in its own cluster and in one of the others.
const HERE: Position = Position {
    ledger: 0,
    entry: 7,
};

/// The places of a cut in the other clusters.
const REMOTE: &[Option<Position>] = &[None, Some(HERE)];

#[test]
fn a_cut_is_copied(rt: HostRuntime) -> Result<(), Fail> {
    assert!(rt; is_copied(rt.alloc())?);
    Ok(())
}

/// Whether the copy of a cut is that cut.
fn is_copied(alloc: Global) -> Result<bool, Memory> {
    let cut = Cut {
        local: HERE,
        remote: Sequence::from_vec(REMOTE.to_vec(alloc)?),
    };
    let copy = cut.copy(alloc);
    drop(cut);
    let copy = copy?;
    Ok(copy.local == HERE && copy.remote.as_slice() == REMOTE)
}
