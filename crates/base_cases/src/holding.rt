//! What is held, call by call.
use client::HeldTable;
use geo_base::{Held, Ident, Memory, Position, ProducerName};
use std::alloc::Global;
use std::test::Fail;

/// A call.
#[derive(Clone, Copy, Drop)]
enum Call {
    /// A message of a sequence id came, as an entry of ledger 0.
    Push(u64, u64),
    Forget(u64),
    ForgetFirst(usize),
    ForgetTo(u64),
    Clear,
}

use Call::{Clear, Forget, ForgetFirst, ForgetTo, Push};

/// A call, and the entries that are held after it.
const ROWS: &[(Call, &[u64])] = &[
    (Forget(7), &[]),
    (ForgetFirst(3), &[]),
    (ForgetTo(9), &[]),
    (Push(7, 3), &[3]),
    (Push(8, 1), &[3, 1]),
    (Push(7, 5), &[3, 1, 5]),
    (Push(9, 4), &[3, 1, 5, 4]),
    // Of an identity that is held twice the first one goes.
    (Forget(7), &[1, 5, 4]),
    (Forget(6), &[1, 5, 4]),
    // What came later under a lower position goes too.
    (ForgetTo(4), &[5]),
    (Push(8, 2), &[5, 2]),
    (Push(5, 6), &[5, 2, 6]),
    (Forget(8), &[5, 6]),
    (ForgetFirst(1), &[6]),
    (Forget(5), &[]),
    (Push(7, 0), &[0]),
    (Push(7, 1), &[0, 1]),
    (ForgetFirst(3), &[]),
    (Clear, &[]),
];

/// An identity of producer p.
fn ident(alloc: Global, seq: u64) -> Result<Ident, Memory> {
    Ok(Ident {
        origin: 0,
        producer: ProducerName::any(alloc, "p")?,
        seq,
    })
}

/// An entry of ledger 0.
fn position(entry: u64) -> Position {
    Position { ledger: 0, entry }
}

fn forget(alloc: Global, held: &mut HeldTable, seq: u64) -> Result<(), Memory> {
    let ident = ident(alloc, seq)?;
    held.forget(&ident);
    drop(ident);
    Ok(())
}

/// A call is done.
fn calls(alloc: Global, held: &mut HeldTable, call: Call) -> Result<(), Memory> {
    match call {
        Push(seq, entry) => held.push(Held {
            ident: ident(alloc, seq)?,
            position: position(entry),
        })?,
        Forget(seq) => forget(alloc, held, seq)?,
        ForgetFirst(most) => held.forget_first(most),
        ForgetTo(entry) => held.forget_to(position(entry)),
        Clear => held.clear(),
    }
    Ok(())
}

/// Whether these entries are held, in this order.
fn holds(alloc: Global, held: &HeldTable, entries: &[u64]) -> Result<bool, Memory> {
    let positions = held.positions(alloc, usize::MAX)?;
    let are_same = are_of(positions.as_slice(), entries);
    drop(positions);
    Ok(are_same && held.len() == entries.len())
}

/// Whether positions are those of these entries.
fn are_of(positions: &[Position], entries: &[u64]) -> bool {
    positions.len() == entries.len()
        && positions
            .iter()
            .zip(entries.iter())
            .all(|(found, entry)| *found == position(*entry))
}

/// Whether what is held is at each row what the row says.
fn follows(alloc: Global) -> Result<bool, Memory> {
    let mut held = HeldTable::new(alloc);
    let followed = follows_rows(alloc, &mut held);
    drop(held);
    followed
}

fn follows_rows(alloc: Global, held: &mut HeldTable) -> Result<bool, Memory> {
    for (call, entries) in ROWS.iter() {
        calls(alloc, held, *call)?;
        if !holds(alloc, held, entries)? {
            return Ok(false);
        }
    }
    Ok(true)
}

#[test]
fn messages_are_held_until_they_are_forgotten(rt: HostRuntime) -> Result<(), Fail> {
    let followed = follows(rt.alloc())?;
    assert!(rt; followed);
    Ok(())
}
