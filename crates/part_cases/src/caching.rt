//! The cache of snapshots.
use crate::telling::{add_number, add_word};
use geo_base::{Cut, Memory, Position, Sequence};
use replicated_subs::*;
use std::alloc::Global;

/// A call: snapshots of these local indexes are added, the mark-delete position comes to an index, or all is forgotten.
enum Call {
    Add(u64, u64),
    Advance(u64),
    Clear,
}

/// Calls on a new cache, and what each `Advance` of them answers: the entry of the cut's local position, or `-`.
struct Row {
    calls: &'static [Call],
    said: &'static str,
}

const TABLE: &[Row] = &[
    // a snapshot is passed where its local index is below the mark, and once
    Row {
        calls: &[
            Call::Add(5, 5),
            Call::Advance(5),
            Call::Advance(6),
            Call::Advance(6),
        ],
        said: "- 5 - ",
    },
    // an eleventh pushes out the oldest; the last one passed takes those before it along
    Row {
        calls: &[
            Call::Add(1, 11),
            Call::Advance(2),
            Call::Advance(4),
            Call::Advance(4),
            Call::Advance(5),
        ],
        said: "- 3 - 4 ",
    },
    // ten stay
    Row {
        calls: &[Call::Add(1, 10), Call::Advance(2), Call::Advance(100)],
        said: "1 10 ",
    },
    // local positions need not rise: what stands before the last one passed goes with it
    Row {
        calls: &[
            Call::Add(9, 9),
            Call::Add(2, 2),
            Call::Add(7, 7),
            Call::Advance(3),
            Call::Advance(10),
            Call::Advance(10),
        ],
        said: "2 7 - ",
    },
    Row {
        calls: &[Call::Add(1, 3), Call::Clear, Call::Advance(9)],
        said: "- ",
    },
    Row {
        calls: &[Call::Add(1, 25), Call::Advance(15), Call::Advance(26)],
        said: "- 25 ",
    },
];

/// The cut of a snapshot whose local position is an entry of the first ledger.
fn cut_at(alloc: Global, entry: u64) -> Cut {
    Cut {
        local: Position { ledger: 0, entry },
        remote: Sequence::new(alloc),
    }
}

/// The entry of a cut's local position.
fn local_of(cut: Option<&Cut>) -> Option<u64> {
    match cut {
        Some(cut) => Some(cut.local.entry),
        None => None,
    }
}

/// What `advance` answers, and what `passed` answers before it.
fn advance(cache: &mut SnapshotCache, mark: u64) -> (Option<u64>, Option<u64>) {
    let looked = local_of(cache.passed(mark));
    let passed = cache.advance(mark);
    (local_of(passed.as_ref()), looked)
}

/// Adds what `advance` answers, which `passed` answers first.
fn add_advance(text: &mut String, cache: &mut SnapshotCache, mark: u64) -> Result<(), Memory> {
    let (passed, looked) = advance(cache, mark);
    if looked != passed {
        return add_word(text, "differs ");
    }
    match passed {
        Some(entry) => add_number(text, "", entry, " "),
        None => add_word(text, "- "),
    }
}

/// Adds the snapshots of some local indexes.
fn add_snapshots(alloc: Global, cache: &mut SnapshotCache, first: u64, last: u64) {
    for local in first..=last {
        cache.add(local, cut_at(alloc, local));
    }
}

/// Makes a call, and adds what it answers.
fn add_call(
    alloc: Global,
    text: &mut String,
    cache: &mut SnapshotCache,
    call: &Call,
) -> Result<(), Memory> {
    match call {
        Call::Add(first, last) => add_snapshots(alloc, cache, *first, *last),
        Call::Advance(mark) => return add_advance(text, cache, *mark),
        Call::Clear => cache.clear(),
    }
    Ok(())
}

/// Adds what calls answer. Each is made on a copy of the cache, which takes its place.
fn add_calls(
    alloc: Global,
    text: &mut String,
    cache: &mut SnapshotCache,
    calls: &[Call],
) -> Result<(), Memory> {
    for call in calls {
        *cache = cache.copy(alloc)?;
        add_call(alloc, text, cache, call)?;
    }
    Ok(())
}

/// Whether calls on a new cache answer what they are to answer.
fn is_said(alloc: Global, row: &Row) -> Result<bool, Memory> {
    let mut cache = SnapshotCache::new(alloc)?;
    let mut text = String::new(alloc);
    let added = add_calls(alloc, &mut text, &mut cache, row.calls);
    drop(cache);
    let is_said = text.as_str() == row.said;
    drop(text);
    added?;
    Ok(is_said)
}

/// The place of the first row that says something else.
fn first_other(alloc: Global) -> Result<Option<usize>, Memory> {
    for (place, row) in TABLE.iter().enumerate() {
        if !is_said(alloc, row)? {
            return Ok(Some(place));
        }
    }
    Ok(None)
}

#[test]
fn calls_pass_their_snapshots(rt: HostRuntime) -> Result<(), Memory> {
    assert_eq!(rt; first_other(rt.alloc())?, None);
    Ok(())
}
