//! Cursors.
use crate::telling::{add_number, add_ranges};
use cursor_acks::*;
use geo_base::Memory;
use rand_core::utils::NextWord;
use rand_pcg::Pcg32;
use std::alloc::Global;

/// A call: an acknowledgement of one index, or of all up to one, or a seek.
enum Call {
    One(u64),
    To(u64),
    Seek(u64),
}

/// Calls on a topic of `len` entries, and what the cursor then says.
struct Row {
    len: u64,
    calls: &'static [Call],
    said: &'static str,
}

/// Makes calls on a cursor.
fn make_calls(cursor: &mut Cursor, len: u64, calls: &[Call]) -> Result<(), Memory> {
    for call in calls {
        cursor.reserve(1)?;
        let _answer = match call {
            Call::One(index) => cursor.ack_one(*index, len),
            Call::To(index) => cursor.ack_to(*index, len),
            Call::Seek(index) => cursor.seek_to(*index, len),
        };
    }
    Ok(())
}

/// Adds a cursor's ranges, its mark-delete, and the next open indexes from 0, 2 and 4.
fn add_said(text: &mut String, cursor: &Cursor) -> Result<(), Memory> {
    add_ranges(text, cursor, "", " ")?;
    add_number(text, "mark ", cursor.mark_delete(), " open")?;
    add_number(text, " ", cursor.next_open(0), "")?;
    add_number(text, " ", cursor.next_open(2), "")?;
    add_number(text, " ", cursor.next_open(4), "")
}

/// Whether a cursor says this.
fn is_told(alloc: Global, cursor: &Cursor, told: &str) -> Result<bool, Memory> {
    let mut text = String::new(alloc);
    let added = add_said(&mut text, cursor);
    let is_told = text.as_str() == told;
    drop(text);
    added?;
    Ok(is_told)
}

/// Whether a copy of a cursor says after calls what it is to say.
fn is_said_after(alloc: Global, cursor: &mut Cursor, row: &Row) -> Result<bool, Memory> {
    make_calls(cursor, row.len, row.calls)?;
    let copied = cursor.copy(alloc)?;
    let is_told = is_told(alloc, &copied, row.said);
    drop(copied);
    is_told
}

/// Whether a new cursor says after calls what it is to say.
fn is_said(alloc: Global, row: &Row) -> Result<bool, Memory> {
    let mut cursor = Cursor::none(alloc);
    let is_said = is_said_after(alloc, &mut cursor, row);
    drop(cursor);
    is_said
}

/// The place of the first row that says something else.
fn first_other(alloc: Global) -> Result<Option<usize>, Memory> {
    for (place, row) in TABLE.iter().enumerate() {
        if !is_said(alloc, row)? {
            return Ok(Some(place));
        }
    }
    Ok(None)
}

const TABLE: &[Row] = &[
    Row {
        len: 5,
        calls: &[],
        said: "mark 0 open 0 2 4",
    },
    Row {
        len: 5,
        calls: &[Call::One(0), Call::One(2), Call::One(3)],
        said: "0-0 2-3 mark 1 open 1 4 4",
    },
    // 5 is past the end
    Row {
        len: 5,
        calls: &[Call::One(0), Call::One(2), Call::One(5), Call::To(5)],
        said: "0-0 2-2 mark 1 open 1 3 4",
    },
    Row {
        len: 5,
        calls: &[Call::One(0), Call::One(2), Call::One(3), Call::To(1)],
        said: "0-3 mark 4 open 4 4 4",
    },
    Row {
        len: 5,
        calls: &[Call::To(4)],
        said: "0-4 mark 5 open 5 5 5",
    },
    Row {
        len: 5,
        calls: &[Call::One(4), Call::One(2), Call::One(3)],
        said: "2-4 mark 0 open 0 5 5",
    },
    Row {
        len: 5,
        calls: &[Call::One(2), Call::One(2)],
        said: "2-2 mark 0 open 0 3 4",
    },
    Row {
        len: 5,
        calls: &[Call::One(4), Call::To(2)],
        said: "0-2 4-4 mark 3 open 3 3 5",
    },
    // a seek forgets what is above it
    Row {
        len: 5,
        calls: &[Call::One(0), Call::One(4), Call::Seek(2)],
        said: "0-1 mark 2 open 2 2 4",
    },
    // 6 is past the end, 5 is the end
    Row {
        len: 5,
        calls: &[Call::One(3), Call::Seek(6), Call::One(1)],
        said: "1-1 3-3 mark 0 open 0 2 4",
    },
    Row {
        len: 5,
        calls: &[Call::Seek(5), Call::Seek(0), Call::One(2)],
        said: "2-2 mark 0 open 0 3 4",
    },
    // the greatest index of the greatest length
    Row {
        len: u64::MAX,
        calls: &[Call::One(u64::MAX), Call::One(u64::MAX - 1)],
        said: "18446744073709551614-18446744073709551614 mark 0 open 0 2 4",
    },
];

#[test]
fn calls_leave_their_ranges(rt: HostRuntime) -> Result<(), Memory> {
    assert_eq!(rt; first_other(rt.alloc())?, None);
    Ok(())
}

/// What a cursor answers to an acknowledgement of index 5 of five entries.
fn past_the_end(cursor: &mut Cursor) -> Result<Result<(), PastEnd>, Memory> {
    cursor.reserve(1)?;
    Ok(cursor.ack_one(5, 5))
}

/// Whether a cursor that has all of five entries refuses to acknowledge index 5, and then says that it has them.
fn is_refused(alloc: Global) -> Result<bool, Memory> {
    let mut cursor = Cursor::all(alloc, 5)?;
    let answer = past_the_end(&mut cursor);
    let is_told = is_told(alloc, &cursor, "0-4 mark 5 open 5 5 5");
    drop(cursor);
    Ok(answer? == Err(PastEnd { index: 5, len: 5 }) && is_told?)
}

#[test]
fn latest_and_past_the_end(rt: HostRuntime) -> Result<(), Memory> {
    let most = Cursor::all(rt.alloc(), u64::MAX)?.next_open(7);
    assert_eq!(rt; most, u64::MAX);
    assert!(rt; is_refused(rt.alloc())?);
    Ok(())
}

/// How many entries the topic of the random calls has.
const LEN: u64 = 40;

/// A plain set: a flag for each index of the topic.
#[derive(Drop)]
struct Flags {
    acked: [bool; 40],
}

impl Flags {
    fn ack_one(&mut self, index: u64) -> bool {
        if index >= LEN {
            return false;
        }
        self.acked[index as usize] = true;
        true
    }

    fn ack_to(&mut self, index: u64) -> bool {
        if index >= LEN {
            return false;
        }
        for i in 0..=index as usize {
            self.acked[i] = true;
        }
        true
    }

    fn seek_to(&mut self, index: u64) -> bool {
        if index > LEN {
            return false;
        }
        for i in 0..LEN {
            self.acked[i as usize] = i < index;
        }
        true
    }

    fn is_acked(&self, index: u64) -> bool {
        index < LEN && self.acked[index as usize]
    }

    /// The least index from one on whose flag is as wanted; `from` or the length where there is none.
    fn next(&self, from: u64, wanted: bool) -> u64 {
        for index in from..LEN {
            if self.acked[index as usize] == wanted {
                return index;
            }
        }
        from.max(LEN)
    }

    /// Whether ranges are the runs of set flags, one after another.
    fn are_runs(&self, ranges: &RangeList) -> bool {
        let mut from = 0;
        for range in ranges.iter() {
            if range.last >= LEN || range.first != self.next(from, true) {
                return false;
            }
            from = range.last + 1;
            if from != self.next(range.first, false) {
                return false;
            }
        }
        self.next(from, true) == LEN
    }
}

/// One random call on both, and whether they answer alike then.
fn is_same_call(
    cursor: &mut Cursor,
    flags: &mut Flags,
    random: &mut Pcg32,
) -> Result<bool, Memory> {
    let index = (random.next_word() % 42) as u64;
    let probe = (random.next_word() % 45) as u64;
    cursor.reserve(1)?;
    let alike = match random.next_word() % 40 {
        0 => cursor.seek_to(index, LEN).is_ok() == flags.seek_to(index),
        1 | 2 => cursor.ack_to(index, LEN).is_ok() == flags.ack_to(index),
        _ => cursor.ack_one(index, LEN).is_ok() == flags.ack_one(index),
    };
    Ok(
        alike
            && cursor.is_acked(probe) == flags.is_acked(probe)
            && cursor.next_open(probe) == flags.next(probe, false)
            && cursor.mark_delete() == flags.next(0, false)
            && flags.are_runs(cursor.ranges()),
    )
}

/// Whether 60 random calls on a cursor and on a plain set have the same answers.
fn answer_alike(
    cursor: &mut Cursor,
    flags: &mut Flags,
    random: &mut Pcg32,
) -> Result<bool, Memory> {
    for _ in 0..60 {
        if !is_same_call(cursor, flags, random)? {
            return Ok(false);
        }
    }
    Ok(true)
}

/// Whether random calls on a new cursor and on a plain set have the same answers.
fn are_same_calls(alloc: Global, seed: u64) -> Result<bool, Memory> {
    let mut random = Pcg32::new(seed, 7);
    let mut cursor = Cursor::none(alloc);
    let mut flags = Flags { acked: [false; 40] };
    let are_same = answer_alike(&mut cursor, &mut flags, &mut random);
    drop(cursor);
    are_same
}

#[test]
fn a_cursor_is_a_plain_set(rt: HostRuntime) -> Result<(), Memory> {
    for seed in 0..12 {
        assert!(rt; are_same_calls(rt.alloc(), seed)?);
    }
    Ok(())
}
