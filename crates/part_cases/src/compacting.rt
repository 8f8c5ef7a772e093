//! Compacted views.
ghost use Rattle.topic_compaction.specs.Last.{IsCompacted};

use crate::stored_entries::{message, update};
use geo_base::{Content, Entry, EntryStore, Memory};
use rand_core::utils::NextWord;
use rand_pcg::Pcg32;
use std::alloc::Global;
use std::test::Fail;
use topic_compaction::*;
use topic_store::TopicLedger;

/// Whether an entry stays in a view by its definition: this searches the topic after it.
fn stays(topic: &TopicLedger, horizon: usize, index: usize) -> bool {
    let Some(entry) = topic.get(index) else {
        return false;
    };
    if !matches!(entry.content, Content::Data) {
        return false;
    }
    let Some(key) = entry.meta.key() else {
        return true;
    };
    index >= horizon
        || (!entry.payload.as_slice().is_empty()
            && !comes_again(topic, key.as_str(), index, horizon))
}

/// Whether a message after an index and before a horizon has a key.
fn comes_again(topic: &TopicLedger, key: &str, index: usize, horizon: usize) -> bool {
    for later in index..horizon {
        if later > index && has_key(topic, later, key) {
            return true;
        }
    }
    false
}

/// Whether a message has a key.
fn has_key(topic: &TopicLedger, index: usize, key: &str) -> bool {
    match topic.get(index) {
        Some(entry) => match (&entry.content, entry.meta.key()) {
            (Content::Data, Some(other)) => other.as_str() == key,
            _ => false,
        },
        None => false,
    }
}

/// Whether a view and its definition agree on each index of a topic.
fn is_view(topic: &TopicLedger, compacted: &Compacted, horizon: usize) -> bool
    requires { IsCompacted topic.now.entries compacted.now }
{
    let mut from: u64 = 0;
    for index in 0..topic.len() {
        if stays(topic, horizon, index) {
            if compacted.next(topic, from) != Some(index as u64) {
                return false;
            }
            from = index as u64 + 1;
        }
    }
    compacted.next(topic, from).is_none()
}

/// Why a horizon is refused.
fn refusal(
    alloc: Global,
    topic: &TopicLedger,
    compacted: &mut Compacted,
    horizon: u64,
) -> Option<CompactFault>
    requires { IsCompacted topic.now.entries compacted.old }
    ensures { IsCompacted topic.now.entries compacted.new }
{
    match compacted.advance(alloc, topic, horizon) {
        Ok(()) => None,
        Err(fault) => Some(fault),
    }
}

/// The keys and the payloads of five messages.
const FIVE: &[(Option<&str>, &[u8])] = &[
    (Some("k1"), b"a"),
    (Some("k2"), b"b"),
    (Some("k1"), b"c"),
    (None, b"n"),
    (Some("k2"), b""),
];

/// Stores the five messages.
fn store_five(alloc: Global, topic: &mut TopicLedger) -> Result<(), Memory> {
    let mut seq = 0;
    for &(key, payload) in FIVE {
        topic.reserve(1)?;
        topic.append(message(alloc, seq, key, payload)?);
        seq = seq.saturating_add(1);
    }
    Ok(())
}

/// A topic of the five messages.
fn five(alloc: Global) -> Result<TopicLedger, Memory> {
    let mut topic = TopicLedger::new(alloc, 2)?;
    store_five(alloc, &mut topic)?;
    Ok(topic)
}

/// Rows are a horizon, an index, and the next index of the view from there on.
const SHOWN: &[(u64, u64, Option<u64>)] = &[
    (5, 0, Some(2)),
    (5, 3, Some(3)),
    (5, 4, None),
    (2, 0, Some(0)),
    (2, 1, Some(1)),
    (2, 2, Some(2)),
    (2, 3, Some(3)),
    (2, 4, Some(4)),
    (2, 5, None),
];

/// The next index from one on of the view at a horizon.
fn next_at(
    alloc: Global,
    topic: &TopicLedger,
    horizon: u64,
    from: u64,
) -> Result<Option<u64>, CompactFault> {
    let view = Compacted::build(alloc, topic, horizon)?;
    Ok(view.next(topic, from))
}

/// The first row at which a view of a topic shows otherwise.
fn wrong_view(alloc: Global, topic: &TopicLedger) -> Result<Option<usize>, CompactFault> {
    for (row, &(horizon, from, next)) in SHOWN.iter().enumerate() {
        if next_at(alloc, topic, horizon, from)? != next {
            return Ok(Some(row));
        }
    }
    Ok(None)
}

#[test]
fn the_last_message_of_each_key_stays(rt: HostRuntime) -> Result<(), Fail> {
    let topic = five(rt.alloc())?;
    let wrong = wrong_view(rt.alloc(), &topic);
    drop(topic);
    assert_eq!(rt; wrong?, None);
    Ok(())
}

/// What is told of a horizon past the end.
const PAST: Option<CompactFault> = Some(CompactFault::PastEnd { horizon: 6, len: 5 });

/// What is told of a horizon below the one that is kept.
const BACKWARD: Option<CompactFault> = Some(CompactFault::Backward { kept: 3, given: 2 });

/// Why no view is built at a horizon.
fn unbuilt(alloc: Global, topic: &TopicLedger, horizon: u64) -> Option<CompactFault> {
    Compacted::build(alloc, topic, horizon).err()
}

/// Whether the view at horizon 3 refuses the one before it and one past the end, is then as it was, and goes on to the end.
fn goes_on(alloc: Global, topic: &TopicLedger, compacted: &mut Compacted) -> bool
    requires { IsCompacted topic.now.entries compacted.old }
{
    let backward = refusal(alloc, topic, compacted, 2) == BACKWARD;
    let past = refusal(alloc, topic, compacted, 6) == PAST;
    let kept = is_view(topic, compacted, 3);
    let same = refusal(alloc, topic, compacted, 3).is_none();
    let next = refusal(alloc, topic, compacted, 5).is_none();
    backward && past && kept && same && next && is_view(topic, compacted, 5)
}

/// Whether that view is built and goes on.
fn is_moved(alloc: Global, topic: &TopicLedger) -> Result<bool, CompactFault> {
    let mut compacted = Compacted::build(alloc, topic, 3)?;
    Ok(goes_on(alloc, topic, &mut compacted))
}

#[test]
fn horizons_are_refused(rt: HostRuntime) -> Result<(), Fail> {
    let topic = five(rt.alloc())?;
    let unbuilt = unbuilt(rt.alloc(), &topic, 6);
    let moved = is_moved(rt.alloc(), &topic);
    drop(topic);
    assert!(rt; unbuilt == PAST && moved?);
    Ok(())
}

/// A random message or marker.
fn random_entry(alloc: Global, random: &mut Pcg32, seq: u64) -> Result<Entry, Memory> {
    let payload: &[u8] = if random.next_word() % 3 == 0 {
        b""
    } else {
        b"x"
    };
    let key = match random.next_word() % 6 {
        0 => return update(alloc, seq),
        1 => None,
        2 => Some("a"),
        3 => Some("b"),
        4 => Some(""),
        _ => Some("ab"),
    };
    message(alloc, seq, key, payload)
}

/// Stores 40 random messages and markers.
fn store_random(alloc: Global, topic: &mut TopicLedger, random: &mut Pcg32) -> Result<(), Memory> {
    for seq in 0..40 {
        topic.reserve(1)?;
        topic.append(random_entry(alloc, random, seq)?);
    }
    Ok(())
}

/// Whether a view that is built at a horizon is as its definition says.
fn is_built(alloc: Global, topic: &TopicLedger, horizon: u64) -> Result<bool, CompactFault> {
    let built = Compacted::build(alloc, topic, horizon)?;
    Ok(is_view(topic, &built, horizon as usize))
}

/// Whether a view that advances, one that is built and the definition agree at each of some random horizons.
fn agree(
    alloc: Global,
    topic: &TopicLedger,
    compacted: &mut Compacted,
    random: &mut Pcg32,
) -> Result<bool, CompactFault>
    requires { IsCompacted topic.now.entries compacted.old }
{
    let mut horizon: u64 = 0;
    for _ in 0..8 {
        horizon = horizon
            .saturating_add((random.next_word() % 10) as u64)
            .min(40);
        compacted.advance(alloc, topic, horizon)?;
        if !is_view(topic, compacted, horizon as usize) || !is_built(alloc, topic, horizon)? {
            return Ok(false);
        }
    }
    Ok(true)
}

/// Whether views of a topic agree.
fn are_views(alloc: Global, topic: &TopicLedger, random: &mut Pcg32) -> Result<bool, CompactFault> {
    let mut compacted = Compacted::build(alloc, topic, 0)?;
    agree(alloc, topic, &mut compacted, random)
}

/// Whether views of a random topic agree.
fn are_same_views(alloc: Global, seed: u64) -> Result<bool, CompactFault> {
    let mut random = Pcg32::new(seed, 7);
    let mut topic = TopicLedger::new(alloc, 3)?;
    store_random(alloc, &mut topic, &mut random)?;
    are_views(alloc, &topic, &mut random)
}

#[test]
fn a_view_is_its_definition(rt: HostRuntime) -> Result<(), Fail> {
    for seed in 0..8 {
        assert!(rt; are_same_views(rt.alloc(), seed)?);
    }
    Ok(())
}
