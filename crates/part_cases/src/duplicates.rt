//! The table of duplicates.
use crate::entries::{entry, ident};
use geo_base::{Content, EntryStore, Memory, ProducerName, Targets};
use rand_core::utils::NextWord;
use rand_pcg::Pcg32;
use std::alloc::Global;
use topic_store::*;

fn stream(alloc: Global, origin: u32, producer: &str) -> Result<Stream, Memory> {
    Ok(Stream {
        origin,
        producer: ProducerName::any(alloc, producer)?,
    })
}

/// Stores a message.
fn store<S: EntryStore>(
    alloc: Global,
    store: &mut S,
    origin: u32,
    producer: &str,
    seq: u64,
) -> Result<(), Memory> {
    store.reserve(1)?;
    let ident = ident(alloc, origin, producer, seq)?;
    store.append(entry(alloc, ident, Content::Data, Targets::All));
    Ok(())
}

/// What a check says.
struct Row {
    origin: u32,
    producer: &'static str,
    seq: u64,
    says: Verdict,
}

/// Checks of a table that has 3 of producer p at cluster 0, and of one of a topic with 1, 2, 3 of p and 0 of q.
const TABLE: &[Row] = &[
    Row {
        origin: 0,
        producer: "p",
        seq: 3,
        says: Verdict::Seen(3),
    },
    Row {
        origin: 0,
        producer: "p",
        seq: 0,
        says: Verdict::Seen(3),
    },
    Row {
        origin: 0,
        producer: "p",
        seq: 4,
        says: Verdict::New,
    },
    // another cluster's producer of the same name
    Row {
        origin: 1,
        producer: "p",
        seq: 3,
        says: Verdict::New,
    },
    Row {
        origin: 0,
        producer: "pp",
        seq: 3,
        says: Verdict::New,
    },
    Row {
        origin: 0,
        producer: "",
        seq: 0,
        says: Verdict::New,
    },
    Row {
        origin: 1,
        producer: "q",
        seq: 0,
        says: Verdict::New,
    },
];

/// What a table says of a row's message.
fn said(alloc: Global, table: &DedupTable, row: &Row) -> Result<Verdict, Memory> {
    let checked = stream(alloc, row.origin, row.producer)?;
    let said = table.check(&checked, row.seq);
    drop(checked);
    Ok(said)
}

/// A table that has 3 of producer p at cluster 0.
fn noted(alloc: Global) -> Result<DedupTable, Memory> {
    let mut table = DedupTable::new(alloc);
    table.reserve(1)?;
    table.note(stream(alloc, 0, "p")?, 3);
    Ok(table)
}

/// The table of a topic once 1, 2, 3 of p and 0 of q are stored.
fn rebuilt_of(alloc: Global, topic: &mut TopicLedger) -> Result<DedupTable, Memory> {
    for seq in 1..4 {
        store(alloc, topic, 0, "p", seq)?;
    }
    store(alloc, topic, 0, "q", 0)?;
    DedupTable::rebuild(alloc, topic)
}

/// The table of a new topic with these.
fn rebuilt(alloc: Global) -> Result<DedupTable, Memory> {
    let mut topic = TopicLedger::new(alloc, 2)?;
    let rebuilt = rebuilt_of(alloc, &mut topic);
    drop(topic);
    rebuilt
}

/// Whether a table says of each row what it is to say.
fn is_as_told(alloc: Global, table: &DedupTable) -> Result<bool, Memory> {
    for row in TABLE.iter() {
        if said(alloc, table, row)? != row.says {
            return Ok(false);
        }
    }
    Ok(true)
}

/// Whether a table, which ends here, says of each row what it is to say.
fn is_told(alloc: Global, table: DedupTable) -> Result<bool, Memory> {
    let is_told = is_as_told(alloc, &table);
    drop(table);
    is_told
}

#[test]
fn checks_are_by_origin_and_producer(rt: HostRuntime) -> Result<(), Memory> {
    let alloc = rt.alloc();
    assert!(rt; is_told(alloc, noted(alloc)?)?);
    assert!(rt; is_told(alloc, rebuilt(alloc)?)?);
    Ok(())
}

/// What a new table says of the first row's message.
fn said_by_none(alloc: Global) -> Result<Verdict, Memory> {
    let table = DedupTable::new(alloc);
    let said = said(alloc, &table, &TABLE[0]);
    drop(table);
    said
}

#[test]
fn a_new_table_has_nothing(rt: HostRuntime) -> Result<(), Memory> {
    assert!(rt; said_by_none(rt.alloc())? == Verdict::New);
    Ok(())
}

/// Whether a topic accepts a sequence id: it has no entry of the stream with its like or a higher one. This searches the whole topic.
fn accepts<S: EntryStore>(topic: &S, stream: &Stream, seq: u64) -> bool {
    for i in 0..topic.len() {
        if let Some(entry) = topic.get(i) {
            if entry.ident.origin == stream.origin
                && entry.ident.producer.as_bytes() == stream.producer.as_bytes()
                && entry.ident.seq >= seq
            {
                return false;
            }
        }
    }
    true
}

/// A random stream, one of six.
fn random_stream(alloc: Global, random: &mut Pcg32) -> Result<Stream, Memory> {
    let producer = if random.next_word() % 2 == 0 {
        "p"
    } else {
        "q"
    };
    stream(alloc, random.next_word() % 3, producer)
}

/// Whether a topic's table, one rebuilt and a search of the topic agree on a message.
fn agree(
    alloc: Global,
    table: &DedupTable,
    topic: &TopicLedger,
    message: &Stream,
    seq: u64,
) -> Result<bool, Memory> {
    let verdict = table.check(message, seq);
    let is_new = accepts(topic, message, seq);
    let again = DedupTable::rebuild(alloc, topic)?.check(message, seq);
    Ok((verdict == Verdict::New) == is_new && again == verdict)
}

/// Stores and notes a message that is new.
fn take(
    alloc: Global,
    table: &mut DedupTable,
    topic: &mut TopicLedger,
    message: Stream,
    seq: u64,
) -> Result<(), Memory> {
    if let Verdict::New = table.check(&message, seq) {
        store(alloc, topic, message.origin, message.producer.as_str(), seq)?;
        table.reserve(1)?;
        table.note(message, seq);
    }
    Ok(())
}

/// Whether they agree on a random message, which is then taken.
fn agree_on_one(
    alloc: Global,
    table: &mut DedupTable,
    topic: &mut TopicLedger,
    random: &mut Pcg32,
) -> Result<bool, Memory> {
    let message = random_stream(alloc, random)?;
    let seq = (random.next_word() % 12) as u64;
    let agree = agree(alloc, table, topic, &message, seq);
    take(alloc, table, topic, message, seq)?;
    agree
}

/// Whether they agree on each of 40 random messages.
fn agree_on_all(
    alloc: Global,
    table: &mut DedupTable,
    topic: &mut TopicLedger,
    random: &mut Pcg32,
) -> Result<bool, Memory> {
    for _ in 0..40 {
        if !agree_on_one(alloc, table, topic, random)? {
            return Ok(false);
        }
    }
    Ok(true)
}

/// Whether a new table, one rebuilt and a search of the topic agree on each of 40 random messages.
fn are_same_checks(alloc: Global, seed: u64) -> Result<bool, Memory> {
    let mut random = Pcg32::new(seed, 7);
    let mut topic = TopicLedger::new(alloc, 3)?;
    let mut table = DedupTable::new(alloc);
    let agree = agree_on_all(alloc, &mut table, &mut topic, &mut random);
    drop(table);
    drop(topic);
    agree
}

#[test]
fn a_table_is_a_search_of_the_topic(rt: HostRuntime) -> Result<(), Memory> {
    for seed in 0..8 {
        assert!(rt; are_same_checks(rt.alloc(), seed)?);
    }
    Ok(())
}
