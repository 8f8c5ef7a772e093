//! Many names, a long text and a long topic: sizes at which a number of eight or sixteen bits is at its end. Want of memory may be
//! answered to whatever is asked, so no clause refuses a program that counts in fewer bits than it says and calls what does not fit
//! want of memory; these tests refuse it.
use crate::asked::bytes_of;
use geo_base::Blob;
use state_items::put_text;
use std::alloc::Global;
use std::test::Fail;

/// One more than eight bits count.
const MANY_NAMES: u32 = 257;

/// One more than sixteen bits count.
const MANY_BYTES: usize = 65_537;

/// As many messages.
const MANY_MESSAGES: u32 = 65_537;

/// As many topics as a script may have: a topic has 32 clients at most.
const TOPICS: u32 = 16;

/// What comes before the topics of a script.
const CLUSTERS: &str = "geo 1\nledger 70000\ncluster a\ncluster b\n";

/// A script whose names are more than eight bits count is run.
#[test]
fn names_have_more_than_eight_bits(rt: HostRuntime) -> Result<(), Fail> {
    assert!(rt; takes_many_names(rt.alloc())?);
    Ok(())
}

fn takes_many_names(alloc: Global) -> Result<bool, Fail> {
    let script = many_names(alloc)?;
    let run = bytes_of(alloc, "run", script.as_bytes())?;
    Ok(run.as_slice().starts_with(b"events 0 idle 0 rounds 0\n"))
}

/// A script with so many clients, which declares alone.
fn many_names(alloc: Global) -> Result<String, Fail> {
    let mut script = String::from_str(alloc, CLUSTERS)?;
    for topic in 0..TOPICS {
        let line = format!(in alloc; "topic t{topic}\n")?;
        script.push_str(line.as_str())?;
    }
    for number in 0..MANY_NAMES {
        let topic = number % TOPICS;
        let line = format!(in alloc; "client c{number} t{topic} a\n")?;
        script.push_str(line.as_str())?;
    }
    Ok(script)
}

/// A text that is longer than sixteen bits count is appended after its length.
#[test]
fn texts_have_more_than_sixteen_bits(rt: HostRuntime) -> Result<(), Fail> {
    assert_eq!(rt; appended(rt.alloc())?, MANY_BYTES + 4);
    Ok(())
}

/// How many bytes such a text is as an item.
fn appended(alloc: Global) -> Result<usize, Fail> {
    let long = vec![in alloc; b'x'; MANY_BYTES]?;
    let mut out = Blob::new(alloc);
    put_text(&mut out, long.as_slice())?;
    Ok(out.as_slice().len())
}

/// A topic of more entries than sixteen bits count is saved and goes on: the report is that of the one run.
#[test]
fn topics_have_more_than_sixteen_bits(rt: HostRuntime) -> Result<(), Fail> {
    assert!(rt; resumes_as_one(rt.alloc())?);
    Ok(())
}

fn resumes_as_one(alloc: Global) -> Result<bool, Fail> {
    let mut script = many_messages(alloc)?;
    let later = resumed(alloc, script.as_bytes())?;
    script.push_str("stop\n")?;
    let run = bytes_of(alloc, "run", script.as_bytes())?;
    Ok(later.as_slice() == run.as_slice())
}

/// The report of a script that is saved and resumed.
fn resumed(alloc: Global, script: &[u8]) -> Result<Blob, Fail> {
    let file = bytes_of(alloc, "save", script)?;
    bytes_of(alloc, "resume", file.as_slice())
}

/// A script whose one producer publishes so many messages.
fn many_messages(alloc: Global) -> Result<String, Fail> {
    let mut script = String::from_str(alloc, CLUSTERS)?;
    script.push_str("topic t\nclient p t a\ndo p produce\n")?;
    for number in 0..MANY_MESSAGES {
        let line = format!(in alloc; "do p pub {number} * - x\n")?;
        script.push_str(line.as_str())?;
    }
    script.push_str("reconnect p\nserve a p\nget p\ngo p\nserve a p\nget p\n")?;
    for number in 0..MANY_MESSAGES {
        script.push_str("go p\nserve a p\nget p\n")?;
    }
    Ok(script)
}
