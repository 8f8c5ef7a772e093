//! Names.
use geo_base::{ClusterName, NameFault, ProducerName, TopicName};
use std::alloc::Global;

/// Texts, each with why it is no name.
const ROWS: &[(&str, Option<NameFault>)] = &[
    ("", Some(NameFault::Empty)),
    ("abcdefghijklmnopq", Some(NameFault::TooLong)),
    ("ABCDEFGHIJKLMNOPQ", Some(NameFault::TooLong)),
    ("A", Some(NameFault::BadByte)),
    ("a-b", Some(NameFault::BadByte)),
    ("a b", Some(NameFault::BadByte)),
    ("a_1", None),
    ("_", None),
    ("abcdefghijklmnop", None),
    ("\u{e9}", Some(NameFault::BadByte)),
];

#[test]
fn names_are_judged_in_order(rt: HostRuntime) {
    for (text, fault) in ROWS.iter() {
        assert!(rt; is_judged(rt.alloc(), text, *fault), "{text}");
    }
}

/// Whether this is why a text is no name of a cluster.
fn is_judged(alloc: Global, text: &str, fault: Option<NameFault>) -> bool {
    ClusterName::read(alloc, text).err() == fault
}

#[test]
fn names_keep_their_text(rt: HostRuntime) {
    assert!(rt; is_topic(rt.alloc(), "t_1"));
    assert!(rt; is_client(rt.alloc(), "p"));
    assert!(rt; is_producer(rt.alloc(), "pulsar.marker"));
}

/// Whether a text is the name of a topic, which keeps it.
fn is_topic(alloc: Global, text: &str) -> bool {
    match TopicName::read(alloc, text) {
        Ok(name) => name.as_str() == text,
        Err(_) => false,
    }
}

/// The same of a script's client.
fn is_client(alloc: Global, text: &str) -> bool {
    match ProducerName::read(alloc, text) {
        Ok(name) => name.as_str() == text,
        Err(_) => false,
    }
}

/// The same of a producer's name as it came.
fn is_producer(alloc: Global, text: &str) -> bool {
    match ProducerName::any(alloc, text) {
        Ok(name) => name.as_str() == text,
        Err(_) => false,
    }
}
