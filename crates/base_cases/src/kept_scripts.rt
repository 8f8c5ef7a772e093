//! What is kept of an accepted script.
use geo_base::{Event, Ident, Line, Step, SubKind, Targets};
use script_text::{Chance, Scenario, read_script};
use std::test::Fail;

/// Clients with a line of each kind.
pub(crate) const STORY: &[u8] =
    b"geo 1\nchance 4294967295 400 600 1000\nledger 7\ncluster a\ncluster b\ncluster c\ntopic t\ntopic u\n\
client p u b\nclient q t c\n\
do q sub s keyshared earliest replicated\ndo q flow 10\ndo p produce\ndo q ack c p 9\ndo p pub 9 c,a k_1  two  \n\
do q ackto a q 0\ndo q ackall\ndo q move b\ndo q unsub\ndo q close\ndo q ping\ndo p closep\n\
# the schedule\n\ngo p\n";

/// Clients of one topic that name subscriptions, the second client first.
const THREE_NAMES: &[u8] =
    b"geo 1\ncluster a\ncluster b\ntopic t\ntopic u\nclient p t a\nclient q t b\n\
do q sub x exclusive latest local\ndo p sub y exclusive earliest local\n\
do q sub y exclusive latest local\ndo p sub z exclusive latest local\noffer t b x\n";

/// Its subscriptions by their topics and numbers, and some that it has not.
const SUBS: &[(u32, u32, &str)] = &[
    (0, 0, "y"),
    (0, 1, "z"),
    (0, 2, "x"),
    (0, 3, ""),
    (1, 0, ""),
    (2, 0, ""),
];

#[test]
fn subscriptions_are_numbered_by_clients(rt: HostRuntime) -> Result<(), Fail> {
    let scenario = read_script(rt.alloc(), THREE_NAMES)?;
    let is_kept = has_subs(&scenario) && has_one_offer(&scenario);
    drop(scenario);
    assert!(rt; is_kept);
    Ok(())
}

/// Whether there are these subscriptions, and no further ones.
fn has_subs(scenario: &Scenario) -> bool {
    for (topic, sub, name) in SUBS.iter() {
        if sub_name(scenario, *topic, *sub) != *name {
            return false;
        }
    }
    true
}

/// The name of a subscription; empty where there is none.
fn sub_name(scenario: &Scenario, topic: u32, sub: u32) -> &str {
    match scenario.sub_name(topic, sub) {
        Some(name) => name.as_str(),
        None => "",
    }
}

/// Whether there is one step, an offer of the last of them.
fn has_one_offer(scenario: &Scenario) -> bool {
    let offer = Event::Offer {
        topic: 0,
        cluster: 1,
        sub: 2,
    };
    let steps = scenario.steps();
    steps.len() == 1 && steps.at(0) == Step::Plain(offer) && scenario.first_event() == Some(12)
}

#[test]
fn declarations_are_kept(rt: HostRuntime) -> Result<(), Fail> {
    let scenario = read_script(rt.alloc(), STORY)?;
    let is_kept = has_numbers(&scenario) && has_nodes(&scenario);
    drop(scenario);
    assert!(rt; is_kept);
    Ok(())
}

fn has_numbers(scenario: &Scenario) -> bool {
    let chance = Chance {
        number: 4_294_967_295,
        lost: 400,
        twice: 600,
        restart: 1_000,
    };
    scenario.per_ledger() == 7
        && scenario.chance() == Some(chance)
        && scenario.first_event() == Some(25)
}

fn has_nodes(scenario: &Scenario) -> bool {
    match (scenario.clusters(), scenario.clients()) {
        ([_, _, cluster], [_, client]) => {
            cluster.as_str() == "c"
                && scenario.topics().len() == 2
                && client.name().as_str() == "q"
                && (client.topic(), client.cluster()) == (0, 2)
        }
        _ => false,
    }
}

#[test]
fn lines_of_a_client_are_kept(rt: HostRuntime) -> Result<(), Fail> {
    let scenario = read_script(rt.alloc(), STORY)?;
    let is_kept = has_lines(&scenario);
    drop(scenario);
    assert!(rt; is_kept);
    Ok(())
}

fn has_lines(scenario: &Scenario) -> bool {
    match scenario.clients() {
        [producer, consumer] => {
            are_of_the_producer(producer.lines()) && are_of_the_consumer(consumer.lines())
        }
        _ => false,
    }
}

fn are_of_the_producer(lines: &[Line]) -> bool {
    match lines {
        [
            Line::Produce,
            Line::Pub {
                seq,
                to,
                key: Some(key),
                text,
            },
            Line::CloseProducer,
        ] => {
            (*seq, *to) == (9, Targets::Only(5))
                && text.as_slice() == b" two  ".as_slice()
                && key.as_str() == "k_1"
        }
        _ => false,
    }
}

fn are_of_the_consumer(lines: &[Line]) -> bool {
    match lines {
        [
            Line::Sub {
                sub,
                kind: SubKind::KeyShared,
                earliest: true,
                replicated: true,
            },
            Line::Flow { permits: 10 },
            Line::Ack { ident: acked },
            Line::AckTo { ident: up_to },
            Line::AckAll,
            Line::Move { cluster: 1 },
            Line::Unsub,
            Line::Close,
            Line::Ping,
        ] => sub.as_str() == "s" && is_ident(acked, 2, "p", 9) && is_ident(up_to, 0, "q", 0),
        _ => false,
    }
}

/// Whether an identity is that of a message from a cluster, by a producer, with a number.
fn is_ident(ident: &Ident, origin: u32, producer: &str, seq: u64) -> bool {
    (ident.origin, ident.seq) == (origin, seq) && ident.producer.as_str() == producer
}
