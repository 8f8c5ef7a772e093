//! The scenario: clusters, topics, and clients with their lines.
ghost use Rattle.std.specs.Prelude.{◌≡◌, ◌∷◌, [], ◌++◌, true, codes, replicate, IfOk, OnOk};
ghost use Rattle.geo_base.specs.Name.{is_name};
ghost use Rattle.script_generator.specs.Scenario.{consumer_lines, generated_clients, producer_lines, publishes, stays};

use geo_base::{
    Blob, ClusterName, Line, Memory, Name, ProducerName, Sequence, SubKind, Targets, Text,
    TopicName,
};
use script_text::ClientDecl;
use std::alloc::Global;

/// Publishes of the producers at the first two clusters, and of the one at the third: 2,000 in all.
const FIRST_PUBLISHES: u64 = 667;

const LAST_PUBLISHES: u64 = 666;

/// The number of the one topic.
const TOPIC: u32 = 0;

/// Clusters that the consumer goes round, and how often it moves.
const CLUSTERS: u32 = 3;

const STAYS: u32 = 9;

/// Acknowledgements of a stay.
const ACKS: u32 = 30;

/// Permits that the consumer gives: more than it can get.
const PERMITS: u32 = 1_000_000;

/// The clusters' names.
pub(crate) fn cluster_names(alloc: Global) -> Result<Sequence<ClusterName>, Memory>
    ensures { IfOk result (λ ns. ns ≡ codes "a" ∷ codes "b" ∷ codes "c" ∷ []) }
{
    let mut names = Sequence::new(alloc);
    match add_cluster_names(alloc, &mut names) {
        Ok(()) => Ok(names),
        Err(Memory) => {
            drop(names);
            Err(Memory)
        }
    }
}

fn add_cluster_names(alloc: Global, names: &mut Sequence<ClusterName>) -> Result<(), Memory>
    requires fresh { names.old ≡ [] }
    ensures { OnOk result (names.new ≡ codes "a" ∷ codes "b" ∷ codes "c" ∷ []) }
{
    add_name(alloc, names, "a")?;
    add_name(alloc, names, "b")?;
    add_name(alloc, names, "c")?;
    Ok(())
}

fn add_name(alloc: Global, names: &mut Sequence<ClusterName>, text: &str) -> Result<(), Memory>
    requires { is_name text.now ≡ true }
    ensures { OnOk result (names.new ≡ names.old ++ text.now ∷ []) }
{
    let name = named(alloc, text)?;
    names.push(name)
}

/// A text that is a name, as one. Only memory can be wanting.
fn named<K>(alloc: Global, text: &str) -> Result<Name<K>, Memory>
    requires { is_name text.now ≡ true }
    ensures { IfOk result (λ n. n ≡ text.now) }
{
    Name::read(alloc, text).map_err(|_| Memory)
}

/// The one topic's name.
pub(crate) fn topic_names(alloc: Global) -> Result<Sequence<TopicName>, Memory>
    ensures { IfOk result (λ ns. ns ≡ codes "t" ∷ []) }
{
    let mut names = Sequence::new(alloc);
    names.push(named(alloc, "t")?)?;
    Ok(names)
}

/// The clients: a producer at each cluster, and the consumer.
pub(crate) fn clients(alloc: Global) -> Result<Sequence<ClientDecl>, Memory>
    ensures { IfOk result (λ cs. cs ≡ generated_clients) }
{
    let mut clients = Sequence::new(alloc);
    match add_clients(alloc, &mut clients) {
        Ok(()) => Ok(clients),
        Err(Memory) => {
            drop(clients);
            Err(Memory)
        }
    }
}

#[tactic(auto, unfolding(crate::specs::Scenario::generated_clients))]
fn add_clients(alloc: Global, clients: &mut Sequence<ClientDecl>) -> Result<(), Memory>
    requires fresh { clients.old ≡ [] }
    ensures { OnOk result (clients.new ≡ generated_clients) }
{
    add_producer(alloc, clients, "pa", 0, FIRST_PUBLISHES)?;
    add_producer(alloc, clients, "pb", 1, FIRST_PUBLISHES)?;
    add_producer(alloc, clients, "pc", 2, LAST_PUBLISHES)?;
    add_consumer(alloc, clients)?;
    Ok(())
}

fn add_producer(
    alloc: Global,
    clients: &mut Sequence<ClientDecl>,
    name: &str,
    cluster: u32,
    publishes: u64,
) -> Result<(), Memory>
    requires { is_name name.now ≡ true }
    ensures { OnOk result (clients.new
        ≡ clients.old ++ record { name = name.now; topic = 0; cluster = cluster; lines = producer_lines publishes } ∷ []) }
{
    let lines = producer_lines(alloc, publishes)?;
    add_client(alloc, clients, name, cluster, lines)
}

fn add_consumer(alloc: Global, clients: &mut Sequence<ClientDecl>) -> Result<(), Memory>
    ensures { OnOk result (clients.new
        ≡ clients.old ++ record { name = codes "d"; topic = 0; cluster = 0; lines = consumer_lines } ∷ []) }
{
    let lines = consumer_lines(alloc)?;
    add_client(alloc, clients, "d", 0, lines)
}

fn add_client(
    alloc: Global,
    clients: &mut Sequence<ClientDecl>,
    name: &str,
    cluster: u32,
    lines: Sequence<Line>,
) -> Result<(), Memory>
    requires { is_name name.now ≡ true }
    ensures { OnOk result (clients.new
        ≡ clients.old ++ record { name = name.now; topic = 0; cluster = cluster; lines = lines } ∷ []) }
{
    match ProducerName::any(alloc, name) {
        Ok(name) => clients.push(ClientDecl::of_parts(name, TOPIC, cluster, lines)),
        Err(Memory) => {
            drop(lines);
            Err(Memory)
        }
    }
}

/// The lines of a producer with so many publishes.
fn producer_lines(alloc: Global, count: u64) -> Result<Sequence<Line>, Memory>
    ensures { IfOk result (λ ls. ls ≡ producer_lines count) }
{
    let mut lines = Sequence::new(alloc);
    match add_producer_lines(alloc, &mut lines, count) {
        Ok(()) => Ok(lines),
        Err(Memory) => {
            drop(lines);
            Err(Memory)
        }
    }
}

#[tactic(auto, using(crate::proofs::Counting::publishes_next, crate::proofs::Counting::publishes_none), unfolding(crate::specs::Scenario::producer_lines))]
fn add_producer_lines(alloc: Global, lines: &mut Sequence<Line>, count: u64) -> Result<(), Memory>
    requires fresh { lines.old ≡ [] }
    ensures { OnOk result (lines.new ≡ producer_lines count) }
{
    lines.push(Line::Produce)?;
    for seq in 0..count {
        lines.push(publish(alloc, seq)?)?;
    }
    Ok(())
}

fn publish(alloc: Global, seq: u64) -> Result<Line, Memory>
    ensures { IfOk result (λ l. l ≡ Line.Pub seq Targets.All None (codes "x")) }
{
    Ok(Line::Pub {
        seq,
        to: Targets::All,
        key: None,
        text: Blob::from_slice(alloc, "x".as_bytes())?,
    })
}

/// The lines of the consumer.
fn consumer_lines(alloc: Global) -> Result<Sequence<Line>, Memory>
    ensures { IfOk result (λ ls. ls ≡ consumer_lines) }
{
    let mut lines = Sequence::new(alloc);
    match add_consumer_lines(alloc, &mut lines) {
        Ok(()) => Ok(lines),
        Err(Memory) => {
            drop(lines);
            Err(Memory)
        }
    }
}

#[tactic(auto, unfolding(crate::specs::Scenario::consumer_lines))]
fn add_consumer_lines(alloc: Global, lines: &mut Sequence<Line>) -> Result<(), Memory>
    requires fresh { lines.old ≡ [] }
    ensures { OnOk result (lines.new ≡ consumer_lines) }
{
    lines.push(Line::Sub {
        sub: Text::from_str(alloc, "s")?,
        kind: SubKind::Exclusive,
        earliest: true,
        replicated: true,
    })?;
    lines.push(Line::Flow { permits: PERMITS })?;
    add_stays(lines)?;
    Ok(())
}

#[tactic(auto, using(crate::proofs::Counting::stays_next, crate::proofs::Counting::stays_none, std::proofs::lemmas::Grind::common_steps))]
fn add_stays(lines: &mut Sequence<Line>) -> Result<(), Memory>
    ensures { OnOk result (lines.new ≡ lines.old ++ stays 9) }
{
    for stay in 0..STAYS {
        add_acks(lines)?;
        lines.push(Line::Move {
            cluster: (stay + 1) % CLUSTERS,
        })?;
    }
    Ok(())
}

fn add_acks(lines: &mut Sequence<Line>) -> Result<(), Memory>
    ensures { OnOk result (lines.new ≡ lines.old ++ replicate 30 Line.AckAll) }
{
    for count in 0..ACKS {
        lines.push(Line::AckAll)?;
    }
    Ok(())
}
