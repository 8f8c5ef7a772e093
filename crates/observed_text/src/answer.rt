//! Findings in lines, by rule, topic, cluster and index. Indexes count the entries of a topic at a cluster from 0.
//!
//! | line | finding |
//! |---|---|
//! | `observed lost T ORIGIN PRODUCER SEQ L:E` | a receipt's message does not stand in the topic of its cluster |
//! | `observed twice T X INDEX` | an entry stands a second time, or after a later one of its producer |
//! | `observed nowhere T X INDEX Y` | Y has no such entry for X |
//! | `observed gap T X Y INDEX` | X lacks Y's entry at that index of Y's topic, and has a later one |
//! | `observed order T X INDEX Y` | it stands before this one at Y |
//! | `observed apart T Y X INDEX Z INDEX` | X and Z have different messages of Y, which was not read |
//! | `observed unreceived T X Y INDEX` | the replicator's cursor to Y has an entry that does not stand there |
//! | `observed unplaced T X INDEX` | a snapshot without its own position, or that does not name each other cluster once |
//! | `observed cut T X INDEX Y` | a snapshot covers a message of Y that does not stand here by then |
//! | `observed told T X INDEX Y` | an update tells messages of Y with which nobody dealt |
//! | `observed skipped T X S INDEX` | a cursor has a message with which nobody dealt |
ghost use Rattle.std.specs.Prelude.{◌≡◌, ◌++◌, codes, slice_index_or, IfOk, OnOk, string_bytes};
ghost use Rattle.observed_text.specs.Findings.{apart_line, at_line, between_line, cluster_name, finding_line, finding_lines, findings_text, lost_line, of_line, place_text, spot_text, topic_name};

use geo_base::{Blob, Ident, Memory, Position};
use observation::Finding;
use script_text::Scenario;
use std::alloc::Global;
use std::string::String;

/// What stands at a place that is not declared.
const UNKNOWN: &str = "?";

/// The answer to an observation of so many entries: that it is safe, where nothing is found, else a line a finding. An `Err` is want of
/// memory.
pub fn findings_text(
    alloc: Global,
    scenario: &Scenario,
    entries: u64,
    findings: &[Finding],
) -> Result<Blob, Memory>
    ensures { IfOk result (λ text. text ≡ findings_text scenario.now.setup entries findings.now) }
{
    if findings.is_empty() {
        let line = format!(in alloc; "observed safe entries {entries}\n")?;
        return Blob::from_slice(alloc, line.as_bytes());
    }
    let mut text = Blob::new(alloc);
    add_lines(alloc, &mut text, scenario, findings)?;
    Ok(text)
}

/// A line for each finding.
#[tactic(auto, using(crate::proofs::Added::line_added))]
fn add_lines(
    alloc: Global,
    text: &mut Blob,
    scenario: &Scenario,
    findings: &[Finding],
) -> Result<(), Memory>
    ensures { OnOk result (text.new ≡ text.old ++ finding_lines scenario.now.setup findings.now) }
{
    for finding in findings {
        let line = line_of(alloc, scenario, finding)?;
        text.append(line.as_bytes())?;
    }
    Ok(())
}

/// The name of a topic.
fn topic_name(scenario: &Scenario, number: u32) -> &str
    ensures { result.now ≡ topic_name scenario.now.setup number }
{
    match scenario.topics().get(number as usize) {
        Some(name) => name.as_str(),
        None => UNKNOWN,
    }
}

/// The name of a cluster.
fn cluster_name(scenario: &Scenario, number: u32) -> &str
    ensures { result.now ≡ cluster_name scenario.now.setup number }
{
    match scenario.clusters().get(number as usize) {
        Some(name) => name.as_str(),
        None => UNKNOWN,
    }
}

/// Where something is found: an index of a topic at a cluster.
#[derive(Clone, Copy, Drop)]
struct Spot {
    topic: u32,
    cluster: u32,
    index: u64,
}

impl Spot {
    fn new(topic: u32, cluster: u32, index: u64) -> Spot
        ensures { result ≡ record { topic = topic; cluster = cluster; index = index } }
    {
        Spot {
            topic,
            cluster,
            index,
        }
    }
}

/// `observed RULE TOPIC ..`
fn line_of(alloc: Global, scenario: &Scenario, finding: &Finding) -> Result<String, Memory>
    ensures { IfOk result (λ line. string_bytes line ≡ finding_line scenario.now.setup finding.now) }
{
    match finding {
        Finding::Lost {
            topic,
            ident,
            position,
        } => lost_line(alloc, scenario, *topic, ident, position),
        Finding::Twice {
            topic,
            cluster,
            index,
        } => at_line(
            alloc,
            scenario,
            "twice",
            Spot::new(*topic, *cluster, *index),
        ),
        Finding::Unplaced {
            topic,
            cluster,
            index,
        } => at_line(
            alloc,
            scenario,
            "unplaced",
            Spot::new(*topic, *cluster, *index),
        ),
        Finding::Nowhere {
            topic,
            cluster,
            index,
            origin,
        } => of_line(
            alloc,
            scenario,
            "nowhere",
            Spot::new(*topic, *cluster, *index),
            *origin,
        ),
        Finding::Order {
            topic,
            cluster,
            index,
            origin,
        } => of_line(
            alloc,
            scenario,
            "order",
            Spot::new(*topic, *cluster, *index),
            *origin,
        ),
        Finding::Cut {
            topic,
            cluster,
            index,
            of,
        } => of_line(
            alloc,
            scenario,
            "cut",
            Spot::new(*topic, *cluster, *index),
            *of,
        ),
        Finding::Told {
            topic,
            cluster,
            index,
            of,
        } => of_line(
            alloc,
            scenario,
            "told",
            Spot::new(*topic, *cluster, *index),
            *of,
        ),
        Finding::Gap {
            topic,
            cluster,
            origin,
            index,
        } => between_line(
            alloc,
            scenario,
            "gap",
            Spot::new(*topic, *cluster, *index),
            cluster_name(scenario, *origin),
        ),
        Finding::Unreceived {
            topic,
            cluster,
            to,
            index,
        } => between_line(
            alloc,
            scenario,
            "unreceived",
            Spot::new(*topic, *cluster, *index),
            cluster_name(scenario, *to),
        ),
        Finding::Skipped {
            topic,
            cluster,
            sub,
            index,
        } => between_line(
            alloc,
            scenario,
            "skipped",
            Spot::new(*topic, *cluster, *index),
            sub.as_str(),
        ),
        Finding::Apart {
            topic,
            origin,
            cluster,
            index,
            other,
            other_index,
        } => apart_line(
            alloc,
            scenario,
            *origin,
            Spot::new(*topic, *cluster, *index),
            Spot::new(*topic, *other, *other_index),
        ),
    }
}

/// `observed lost TOPIC ORIGIN PRODUCER SEQ L:E`
fn lost_line(
    alloc: Global,
    scenario: &Scenario,
    topic: u32,
    ident: &Ident,
    position: &Position,
) -> Result<String, Memory>
    ensures { IfOk result (λ line. string_bytes line ≡ lost_line scenario.now.setup topic ident.now position.now) }
{
    let topic = topic_name(scenario, topic);
    let origin = cluster_name(scenario, ident.origin);
    let producer = ident.producer.as_str();
    let seq = ident.seq;
    let text = place_text(alloc, position)?;
    let place = text.as_str();
    Ok(format!(in alloc; "observed lost {topic} {origin} {producer} {seq} {place}\n")?)
}

/// `L:E`
fn place_text(alloc: Global, position: &Position) -> Result<String, Memory>
    ensures { IfOk result (λ text. string_bytes text ≡ place_text position.now) }
{
    let ledger = position.ledger;
    let entry = position.entry;
    Ok(format!(in alloc; "{ledger}:{entry}")?)
}

/// `observed RULE TOPIC CLUSTER INDEX`
fn at_line(alloc: Global, scenario: &Scenario, rule: &str, spot: Spot) -> Result<String, Memory>
    ensures { IfOk result (λ line. string_bytes line ≡ at_line scenario.now.setup rule.now spot.topic spot.cluster spot.index) }
{
    let topic = topic_name(scenario, spot.topic);
    let cluster = cluster_name(scenario, spot.cluster);
    let index = spot.index;
    Ok(format!(in alloc; "observed {rule} {topic} {cluster} {index}\n")?)
}

/// `observed RULE TOPIC CLUSTER INDEX OTHER`
fn of_line(
    alloc: Global,
    scenario: &Scenario,
    rule: &str,
    spot: Spot,
    other: u32,
) -> Result<String, Memory>
    ensures { IfOk result (λ line. string_bytes line ≡ of_line scenario.now.setup rule.now spot.topic spot.cluster spot.index (cluster_name scenario.now.setup other)) }
{
    let topic = topic_name(scenario, spot.topic);
    let cluster = cluster_name(scenario, spot.cluster);
    let index = spot.index;
    let other = cluster_name(scenario, other);
    Ok(format!(in alloc; "observed {rule} {topic} {cluster} {index} {other}\n")?)
}

/// `observed RULE TOPIC CLUSTER NAME INDEX`
fn between_line(
    alloc: Global,
    scenario: &Scenario,
    rule: &str,
    spot: Spot,
    name: &str,
) -> Result<String, Memory>
    ensures { IfOk result (λ line. string_bytes line ≡ between_line scenario.now.setup rule.now spot.topic spot.cluster name.now spot.index) }
{
    let topic = topic_name(scenario, spot.topic);
    let cluster = cluster_name(scenario, spot.cluster);
    let index = spot.index;
    Ok(format!(in alloc; "observed {rule} {topic} {cluster} {name} {index}\n")?)
}

/// `observed apart TOPIC ORIGIN CLUSTER INDEX OTHER INDEX`
fn apart_line(
    alloc: Global,
    scenario: &Scenario,
    origin: u32,
    ours: Spot,
    theirs: Spot,
) -> Result<String, Memory>
    ensures { IfOk result (λ line. string_bytes line ≡ apart_line scenario.now.setup ours.topic origin ours.cluster ours.index theirs.cluster theirs.index) }
{
    let topic = topic_name(scenario, ours.topic);
    let origin = cluster_name(scenario, origin);
    let first = spot_text(alloc, scenario, ours)?;
    let second = spot_text(alloc, scenario, theirs)?;
    let ours = first.as_str();
    let theirs = second.as_str();
    Ok(format!(in alloc; "observed apart {topic} {origin} {ours} {theirs}\n")?)
}

/// `CLUSTER INDEX`
fn spot_text(alloc: Global, scenario: &Scenario, spot: Spot) -> Result<String, Memory>
    ensures { IfOk result (λ text. string_bytes text ≡ spot_text scenario.now.setup spot.cluster spot.index) }
{
    let cluster = cluster_name(scenario, spot.cluster);
    let index = spot.index;
    Ok(format!(in alloc; "{cluster} {index}")?)
}
