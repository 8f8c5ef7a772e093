//! The lines under which changes stand.
ghost use Rattle.std.specs.Prelude.{◌≡◌, ◌++◌, ◌∷◌, [], codes, slice_index_or, OnErr, OnOk};
ghost use Rattle.step_laws.specs.Steps.{step_head};
ghost use Rattle.step_lines.specs.Changes.{place_line, spaces};

use broker::Broker;
use geo_base::{Blob, ClusterName, Memory, TopicName};
use report_lines::{add_number, add_place_line};

/// How far lines stand to the right: under a step, or under an event of settling.
#[derive(Clone, Copy, Drop)]
pub enum Indent {
    Step,
    Event,
}

impl Indent {
    /// Appends the spaces.
    pub(crate) fn add(self, lines: &mut Blob) -> Result<(), Memory>
        ensures ok { OnOk result (lines.new ≡ lines.old ++ spaces self) }
        ensures err { OnErr result (lines.new ≡ lines.old) }
    {
        match self {
            Indent::Step => lines.append(b"  "),
            Indent::Event => lines.append(b"    "),
        }
    }
}

/// Appends the line of a topic at a broker's cluster.
pub(crate) fn add_place(
    lines: &mut Blob,
    indent: Indent,
    topic: &str,
    broker: &Broker,
) -> Result<(), Memory>
    ensures { OnOk result (lines.new ≡ lines.old ++ (spaces indent ++ (place_line topic.now (slice_index_or broker.now.site.clusters broker.now.site.own []) ++ 10 ∷ []))) }
{
    indent.add(lines)?;
    let cluster = cluster_name(broker.site().clusters(), broker.cluster());
    add_place_line(lines, topic, cluster)
}

/// The name of a cluster; no text where it has none.
pub(crate) fn cluster_name(clusters: &[ClusterName], cluster: u32) -> &str
    ensures { result.now ≡ slice_index_or clusters.entry.now cluster [] }
{
    match clusters.get(cluster as usize) {
        Some(name) => name.as_str(),
        None => "",
    }
}

/// Appends the head of a step that was idle, by its number, and the number and the bytes of its line.
pub(crate) fn add_idle_step(
    lines: &mut Blob,
    number: u64,
    line: u64,
    bytes: &[u8],
) -> Result<(), Memory>
    ensures { OnOk result (lines.new ≡ lines.old ++ (step_head number (record { line = line; bytes = bytes.now }) (codes "idle" ∷ []) ++ 10 ∷ [])) }
{
    lines.append(b"step ")?;
    add_number(lines, number)?;
    lines.append(b" line ")?;
    add_number(lines, line)?;
    lines.append(b" idle ")?;
    lines.append(bytes)?;
    lines.append(b"\n")
}

/// Appends the head of a step that did something.
pub(crate) fn add_done_step(
    lines: &mut Blob,
    number: u64,
    line: u64,
    bytes: &[u8],
) -> Result<(), Memory>
    ensures { OnOk result (lines.new ≡ lines.old ++ (step_head number (record { line = line; bytes = bytes.now }) [] ++ 10 ∷ [])) }
{
    lines.append(b"step ")?;
    add_number(lines, number)?;
    lines.append(b" line ")?;
    add_number(lines, line)?;
    lines.append(b" ")?;
    lines.append(bytes)?;
    lines.append(b"\n")
}

/// The name of a topic; no text where it has none.
pub(crate) fn topic_name(topics: &[TopicName], topic: u32) -> &str
    ensures { result.now ≡ slice_index_or topics.entry.now topic [] }
{
    match topics.get(topic as usize) {
        Some(name) => name.as_str(),
        None => "",
    }
}
