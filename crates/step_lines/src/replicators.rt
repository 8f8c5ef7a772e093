//! The replicators of a broker, noted before an event, and those that are other after it.
ghost use Rattle.std.specs.Prelude.{◌≡◌, ◌&&◌, ◌==◌, ◌<◌, ◌++◌, ℕ, List, [], false, length, OnErr, OnOk};
ghost use Rattle.geo_base.specs.Broker.{Broker as Machine, replicator_at};
ghost use Rattle.geo_base.specs.Cursor.{mark};
ghost use Rattle.step_laws.specs.Steps.{change_line, other_replicators, same_state};
ghost use Rattle.step_lines.specs.Changes.{stood_lines};
ghost use Rattle.step_lines.specs.Noted.{AreReplicators, noted_of, replicator_told};
ghost use Rattle.std.specs.Prelude.{map};

use crate::heads::Indent;
use broker::Broker;
use geo_base::{Blob, Memory, ReplicatorState};
use report_lines::add_replicator_line;

/// What a report shows of a replicator.
#[derive(Clone, Copy, Drop)]
pub struct NotedReplicator {
    pub session: u64,
    pub state: ReplicatorState,
    pub mark: u64,
}

/// What a report shows of the replicator to a cluster.
pub(crate) fn replicator_of(broker: &Broker, remote: u32) -> NotedReplicator
    requires { remote < length broker.now.site.clusters }
    ensures { result ≡ noted_of (replicator_at broker.now.broker remote) }
{
    let row = broker.replicator(remote);
    let replicator = row.replicator();
    NotedReplicator {
        session: replicator.session(),
        state: replicator.state(),
        mark: broker.replicator_mark(remote),
    }
}

/// Whether a report shows the same of two.
pub(crate) fn same_replicator(a: &NotedReplicator, b: &NotedReplicator) -> bool
    ensures { result ≡ ((a.now.session == b.now.session) && same_state a.now.state b.now.state && (a.now.mark == b.now.mark)) }
{
    a.session == b.session && a.state == b.state && a.mark == b.mark
}

/// Whether a replicator to another cluster is other than noted.
pub(crate) fn is_any_other(broker: &Broker, noted: &[NotedReplicator]) -> bool
    requires { length noted.now ≡ length broker.now.site.clusters }
    ensures { (b : Machine) → AreReplicators (length broker.now.site.clusters) b noted.now
        → result ≡ false → other_replicators broker.now.site.own 0 broker.now.site.clusters b broker.now.broker ≡ [] }
{
    for remote in 0..broker.site().clusters().len() {
        if is_other(broker, remote as u32, &noted[remote]) {
            return true;
        }
    }
    false
}

/// Whether the replicator to a cluster is other than noted, and the cluster is not the own one.
fn is_other(broker: &Broker, remote: u32, noted: &NotedReplicator) -> bool
    requires { remote < length broker.now.site.clusters }
    ensures { (b : Machine) (n : List ℕ) → noted.now ≡ noted_of (replicator_at b remote)
        → result ≡ false → replicator_told broker.now.site.own remote n b broker.now.broker ≡ [] }
{
    broker.cluster() != remote && !same_replicator(noted, &replicator_of(broker, remote))
}

/// Appends the replicators to other clusters that are other than noted.
pub(crate) fn add_other_replicators(
    lines: &mut Blob,
    indent: Indent,
    broker: &Broker,
    noted: &[NotedReplicator],
) -> Result<(), Memory>
    requires { length noted.now ≡ length broker.now.site.clusters }
    ensures { (b : Machine) → AreReplicators (length broker.now.site.clusters) b noted.now
        → OnOk result (lines.new ≡ lines.old ++ stood_lines indent (map change_line (other_replicators broker.now.site.own 0 broker.now.site.clusters b broker.now.broker))) }
{
    let clusters = broker.site().clusters();
    for (number, cluster) in clusters.iter().enumerate() {
        add_other_replicator(
            lines,
            indent,
            broker,
            number as u32,
            cluster.as_str(),
            &noted[number],
        )?;
    }
    Ok(())
}

/// The replicator to a cluster, unless that is the own one or the replicator is as noted.
fn add_other_replicator(
    lines: &mut Blob,
    indent: Indent,
    broker: &Broker,
    remote: u32,
    name: &str,
    noted: &NotedReplicator,
) -> Result<(), Memory>
    requires { remote < length broker.now.site.clusters }
    ensures { (b : Machine) → noted.now ≡ noted_of (replicator_at b remote)
        → OnOk result (lines.new ≡ lines.old ++ stood_lines indent (map change_line (replicator_told broker.now.site.own remote name.now b broker.now.broker))) }
{
    if broker.cluster() == remote {
        return Ok(());
    }
    let now = replicator_of(broker, remote);
    if same_replicator(noted, &now) {
        return Ok(());
    }
    indent.add(lines)?;
    add_replicator_line(lines, name, now.session, now.state, now.mark)
}
