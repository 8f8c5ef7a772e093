//! Where the lines of a broker stand.
ghost use Rattle.std.specs.Prelude.{◌≡◌, ◌≤◌, length};
ghost use Rattle.trace_runs.specs.Snapshots.{number_of};
ghost use Rattle.trace_runs.specs.Writes.{naming};

use crate::name_words::Naming;
use broker::Broker;

/// The topic and the cluster of a broker, by their names.
pub(crate) fn naming(node: &Broker) -> Naming<'_>
    ensures naming { result ≡ naming node.entry.now.site }
    ensures few { length node.entry.now.site.clusters ≤ 8 }
{
    let site = node.site();
    Naming::new(
        site.clusters(),
        site.topic().as_str(),
        site.cluster_name(site.own()).as_str(),
    )
}

/// The number of a broker among all: its topic first, then its cluster.
pub(crate) fn number(node: &Broker) -> usize
    ensures { result ≡ number_of node.now }
{
    node.topic() as usize * node.site().clusters().len() + node.cluster() as usize
}
