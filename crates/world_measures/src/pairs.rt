//! Whether two markers name the same positions of the same clusters.
ghost use Rattle.std.specs.Prelude.{◌≡◌};
ghost use Rattle.geo_base.specs.Audit.{same_pair, same_pairs, same_cluster_ref};
ghost use Rattle.geo_base.specs.Position.{same_position};

use geo_base::{ClusterPosition, ClusterRef, Position};

pub(crate) fn are_same_pairs(pairs: &[ClusterPosition], others: &[ClusterPosition]) -> bool
    ensures { result ≡ same_pairs pairs.now others.now }
{
    if pairs.len() != others.len() {
        return false;
    }
    for (place, pair) in pairs.iter().enumerate() {
        if !is_same_pair(pair, &others[place]) {
            return false;
        }
    }
    true
}

fn is_same_pair(pair: &ClusterPosition, other: &ClusterPosition) -> bool
    ensures { result ≡ same_pair pair.now other.now }
{
    is_same_place(&pair.cluster, &other.cluster) && is_same_position(pair.position, other.position)
}

fn is_same_place(place: &ClusterRef, other: &ClusterRef) -> bool
    ensures { result ≡ same_cluster_ref place.now other.now }
{
    match (place, other) {
        (ClusterRef::Known(cluster), ClusterRef::Known(other)) => *cluster == *other,
        (ClusterRef::Stranger(name), ClusterRef::Stranger(other)) => name.as_bytes()
            == other.as_bytes(),
        _ => false,
    }
}

fn is_same_position(position: Position, other: Position) -> bool
    ensures { result ≡ same_position position other }
{
    position.ledger == other.ledger && position.entry == other.entry
}
