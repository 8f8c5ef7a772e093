//! Markers.
use geo_base::{Memory, Position, Text};
use marker_codec::*;
use std::alloc::Global;
use std::test::Fail;

/// The position 3:4 of b.
fn of_b(alloc: Global) -> Result<ClusterMessageIds, Memory> {
    let cluster = Text::from_str(alloc, "b")?;
    let mut clusters = ClusterMessageIds::new(alloc);
    clusters.push(ClusterMessageId {
        cluster,
        message_id: Position {
            ledger: 3,
            entry: 4,
        },
    })?;
    Ok(clusters)
}

/// The snapshot i at 1:2, b at 3:4.
fn snapshot(alloc: Global) -> Result<Marker, Memory> {
    let clusters = of_b(alloc)?;
    Ok(Marker::Snapshot {
        snapshot_id: Text::from_str(alloc, "i")?,
        local_message_id: Position {
            ledger: 1,
            entry: 2,
        },
        clusters,
    })
}

/// Its kind, and whether it is written as these bytes.
fn is_written(alloc: Global, wanted: &[u8]) -> Result<(MarkerKind, bool), Memory> {
    let marker = snapshot(alloc)?;
    let kind = marker.kind();
    let written = marker.write(alloc);
    drop(marker);
    Ok((kind, written?.as_slice() == wanted))
}

#[test]
fn fields_keep_their_places(rt: HostRuntime) -> Result<(), Fail> {
    let wanted = [
        0x0a, 0x01, 0x69, 0x12, 0x04, 0x08, 0x01, 0x10, 0x02, 0x1a, 0x09, 0x0a, 0x01, 0x62, 0x12,
        0x04, 0x08, 0x03, 0x10, 0x04,
    ];
    let (kind, is_written) = is_written(rt.alloc(), &wanted)?;
    assert!(rt; kind == MarkerKind::Snapshot && kind.number() == 12);
    assert!(rt; is_written);
    Ok(())
}
