//! The metadata of messages.
use geo_base::{ClusterName, Memory, Sequence, Text};
use message_meta::*;
use pb_fields::FieldList;
use std::alloc::Global;
use std::test::Fail;

/// What p published at east.
fn from_east(alloc: Global) -> Result<Meta, Memory> {
    let producer = Text::from_str(alloc, "p")?;
    let east = Text::from_str(alloc, "east")?;
    Ok(Meta {
        producer,
        seq: 1,
        publish_time: 2,
        replicated_from: Some(east),
        key: None,
        replicate_to: Sequence::new(alloc),
        marker: None,
        rest: FieldList::new(alloc),
    })
}

/// The same with another origin.
fn from_another(alloc: Global, origin: &ClusterName) -> Result<Meta, Memory> {
    from_east(alloc)?.with_origin(alloc, origin)
}

/// Whether it is written as these bytes.
fn is_written_from(alloc: Global, origin: &ClusterName, wanted: &[u8]) -> Result<bool, Memory> {
    let meta = from_another(alloc, origin)?;
    let written = meta.write(alloc);
    drop(meta);
    Ok(written?.as_slice() == wanted)
}

#[test]
fn an_origin_replaces_the_old_one(rt: HostRuntime) -> Result<(), Fail> {
    let wanted = [
        0x0a, 0x01, 0x70, 0x10, 0x01, 0x18, 0x02, 0x2a, 0x04, 0x77, 0x65, 0x73, 0x74,
    ];
    let west = ClusterName::read(rt.alloc(), "west")?;
    assert!(rt; is_written_from(rt.alloc(), &west, &wanted)?);
    Ok(())
}
