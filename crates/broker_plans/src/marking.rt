//! Entries that a broker stores.
ghost use Rattle.std.specs.Prelude.{◌≡◌, IfOk};
ghost use Rattle.geo_base.specs.Storing.{own_marker};
ghost use Rattle.broker_plans.specs.Prepared.{MarkerFits};
ghost use Rattle.broker_plans.specs.Updates.{appending};

use broker_state::{BrokerState, StateWrite};
use durable_parts::MARKER_PRODUCER;
use geo_base::{
    Blob, BoxedMarker, Content, Entry, Ident, Marker, Memory, Metadata, ProducerName, Sequence,
    Targets, Text,
};
use std::alloc::Global;
use topic_store::Stream;

/// A marker that the own cluster writes next, for targets, which have these names.
pub fn own_marker(
    alloc: Global,
    state: &BrokerState,
    marker: Marker,
    to: Targets,
    names: Sequence<Text>,
) -> Result<Entry, Memory>
    requires number { MarkerFits state.now.site state.now.broker }
    ensures { IfOk result (λ e. e ≡ own_marker state.now.site state.now.broker marker to names) }
{
    let origin = state.site().own();
    let seq = state.next_marker();
    let marker = BoxedMarker::new(alloc, marker)?;
    let rest = Blob::new(alloc);
    let meta = Metadata::new(alloc, 0, None, names, rest)?;
    let producer = ProducerName::any(alloc, MARKER_PRODUCER)?;
    let payload = Blob::new(alloc);
    Ok(Entry {
        ident: Ident {
            origin,
            producer,
            seq,
        },
        content: Content::Marked(marker),
        to,
        meta,
        payload,
    })
}

/// The write that stores an entry.
pub fn appending(alloc: Global, entry: Entry) -> Result<StateWrite, Memory>
    ensures { IfOk result (λ w. w ≡ appending entry) }
{
    let stream = Stream::of(alloc, &entry.ident)?;
    Ok(StateWrite::Append { entry, stream })
}
