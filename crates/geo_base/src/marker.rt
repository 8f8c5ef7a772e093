//! The markers of replicated subscriptions (PIP-33, PulsarMarkers.proto).
ghost use Rattle.std.specs.Prelude.{◌≡◌, IfOk};

use crate::memory::Memory;
use crate::position::Position;
use crate::sequence::Sequence;
use crate::text::Text;
use std::alloc::Global;
use std::boxed::Box;
use std::marker::Model;

/// What a cluster's name in a marker or in `replicated_from` means: a cluster by its number, or a name that no cluster has.
#[derive(Drop)]
pub enum ClusterRef {
    Known(u32),
    Stranger(Text),
}

/// A cluster and a position in its topic (ClusterMessageId).
#[derive(Drop)]
pub struct ClusterPosition {
    pub cluster: ClusterRef,
    pub position: Position,
}

/// What a marker says. `id` names a snapshot.
#[derive(Drop)]
pub enum Marker {
    Request {
        id: Text,
        source: ClusterRef,
    },
    Response {
        id: Text,
        answer: ClusterPosition,
    },
    Snapshot {
        id: Text,
        local: Position,
        remote: Sequence<ClusterPosition>,
    },
    Update {
        sub: Text,
        remote: Sequence<ClusterPosition>,
    },
}

/// A marker in memory of its own, so that a message, which has none, is not as large as one. It is the marker.
#[derive(Drop)]
pub struct BoxedMarker {
    marker: Box<Marker>,
}

impl Model for BoxedMarker {
    ghost use Rattle.geo_base.specs.declared.marker.Marker.{Marker};

    ghost Value = { Marker };

    ghost view = { λ b. b.marker.value };
}

impl BoxedMarker {
    /// A marker in memory of its own; an `Err` is want of it.
    pub fn new(alloc: Global, marker: Marker) -> Result<BoxedMarker, Memory>
        ensures { IfOk result (λ b. b ≡ marker) }
    {
        let marker = Box::new(alloc, marker)?;
        Ok(BoxedMarker { marker })
    }

    /// The marker.
    pub fn get(&self) -> &Marker
        ensures { result.now ≡ self.now }
    {
        self.marker.as_ref()
    }
}
