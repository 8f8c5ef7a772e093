//! The written machine: clusters that replicate topics and carry subscriptions between them.
//!
//! `src/` has the plain types that code and definitions share. `specs/` has the machine itself: each event as a
//! function of one node's state and of the next packet of one link, and whole runs of such events.
#![tactic(auto)]

mod bytes;
mod change;
mod client;
mod consumer;
mod copy;
mod entry;
mod entry_store;
mod event;
mod frame;
pub mod limits;
mod marker;
mod memory;
mod metadata;
mod name;
mod packet;
mod pick;
mod planned;
mod position;
mod replicator;
mod sequence;
mod session;
mod snapshot;
mod text;
mod write;

pub use bytes::Blob;
pub use change::Change;
pub use client::{Held, Line};
pub use consumer::{Consumer, Unacked};
pub use copy::{optional_text, optional_text_copy};
pub use entry::{Content, Entry, Ident, Targets};
pub use entry_store::EntryStore;
pub use event::{Event, Fate, Step};
pub use frame::{AckKind, Frame, SubKind};
pub use marker::{BoxedMarker, ClusterPosition, ClusterRef, Marker};
pub use memory::Memory;
pub use metadata::Metadata;
pub use name::{
    ClusterName, Name, NameFault, ProducerName, SubName, TopicName, cluster_number, name_text,
};
pub use packet::{Out, Packet, Peer, Stamp, WireOut};
pub use pick::{Pick, first_permitted, if_permitted};
pub use planned::{Cause, Planned};
pub use position::Position;
pub use replicator::{Pending, ReplicatorState};
pub use sequence::Sequence;
pub use session::{AttachedProducer, Session};
pub use snapshot::{CachedSnapshot, Cut, Progress, SnapshotBuilder};
pub use text::Text;
pub use write::Write;
