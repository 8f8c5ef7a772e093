//! Copies of entries and of what they hold. Each may want memory, and is equal to its source otherwise.
ghost use Rattle.std.specs.Prelude.{◌≡◌, IfOk};
ghost use Rattle.std.specs.Option.{option_copied};

use crate::entry::{Content, Entry, Ident};
use crate::marker::{BoxedMarker, ClusterPosition, ClusterRef, Marker};
use crate::memory::Memory;
use crate::position::Position;
use crate::sequence::Sequence;
use crate::snapshot::Cut;
use crate::text::Text;
use std::alloc::Global;

/// A copy of a text that may be absent.
pub fn optional_text_copy(alloc: Global, text: &Option<Text>) -> Result<Option<Text>, Memory>
    ensures { IfOk result (λ c. c ≡ text.now) }
{
    match text {
        None => Ok(None),
        Some(text) => Ok(Some(text.copy(alloc)?)),
    }
}

/// The same of one that stands elsewhere.
pub fn optional_text(alloc: Global, text: Option<&str>) -> Result<Option<Text>, Memory>
    ensures { IfOk result (λ copy. copy ≡ option_copied text.entry) }
{
    match text {
        None => Ok(None),
        Some(text) => Ok(Some(Text::from_str(alloc, text)?)),
    }
}

impl Sequence<Text> {
    /// A copy.
    pub fn copy(&self, alloc: Global) -> Result<Sequence<Text>, Memory>
        ensures { IfOk result (λ c. c ≡ self.now) }
    {
        let mut copied = Sequence::new(alloc);
        let texts = self.as_slice();
        for text in texts {
            copied.push(text.copy(alloc)?)?;
        }
        Ok(copied)
    }
}

impl ClusterRef {
    /// A copy.
    pub fn copy(&self, alloc: Global) -> Result<ClusterRef, Memory>
        ensures { IfOk result (λ c. c ≡ self.now) }
    {
        match self {
            ClusterRef::Known(cluster) => Ok(ClusterRef::Known(*cluster)),
            ClusterRef::Stranger(name) => Ok(ClusterRef::Stranger(name.copy(alloc)?)),
        }
    }
}

impl ClusterPosition {
    /// A copy.
    pub fn copy(&self, alloc: Global) -> Result<ClusterPosition, Memory>
        ensures { IfOk result (λ c. c ≡ self.now) }
    {
        Ok(ClusterPosition {
            cluster: self.cluster.copy(alloc)?,
            position: self.position,
        })
    }
}

impl Sequence<ClusterPosition> {
    /// A copy.
    pub fn copy(&self, alloc: Global) -> Result<Sequence<ClusterPosition>, Memory>
        ensures { IfOk result (λ c. c ≡ self.now) }
    {
        let mut copied = Sequence::new(alloc);
        let positions = self.as_slice();
        for position in positions {
            copied.push(position.copy(alloc)?)?;
        }
        Ok(copied)
    }
}

impl Marker {
    /// A copy.
    pub fn copy(&self, alloc: Global) -> Result<Marker, Memory>
        ensures { IfOk result (λ c. c ≡ self.now) }
    {
        match self {
            Marker::Request { id, source } => Ok(Marker::Request {
                id: id.copy(alloc)?,
                source: source.copy(alloc)?,
            }),
            Marker::Response { id, answer } => Ok(Marker::Response {
                id: id.copy(alloc)?,
                answer: answer.copy(alloc)?,
            }),
            Marker::Snapshot { id, local, remote } => Ok(Marker::Snapshot {
                id: id.copy(alloc)?,
                local: *local,
                remote: remote.copy(alloc)?,
            }),
            Marker::Update { sub, remote } => Ok(Marker::Update {
                sub: sub.copy(alloc)?,
                remote: remote.copy(alloc)?,
            }),
        }
    }
}

impl BoxedMarker {
    /// A copy.
    pub fn copy(&self, alloc: Global) -> Result<BoxedMarker, Memory>
        ensures { IfOk result (λ c. c ≡ self.now) }
    {
        let marker = self.get().copy(alloc)?;
        BoxedMarker::new(alloc, marker)
    }
}

impl Content {
    /// A copy.
    pub fn copy(&self, alloc: Global) -> Result<Content, Memory>
        ensures { IfOk result (λ c. c ≡ self.now) }
    {
        match self {
            Content::Data => Ok(Content::Data),
            Content::Marked(marker) => Ok(Content::Marked(marker.copy(alloc)?)),
            Content::Unread(kind) => Ok(Content::Unread(*kind)),
        }
    }
}

impl Ident {
    /// A copy.
    pub fn copy(&self, alloc: Global) -> Result<Ident, Memory>
        ensures { IfOk result (λ c. c ≡ self.now) }
    {
        Ok(Ident {
            origin: self.origin,
            producer: self.producer.copy(alloc)?,
            seq: self.seq,
        })
    }
}

impl Entry {
    /// A copy.
    pub fn copy(&self, alloc: Global) -> Result<Entry, Memory>
        ensures { IfOk result (λ c. c ≡ self.now) }
    {
        Ok(Entry {
            ident: self.ident.copy(alloc)?,
            content: self.content.copy(alloc)?,
            to: self.to,
            meta: self.meta.copy(alloc)?,
            payload: self.payload.copy(alloc)?,
        })
    }
}

impl Sequence<Option<Position>> {
    /// A copy.
    pub fn copy(&self, alloc: Global) -> Result<Sequence<Option<Position>>, Memory>
        ensures { IfOk result (λ c. c ≡ self.now) }
    {
        Ok(Sequence::from_vec(self.as_slice().to_vec(alloc)?))
    }
}

impl Cut {
    /// A copy.
    pub fn copy(&self, alloc: Global) -> Result<Cut, Memory>
        ensures { IfOk result (λ c. c ≡ self.now) }
    {
        Ok(Cut {
            local: self.local,
            remote: self.remote.copy(alloc)?,
        })
    }
}
