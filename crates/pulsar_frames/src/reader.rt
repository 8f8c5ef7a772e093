//! A reader of a stream of frames that comes in any pieces.

ghost use Rattle.std.specs.Prelude.{◌≡◌, [], length, Some, None, Err, MatchOption, OnOk, OnErr, IfSome};
ghost use Rattle.pulsar_frames.specs.declared.fault.FrameFault.{FrameFault};
ghost use Rattle.pulsar_frames.specs.Canonical.{IsComplete};
ghost use Rattle.pulsar_frames.specs.Streams.{Reading, fresh, Feeds, Answered, CameTo, answer, Takes};

use crate::fault::FrameFault;
use crate::frame::Frame;
use crate::queue::Queue;
use crate::read::{Parsed, parse};
use bytes::BytesMut;
use geo_base::Memory;
use std::alloc::Global;
use std::marker::Model;

/// What a stream of frames has come to, however it is cut into pieces. It keeps the frames that were read and not yet
/// taken, and the bytes after the last whole frame, in a buffer that is filled at its end and cut at its front. No byte of
/// a frame is read again once its sizes are known, until the frame is whole; no frame is parsed twice.
#[derive(Drop)]
pub struct FrameReader {
    alloc: Global,
    waiting: Queue<Frame>,
    rest: BytesMut,
    fault: Option<FrameFault>,
}

impl Model for FrameReader {
    ghost use Rattle.std.specs.List.{AllByRecursion};
    ghost use Rattle.pulsar_frames.specs.Canonical.{IsComplete};
    ghost use Rattle.pulsar_frames.specs.Streams.{Reading};

    ghost Value = { Reading };

    ghost view = { λ r. record { waiting = r.waiting; rest = r.rest.items; fault = r.fault } };

    ghost invariant = { λ r. AllByRecursion IsComplete r.waiting };
}

impl FrameReader {
    /// A reader at the beginning of a stream; takes no memory.
    pub fn new(alloc: Global) -> FrameReader
        ensures { result ≡ fresh }
    {
        FrameReader {
            alloc,
            waiting: Queue::new(alloc),
            rest: BytesMut::new(alloc),
            fault: None,
        }
    }

    /// Takes the next piece of the stream, and reads each frame that is whole now. Where the first frame without a
    /// reading comes, its fault is answered, from then on for every piece, and no more is read; the frames before it can
    /// still be taken. After `Memory` the reader is as it was before the piece.
    pub fn feed(&mut self, piece: &[u8]) -> Result<(), FrameFault>
        // The piece is read, and the answer is the fault of the stream, if it has one; or memory ran out, and nothing changed.
        ensures fed { Answered self.old piece.now result self.new }
        // Nothing else can come of the piece, unless memory runs out.
        ensures only { (r : Reading) → Feeds self.old piece.now r → CameTo r result self.new }
        // A stream that is refused stays so, and the answer takes no memory.
        ensures refused { (why : FrameFault) → self.old.fault ≡ Some why → (result ≡ Err why) × (self.new ≡ self.old) }
    {
        if let Some(why) = self.fault {
            return Err(why);
        }
        let before = self.rest.len();
        self.rest.extend_from_slice(piece)?;
        match self.read_rest() {
            Ok(()) => self.answer(),
            Err(Memory) => {
                self.rest.truncate(before);
                Err(FrameFault::Memory)
            }
        }
    }

    /// Reads each frame that is whole in the bytes after the last whole frame. Want of memory changes nothing.
    fn read_rest(&mut self) -> Result<(), Memory>
        requires { self.old.fault ≡ None }
        ensures ok { OnOk result (Feeds self.old [] self.new) }
        ensures err { OnErr result (self.new ≡ self.old) }
    {
        let parsed = parse(self.alloc, self.rest.as_slice())?;
        let Parsed {
            frames,
            used,
            fault,
        } = parsed;
        self.waiting.append(frames)?;
        self.rest.advance(used);
        self.fault = fault;
        Ok(())
    }

    /// What the reader says of its stream.
    fn answer(&self) -> Result<(), FrameFault>
        ensures { result ≡ answer self.now.fault }
    {
        match self.fault {
            None => Ok(()),
            Some(why) => Err(why),
        }
    }

    /// Takes the frame that was read first; takes no memory. None exactly where no whole frame that was not yet taken
    /// stands in the bytes so far.
    pub fn next(&mut self) -> Option<Frame>
        ensures taken { MatchOption result ((self.old.waiting ≡ []) × (self.new ≡ self.old)) (λ f. Takes self.old f self.new) }
        // What is taken can be written again, unless that is too large.
        ensures complete { IfSome result IsComplete }
    {
        self.waiting.pop()
    }

    /// How many of the bytes so far stand after the last whole frame, of a refused stream up to its refusal; takes no
    /// memory.
    pub fn rest(&self) -> usize
        ensures { result ≡ length self.now.rest }
    {
        self.rest.len()
    }
}
