//! What holds of frames and their streams alone, whoever reads or writes.

ghost use Rattle.std.specs.Prelude.{◌≡◌, ◌∷◌, ◌++◌, [], ℕ, List, Option, None};
ghost use Rattle.pulsar_frames.specs.declared.fault.FrameFault.{FrameFault};
ghost use Rattle.pulsar_frames.specs.declared.frame.Frame.{Frame};
ghost use Rattle.pulsar_frames.specs.Frames.{IsFrameText, TakesFrame};
ghost use Rattle.geo_base.specs.FrameSizes.{most_frame_size};
ghost use Rattle.pulsar_frames.specs.Layout.{frame_limit};
ghost use Rattle.pulsar_frames.specs.Streams.{Ends, IsStream, Reading, Came, ReadsStream};
ghost use Rattle.pulsar_frames.specs.Canonical.{IsWritableFrame, frame_text};

use geo_base::limits::FRAME_BYTES;

/// The limit on frames: its definition writes the number itself; the constant that the code judges by and the machine's
/// definition are the same.
pub fn one_limit()
    ensures code { FRAME_BYTES ≡ frame_limit }
    ensures machine { most_frame_size ≡ frame_limit }
{}

/// Bytes are a text of one frame at most. A stream is one list of frames at most, with one rest, which is refused for
/// one reason at most; no frame begins the rest.
pub fn one_reading()
    ensures frame { (bytes : List ℕ) (f g : Frame) → IsFrameText bytes f → IsFrameText bytes g → f ≡ g }
    ensures stream { (s : List ℕ) (fs gs : List Frame) (r q : List ℕ) (a b : Option FrameFault) → IsStream s fs r a → IsStream s gs q b → (fs ≡ gs) × (r ≡ q) × (a ≡ b) }
    ensures rest { (r : List ℕ) (why : Option FrameFault) (f : Frame) (more : List ℕ) → Ends r why → TakesFrame r f more → ⊥ }
{}

/// No text of a frame is a proper beginning of another frame's text.
pub fn no_prefix()
    ensures { (bytes more : List ℕ) (f g : Frame) → IsFrameText bytes f → IsFrameText (bytes ++ more) g → more ≡ [] }
{}

/// The canonical text of a frame is a text of it and of no other.
pub fn canonical_frame()
    ensures text { (f : Frame) → IsWritableFrame f → IsFrameText (frame_text f) f }
    ensures no_other { (f g : Frame) → IsWritableFrame f → IsFrameText (frame_text f) g → g ≡ f }
{}

/// However a stream was cut into pieces, and whenever frames were taken in between: those taken, followed by those that
/// wait, are the frames of the stream, and the reader refuses it exactly where the stream is refused.
pub fn any_pieces()
    ensures { (stream : List ℕ) (taken : List Frame) (r : Reading) → Came stream taken r → ReadsStream stream taken r }
{}

/// Bytes are a text of one frame exactly where, as a stream, they are that frame and nothing after it.
pub fn one_frame()
    ensures there { (bytes : List ℕ) (f : Frame) → IsFrameText bytes f → IsStream bytes (f ∷ []) [] None }
    ensures back { (bytes : List ℕ) (f : Frame) → IsStream bytes (f ∷ []) [] None → IsFrameText bytes f }
{}
