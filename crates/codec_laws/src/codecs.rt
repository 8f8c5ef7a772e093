//! Bytes as the codecs read them: as fields, messages of a table, metadata, markers, commands, frames and streams of frames.
ghost use Rattle.std.specs.Prelude.{ℕ, List, Option, ◌⊎◌};
ghost use Rattle.marker_codec.specs.Faults.{WrongMarker};
ghost use Rattle.marker_codec.specs.Markers.{IsMarkerText};
ghost use Rattle.message_meta.specs.Metadata.{IsMetaText};
ghost use Rattle.message_meta.specs.Table.{rows as meta_rows};
ghost use Rattle.pb_fields.specs.declared.fault.FieldFault.{FieldFault};
ghost use Rattle.pb_fields.specs.declared.field.Field.{Field};
ghost use Rattle.pb_fields.specs.declared.message.MessageFault.{MessageFault};
ghost use Rattle.pb_fields.specs.declared.message.Row.{Row};
ghost use Rattle.pb_fields.specs.Faults.{HasFault};
ghost use Rattle.pb_fields.specs.Message.{IsMessage, WrongMessage};
ghost use Rattle.pb_fields.specs.Text.{IsText};
ghost use Rattle.pulsar_commands.specs.Faults.{WrongCommand};
ghost use Rattle.pulsar_commands.specs.Text.{IsCommandText};
ghost use Rattle.pulsar_frames.specs.declared.fault.FrameFault.{FrameFault};
ghost use Rattle.pulsar_frames.specs.declared.frame.Frame.{Frame};
ghost use Rattle.pulsar_frames.specs.Frames.{IsFrameText, TakesFrame};
ghost use Rattle.pulsar_frames.specs.Streams.{Ends, Feeds, Reading};
ghost use Rattle.codec_laws.specs.Answers.{AreBytes, HasAnswer};
ghost use Rattle.codec_laws.specs.Streams.{HasReading};

/// Any bytes are a text of a list of fields, or have a fault at an offset.
pub fn law_fields()
    ensures { (bytes : List ℕ) → AreBytes bytes → HasAnswer (IsText bytes) (λ (why : FieldFault). (at : ℕ) × HasFault bytes why at) }
{}

/// Any bytes are a message of a table, or something is wrong with them, where what the message holds is not looked at.
pub fn law_message()
    ensures { (rows : List Row) (bytes : List ℕ) → AreBytes bytes
        → HasAnswer (λ (fs : List Field). IsText bytes fs × IsMessage rows fs) (λ (e : MessageFault). WrongMessage rows bytes e) }
{}

/// Any bytes are a text of metadata, or something is wrong with them.
pub fn law_metadata()
    ensures { (bytes : List ℕ) → AreBytes bytes → HasAnswer (IsMetaText bytes) (WrongMessage meta_rows bytes) }
{}

/// Any number and bytes are a kind and a text of a marker of it, or something is wrong with them.
pub fn law_marker()
    ensures { (number : ℕ) (bytes : List ℕ) → AreBytes bytes → HasAnswer (IsMarkerText number bytes) (WrongMarker number bytes) }
{}

/// Any bytes are a text of a command, or something is wrong with them.
pub fn law_command()
    ensures { (bytes : List ℕ) → AreBytes bytes → HasAnswer (IsCommandText bytes) (WrongCommand bytes) }
{}

/// A frame stands at the front of any bytes, or none does: less than one is there, or it has a fault. Any bytes are a text of a frame or of
/// none, any stream has a reading, and a piece that is fed makes something of a reader.
pub fn law_frames()
    ensures front { (bytes : List ℕ) → AreBytes bytes → HasAnswer (λ (t : Frame × List ℕ). TakesFrame bytes t.0 t.1) (λ (why : Option FrameFault). Ends bytes why) }
    ensures text { (bytes : List ℕ) → AreBytes bytes → ((f : Frame) × IsFrameText bytes f) ⊎ ((f : Frame) → IsFrameText bytes f → ⊥) }
    ensures stream { (stream : List ℕ) → AreBytes stream → HasReading stream }
    ensures fed { (old : Reading) (piece : List ℕ) → AreBytes old.rest → AreBytes piece → (new : Reading) × Feeds old piece new }
{}
