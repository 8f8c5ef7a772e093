//! What holds of bytes and values alone, whoever reads or writes.
ghost use Rattle.std.specs.Prelude.{◌≡◌, ℕ, List, true, length};
ghost use Rattle.geo_base.specs.FrameSizes.{frame_size};
ghost use Rattle.pulsar_frames.specs.Canonical.{frame_text};
ghost use Rattle.pb_fields.specs.declared.field.Field.{Field};
ghost use Rattle.pb_fields.specs.Canonical.{text};
ghost use Rattle.frame_values.specs.Texts.{is_readable, unread_bytes, wire_frame};
ghost use Rattle.geo_base.specs.declared.frame.Frame.{Frame};
ghost use Rattle.frame_values.specs.Coded.{IsWritten};
ghost use Rattle.frame_values.specs.Standing.{Reads, StandFor};
ghost use Rattle.frame_values.specs.Told.{IsTold};

/// Bytes say one value at most, so that two readers of them agree.
pub fn one_value()
    ensures { (names : List (List ℕ)) (bytes : List ℕ) (f g : Frame) → Reads names bytes f → Reads names bytes g → f ≡ g }
{}

/// What was written stands for the value, where its text tells it whole.
pub fn canonical_value()
    ensures { (names : List (List ℕ)) (f : Frame) (bytes : List ℕ) → IsWritten names f bytes → IsTold names f → StandFor names bytes f }
{}

/// A frame's canonical text, the total size's own four bytes included, is exactly as long as the machine computes.
pub fn text_sizes()
    ensures { (names : List (List ℕ)) (rest : List Field) (f : Frame) → unread_bytes f ≡ text rest → is_readable f ≡ true
        → length (frame_text (wire_frame names rest f)) ≡ frame_size names f }
{}
