//! What holds of the grammar alone, whoever reads or writes.

ghost use Rattle.std.specs.Prelude.{◌≡◌, ◌<◌, ◌≤◌, ◌^◌, ℕ, List, length};
ghost use Rattle.std.specs.List.{AllByRecursion};
ghost use Rattle.pb_fields.specs.declared.field.Field.{Field};
ghost use Rattle.pb_fields.specs.declared.fault.FieldFault.{FieldFault};
ghost use Rattle.pb_fields.specs.Varint.{IsVarint};
ghost use Rattle.pb_fields.specs.Field.{IsField};
ghost use Rattle.pb_fields.specs.Text.{IsText};
ghost use Rattle.pb_fields.specs.Faults.{HasFault};
ghost use Rattle.pb_fields.specs.Canonical.{varint, text};

/// Bytes are a text of one list of fields at most, have one fault at most, and not both. What they are a text of are
/// fields that can be written.
pub fn one_reading()
    ensures text { (bytes : List ℕ) (fs gs : List Field) → IsText bytes fs → IsText bytes gs → fs ≡ gs }
    ensures fault { (bytes : List ℕ) (a b : FieldFault) (i j : ℕ) → HasFault bytes a i → HasFault bytes b j → (a ≡ b) × (i ≡ j) }
    ensures either { (bytes : List ℕ) (fs : List Field) (why : FieldFault) (at : ℕ) → IsText bytes fs → HasFault bytes why at → ⊥ }
    ensures fields { (bytes : List ℕ) (fs : List Field) → IsText bytes fs → AllByRecursion IsField fs }
{}

/// The canonical text of a list of fields is a text of it and of no other, and no text of it has a shorter varint.
pub fn canonical_text()
    ensures text { (fs : List Field) → AllByRecursion IsField fs → IsText (text fs) fs }
    ensures no_other { (fs gs : List Field) → AllByRecursion IsField fs → IsText (text fs) gs → gs ≡ fs }
    ensures varint { (n : ℕ) → n < 2 ^ 64 → IsVarint (varint n) n }
    ensures shortest { (bytes : List ℕ) (n : ℕ) → IsVarint bytes n → length (varint n) ≤ length bytes }
{}
