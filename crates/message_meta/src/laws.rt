//! What holds of the grammar of metadata alone, whoever reads or writes.

ghost use Rattle.std.specs.Prelude.{◌≡◌, ◌++◌, ℕ, List};
ghost use Rattle.pb_fields.specs.declared.message.MessageFault.{MessageFault};
ghost use Rattle.pb_fields.specs.Canonical.{text, AscendFrom};
ghost use Rattle.pb_fields.specs.Message.{WrongMessage};
ghost use Rattle.message_meta.specs.Table.{rows};
ghost use Rattle.message_meta.specs.Metadata.{Metadata, IsMetaText};
ghost use Rattle.message_meta.specs.Canonical.{IsMetadata, canonical_fields, required_fields, optional_fields};

/// Bytes are a text of one metadata at most, have one fault at most, and not both.
pub fn one_meaning()
    ensures text { (bytes : List ℕ) (m n : Metadata) → IsMetaText bytes m → IsMetaText bytes n → m ≡ n }
    ensures fault { (bytes : List ℕ) (a b : MessageFault) → WrongMessage rows bytes a → WrongMessage rows bytes b → a ≡ b }
    ensures either { (bytes : List ℕ) (m : Metadata) (e : MessageFault) → IsMetaText bytes m → WrongMessage rows bytes e → ⊥ }
{}

/// The canonical text of metadata is a text of it and of no other, and its known fields stand by ascending number.
pub fn canonical_metadata()
    ensures text { (m : Metadata) → IsMetadata m → IsMetaText (text (canonical_fields m)) m }
    ensures no_other { (m n : Metadata) → IsMetadata m → IsMetaText (text (canonical_fields m)) n → n ≡ m }
    ensures ascending { (m : Metadata) → AscendFrom 1 (required_fields m ++ optional_fields m) }
{}
