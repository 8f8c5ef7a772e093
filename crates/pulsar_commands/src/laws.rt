//! What holds of the grammar of commands alone, whoever reads or writes.

ghost use Rattle.std.specs.Prelude.{◌≡◌, ℕ, List};
ghost use Rattle.std.specs.List.{flat_map};
ghost use Rattle.pb_fields.specs.Canonical.{AscendFrom};
ghost use Rattle.pulsar_commands.specs.declared.command.Command.{Command};
ghost use Rattle.pulsar_commands.specs.declared.fault.CommandFault.{CommandFault};
ghost use Rattle.pulsar_commands.specs.Text.{IsCommandText};
ghost use Rattle.pulsar_commands.specs.Faults.{WrongCommand};
ghost use Rattle.pulsar_commands.specs.Parts.{parts};
ghost use Rattle.pulsar_commands.specs.Canonical.{IsWritable, command_fields, command_text, part_fields};

/// Bytes are a text of one command at most, have one fault at most, and not both.
pub fn one_meaning()
    ensures text { (bytes : List ℕ) (c d : Command) → IsCommandText bytes c → IsCommandText bytes d → c ≡ d }
    ensures fault { (bytes : List ℕ) (a b : CommandFault) → WrongCommand bytes a → WrongCommand bytes b → a ≡ b }
    ensures either { (bytes : List ℕ) (c : Command) (e : CommandFault) → IsCommandText bytes c → WrongCommand bytes e → ⊥ }
{}

/// The canonical text of a command is a text of it and of no other, and its fields stand by ascending number, also those of
/// the command's own message.
pub fn canonical_command()
    ensures text { (c : Command) → IsWritable c → IsCommandText (command_text c) c }
    ensures no_other { (c d : Command) → IsWritable c → IsCommandText (command_text c) d → d ≡ c }
    ensures ascending { (c : Command) → AscendFrom 1 (command_fields c) }
    ensures ascending_within { (c : Command) → AscendFrom 1 (flat_map part_fields (parts c)) }
{}
