//! That what a run stores can stand in the text of a ledger, and is read from it as it was.
ghost use Rattle.file_laws.specs.Ledgers.{LawReadable};

/// Each entry that stands in a topic where steps of an accepted script come to, within the limits of a run, can stand in a ledger's text: its
/// texts are what it is, they are shorter than 2^32 bytes, and its numbers have their bytes. So it is read from the text as it was.
/// It holds for every list of steps, not only those that the script lists.
pub fn law_readable()
    ensures { LawReadable }
{}
