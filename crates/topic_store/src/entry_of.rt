//! Where in a ledger an entry stands.
ghost use Rattle.std.specs.Prelude.{◌≡◌, ◌<◌, ◌+◌, ◌^◌, Some, None, nat_lt, if◌then◌else◌};

/// The index of an entry of a ledger of so many entries, with so many before it.
pub(crate) fn entry_of(before: u64, len: u64, entry: u64) -> Option<u64>
    requires { before + len < 2 ^ 64 }
    ensures { result ≡ (if nat_lt entry len then Some (before + entry) else None) }
{
    if entry < len {
        Some(before + entry)
    } else {
        None
    }
}
