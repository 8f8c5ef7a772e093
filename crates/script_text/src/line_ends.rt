//! The ends of a line, as numbers: most lines of a schedule have at most 16 bytes, and then their ends are all of it.
ghost use Rattle.std.specs.Prelude.{◌≡◌, ◌-◌, ◌≤◌, length, take, drop};
ghost use Rattle.std.specs.Int.{w32, w64, from_le_bytes};
ghost use Rattle.std.specs.Str.{bytes_eq};

/// The first eight bytes, the least first.
pub(crate) fn first_eight(bytes: &[u8]) -> u64
    requires { 8 ≤ length bytes.now }
    ensures { result ≡ from_le_bytes w64 (take 8 bytes.now) }
{
    match bytes.split_first_chunk::<8>() {
        Some((front, _)) => u64::from_le_bytes(*front),
        None => unreachable!(),
    }
}

/// The last eight bytes, the least first.
pub(crate) fn last_eight(bytes: &[u8]) -> u64
    requires { 8 ≤ length bytes.now }
    ensures { result ≡ from_le_bytes w64 (drop (length bytes.now - 8) bytes.now) }
{
    match bytes.split_last_chunk::<8>() {
        Some((_, back)) => u64::from_le_bytes(*back),
        None => unreachable!(),
    }
}

/// The first four bytes, the least first.
pub(crate) fn first_four(bytes: &[u8]) -> u32
    requires { 4 ≤ length bytes.now }
    ensures { result ≡ from_le_bytes w32 (take 4 bytes.now) }
{
    match bytes.split_first_chunk::<4>() {
        Some((front, _)) => u32::from_le_bytes(*front),
        None => unreachable!(),
    }
}

/// The last four bytes, the least first.
pub(crate) fn last_four(bytes: &[u8]) -> u32
    requires { 4 ≤ length bytes.now }
    ensures { result ≡ from_le_bytes w32 (drop (length bytes.now - 4) bytes.now) }
{
    match bytes.split_last_chunk::<4>() {
        Some((_, back)) => u32::from_le_bytes(*back),
        None => unreachable!(),
    }
}

/// Whether two lines are the same.
pub(crate) fn is_same(line: &[u8], other: &[u8]) -> bool
    ensures { result ≡ bytes_eq line.now other.now }
{
    if line.len() != other.len() {
        return false;
    }
    match line.len() {
        4..8 => has_same_fours(line, other),
        8..=16 => has_same_eights(line, other),
        _ => line == other,
    }
}

/// The same of lines that their first four bytes and their last four cover.
fn has_same_fours(line: &[u8], other: &[u8]) -> bool
    requires same { length other.now ≡ length line.now }
    requires long { 4 ≤ length line.now }
    requires short { length line.now ≤ 8 }
    ensures { result ≡ bytes_eq line.now other.now }
{
    first_four(line) == first_four(other) && last_four(line) == last_four(other)
}

/// The same of lines that their first eight bytes and their last eight cover.
fn has_same_eights(line: &[u8], other: &[u8]) -> bool
    requires same { length other.now ≡ length line.now }
    requires long { 8 ≤ length line.now }
    requires short { length line.now ≤ 16 }
    ensures { result ≡ bytes_eq line.now other.now }
{
    first_eight(line) == first_eight(other) && last_eight(line) == last_eight(other)
}
