//! Words of a line.

use geo_base::Memory;
use hex::FromHexError;
use std::alloc::Global;

/// The text of a line; none has no words.
pub fn text_of(line: &[u8]) -> &str {
    str::from_utf8(line).unwrap_or("")
}

/// The number that a text begins with, and what stands after it.
pub fn number_of(text: &str) -> Option<(u64, &str)> {
    let (number, rest) = text.split_once(' ')?;
    match number.parse() {
        Ok(number) => Some((number, rest)),
        Err(_) => None,
    }
}

/// The bytes that hexadecimal digits stand for, two digits each.
pub fn bytes_of(alloc: Global, digits: &str) -> Result<Option<Vec<u8>>, Memory> {
    match hex::decode(alloc, digits) {
        Ok(bytes) => Ok(Some(bytes)),
        Err(FromHexError::OutOfMemory) => Err(Memory),
        Err(_) => Ok(None),
    }
}
