//! What is written.

use geo_base::{Blob, Memory};
use std::fmt;
use std::io::Write;

/// The digits of hexadecimal.
const DIGITS: &[u8; 16] = b"0123456789abcdef";

/// A text and a line feed.
pub fn put_line<T: fmt::Display>(out: &mut Vec<u8>, text: &T) -> Result<(), Memory> {
    match writeln!(out, "{text}") {
        Ok(()) => Ok(()),
        Err(_) => Err(Memory),
    }
}

/// Bytes and a line feed.
pub fn put_bytes_line(out: &mut Vec<u8>, bytes: &[u8]) -> Result<(), Memory> {
    out.extend_from_slice(bytes)?;
    out.push(b'\n')?;
    Ok(())
}

/// A space and bytes, two digits each.
pub fn put_hex(out: &mut Vec<u8>, bytes: &[u8]) -> Result<(), Memory> {
    out.push(b' ')?;
    for byte in bytes {
        out.push(DIGITS[usize::from(byte >> 4)])?;
        out.push(DIGITS[usize::from(byte & 15)])?;
    }
    Ok(())
}

/// The bytes of a blob, which ends.
pub fn put_blob(out: &mut Vec<u8>, blob: Blob) -> Result<(), Memory> {
    let put = out.extend_from_slice(blob.as_slice());
    drop(blob);
    put?;
    Ok(())
}
