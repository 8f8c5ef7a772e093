//! A line of hostile packets.

use crate::fault::Fault;
use crate::output::put_bytes_line;
use crate::told::tell;
use crate::words::{bytes_of, number_of, text_of};
use geo_base::Memory;
use std::alloc::Global;

/// What a broker does with the packet of a line.
pub fn answer_packet(alloc: Global, line: &[u8], out: &mut Vec<u8>) -> Result<(), Fault> {
    let Some((session, zeros, digits)) = words_of(text_of(line)) else {
        return Ok(put_bytes_line(out, b"bad line")?);
    };
    match bytes_of(alloc, digits)? {
        Some(mut frame) => {
            let told = tell_with(alloc, session, &mut frame, zeros, out);
            drop(frame);
            told
        }
        None => Ok(put_bytes_line(out, b"bad line")?),
    }
}

/// What a broker does with a packet whose frame is these bytes and so many zeros after them.
fn tell_with(
    alloc: Global,
    session: u64,
    frame: &mut Vec<u8>,
    zeros: u64,
    out: &mut Vec<u8>,
) -> Result<(), Fault> {
    add_zeros(frame, zeros)?;
    tell(alloc, session, frame.as_slice(), out)
}

fn add_zeros(frame: &mut Vec<u8>, zeros: u64) -> Result<(), Memory> {
    for _ in 0..zeros {
        frame.push(0)?;
    }
    Ok(())
}

/// The session, the zeros and the digits of a line.
fn words_of(text: &str) -> Option<(u64, u64, &str)> {
    let (session, rest) = number_of(text)?;
    let (zeros, digits) = number_of(rest)?;
    Some((session, zeros, digits))
}
