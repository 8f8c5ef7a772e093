//! A line of codec vectors.

use crate::answer::{Answer, Kind, answer_of, put_answer};
use crate::words::{bytes_of, number_of, text_of};
use geo_base::Memory;
use std::alloc::Global;

/// What a codec reads in the bytes of a line.
pub fn answer_vector(alloc: Global, line: &[u8], out: &mut Vec<u8>) -> Result<(), Memory> {
    let answer = answer_line(alloc, text_of(line))?;
    let put = put_answer(out, &answer);
    drop(answer);
    put
}

/// The answer for a line.
fn answer_line(alloc: Global, line: &str) -> Result<Answer, Memory> {
    let Some((kind, digits)) = words_of(line) else {
        return Ok(Answer::BadLine);
    };
    match bytes_in(alloc, digits)? {
        Some(bytes) => {
            let answer = answer_of(alloc, kind, bytes.as_slice());
            drop(bytes);
            answer
        }
        None => Ok(Answer::BadLine),
    }
}

/// The kind and the digits of a line.
fn words_of(line: &str) -> Option<(Kind, &str)> {
    let (word, rest) = line.split_once(' ')?;
    if word == "marker" {
        let (number, digits) = number_of(rest)?;
        return Some((Kind::Marker(number), digits));
    }
    match kind_of(word) {
        Some(kind) => Some((kind, rest)),
        None => None,
    }
}

/// The kind that a word names by itself.
fn kind_of(word: &str) -> Option<Kind> {
    match word {
        "fields" => Some(Kind::Fields),
        "meta" => Some(Kind::Meta),
        "command" => Some(Kind::Command),
        "frame" => Some(Kind::Frame),
        "value" => Some(Kind::Value),
        _ => None,
    }
}

/// The bytes of a message: no digits are none, and `-` stands for no byte.
fn bytes_in(alloc: Global, digits: &str) -> Result<Option<Vec<u8>>, Memory> {
    match digits {
        "" => Ok(None),
        "-" => Ok(Some(Vec::new(alloc))),
        _ => bytes_of(alloc, digits),
    }
}
