//! Bytes and texts.
use geo_base::{Blob, Text};
use std::alloc::Global;

#[test]
fn bytes_and_texts_are_kept(rt: HostRuntime) {
    assert!(rt; bytes_are_kept(rt.alloc()));
    assert!(rt; text_is_kept(rt.alloc(), "topic"));
}

/// Whether two bytes and one more are kept by a copy.
fn bytes_are_kept(alloc: Global) -> bool {
    match Blob::from_slice(alloc, b"ab") {
        Ok(mut blob) => blob.append(b"c").is_ok() && is_copied(alloc, &blob, b"abc"),
        Err(_) => false,
    }
}

/// Whether a copy of bytes is these.
fn is_copied(alloc: Global, blob: &Blob, bytes: &[u8]) -> bool {
    match blob.copy(alloc) {
        Ok(copy) => copy.as_slice() == bytes,
        Err(_) => false,
    }
}

/// Whether a text is kept by a copy.
fn text_is_kept(alloc: Global, text: &str) -> bool {
    match Text::from_str(alloc, text) {
        Ok(first) => is_text_copied(alloc, &first, text),
        Err(_) => false,
    }
}

/// Whether a copy of a text is this.
fn is_text_copied(alloc: Global, first: &Text, text: &str) -> bool {
    match first.copy(alloc) {
        Ok(copy) => copy.as_str() == text,
        Err(_) => false,
    }
}
