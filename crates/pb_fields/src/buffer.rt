//! Bytes in memory that has room for more, so that a text whose size is known is written without asking for memory at each field.
//! The fields' numbers are below 16, so that a tag is one byte.

ghost use Rattle.std.specs.Prelude.{◌≡◌, ◌≤◌, ◌<◌, ◌∷◌, [], length, IfOk};
ghost use Rattle.pb_fields.specs.Buffer.{Puts};
ghost use Rattle.pb_fields.specs.Canonical.{field_text, head_text, varint};
ghost use Rattle.pb_fields.specs.Field.{IsField, bytes_field, varint_field};
ghost use Rattle.pb_fields.specs.Front.{IsShortNumber};

use crate::field::WireType;
use geo_base::{Blob, Memory};
use std::alloc::Global;
use std::marker::Model;

/// Numbers below this are varints of one byte (Protocol Buffers encoding, "Base 128 Varints").
const LONG_VARINTS: u64 = 0x80;

/// Bytes, and room for more. Contracts see the bytes, and how many more find room.
#[derive(Drop)]
pub struct Buffer {
    bytes: Vec<u8>,
}

impl Model for Buffer {
    ghost use Rattle.std.specs.Prelude.{◌-◌, vec_len, vec_capacity};
    ghost use Rattle.pb_fields.specs.Buffer.{Filled};

    ghost Value = { Filled };

    ghost view = { λ b. record { bytes = b.bytes.items; spare = vec_capacity b.bytes - vec_len b.bytes } };
}

impl Buffer {
    /// No byte, and room for so many. This is the call that takes memory.
    pub fn with_capacity(alloc: Global, capacity: usize) -> Result<Buffer, Memory>
        ensures { IfOk result (λ b. b ≡ record { bytes = []; spare = capacity }) }
    {
        let bytes = Vec::with_capacity(alloc, capacity)?;
        Ok(Buffer { bytes })
    }

    /// The bytes; takes no memory.
    pub fn into_blob(self) -> Blob
        ensures { result ≡ self.bytes }
    {
        Blob::from_vec(self.bytes)
    }

    /// Puts bytes after the others.
    pub fn put(&mut self, content: &[u8])
        requires { length content.now ≤ self.old.spare }
        ensures { Puts self.old content.now self.new }
    {
        match self.bytes.extend_from_slice(content) {
            Ok(()) => {}
            Err(_) => unreachable!(),
        }
    }

    /// Puts the canonical text of a field whose value is a varint.
    pub fn put_varint(&mut self, number: u32, value: u64)
        requires number { IsShortNumber number }
        requires room { length (field_text (varint_field number value)) ≤ self.old.spare }
        ensures text { Puts self.old (field_text (varint_field number value)) self.new }
        ensures field { IsField (varint_field number value) }
    {
        self.put_byte((8 * number + WireType::Varint.number()) as u8);
        self.put_number(value);
    }

    /// Puts the canonical text of a field whose value is a text, an embedded message or bytes.
    pub fn put_bytes(&mut self, number: u32, content: &[u8])
        requires number { IsShortNumber number }
        requires room { length (field_text (bytes_field number content.now)) ≤ self.old.spare }
        ensures text { Puts self.old (field_text (bytes_field number content.now)) self.new }
        ensures field { IsField (bytes_field number content.now) }
    {
        self.put_head(number, content.len());
        self.put(content);
    }

    /// Puts what precedes the content of a field, its tag and its length; so the content of an embedded message is put after it,
    /// and is not copied.
    pub fn put_head(&mut self, number: u32, len: usize)
        requires number { IsShortNumber number }
        requires room { length (head_text number len) ≤ self.old.spare }
        ensures { Puts self.old (head_text number len) self.new }
    {
        self.put_byte((8 * number + WireType::Bytes.number()) as u8);
        self.put_number(len as u64);
    }

    /// Puts the shortest varint of a number.
    fn put_number(&mut self, number: u64)
        requires { length (varint number) ≤ self.old.spare }
        ensures { Puts self.old (varint number) self.new }
    {
        let mut rest = number;
        while rest >= LONG_VARINTS {
            self.put_byte(0x80 | (rest & 0x7f) as u8);
            rest >>= 7;
        }
        self.put_byte(rest as u8);
    }

    fn put_byte(&mut self, byte: u8)
        requires { 0 < self.old.spare }
        ensures { Puts self.old (byte ∷ []) self.new }
    {
        self.bytes.push_reserved(byte);
    }
}
