//! Bytes and texts that own their memory.
ghost use Rattle.std.specs.Prelude.{◌≡◌, ◌∷◌, [], ◌++◌, length, take, IfOk, OnOk, OnErr, string_bytes};

use crate::memory::Memory;
use std::alloc::Global;
use std::marker::Model;

/// Bytes, which contracts see as a list of numbers.
#[derive(Debug, Drop)]
pub struct Blob {
    bytes: Vec<u8>,
}

impl Model for Blob {
    ghost use Rattle.std.specs.Prelude.{List, ℕ};

    ghost Value = { List ℕ };

    ghost view = { λ b. b.bytes.items };
}

impl Blob {
    /// No byte; takes no memory.
    pub fn new(alloc: Global) -> Blob
        ensures { result ≡ [] }
    {
        Blob {
            bytes: Vec::new(alloc),
        }
    }

    /// A copy of the bytes of a slice.
    pub fn from_slice(alloc: Global, bytes: &[u8]) -> Result<Blob, Memory>
        ensures { IfOk result (λ b. b ≡ bytes.now) }
    {
        let bytes = bytes.to_vec(alloc)?;
        Ok(Blob { bytes })
    }

    /// The bytes of a vector; takes no memory.
    pub fn from_vec(bytes: Vec<u8>) -> Blob
        ensures { result ≡ bytes.items }
    {
        Blob { bytes }
    }

    /// How many bytes there are.
    pub fn len(&self) -> usize
        ensures { result ≡ length self.now }
    {
        self.bytes.len()
    }

    /// The bytes as a slice.
    pub fn as_slice(&self) -> &[u8]
        ensures { result.now ≡ self.now }
    {
        self.bytes.as_slice()
    }

    /// The bytes as a vector; takes no memory.
    pub fn into_vec(self) -> Vec<u8>
        ensures { result.items ≡ self }
    {
        self.bytes
    }

    /// More bytes at the end; unchanged where memory is wanting.
    pub fn append(&mut self, more: &[u8]) -> Result<(), Memory>
        ensures ok { OnOk result (self.new ≡ self.old ++ more.now) }
        ensures err { OnErr result (self.new ≡ self.old) }
    {
        self.bytes.extend_from_slice(more)?;
        Ok(())
    }

    /// One more byte at the end; unchanged where memory is wanting.
    pub fn push(&mut self, byte: u8) -> Result<(), Memory>
        ensures ok { OnOk result (self.new ≡ self.old ++ byte ∷ []) }
        ensures err { OnErr result (self.new ≡ self.old) }
    {
        self.bytes.push(byte)?;
        Ok(())
    }

    /// Two more bytes at the end; unchanged where memory is wanting.
    pub fn push_pair(&mut self, first: u8, second: u8) -> Result<(), Memory>
        ensures ok { OnOk result (self.new ≡ self.old ++ first ∷ second ∷ []) }
        ensures err { OnErr result (self.new ≡ self.old) }
    {
        self.bytes.reserve(2)?;
        self.bytes.push_reserved(first);
        self.bytes.push_reserved(second);
        Ok(())
    }

    /// The first bytes alone, so many of them, or all where there are no more.
    pub fn truncate(&mut self, len: usize)
        ensures { self.new ≡ take len self.old }
    {
        self.bytes.truncate(len);
    }

    /// A copy.
    pub fn copy(&self, alloc: Global) -> Result<Blob, Memory>
        ensures { IfOk result (λ b. b ≡ self.now) }
    {
        Blob::from_slice(alloc, self.bytes.as_slice())
    }
}
