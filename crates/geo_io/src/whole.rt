//! A whole input read, and a whole output written.
ghost use Rattle.std.specs.Prelude.{◌≡◌, ◌≢◌, ◌≤◌, ◌<◌, length, take, IfOk, OnOk, OnErr, IfErr, IfSome, IsErrOf, MatchResult};
ghost use Rattle.std.specs.Io.KnownBytes.{IsAtEnd};
ghost use Rattle.geo_io.specs.Faults.{Rose, Stood};
ghost use Rattle.geo_io.specs.Source.{ConsumesWithin, GivesOver, GivesSome, LongerThan};
ghost use Rattle.geo_io.specs.Sink.{Gains};

use crate::fault::Failed;
use crate::sink::Sink;
use crate::source::Source;
use geo_base::{Blob, Memory};
use std::alloc::Global;
use std::error::Error;
use std::fmt;

/// Why an input was not read whole.
#[derive(Clone, Copy, Debug, PartialEq, Eq)]
pub enum ReadFault {
    /// The source failed.
    Failed,
    /// More bytes came than were asked for.
    TooLong,
    /// A growth of memory was refused.
    Memory,
}

impl fmt::Display for ReadFault {
    ghost use Rattle.std.specs.Prelude.{Some};
    ghost use Rattle.geo_io.specs.Texts.{read_fault_text};

    ghost output = { λ fault. Some (read_fault_text fault) };

    fn fmt<W: fmt::Write>(&self, f: &mut fmt::Formatter<W>) -> fmt::Result {
        match self {
            ReadFault::Failed => write!(f, "the source failed"),
            ReadFault::TooLong => write!(f, "too many bytes came"),
            ReadFault::Memory => write!(f, "out of memory"),
        }
    }
}

impl Error for ReadFault {}

impl From<Failed> for ReadFault {
    ghost use Rattle.std.specs.Prelude.{◌≡◌};
    ghost use Rattle.geo_io.specs.declared.whole.ReadFault.TheVariants as fault;

    ghost from_gives = { λ _ e. e ≡ fault.Failed };

    fn from(_failed: Failed) -> ReadFault {
        ReadFault::Failed
    }
}

impl From<Memory> for ReadFault {
    ghost use Rattle.std.specs.Prelude.{◌≡◌};
    ghost use Rattle.geo_io.specs.declared.whole.ReadFault.TheVariants as fault;

    ghost from_gives = { λ _ e. e ≡ fault.Memory };

    fn from(_memory: Memory) -> ReadFault {
        ReadFault::Memory
    }
}

/// How many bytes one call asks a source for.
const CHUNK: usize = 16_384;

/// Reads all bytes to the end of the input, `max` at most. `Failed` comes only where the source
/// failed in this call, `TooLong` exactly where more than `max` bytes came, and `Memory` only where no
/// more than `max` did and the source did not fail.
pub fn read_all<S: Source>(alloc: Global, source: &mut S, max: usize) -> Result<Blob, ReadFault>
    // On Ok these are all the bytes that were left, those that the source gave, and they are at most `max`.
    ensures whole { IfOk result (λ bytes. IfSome (S.left source.old) (λ input. bytes ≡ input)) }
    ensures given { IfOk result (S.given source.old source.new) }
    ensures short { IfOk result (λ bytes. length bytes ≤ max) }
    ensures end { OnOk result (IsAtEnd (S.left source.new)) }

    // When the faults come, and what they leave: some of the bytes were given, more than `max` where that is the fault.
    ensures long { IsErrOf result ReadFault.TooLong → LongerThan (S.left source.old) max }
    ensures over { IsErrOf result ReadFault.TooLong
        → GivesOver (S.given source.old source.new) (S.left source.old) (S.left source.new) max }
    ensures cause { IsErrOf result ReadFault.Failed
        → Rose (S.faults source.old) (S.faults source.new) }
    ensures memory { IsErrOf result ReadFault.Memory → ConsumesWithin (S.left source.old) (S.left source.new) max }
    ensures rest { OnErr result (GivesSome (S.given source.old source.new) (S.left source.old) (S.left source.new)) }

    // The source failed nowhere, unless that is the answer.
    ensures steady { MatchResult result (λ _. Stood (S.faults source.old) (S.faults source.new))
        (λ fault. fault ≢ ReadFault.Failed → Stood (S.faults source.old) (S.faults source.new)) }
    ensures later { S.faults source.old ≤ S.faults source.new }
{
    let mut bytes = Blob::new(alloc);
    let mut chunk = [0u8; CHUNK];
    loop {
        let n = source.read(&mut chunk)?;
        if n == 0 {
            return Ok(bytes);
        }
        if n > max - bytes.as_slice().len() {
            return Err(ReadFault::TooLong);
        }
        bytes.append(&chunk[..n])?;
    }
}

/// An output was not written whole: the first `out` bytes of it went out.
#[derive(Clone, Copy, Debug, PartialEq, Eq)]
pub struct WriteFault {
    pub out: u64,
}

impl fmt::Display for WriteFault {
    ghost use Rattle.std.specs.Prelude.{◌++◌, Some, codes, decimal};

    ghost output = { λ fault. Some (codes "the sink failed after " ++ (decimal fault.out ++ codes " bytes")) };

    fn fmt<W: fmt::Write>(&self, f: &mut fmt::Formatter<W>) -> fmt::Result {
        let out = self.out;
        write!(f, "the sink failed after {out} bytes")
    }
}

impl Error for WriteFault {}

/// Writes all bytes, and takes no memory. A fault comes only where the sink failed in this call. A
/// write that takes 0 bytes of those that are left ends the call so too.
pub fn write_all<K: Sink>(sink: &mut K, bytes: &[u8]) -> Result<(), WriteFault>
    ensures whole { OnOk result (Gains (K.held sink.old) (K.held sink.new) bytes.now) }
    ensures taken { OnOk result (K.taken sink.old sink.new bytes.now) }

    // A fault comes before the last byte, and leaves in the sink the bytes that it says.
    ensures part { IfErr result (λ fault.
        Gains (K.held sink.old) (K.held sink.new) (take fault.out bytes.now)) }
    ensures handed { IfErr result (λ fault. K.taken sink.old sink.new (take fault.out bytes.now)) }
    ensures short { IfErr result (λ fault. fault.out < length bytes.now) }
    ensures cause { OnErr result (Rose (K.faults sink.old) (K.faults sink.new)) }

    // The sink failed nowhere, unless a fault is the answer.
    ensures steady { OnOk result (Stood (K.faults sink.old) (K.faults sink.new)) }
    ensures later { K.faults sink.old ≤ K.faults sink.new }
{
    let mut out = 0;
    while out < bytes.len() {
        match sink.write(&bytes[out..]) {
            Ok(n) if n > 0 => out += n,
            _ => return Err(WriteFault { out: out as u64 }),
        }
    }
    Ok(())
}
