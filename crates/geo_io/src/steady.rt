//! A source and a sink over memory of the caller's, which take no memory and never fail.
ghost use Rattle.std.specs.Prelude.{◌≡◌, ◌≤◌, ◌<◌, ◌++◌, ◌||◌, nat_lt, ◌+◌, Ok, Some, IfOk, OnOk, OnErr, length, min, [], take, false};
ghost use Rattle.std.specs.Io.{ReadsAtMost, WritesAtMost};
ghost use Rattle.std.specs.Io.KnownBytes.{Consumes, ReadConsumes};
ghost use Rattle.geo_io.specs.Faults.{Rose, Stood};
ghost use Rattle.geo_io.specs.Sink.{Gains, Gains-more, Gains-none, WriteGains, WriteTakes};
ghost use Rattle.geo_io.specs.Source.{Consumes-more, Consumes-none, ReadGives};
ghost use Rattle.geo_io.specs.Ends.{held_of};

use crate::fault::Failed;
use crate::sink::Sink;
use crate::source::{Source, copy_front};
use std::marker::Model;

/// A source over a slice, which never fails. Contracts see the bytes that are left.
#[derive(Drop)]
pub struct SteadySource<'a> {
    left: &'a [u8],
}

impl<'a> Model for SteadySource<'a> {
    ghost use Rattle.std.specs.Prelude.{List, ℕ};

    ghost Value = { List ℕ };

    ghost view = { λ s. s.left.now };
}

impl<'a> SteadySource<'a> {
    /// A source whose input is these bytes.
    pub fn new(bytes: &'a [u8]) -> SteadySource<'a>
        ensures { result ≡ bytes.now }
    {
        SteadySource { left: bytes }
    }
}

impl<'a> Source for SteadySource<'a> {
    ghost left = { λ s. Some s };

    ghost given = { λ a b bytes. Consumes (Some a) (Some b) bytes };

    ghost faults = { λ _. 0 };

    ghost given_none = { λ a. Consumes-none (Some a) };

    ghost given_more = { λ a b c xs ys first second. Consumes-more (Some a) (Some b) (Some c) xs ys first second };

    fn read(&mut self, buf: &mut [u8]) -> Result<usize, Failed>
        ensures within { ReadsAtMost result buf.new }
        ensures bytes { ReadConsumes (Some self.old) (Some self.new) result buf.new }
        ensures given { ReadGives (λ bytes. Consumes (Some self.old) (Some self.new) bytes) result buf.new }

        // The count is always 0, so these say that it never fails.
        ensures later { 0 ≤ 0 }
        ensures cause { OnErr result (Rose 0 0) }
        ensures steady { OnOk result (Stood 0 0) }

        // It moves as much as it can.
        ensures moved { result ≡ Ok (min (length self.old) (length buf.old)) }
    {
        let left = self.left;
        let n = copy_front(left, buf);
        self.left = &left[n..];
        Ok(n)
    }
}

/// A sink over a fixed buffer, which never fails: it takes every piece whole, and keeps the first
/// bytes that fit. It tells its bytes while all of them fit.
#[derive(Drop)]
pub struct SteadySink<'a> {
    buffer: &'a mut [u8],
    filled: usize,
    overflowed: bool,
}

impl<'a> Model for SteadySink<'a> {
    ghost use Rattle.std.specs.Prelude.{◌≤◌, length, take};
    ghost use Rattle.geo_io.specs.Ends.{BufferState};

    ghost Value = { BufferState };

    ghost view = { λ s. record {
      kept = take s.filled s.buffer.now;
      size = length s.buffer.now;
      overflowed = s.overflowed;
    } };

    ghost invariant = { λ s. s.filled ≤ length s.buffer.now };
}

impl<'a> SteadySink<'a> {
    /// An empty sink that keeps as many bytes as the buffer is long.
    pub fn new(buffer: &'a mut [u8]) -> SteadySink<'a>
        ensures { result ≡ record { kept = []; size = length buffer.old; overflowed = false } }
    {
        SteadySink {
            buffer,
            filled: 0,
            overflowed: false,
        }
    }

    /// The bytes that the sink kept: all that came, where all fit, and else the first that did.
    pub fn bytes(&self) -> &[u8]
        ensures { result.now ≡ self.now.kept }
    {
        &self.buffer[..self.filled]
    }
}

impl<'a> Sink for SteadySink<'a> {
    ghost held = { held_of };

    ghost taken = { λ a b bytes. Gains (held_of a) (held_of b) bytes };

    ghost faults = { λ _. 0 };

    ghost taken_none = { λ a. Gains-none (held_of a) };

    ghost taken_more = { λ a b c xs ys first second. Gains-more (held_of a) (held_of b) (held_of c) xs ys first second };

    fn write(&mut self, piece: &[u8]) -> Result<usize, Failed>
        ensures within { WritesAtMost result piece.now }
        ensures bytes { WriteGains (held_of self.old) (held_of self.new) result piece.now }
        ensures taken { WriteTakes (λ bytes. Gains (held_of self.old) (held_of self.new) bytes) result piece.now }

        // The count is always 0, so these say that it never fails.
        ensures later { 0 ≤ 0 }
        ensures cause { OnErr result (Rose 0 0) }
        ensures stalled { result ≡ Ok 0 → 0 < length piece.now → Rose 0 0 }
        ensures steady { IfOk result (λ n. 0 < n → Stood 0 0) }
        ensures idle { length piece.now ≡ 0 → OnOk result (Stood 0 0) }

        // It takes every piece whole, and keeps what fits.
        ensures whole { result ≡ Ok (length piece.now) }
        ensures kept { self.new.kept ≡ take self.old.size (self.old.kept ++ piece.now) }
        ensures size { self.new.size ≡ self.old.size }
        ensures overflowed { self.new.overflowed
            ≡ (self.old.overflowed || nat_lt self.old.size (length self.old.kept + length piece.now)) }
    {
        let buffer = &mut *self.buffer;
        let room = buffer.len() - self.filled;
        self.filled = fill(buffer, self.filled, piece);
        if room < piece.len() {
            self.overflowed = true;
        }
        Ok(piece.len())
    }
}

/// Puts the first bytes of `piece` into `buffer` from `at` on, as many as fit, and answers where
/// they end.
fn fill(buffer: &mut [u8], at: usize, piece: &[u8]) -> usize
    requires { at ≤ length buffer.old }
    ensures end { result ≡ min (at + length piece.now) (length buffer.old) }
    ensures filled { take result buffer.new
        ≡ take (length buffer.old) (take at buffer.old ++ piece.now) }
{
    at + copy_front(piece, &mut buffer[at..])
}
