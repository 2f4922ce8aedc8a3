//! The bytes of a tape that are read and not yet applied.
ghost use Rattle.std.specs.Prelude.{◌≡◌, ◌≤◌, ◌-◌, ◌++◌, ℕ, List, [], IfOk, OnOk, IfErr, OnErr, false, length, drop};
ghost use Rattle.std.specs.Io.KnownBytes.{Consumes, IsAtEnd, Keeps};
ghost use Rattle.hx_tape_lines.specs.Text.{longest_line};
ghost use Rattle.hx_replay.specs.declared.fault.TapeError.TheVariants as fault;

use crate::fault::TapeError;
use hx_tape_lines::LONGEST_LINE;
use std::alloc::{AllocError, Global};
use std::io::{self, ErrorKind, Read};
use std::marker::Model;

/// Bytes that are read and not yet applied. They are in one piece of memory, in which the offset where they begin moves
/// on as they are applied: before more is read, a line that is not yet whole is moved to the front, and waits there for
/// its end. Contracts see them.
#[derive(Drop)]
pub struct Pending {
    // The bytes that are applied, then these, then room for those that are read next.
    bytes: Vec<u8>,
    start: usize,
    count: usize,
}

impl Model for Pending {
    ghost use Rattle.std.specs.Prelude.{◌≤◌, ◌<◌, ◌+◌, ℕ, List, length, take, drop};
    ghost use Rattle.hx_tape_lines.specs.Text.{longest_line};

    ghost Value = { List ℕ };

    ghost view = { λ p. take p.count (drop p.start p.bytes.items) };

    ghost invariant = { λ p. (p.start + p.count ≤ length p.bytes.items)
        × (longest_line < length p.bytes.items) × (length p.bytes.items ≤ 16777216) };
}

impl Pending {
    /// None yet, and room for pieces of this size.
    pub fn new(alloc: Global, piece: usize) -> Result<Pending, AllocError>
        requires some { 1 ≤ piece }
        requires fits { piece ≤ 8388608 }
        ensures { IfOk result (λ pending. pending ≡ []) }
    {
        Ok(Pending {
            bytes: vec![in alloc; 0; LONGEST_LINE + piece]?,
            start: 0,
            count: 0,
        })
    }

    /// The bytes.
    pub fn text(&self) -> &[u8]
        ensures { result.now ≡ self.now }
    {
        &self.bytes[self.start..self.start + self.count]
    }

    // Moves the bytes to the front, reads a piece after them, and returns the number of bytes read.
    fn read_piece<R: Read>(&mut self, reader: &mut R) -> io::Result<usize>
        requires { length self.old ≤ longest_line }
        ensures piece { IfOk result (λ count. (piece : List ℕ)
            × (self.new ≡ self.old ++ piece) × (length piece ≡ count)
            × Consumes (R.remaining reader.old) (R.remaining reader.new) piece) }
        ensures fits { OnOk result (length self.new ≤ 16777216) }
        ensures end { IfOk result (λ count. count ≡ 0 → IsAtEnd (R.remaining reader.new)) }
        ensures err { OnErr result ((self.new ≡ self.old)
            × Keeps (R.remaining reader.old) (R.remaining reader.new)) }
    {
        self.bytes
            .copy_within(self.start..self.start + self.count, 0);
        self.start = 0;
        match reader.read(&mut self.bytes[self.count..]) {
            Ok(count) => {
                self.count += count;
                Ok(count)
            }
            Err(e) => Err(e),
        }
    }

    /// Reads a piece after the bytes, if the reader is not interrupted, and returns whether there may be more: `false`
    /// at the end of what is read.
    pub fn read<R: Read>(&mut self, reader: &mut R) -> Result<bool, TapeError>
        requires { length self.old ≤ longest_line }
        ensures piece { OnOk result ((piece : List ℕ) × (self.new ≡ self.old ++ piece)
            × Consumes (R.remaining reader.old) (R.remaining reader.new) piece) }
        ensures fits { OnOk result (length self.new ≤ 16777216) }
        ensures end { IfOk result (λ more. more ≡ false → (self.new ≡ self.old)
            × Consumes (R.remaining reader.old) (R.remaining reader.new) []
            × IsAtEnd (R.remaining reader.new)) }
        ensures err { IfErr result (λ e. (e ≡ fault.Read) × (self.new ≡ self.old)
            × Keeps (R.remaining reader.old) (R.remaining reader.new)) }
    {
        match self.read_piece(reader) {
            Ok(count) => Ok(count > 0),
            Err(e) if e.kind() == ErrorKind::Interrupted => Ok(true),
            Err(_) => Err(TapeError::Read),
        }
    }

    /// Drops all bytes but the last `count`.
    pub fn keep(&mut self, count: usize)
        requires { count ≤ length self.old }
        ensures { self.new ≡ drop (length self.old - count) self.old }
    {
        self.start += self.count - count;
        self.count = count;
    }
}
