//! The records of events, in one text.
ghost use Rattle.std.specs.Prelude.{◌≡◌, ◌<◌, ◌≤◌, [], ◌∷◌, ◌++◌, length, take, get_or, IfOk, OnOk, OnErr};

use std::alloc::{AllocError, Global};
use std::marker::Model;

/// Records in one text, in turn. Contracts see a list of texts.
#[derive(Drop)]
pub struct Records {
    text: Vec<u8>,
    // The offset at which each of them ends in the text.
    ends: Vec<usize>,
}

impl Model for Records {
    ghost use Rattle.std.specs.Prelude.{List, ℕ};
    ghost use Rattle.hx_engine.specs.Pieces.{pieces, AreEnds};

    ghost Value = { List (List ℕ) };

    ghost view = { λ r. pieces 0 r.text.items r.ends.items };

    ghost invariant = { λ r. AreEnds 0 r.text.items r.ends.items };
}

// The offset at which the piece before this index ends, or 0.
fn end_before(ends: &[usize], index: usize) -> usize
    requires { index ≤ length ends.now }
    ensures { result ≡ get_or (0 ∷ ends.now) index 0 }
{
    if index == 0 {
        return 0;
    }
    ends[index - 1]
}

impl Records {
    /// No records.
    pub fn new(alloc: Global) -> Records
        ensures { result ≡ [] }
    {
        Records {
            text: Vec::new(alloc),
            ends: Vec::new(alloc),
        }
    }

    /// No records, with memory for `count` records of `bytes` bytes in all.
    pub fn with_capacity(alloc: Global, count: usize, bytes: usize) -> Result<Records, AllocError>
        ensures { IfOk result (λ r. r ≡ []) }
    {
        Ok(Records {
            text: Vec::with_capacity(alloc, bytes)?,
            ends: Vec::with_capacity(alloc, count)?,
        })
    }

    /// The number of records.
    pub fn len(&self) -> usize
        ensures { result ≡ length self.now }
    {
        self.ends.len()
    }

    /// The record at an index, which counts from 0.
    pub fn get(&self, index: usize) -> &[u8]
        requires { index < length self.now }
        ensures { result.now ≡ get_or self.now index [] }
    {
        let start = end_before(&self.ends, index);
        &self.text[start..self.ends[index]]
    }

    /// Puts a record after the others.
    pub fn push(&mut self, bytes: &[u8]) -> Result<(), AllocError>
        ensures ok { OnOk result (self.new ≡ self.old ++ bytes.now ∷ []) }
        ensures err { OnErr result (self.new ≡ self.old) }
    {
        self.ends.reserve(1)?;
        self.text.extend_from_slice(bytes)?;
        self.ends.push_reserved(self.text.len());
        Ok(())
    }

    /// Takes all but the first `count` away.
    pub fn truncate(&mut self, count: usize)
        ensures { self.new ≡ take count self.old }
    {
        if count >= self.ends.len() {
            return;
        }
        let end = end_before(&self.ends, count);
        self.text.truncate(end);
        self.ends.truncate(count);
    }

    /// Takes over the memory of others, if there are none here.
    pub fn reuse(&mut self, others: Records)
        ensures { self.new ≡ self.old }
    {
        if self.len() > 0 {
            return;
        }
        *self = others;
        self.clear();
    }

    /// Removes all records, and retains their memory.
    pub fn clear(&mut self)
        ensures { self.new ≡ [] }
    {
        self.text.clear();
        self.ends.clear();
    }
}
