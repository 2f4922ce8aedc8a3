//! What comes over a connection.
ghost use Rattle.std.specs.Prelude.{◌≡◌, ◌==◌, ◌≤◌, [], length, vec_len, drop, IfOk, IfErr, OnOk};
ghost use Rattle.hx_etcd.specs.Connections.{Fills, HeadComes, BodyComes, IsFillFault, IsHeadFault, IsBodyFault};

use crate::response::{CallError, Head, decoder_of, read_head, read_piece};
use std::alloc::{AllocError, Global};
use std::io::Read;

// The most bytes that are read at once.
const MOST_READ: usize = 16 * 1024;

// The most bytes of a body that may come, with what frames it.
const MOST_BODY: usize = 2 * 1024 * 1024 * 1024;

// What is read, and what has come of it.
#[derive(Drop)]
pub(crate) struct Inlet<R: Read + Drop> {
    alloc: Global,
    reader: R,
    // What has come and is not done with.
    unread: Vec<u8>,
}

impl<R: Read + Drop> Inlet<R> {
    // Of which nothing was read.
    pub(crate) fn new(alloc: Global, reader: R) -> Inlet<R>
        ensures reader { result.reader ≡ reader }
        ensures nothing { result.unread.items ≡ [] }
    {
        Inlet {
            alloc,
            reader,
            unread: Vec::new(alloc),
        }
    }

    // Whether all that has come is done with.
    pub(crate) fn is_clear(&self) -> bool
        ensures { result ≡ (length self.now.unread.items == 0) }
    {
        self.unread.is_empty()
    }

    // Reads up to the end of a head.
    pub(crate) fn next_head(&mut self) -> Result<Head, CallError>
        ensures ok { IfOk result (λ head. HeadComes (R.remaining self.old.reader)
            (R.remaining self.new.reader) self.old.unread.items head self.new.unread.items) }
        ensures err { IfErr result (IsHeadFault (R.remaining self.old.reader)
            (R.remaining self.new.reader) self.old.unread.items) }
    {
        'heads: loop {
            if let Some(head) = read_head(&self.unread)? {
                self.drop_front(head.len)?;
                return Ok(head);
            }
            let _count = self.fill()?;
        }
    }

    // Reads the body after a head.
    pub(crate) fn next_body(&mut self, head: &Head) -> Result<Vec<u8>, CallError>
        ensures ok { IfOk result (λ body. BodyComes (R.remaining self.old.reader)
            (R.remaining self.new.reader) self.old.unread.items head.now.framing body.items
            self.new.unread.items) }
        ensures err { IfErr result (IsBodyFault (R.remaining self.old.reader)
            (R.remaining self.new.reader) self.old.unread.items head.now.framing) }
    {
        let mut decoder = decoder_of(head);
        let mut body = Vec::new(self.alloc);
        let mut left = MOST_BODY;
        'pieces: loop {
            let piece = read_piece(&mut decoder, &self.unread, &mut body)?;
            self.drop_front(piece.len)?;
            if piece.is_last {
                return Ok(body);
            }
            let count = self.fill()?;
            if count > left {
                return Err(CallError::TooLong);
            }
            left -= count;
        }
    }

    // Reads what comes next, and returns how many bytes that is.
    fn fill(&mut self) -> Result<usize, CallError>
        ensures ok { IfOk result (Fills (R.remaining self.old.reader)
            (R.remaining self.new.reader) self.old.unread.items self.new.unread.items) }
        ensures err { IfErr result (IsFillFault (R.remaining self.old.reader)
            (R.remaining self.new.reader)) }
    {
        let mut room = [0u8; MOST_READ];
        let count = self.reader.read(&mut room)?;
        if count == 0 {
            return Err(CallError::Ended);
        }
        self.unread.extend_from_slice(&room[..count])?;
        Ok(count)
    }

    // Is done with the first bytes of what has come.
    fn drop_front(&mut self, len: usize) -> Result<(), AllocError>
        requires { len ≤ vec_len self.old.unread }
        ensures rest { OnOk result (self.new.unread.items ≡ drop len self.old.unread.items) }
        ensures reader { self.new.reader ≡ self.old.reader }
    {
        self.unread = Vec::from_slice(self.alloc, &self.unread[len..])?;
        Ok(())
    }
}
