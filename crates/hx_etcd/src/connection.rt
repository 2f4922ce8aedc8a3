//! A connection to etcd: one request at a time, and its answer.
ghost use Rattle.std.specs.Prelude.{◌≡◌, true, false, [], IfOk, IfErr, Err, OnOk, OnErr};
ghost use Rattle.std.specs.Io.KnownBytes.{Appends};
ghost use Rattle.hx_etcd.specs.Connections.{is_over, reader_of, writer_of, unread_of, AnswerComes, IsCallFault};

use crate::inlet::Inlet;
use crate::reported::Answer;
use crate::response::CallError;
use std::alloc::Global;
use std::io::{Read, Write};

/// A connection that the caller has made: what is read and what is written. It is over once a call had no answer, since
/// an answer that comes late must not be taken for that of the next call; and once an answer was the last one.
#[derive(Drop)]
pub struct Connection<R: Read + Drop, W: Write + Drop> {
    inlet: Inlet<R>,
    writer: W,
    is_over: bool,
}

impl<R: Read + Drop, W: Write + Drop> Connection<R, W> {
    /// A connection over which nothing was asked yet.
    pub fn new(alloc: Global, reader: R, writer: W) -> Connection<R, W>
        ensures open { is_over result ≡ false }
        ensures reader { reader_of result ≡ reader }
        ensures writer { writer_of result ≡ writer }
        ensures unread { unread_of result ≡ [] }
    {
        Connection {
            inlet: Inlet::new(alloc, reader),
            writer,
            is_over: false,
        }
    }

    /// Whether no call will have an answer any more.
    pub fn is_over(&self) -> bool
        ensures { result ≡ is_over self.now }
    {
        self.is_over
    }

    /// Writes a request, and reads its answer.
    ///
    /// Errors: after one the connection is over, and what was asked may have been done.
    pub fn call(&mut self, request: &[u8]) -> Result<Answer, CallError>
        ensures over { is_over self.old ≡ true → result ≡ Err CallError.Over }
        ensures err { OnErr result (is_over self.new ≡ true) }
        ensures written { OnOk result (Appends (W.contents (writer_of self.old))
            (W.contents (writer_of self.new)) request.now) }
        ensures read { IfOk result (λ answer. AnswerComes (R.remaining (reader_of self.old))
            (R.remaining (reader_of self.new)) (unread_of self.old) answer (unread_of self.new)
            (is_over self.new)) }
        ensures fault { is_over self.old ≡ false → IfErr result (IsCallFault
            (R.remaining (reader_of self.old)) (R.remaining (reader_of self.new))
            (unread_of self.old)) }
    {
        if self.is_over {
            return Err(CallError::Over);
        }
        self.is_over = true;
        self.writer.write_all(request)?;
        self.writer.flush()?;
        let head = self.inlet.next_head()?;
        let body = self.inlet.next_body(&head)?;
        self.is_over = !(head.is_persistent && self.inlet.is_clear());
        Ok(Answer {
            status: head.status,
            body,
        })
    }
}
