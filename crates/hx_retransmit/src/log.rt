//! Messages in the broadcast log.
ghost use Rattle.std.specs.Prelude.{◌≡◌};
ghost use mathlib.Core.List.{IsPrefix};

use arrayvec::ArrayVec;
use hx_blog::{Log, Reader, Receipt};
use hx_mold::Messages;
use std::marker::Model;

/// The messages of a log, up to the count that a reader has seen: to look how many there are is to load that count. No
/// call takes memory, waits or holds a lock. Contracts see the reader.
#[derive(Drop)]
pub struct LogMessages<'a, E> {
    log: &'a Log<E>,
    reader: Reader<E>,
}

impl<'a, E> Model for LogMessages<'a, E> {
    ghost use Rattle.std.specs.Prelude.{◌≡◌};
    ghost use Rattle.hx_blog.specs.Ends.{ReaderState};

    ghost Value = { ReaderState E };

    ghost view = { λ m. m.reader };

    ghost invariant = { λ m. m.reader.log ≡ m.log.now };
}

impl<'a, E> LogMessages<'a, E> {
    /// The messages that the reader has seen, and those that it will see.
    pub fn new(log: &'a Log<E>, reader: Reader<E>) -> Self
        requires { reader.log ≡ log.now }
        ensures { result ≡ reader }
    {
        LogMessages { log, reader }
    }

    /// Adds what the receipt knows: the next look finds all its messages. What has been seen stays.
    pub fn learn(&mut self, receipt: Receipt<E>)
        requires { receipt.log ≡ self.old.log }
        ensures same { self.new ≡ record self.old { known = self.new.known } }
        ensures known { IsPrefix self.old.known self.new.known }
        ensures published { IsPrefix receipt.known self.new.known }
    {
        self.reader.learn(self.log, receipt);
    }
}

impl<'a, E> Messages for LogMessages<'a, E> {
    ghost use Rattle.std.specs.Prelude.{take};
    ghost use Rattle.hx_blog.specs.Feed.{feed};
    ghost use Rattle.hx_retransmit.specs.Looks.{Looks};

    ghost messages = { λ m. take m.seen (feed m.known) };

    ghost counted = { λ old new. Looks old new };

    fn count(&mut self) -> u64 {
        let _ = self.reader.read_so_far();
        self.reader.look(self.log)
    }

    fn get(&mut self, n: u64) -> Option<ArrayVec<u8, 44>> {
        self.reader.at(self.log, n)
    }
}
