//! Readers.
ghost use Rattle.std.specs.Prelude.{◌≡◌, ◌⊎◌, ◌+◌, ◌-◌, ◌*◌, ◌<◌, ◌≤◌, [], ◌∷◌, ◌++◌, length, slice_get, Some, MatchOption, IfSome, IfNone};
ghost use mathlib.Core.List.{IsPrefix};
ghost use Rattle.hx_blog.specs.Ends.{got, room_of};
ghost use Rattle.hx_blog.specs.Feed.{feed};

use crate::loads::{load_count, load_message, load_next_message};
use crate::log::Log;
use crate::receipt::Receipt;
use crate::rule::LogSeat;
use crate::seats::{split_off, tell_reader};
use crate::writer::Writer;
use arrayvec::ArrayVec;
use std::marker::Model;

/// An end of a log that reads. Contracts see the entries that it knows, the count that it has seen, the number of
/// messages that it has read, and the number of times that it loaded the count.
#[derive(Drop)]
pub struct Reader<E> {
    pub(crate) seat: LogSeat<E>,
    pub(crate) seen: u64,
    pub(crate) read: u64,
}

impl<E> Model for Reader<E> {
    ghost use Rattle.hx_blog.specs.Ends.{ReaderState};
    ghost use Rattle.hx_blog.specs.Views.{KeepsReading};

    ghost Value = { ReaderState E };

    ghost view = { λ r. record {
      log = r.seat.table_id;
      known = r.seat.me.0.known;
      seen = r.seen;
      read = r.read;
      loads = r.seat.me.0.loads;
    } };

    ghost invariant = { λ r. KeepsReading r.seat.table_id r.seat.me r.seen r.read };
}

impl<E> Reader<E> {
    /// Loads the count, and returns it: the number of published messages, at most the number for which the log has
    /// room, and at most 1,000,000.
    pub fn look(&mut self, log: &Log<E>) -> u64
        requires { self.old.log ≡ log.now }
        ensures same { (self.new.log ≡ self.old.log) × (self.new.read ≡ self.old.read) }
        ensures known { IsPrefix self.old.known self.new.known }
        ensures count { (result ≡ length (feed self.new.known)) × (self.new.seen ≡ result) }
        ensures got { got self.new ≡ got self.old }
        ensures loaded { self.new.loads ≡ self.old.loads + 1 }
        ensures few { result ≤ 1000000 }
        ensures room { result ≤ room_of log.now }
    {
        self.seen = load_count(&log.table, &mut self.seat);
        self.seen
    }

    /// The number of messages that `next` has read.
    pub fn read_so_far(&self) -> u64
        ensures read { result ≡ self.now.read }
        ensures within { (self.now.read ≤ self.now.seen)
            × (self.now.seen ≤ length (feed self.now.known)) }
    {
        self.read
    }

    /// Message `n`, counted from 1; `None` exactly if `n` is 0 or above the count that this reader has seen.
    pub fn at(&mut self, log: &Log<E>, n: u64) -> Option<ArrayVec<u8, 44>>
        requires { self.old.log ≡ log.now }
        ensures same { self.new ≡ self.old }
        ensures within { self.old.seen ≤ length (feed self.old.known) }
        ensures message { MatchOption result ((n ≡ 0) ⊎ (self.old.seen < n))
            (λ m. (1 ≤ n) × (n ≤ self.old.seen)
            × (slice_get (feed self.old.known) (n - 1) ≡ Some m.items)) }
    {
        if n == 0 || self.seen < n {
            return None;
        }
        Some(load_message(&log.table, &mut self.seat, n - 1))
    }

    /// The message after those that were read. If all messages below the count seen were read, it loads the count
    /// first, and returns `None` exactly if that count is the number of messages read.
    pub fn next(&mut self, log: &Log<E>) -> Option<ArrayVec<u8, 44>>
        requires { self.old.log ≡ log.now }
        ensures log { self.new.log ≡ self.old.log }
        ensures known { IsPrefix self.old.known self.new.known }
        ensures some { IfSome result
            (λ m. (slice_get (feed self.new.known) self.old.read ≡ Some m.items)
            × (self.new.read ≡ self.old.read + 1)) }
        ensures none { IfNone result ((self.old.read ≡ self.old.seen)
            × (self.new.read ≡ self.old.read) × (length (feed self.new.known) ≡ self.old.read)) }
        ensures got { MatchOption result (got self.new ≡ got self.old)
            (λ m. got self.new ≡ got self.old ++ m.items ∷ []) }

        // It loads the count only if there is no message left below the count seen.
        ensures left { self.old.read < self.old.seen → (self.new.known ≡ self.old.known)
            × (self.new.seen ≡ self.old.seen) × (self.new.loads ≡ self.old.loads) }
        ensures loaded { self.old.read ≡ self.old.seen →
            (self.new.seen ≡ length (feed self.new.known)) × (self.new.loads ≡ self.old.loads + 1) }
    {
        if self.read == self.seen && self.look(log) == self.read {
            return None;
        }
        Some(self.advance(log))
    }

    // The next message, which is below the count seen.
    fn advance(&mut self, log: &Log<E>) -> ArrayVec<u8, 44>
        requires log { self.old.log ≡ log.now }
        requires left { self.old.read < self.old.seen }
        ensures read { self.new ≡ record self.old { read = self.old.read + 1 } }
        ensures message { slice_get (feed self.old.known) self.old.read ≡ Some result.items }
        ensures got { got self.new ≡ got self.old ++ result.items ∷ [] }
    {
        let message = load_next_message(&log.table, &mut self.seat, self.read);
        self.read += 1;
        message
    }

    /// Another reader, which knows and has seen what this one does, and has read nothing.
    pub fn split(&mut self, log: &Log<E>) -> Reader<E>
        requires { self.old.log ≡ log.now }
        ensures same { self.new ≡ self.old }
        ensures reader { result ≡ record self.old { read = 0; loads = 0 } }
    {
        Reader {
            seat: split_off(&log.table, &mut self.seat),
            seen: self.seen,
            read: 0,
        }
    }

    /// A receipt for what this reader knows.
    pub fn receipt(&mut self, log: &Log<E>) -> Receipt<E>
        requires { self.old.log ≡ log.now }
        ensures same { self.new ≡ self.old }
        ensures receipt { result ≡ record { log = self.old.log; known = self.old.known } }
    {
        Receipt {
            seat: split_off(&log.table, &mut self.seat),
        }
    }

    /// Adds what the receipt knows: this reader knows from then on the longer of the two lists, which both
    /// begin. The count that it has seen stays.
    pub fn learn(&mut self, log: &Log<E>, receipt: Receipt<E>)
        requires log { self.old.log ≡ log.now }
        requires receipt { receipt.log ≡ log.now }
        ensures same { self.new ≡ record self.old { known = self.new.known } }
        ensures known { IsPrefix self.old.known self.new.known }
        ensures received { IsPrefix receipt.known self.new.known }
        ensures longer { (self.new.known ≡ self.old.known) ⊎ (self.new.known ≡ receipt.known) }
        ensures got { got self.new ≡ got self.old }
    {
        let Receipt { seat } = receipt;
        tell_reader(&log.table, &mut self.seat, seat);
    }

    /// Loads the count, and knows from then on exactly what is published; what it knew is a beginning of that.
    pub fn catch_up(&mut self, log: &Log<E>, writer: &mut Writer<E>)
        requires log { self.old.log ≡ log.now }
        requires writer { writer.old.log ≡ log.now }
        ensures writer { writer.new ≡ writer.old }
        ensures begins { IsPrefix self.old.known writer.old.published }
        ensures reader { self.new ≡ record {
          log = self.old.log;
          known = writer.old.published;
          seen = self.new.seen;
          read = self.old.read;
          loads = self.old.loads + 1;
        } }
        ensures count { self.new.seen ≡ length (feed writer.old.published) }
        ensures got { got self.new ≡ got self.old }
    {
        let news = writer.receipt(log);
        self.learn(log, news);
        self.look(log);
        let known = self.receipt(log);
        writer.confirm(log, known);
    }
}
