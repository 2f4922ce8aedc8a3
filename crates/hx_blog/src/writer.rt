//! The writer.
ghost use Rattle.std.specs.Prelude.{◌≡◌, ◌+◌, ◌*◌, ◌<◌, ◌≤◌, ◌∷◌, ◌++◌, [], length, IsOk, OnOk, OnErr, ◌↔◌};
ghost use mathlib.Core.List.{IsPrefix};
ghost use Rattle.hx_blog.specs.Ends.{room_of, most_room};
ghost use Rattle.hx_blog.specs.Feed.{feed};

use crate::log::Log;
use crate::receipt::Receipt;
use crate::rule::LogSeat;
use crate::seats::{split_off, tell_writer};
use crate::stores::{NamesEntries, NamesMessage, store_count, store_message};
use crate::words::pack;
use arrayvec::ArrayVec;
use std::marker::{Brand, Model};
use thiserror::Error;

/// No slot of the log is free.
#[derive(Debug, Drop, Error)]
#[error("no slot is free")]
pub struct Full;

/// The one end of a log that writes. Contracts see the entries that it published, and the messages that it
/// staged since.
#[derive(Drop)]
pub struct Writer<E> {
    pub(crate) seat: LogSeat<E>,
    pub(crate) count: u64,
    pub(crate) staged: u64,
}

impl<E> Model for Writer<E> {
    ghost use Rattle.hx_blog.specs.Ends.{WriterState};
    ghost use Rattle.hx_blog.specs.Views.{KeepsWriting};

    ghost Value = { WriterState E };

    ghost view = { λ w. record {
      log = w.seat.table_id;
      published = w.seat.me.0.known;
      staged = w.seat.me.0.staged;
    } };

    ghost invariant = { λ w. KeepsWriting w.seat.table_id w.seat.me w.count w.staged };
}

impl<E> Writer<E> {
    /// The number of further messages that can be staged.
    pub fn free(&self, log: &Log<E>) -> u64
        requires { self.now.log ≡ log.now }
        ensures { result + length (feed self.now.published) + length self.now.staged
            ≡ room_of log.now }
    {
        log.capacity - self.count - self.staged
    }

    /// The number of published messages, at most 1,000,000.
    pub fn count(&self) -> u64
        ensures messages { result ≡ length (feed self.now.published) }
        ensures limit { result ≤ most_room }
    {
        self.count
    }

    /// The number of published or staged messages, at most 1,000,000.
    pub fn reached(&self) -> u64
        ensures messages { result ≡ length (feed self.now.published) + length self.now.staged }
        ensures limit { result ≤ most_room }
    {
        self.count + self.staged
    }

    /// Stores a message above the count, where no reader looks yet. Fails exactly if no slot is free, and then nothing
    /// changes.
    pub fn stage(&mut self, log: &Log<E>, message: &ArrayVec<u8, 44>) -> Result<(), Full>
        requires { self.old.log ≡ log.now }
        ensures ok { OnOk result
            (self.new ≡ record self.old { staged = self.old.staged ++ message.now.items ∷ [] }) }
        ensures err { OnErr result (self.new ≡ self.old) }
        ensures full { IsOk result
            ↔ (length (feed self.old.published) + length self.old.staged < room_of log.now) }
    {
        if self.free(log) == 0 {
            return Err(Full);
        }
        self.stage_as::<Brand>(log, message);
        Ok(())
    }

    fn stage_as<N: NamesMessage>(&mut self, log: &Log<E>, message: &ArrayVec<u8, 44>)
        requires log { self.old.log ≡ log.now }
        requires room { length (feed self.old.published) + length self.old.staged
            < room_of log.now }
        requires named { N.message ≡ message.now.items }
        ensures { self.new ≡ record self.old { staged = self.old.staged ++ N.message ∷ [] } }
    {
        let words = pack(message.as_slice());
        let first = 6 * (self.count + self.staged) as usize + 1;
        store_message::<E, N>(&log.table, &mut self.seat, first, &words);
        self.staged += 1;
    }

    /// Publishes what was staged as the messages of this event, of which there may be none: one store of the count,
    /// even if it stays the same. Contracts know the event; the log does not store it.
    pub fn publish(&mut self, log: &Log<E>, event: &E)
        requires { self.old.log ≡ log.now }
        ensures { self.new ≡ record {
          log = self.old.log;
          published = self.old.published ++ (event.now, self.old.staged) ∷ [];
          staged = [];
        } }
    {
        self.publish_as::<Brand>(log, event);
    }

    fn publish_as<N: NamesEntries<E>>(&mut self, log: &Log<E>, event: &E)
        requires log { self.old.log ≡ log.now }
        requires entries { N.entries ≡ (event.now, self.old.staged) ∷ [] }
        requires left { N.left ≡ [] }
        ensures { self.new ≡ record {
          log = self.old.log;
          published = self.old.published ++ N.entries;
          staged = [];
        } }
    {
        let count = self.staged;
        self.publish_first::<N>(log, count);
    }

    /// Publishes the first `count` staged messages, as those of the entries that `N` names, each of which may have some
    /// or none: one store of the count, even if it stays the same. The others stay staged.
    pub fn publish_first<N: NamesEntries<E>>(&mut self, log: &Log<E>, count: u64)
        requires log { self.old.log ≡ log.now }
        requires count { count ≡ length (feed N.entries) }
        requires named { feed N.entries ++ N.left ≡ self.old.staged }
        ensures { self.new ≡ record {
          log = self.old.log;
          published = self.old.published ++ N.entries;
          staged = N.left;
        } }
    {
        store_count::<E, N>(&log.table, &mut self.seat, self.count + count);
        self.count += count;
        self.staged -= count;
    }

    /// A receipt for all that is published.
    pub fn receipt(&mut self, log: &Log<E>) -> Receipt<E>
        requires { self.old.log ≡ log.now }
        ensures same { self.new ≡ self.old }
        ensures receipt { result ≡ record { log = self.old.log; known = self.old.published } }
    {
        Receipt {
            seat: split_off(&log.table, &mut self.seat),
        }
    }

    /// Takes in a receipt: what it knows is a beginning of what is published.
    pub fn confirm(&mut self, log: &Log<E>, receipt: Receipt<E>)
        requires log { self.old.log ≡ log.now }
        requires receipt { receipt.log ≡ log.now }
        ensures same { self.new ≡ self.old }
        ensures beginning { IsPrefix receipt.known self.old.published }
    {
        let Receipt { seat } = receipt;
        tell_writer(&log.table, &mut self.seat, seat);
    }
}
