//! Receipts, by which a thread shows others what it knew.
ghost use Rattle.hx_blog.specs.Ends.{most_room};
ghost use Rattle.std.specs.Prelude.{◌≡◌, ◌⊎◌, ◌+◌, ◌*◌, ◌≤◌};
ghost use mathlib.Core.List.{IsPrefix};

use crate::log::Log;
use crate::rule::LogSeat;
use crate::seats::{split_off, tell_reader};
use crate::writer::Writer;
use std::marker::Model;
use std::mem::replace;

/// What its maker knew, to be taken to another thread. Contracts see the entries that it knows. It has no bytes.
#[derive(Drop)]
pub struct Receipt<E> {
    pub(crate) seat: LogSeat<E>,
}

impl<E> Model for Receipt<E> {
    ghost use Rattle.std.specs.Prelude.{◌≡◌, ◌+◌, ◌*◌, ◌≤◌};
    ghost use Rattle.hx_blog.specs.Ends.{ReceiptState, most_room};
    ghost use Rattle.hx_blog.specs.Views.{IsReading};

    ghost Value = { ReceiptState E };

    ghost view = { λ r. record { log = r.seat.table_id; known = r.seat.me.0.known } };

    ghost invariant = { λ r.
        IsReading r.seat.me
        × (r.seat.table_id.words ≡ 6 * r.seat.me.0.room + 1)
        × (r.seat.me.0.room ≤ most_room) };
}

impl<E> Receipt<E> {
    /// Another receipt for the same.
    pub fn again(&mut self, log: &Log<E>) -> Receipt<E>
        requires { self.old.log ≡ log.now }
        ensures same { self.new ≡ self.old }
        ensures receipt { result ≡ self.old }
    {
        Receipt {
            seat: split_off(&log.table, &mut self.seat),
        }
    }

    /// Adds what another receipt knows: this receipt knows from then on the longer of the two lists, which both begin.
    pub fn learn(&mut self, log: &Log<E>, receipt: Receipt<E>)
        requires log { self.old.log ≡ log.now }
        requires receipt { receipt.log ≡ log.now }
        ensures log { self.new.log ≡ self.old.log }
        ensures known { IsPrefix self.old.known self.new.known }
        ensures received { IsPrefix receipt.known self.new.known }
        ensures longer { (self.new.known ≡ self.old.known) ⊎ (self.new.known ≡ receipt.known) }
    {
        let Receipt { seat } = receipt;
        tell_reader(&log.table, &mut self.seat, seat);
    }

    /// The receipt knows from then on exactly what is published; what it knew is a beginning of that.
    pub fn catch_up(&mut self, log: &Log<E>, writer: &mut Writer<E>)
        requires log { self.old.log ≡ log.now }
        requires writer { writer.old.log ≡ log.now }
        ensures writer { writer.new ≡ writer.old }
        ensures begins { IsPrefix self.old.known writer.old.published }
        ensures receipt { self.new ≡ record { log = self.old.log; known = writer.old.published } }
    {
        let old = replace(self, writer.receipt(log));
        writer.confirm(log, old);
    }
}
