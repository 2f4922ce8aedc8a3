//! The book of the feed.
ghost use Rattle.std.specs.Prelude.{◌≡◌, ◌++◌, List, [], ◌∷◌, OnOk, OnErr, IfErr, IfSome, None, option_copied, option_map, true};
ghost use Rattle.hx_units.specs.Letters.{letter};
ghost use Rattle.hx_itch.specs.declared.shown_order.ShownOrder.{ShownOrder};
ghost use Rattle.hx_itch.specs.declared.message.Feed.TheVariants as variant;
ghost use Rattle.hx_itch.specs.Books.{book_after, book_from};
ghost use Rattle.hx_reader.specs.Faults.{order_of, fault_of, adds, IsCause, AreFaultless, StopsAt};
ghost use Rattle.hx_reader.specs.declared.fault.ApplyError.TheVariants as errors;
ghost use Rattle.hx_reader.specs.Prices.{prices, below, above, IsHighest, IsLowest};
ghost use Rattle.hx_reader.specs.Depth.{level_of};

use crate::changes::{add, delete, order, replace, take};
use crate::depth::{highest_below, lowest_above};
use crate::fault::ApplyError;
use crate::level::PriceLevel;
use crate::table::Table;
use hx_itch::{AddOrder, AddOrderWithAttribution, Feed, ShownOrder};
use indexmap::IndexMap;
use std::alloc::Global;
use std::collections::BTreeMap;
use std::marker::Model;

/// The book of the feed (TotalView-ITCH 5.0), each order under its reference, with the orders and shares at each price.
/// No call walks over the orders: each takes time in proportion to the logarithm of their number at most. Contracts see
/// it as the list of its orders, the oldest first.
#[derive(Drop)]
pub struct FeedBook {
    table: Table,
}

impl Model for FeedBook {
    ghost use Rattle.std.specs.Prelude.{List};
    ghost use Rattle.hx_itch.specs.declared.shown_order.ShownOrder.{ShownOrder};

    ghost Value = { List ShownOrder };

    ghost use Rattle.hx_reader.specs.Tables.{book_in, IsTable};

    ghost view = { λ b. book_in b.table };

    ghost invariant = { λ b. IsTable b.table };
}

// The order that a message adds.
fn added(message: &AddOrder) -> ShownOrder
    ensures { (book : List ShownOrder) → book ++ result ∷ []
        ≡ book_after book (variant.AddOrder message.now) }
{
    ShownOrder {
        reference: message.reference,
        locate: message.locate,
        side: message.side,
        shares: message.shares,
        stock: message.stock,
        price: message.price,
        attribution: None,
    }
}

// The order that a message adds, with its firm.
fn added_by(message: &AddOrderWithAttribution) -> ShownOrder
    ensures { (book : List ShownOrder) → book ++ result ∷ []
        ≡ book_after book (variant.AddOrderWithAttribution message.now) }
{
    ShownOrder {
        reference: message.reference,
        locate: message.locate,
        side: message.side,
        shares: message.shares,
        stock: message.stock,
        price: message.price,
        attribution: Some(message.attribution),
    }
}

impl FeedBook {
    /// A book without orders. It takes no memory.
    pub fn new(alloc: Global) -> Self
        ensures { result ≡ [] }
    {
        FeedBook {
            table: Table {
                indices: IndexMap::new(alloc),
                orders: BTreeMap::new(alloc),
                levels: BTreeMap::new(alloc),
                next: 0,
            },
        }
    }

    /// Applies the feed's next message. It takes memory if the message adds an order. A message that is none of a feed
    /// with this book is an error, and so is want of memory; at an error the book is as it was.
    pub fn apply(&mut self, message: &Feed) -> Result<(), ApplyError>
        ensures ok { OnOk result (self.new ≡ book_after self.old message.now) }
        ensures fits { OnOk result (fault_of self.old message.now ≡ None) }
        ensures err { OnErr result (self.new ≡ self.old) }
        ensures cause { IfErr result (λ e. IsCause e (fault_of self.old message.now)) }
        ensures memory { IfErr result (λ e. e ≡ errors.NoMemory → adds message.now ≡ true) }
    {
        match message {
            Feed::AddOrder(a) => add(&mut self.table, added(a)),
            Feed::AddOrderWithAttribution(a) => add(&mut self.table, added_by(a)),
            Feed::OrderExecuted(e) => take(&mut self.table, e.reference, e.shares),
            Feed::OrderCancel(c) => take(&mut self.table, c.reference, c.shares),
            Feed::OrderDelete(d) => delete(&mut self.table, d.reference),
            Feed::OrderReplace(r) => replace(&mut self.table, r),
            Feed::Trade(_)
            | Feed::SystemEvent(_)
            | Feed::StockDirectory(_)
            | Feed::StockTradingAction(_)
            | Feed::BrokenTrade(_) => Ok(()),
        }
    }

    /// Applies messages in order. At an error those before the fault are applied, and no others: the
    /// error is that of the first message that is not.
    pub fn apply_all(&mut self, messages: &[Feed]) -> Result<(), ApplyError>
        ensures ok { OnOk result (self.new ≡ book_from self.old messages.now) }
        ensures fits { OnOk result (AreFaultless self.old messages.now) }
        ensures err { IfErr result (λ e. StopsAt self.old messages.now self.new e) }
    {
        for message in messages {
            self.apply(message)?;
        }
        Ok(())
    }

    /// The order of a reference. It takes no memory.
    pub fn order(&self, reference: u64) -> Option<&ShownOrder>
        ensures { option_copied result ≡ order_of reference self.now }
    {
        order(&self.table, reference)
    }

    /// The best bid of a stock, or the best below a price: the highest such price of its buys, with the number of
    /// orders and of shares there, or none if there is no such buy. Called from one price to the next below, it gives
    /// the depth of the stock. It takes no memory.
    pub fn bid(&self, locate: u16, under: Option<u32>) -> Option<PriceLevel>
        ensures price { IsHighest (below under (prices locate (letter "B") self.now))
            (option_map (λ l. l.price) result) }
        ensures level { IfSome result (λ l. l ≡ level_of locate (letter "B") l.price self.now) }
    {
        highest_below(&self.table, locate, under)
    }

    /// The best offer of a stock, or the best above a price: the lowest such price of its sells, with the number of
    /// orders and of shares there, or none if there is no such sell. It takes no memory.
    pub fn offer(&self, locate: u16, over: Option<u32>) -> Option<PriceLevel>
        ensures price { IsLowest (above over (prices locate (letter "S") self.now))
            (option_map (λ l. l.price) result) }
        ensures level { IfSome result (λ l. l ≡ level_of locate (letter "S") l.price self.now) }
    {
        lowest_above(&self.table, locate, over)
    }
}
