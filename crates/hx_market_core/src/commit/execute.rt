//! To commit: the executions of a plan, one after another, each with its match number, and their output.
ghost use Rattle.std.specs.Prelude.{◌≡◌, ◌+◌, ◌*◌, ◌<◌, ◌≤◌, ◌^◌, length, Some, IfSome, IsSome};
ghost use Rattle.hx_book.specs.Book.{order_of};
ghost use Rattle.hx_match.specs.Executing.{taken, done_by, left_by, AreGood};
ghost use Rattle.hx_rules.specs.Executions.{match_of, feed_of_execution};
ghost use Rattle.hx_market_core.specs.Arrivals.{filled, output_of_execution, output_of_executions};
ghost use Rattle.hx_day.specs.Bounds.{CanNoteAll};
ghost use Rattle.hx_market_core.specs.Room.{RoomFor, Tells, TakesRoom};

use crate::state::State;
use hx_book::{Book, Order};
use hx_itch::{Feed, OrderExecuted, Trade};
use hx_match::Fill;
use hx_ouch::{Executed, Outbound};
use hx_rules::{Match, Output, letters};
use hx_units::Symbol;

/// An order that arrives.
#[derive(Clone, Copy, Debug)]
pub struct Arriving {
    /// The order, with all its shares.
    pub order: Order,
    /// The time of the event.
    pub time: u64,
    /// The stock.
    pub stock: Symbol,
    /// Whether what is left of it is cancelled.
    pub immediate: bool,
}

// Takes the shares of a fill off its order, and gives the order as it stood before.
fn take<B: Book>(book: &mut B, fill: &Fill) -> Order
    requires some { 0 < fill.now.shares }
    requires enough { IfSome (order_of fill.now.key.0 (B.orders book.old)) (λ x. fill.now.shares
        ≤ x.shares) }
    requires there { IsSome (order_of fill.now.key.0 (B.orders book.old)) }
    ensures was { order_of fill.now.key.0 (B.orders book.old) ≡ Some result }
    ensures orders { B.orders book.new
        ≡ taken fill.now.key.0 fill.now.shares result (B.orders book.old) }
    ensures reserved { B.reserved book.new ≡ B.reserved book.old }
{
    let order = *book.get(fill.key).unwrap();
    if fill.shares < order.shares {
        book.reduce(fill.key, fill.shares);
    } else {
        book.remove(fill.key);
    }
    order
}

// In the feed: an execution.
fn feed_of_execution(arriving: &Arriving, order: &Order, shares: u32, number: u64) -> Feed
    ensures { result ≡ feed_of_execution arriving.now.time arriving.now.stock number
        (record { order = order.now; shares = shares }) }
{
    if order.shown {
        return Feed::OrderExecuted(OrderExecuted {
            locate: order.locate,
            time: arriving.time,
            reference: order.reference,
            shares,
            match_number: number,
        });
    }
    Feed::Trade(Trade {
        locate: order.locate,
        time: arriving.time,
        shares,
        stock: arriving.stock,
        price: order.price.get(),
        match_number: number,
    })
}

// Reports an execution to the feed, to the resting order's member and to the incoming order's.
fn tell(out: &mut Output, arriving: &Arriving, order: &Order, shares: u32, number: u64)
    requires { RoomFor 1 2 out.old }
    ensures output { Tells out.old out.new (output_of_execution arriving.now number
        (record { order = order.now; shares = shares })) }
    ensures room { TakesRoom 1 2 out.old out.new }
{
    let price = order.price.get();
    out.feed
        .push_reserved(feed_of_execution(arriving, order, shares, number));
    out.replies.push_reserved((
        order.member,
        Outbound::Executed(Executed {
            time: arriving.time,
            token: order.token,
            shares,
            price,
            liquidity_flag: if order.shown {
                letters::ADDED
            } else {
                letters::ADDED_HIDDEN
            },
            match_number: number,
        }),
    ));
    out.replies.push_reserved((
        arriving.order.member,
        Outbound::Executed(Executed {
            time: arriving.time,
            token: arriving.order.token,
            shares,
            price,
            liquidity_flag: letters::REMOVED,
            match_number: number,
        }),
    ));
}

// The execution, as its match number names it.
fn match_of(arriving: &Arriving, order: &Order) -> Match
    ensures { result ≡ match_of arriving.now.order.member arriving.now.order.token order.now }
{
    Match {
        locate: order.locate,
        maker: order.member,
        maker_token: order.token,
        taker: arriving.order.member,
        taker_token: arriving.order.token,
        broken: false,
    }
}

/// Carries out the fills of a plan: each draws a match number, and is reported. There is room for their output.
#[inline(always)]
pub fn execute<B: Book>(state: &mut State<B>, out: &mut Output, arriving: &Arriving, fills: &[Fill])
    requires good { AreGood fills.now state.old.orders }
    requires notes { CanNoteAll state.old.market.tokens arriving.now.order.chain
        (done_by fills.now state.old.orders) state.old.market.chains }
    requires matches { state.old.market.numbers.matches + length fills.now < 2 ^ 62 }
    requires executions { length fills.now ≤ state.old.room }
    requires room { RoomFor (length fills.now) (2 * length fills.now) out.old }
    ensures market { state.new.market ≡ filled state.old arriving.now fills.now }
    ensures orders { state.new.orders ≡ left_by fills.now state.old.orders }
    ensures reserved { state.new.reserved ≡ state.old.reserved }
    ensures output { Tells out.old out.new (output_of_executions arriving.now
        state.old.market.numbers.matches (done_by fills.now state.old.orders)) }
    ensures room { TakesRoom (length fills.now) (2 * length fills.now) out.old out.new }
{
    for fill in fills {
        let number = state.refs.matched();
        let order = take(&mut state.book, fill);
        state.tokens.note(order.chain, fill.shares, false);
        state.tokens.note(arriving.order.chain, fill.shares, false);
        state.trading.push(match_of(arriving, &order));
        tell(out, arriving, &order, fill.shares, number);
    }
}
