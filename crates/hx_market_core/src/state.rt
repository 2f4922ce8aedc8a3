//! The state of the market: all that a step changes, as one value. Deciding reads it, preparing reserves slots in it,
//! and committing changes it.
ghost use Rattle.std.specs.Prelude.{◌≡◌, [], IfOk, length};
ghost use Rattle.hx_rules.specs.Markets.{opening, opening_hours};

use hx_book::Book;
use hx_day::{EventCounts, Trading};
use hx_members::{Seed, Setup, Tokens};
use hx_refs::Refs;
use hx_units::NoMemory;
use std::alloc::Global;
use std::marker::Model;

/// What a step of the market changes. Its invariant does not state what holds of every market that a run reaches,
/// except that each live order is found by its token.
pub struct State<B: Book> {
    /// The live orders, under their keys.
    pub book: B,
    /// The used tokens, with the keys of their orders.
    pub tokens: Tokens,
    /// The numbers drawn.
    pub refs: Refs,
    /// How many of the hours codes are past.
    pub phase: u8,
    /// How many events of each number.
    pub recorded: EventCounts,
    /// The halts and the executions.
    pub trading: Trading,
}

// By hand, so that when a value is dropped its owner's proof sees one call.
impl<B: Book + Drop> Drop for State<B> {
    fn drop(self) {
        let State {
            book: _,
            tokens: _,
            refs: _,
            phase: _,
            recorded: _,
            trading: _,
        } = self;
    }
}

impl<B: Book> Model for State<B> {
    ghost use Rattle.hx_market_core.specs.OrderKeys.{AreKeyed};
    ghost use Rattle.hx_market_core.specs.MarketModel.{MarketState, market_state_of};

    ghost Value = { MarketState };

    ghost view = { λ s. market_state_of
        (B.orders s.book) (B.reserved s.book) s.tokens s.refs s.phase s.recorded s.trading };

    ghost invariant = { λ s. AreKeyed s.tokens.tokens s.tokens.keys (B.orders s.book) };
}

// How many of the hours codes are past as the day begins.
fn opening_hours(setup: &Setup) -> u8
    ensures { result ≡ opening_hours setup.now }
{
    if setup.start_open() { 2 } else { 0 }
}

impl<B: Book + Drop> State<B> {
    /// As the day begins, over an empty book. `NoMemory` if the counts find no memory.
    pub fn opening(alloc: Global, setup: &Setup, book: B, seed: Seed) -> Result<Self, NoMemory>
        requires { B.orders book ≡ [] }
        ensures { IfOk result (λ s. s.market ≡ opening setup.now) }
    {
        let stocks = setup.stocks().len() as u16;
        Ok(State {
            book,
            tokens: Tokens::seeded(alloc, seed),
            refs: Refs::new(alloc)?,
            phase: opening_hours(setup),
            recorded: EventCounts::new(alloc)?,
            trading: Trading::new(alloc, stocks)?,
        })
    }
}

/// How many tokens are used.
#[inline(always)]
pub fn used<B: Book>(state: &State<B>) -> u64
    ensures { result ≡ length state.now.market.tokens }
{
    state.tokens.count()
}
