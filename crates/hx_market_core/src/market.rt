//! The market as callers see it: each event is prepared, and then committed; `apply` does both at once.
ghost use Rattle.std.specs.Prelude.{◌≡◌, ◌<◌, ◌^◌, ◌++◌, [], Some, None, IfOk, OnOk, OnErr, IfErr, length, map};
ghost use Rattle.std.specs.List.{AllByRecursion};
ghost use Rattle.hx_itch.specs.Message.{feed_time};
ghost use Rattle.hx_rules.specs.Refusals.{refusal, or_no_memory};
ghost use Rattle.hx_rules.specs.Markets.{opening};
ghost use Rattle.hx_rules.specs.Steps.{step};
ghost use Rattle.hx_market_core.specs.MarketModel.{chain_facts};

use crate::commit::commit_step;
use crate::live_orders::list_orders;
use crate::next_step::{NextStep, make_room, no_output};
use crate::prefetch::prefetch;
use crate::prepare::{Prepared, make, plan_step};
use crate::state::{State, used};
use hx_book::{Book, Order};
use hx_day::Ends;
use hx_members::{ChainFacts, Seed, Setup};
use hx_rules::{Event, Output, PrepareError};
use hx_units::{Known, MemberNo, NoMemory, Token};
use std::alloc::Global;
use std::marker::Model;
use std::mem::replace;
use std::snapshot::Snapshot;

/// The market over a book.
pub struct Market<B: Book> {
    setup: Setup,
    state: State<B>,
    // When the live orders end.
    ends: Ends,
    // What was prepared last.
    next: NextStep,
    // What its `prepare` gave, known to contracts alone.
    ready: Option<Known<Prepared>>,
    alloc: Global,
}

// By hand, so that when a value is dropped its owner's proof sees one call.
impl<B: Book + Drop> Drop for Market<B> {
    fn drop(self) {
        let Market {
            setup: _,
            state: _,
            ends: _,
            next: _,
            ready: _,
            alloc: _,
        } = self;
    }
}

impl<B: Book> Model for Market<B> {
    ghost use Rattle.std.specs.Prelude.{◌≡◌, Some, length};
    ghost use Rattle.std.specs.Option.{option_map};
    ghost use Rattle.hx_market_core.specs.Room.{HasRoom, IsEmpty};
    ghost use Rattle.hx_day.specs.Bounds.{IsSound};
    ghost use Rattle.hx_market_core.specs.Expiries.{AreEntered};
    ghost use Rattle.hx_market_core.specs.MarketModel.{Planned, Seen, with_step};
    ghost use Rattle.hx_market_core.specs.Prepared.{IsPlanned};

    ghost Value = { Seen };

    ghost view = { λ m. record {
      setup = m.setup;
      market = m.state.market;
      ready = option_map (λ k. with_step m.next k.value) m.ready;
    } };

    ghost invariant = { λ m. IsSound m.state.market
        × AreEntered m.ends m.state.market.tokens m.state.market.live
        × ((p : Planned) → option_map (λ k. with_step m.next k.value) m.ready ≡ Some p
        → IsPlanned m.setup m.state m.ends p
        × IsEmpty m.next.out
        × HasRoom m.next.effect (length m.next.fills.items) m.next.out) };
}

impl<B: Book + Drop> Market<B> {
    /// The opening market of a setup, over an empty book, with the fixed seed. `NoMemory` if its counts find no memory.
    pub fn new(alloc: Global, setup: Setup, book: B) -> Result<Self, NoMemory>
        requires { B.orders book ≡ [] }
        ensures setup { IfOk result (λ m. m.setup ≡ setup) }
        ensures market { IfOk result (λ m. m.market ≡ opening setup) }
        ensures ready { IfOk result (λ m. m.ready ≡ None) }
    {
        Market::seeded(alloc, setup, book, Seed::Fixed)
    }

    /// The opening market of a setup, over an empty book, whose table of tokens has this seed. `NoMemory` if its counts
    /// find no memory.
    pub fn seeded(alloc: Global, setup: Setup, book: B, seed: Seed) -> Result<Self, NoMemory>
        requires { B.orders book ≡ [] }
        ensures setup { IfOk result (λ m. m.setup ≡ setup) }
        ensures market { IfOk result (λ m. m.market ≡ opening setup) }
        ensures ready { IfOk result (λ m. m.ready ≡ None) }
    {
        let state = State::opening(alloc, &setup, book, seed)?;
        Ok(Market {
            setup,
            state,
            ends: Ends::new(alloc),
            next: NextStep::nothing(alloc),
            ready: None,
            alloc,
        })
    }

    /// Makes the plan of an event, and all growths that its commit needs. What contracts see of the market stays, but
    /// what was prepared before is void. Refused, in this order: `BadTime` if the time is not within the day,
    /// `NoMember` if a message is from no member of the setup, `Limit` if the limit of events recorded under the
    /// event's number is reached, and `NoMemory`.
    pub fn prepare(&mut self, event: &Event) -> Result<Prepared, PrepareError>
        ensures setup { self.new.setup ≡ self.old.setup }
        ensures market { self.new.market ≡ self.old.market }
        ensures ready { IfOk result (λ p. self.new.ready ≡ Some p) }
        ensures event { IfOk result (λ p. p.event ≡ event.now) }
        ensures feed_count { IfOk result (λ p. p.feed_count
            ≡ length (step self.old.setup self.old.market event.now).output.feed) }
        ensures reply_members { IfOk result (λ p. p.reply_members
            ≡ map (λ r. r.0) (step self.old.setup self.old.market event.now).output.replies) }
        ensures passes { OnOk result (refusal self.old.setup self.old.market.recorded event.now
            ≡ None) }
        ensures refused { IfErr result (λ e. e
            ≡ or_no_memory (refusal self.old.setup self.old.market.recorded event.now)) }
        ensures void { OnErr result (self.new.ready ≡ None) }
    {
        self.ready = None;
        self.ends.forget(used(&self.state));
        let prepared = make(
            self.alloc,
            &self.setup,
            &mut self.state,
            &mut self.ends,
            &mut self.next,
            event,
        )?;
        self.ready = Some(Known::of(&prepared));
        Ok(prepared)
    }

    /// Does what was prepared last: one step of the market. It takes no memory, and can't refuse.
    pub fn commit(&mut self, prepared: Prepared) -> Output
        requires ready { self.old.ready ≡ Some prepared }
        ensures market { self.new.market
            ≡ (step self.old.setup self.old.market prepared.event).market }
        ensures feed { result.feed.items
            ≡ (step self.old.setup self.old.market prepared.event).output.feed }
        ensures replies { result.replies.items
            ≡ (step self.old.setup self.old.market prepared.event).output.replies }
        ensures setup { self.new.setup ≡ self.old.setup }
        ensures ready { self.new.ready ≡ None }

        // The feed's times have room in its messages.
        ensures times { AllByRecursion (λ f. feed_time f < 2 ^ 48) result.feed.items }
    {
        self.ready = None;
        let Prepared {
            event,
            reply_members,
            ..
        } = prepared;
        let mut out = replace(&mut self.next.out, no_output(self.alloc));
        commit_step(
            Snapshot::of(&self.setup),
            event,
            &mut self.state,
            &mut self.ends,
            &self.next,
            &mut out,
        );
        self.next.members = reply_members;
        out
    }

    /// Prepares an event and commits it at once: one step of the market, with its output after what is in the lists.
    /// What was prepared before is void. It is refused as by `prepare`: then the market and what is in the lists stay.
    pub fn apply(&mut self, event: &Event, output: &mut Output) -> Result<(), PrepareError>
        ensures setup { self.new.setup ≡ self.old.setup }
        ensures ready { self.new.ready ≡ None }
        ensures passes { OnOk result (refusal self.old.setup self.old.market.recorded event.now
            ≡ None) }
        ensures market { OnOk result (self.new.market
            ≡ (step self.old.setup self.old.market event.now).market) }
        ensures feed { OnOk result (output.new.feed.items
            ≡ output.old.feed.items ++ (step self.old.setup self.old.market event.now).output.feed) }
        ensures replies { OnOk result (output.new.replies.items
            ≡ output.old.replies.items
            ++ (step self.old.setup self.old.market event.now).output.replies) }

        // The feed's times have room in its messages.
        ensures times { OnOk result (AllByRecursion (λ f. feed_time f < 2 ^ 48)
            (step self.old.setup self.old.market event.now).output.feed) }
        ensures refused { IfErr result (λ e. e
            ≡ or_no_memory (refusal self.old.setup self.old.market.recorded event.now)) }
        ensures market_stays { OnErr result (self.new.market ≡ self.old.market) }
        ensures feed_stays { OnErr result (output.new.feed.items ≡ output.old.feed.items) }
        ensures replies_stay { OnErr result (output.new.replies.items ≡ output.old.replies.items) }
    {
        self.ready = None;
        self.ends.forget(used(&self.state));
        plan_step(
            self.alloc,
            &self.setup,
            &mut self.state,
            &mut self.ends,
            &mut self.next,
            event,
        )?;
        make_room(output, &self.next.effect, self.next.fills.len())?;
        commit_step(
            Snapshot::of(&self.setup),
            Snapshot::of(event),
            &mut self.state,
            &mut self.ends,
            &self.next,
            output,
        );
        Ok(())
    }

    /// Prefetches the memory that the first sixteen of coming events are about, so that it is in the cache when they
    /// are applied. The result is unspecified; it only keeps the reads from being optimized away.
    pub fn prefetch(&self, events: &[Event]) -> u64 {
        let state = &self.state;
        prefetch(&state.tokens, &state.book, events)
    }

    /// Takes back what a `commit` gave, once its output is written: the lists are reused for the next event, unless
    /// that is prepared already. What contracts see of the market stays.
    pub fn take_back(&mut self, output: Output)
        ensures setup { self.new.setup ≡ self.old.setup }
        ensures market { self.new.market ≡ self.old.market }
        ensures ready { self.new.ready ≡ self.old.ready }
    {
        if self.ready.is_none() {
            self.next.out = output;
        }
    }

    /// How many of the hours codes `O`, `S`, `Q`, `M`, `E`, `C` are past.
    pub fn phase(&self) -> u8
        ensures { result ≡ self.now.market.phase }
    {
        let state = &self.state;
        state.phase
    }

    /// What the chain of a token has done; none if the member has not used the token.
    pub fn chain(&self, member: MemberNo, token: &Token) -> Option<ChainFacts>
        ensures { result ≡ chain_facts self.now.market.tokens self.now.market.chains member
            token.now }
    {
        let state = &self.state;
        Some(state.tokens.state(member, token)?.facts)
    }

    /// The live orders, the earlier ones first. `NoMemory` if the list cannot grow.
    pub fn live(&self) -> Result<Vec<Order>, NoMemory>
        ensures { IfOk result (λ orders. orders.items ≡ self.now.market.live) }
    {
        let state = &self.state;
        list_orders(self.alloc, &state.book)
    }

    /// How many orders the market has passed over one by one, for having fewer shares than an incoming order's minimum
    /// (`Book::passed_over`). The number is unspecified.
    pub fn passed_over(&self) -> u64 {
        let state = &self.state;
        state.book.passed_over()
    }
}
