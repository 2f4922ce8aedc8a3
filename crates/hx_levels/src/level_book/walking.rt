//! Walks along the orders of a book that cross incoming terms, by rank. An order that is not conditional stands in the
//! queue of its level; a conditional one is found by its rank, so that those that an incoming order is too small for cost
//! no step each. Levels of orders that are all smaller than the incoming order's minimum are passed over by the block, too:
//! the sides know the most shares that an order of each level ever had.
ghost use Rattle.std.specs.Prelude.{◌≡◌, ◌+◌, ◌<◌, nat_lt, ◌≤◌, ◌^◌, ◌&&◌, Option, Some, None, IfSome, IfNone, true, false, max};
ghost use Rattle.std.specs.List.{find};
ghost use Rattle.std.specs.Option.{option_map, option_copied, is_some};
ghost use Rattle.hx_book.specs.Book.{has_key, order_of, is_under, is_conditional, KeysDiffer, IsRanked, IsWalk, ranked, rest_after, next_by_rank, next_ready, next_qualifying};
ghost use Rattle.hx_levels.specs.LevelBook.{above_prices, contra, limit_of, number_in, rank_at, rank_of, least_of, entry_of, first_rank, last_rank, to_key, unconditional};
ghost use Rattle.hx_levels.specs.Walks.{rank_after, rank_until, is_from, is_waiting_until, IsNextLarge};

use crate::level_book::level_key::LevelKey;
use crate::level_book::{ABOVE_PRICES, LAST_NUMBER, LevelBook, level_key_of};
use hx_book::{Key, Order, Terms, Walk};
use hx_ranked::Entry;

// The upper half of a rank is the number of the level, the lower half says whether the order is shown, and its number.
const LEVEL: u128 = 1 << 64;

const HIDDEN: u64 = 1 << 63;

// The cost of reaching another level after one that was passed over, in orders passed over.
const REACHED: u64 = 8;

/// The rank of an order at a level, shown or not, with its number.
pub fn rank_at(at: LevelKey, shown: bool, number: u64) -> u128
    requires { number < 2 ^ 63 }
    ensures rank { result ≡ rank_at at shown number }
    ensures small { result < 2 ^ 128 }
{
    let lower = if shown { number } else { HIDDEN + number };
    u128::from(at.number()) * LEVEL + u128::from(lower)
}

/// The fewest shares for which an order may be executed.
pub fn least_of(order: &Order) -> u32
    ensures { result ≡ least_of order.now }
{
    1.max(order.minimum.min(order.shares))
}

// The contra side of the terms: its level keys begin at this one, and go up to the distance.
pub fn contra_of(terms: &Terms) -> (LevelKey, u32)
    ensures level_key { result.0 ≡ contra terms.now 0 }
    ensures limit { result.1 ≡ limit_of terms.now }
    ensures small { result.1 ≤ above_prices }
{
    let buy = terms.side.is_buy();
    let price = terms.price.get();
    let level_key = LevelKey::of(terms.locate, !buy, 0);
    (level_key, if buy { price } else { ABOVE_PRICES - price })
}

// The number of a key as the key.
#[inline(always)]
fn as_key(number: Option<usize>) -> Option<Key>
    ensures { result ≡ option_map to_key number }
{
    match number {
        Some(key) => Some(Key(key)),
        None => None,
    }
}

// The greatest rank that an order may have that crosses the terms.
fn last_rank(terms: &Terms) -> u128
    ensures rank { result ≡ last_rank terms.now }
    ensures small { limit_of terms.now < 2 ^ 32 }
{
    let (level_key, limit) = contra_of(terms);
    rank_at(level_key.at(limit), false, LAST_NUMBER)
}

// The least rank that an order may have that crosses the terms.
fn first_rank(terms: &Terms) -> u128
    ensures { result ≡ first_rank terms.now }
{
    let (level_key, _) = contra_of(terms);
    rank_at(level_key, true, 0)
}

impl LevelBook {
    #[inline(always)]
    fn first_queued(&self, terms: &Terms, least: u32) -> Option<Key>
        ensures next { IsNextLarge None least
            (ranked terms.now (unconditional self.now.orders)) result }
        ensures keys { KeysDiffer self.now.orders }
    {
        let (level_key, limit) = contra_of(terms);
        as_key(self.sides.first_large(level_key, limit, least))
    }

    fn queued_after(&self, terms: &Terms, key: Key, least: u32) -> Option<Key>
        requires { IsRanked terms.now key.0 (unconditional self.now.orders) }
        ensures next { IsNextLarge (Some key) least
            (ranked terms.now (unconditional self.now.orders)) result }
        ensures keys { KeysDiffer self.now.orders }
    {
        let order = self.linked_orders.order(key.0).unwrap();
        if let Some(next) = self.linked_orders.links(key.0).queue.after.get() {
            return Some(Key(next));
        }
        let level_key = level_key_of(order);
        let hidden = self.sides.ends_at(level_key, false).first.get();
        match hidden {
            Some(next) if order.shown => Some(Key(next)),
            _ => {
                self.note_reached(least);
                let (_, limit) = contra_of(terms);
                let from = level_key.at(level_key.distance() + 1);
                as_key(self.sides.first_large(from, limit, least))
            }
        }
    }
}

impl LevelBook {
    // The next order in the queues, after the one with the key, or the first. Levels none of whose orders has `least` open
    // shares are passed over.
    #[inline(always)]
    fn next_large(&self, terms: &Terms, after: Option<Key>, least: u32) -> Option<Key>
        requires { IfSome after (λ key.
            IsRanked terms.now key.0 (unconditional self.now.orders)) }
        ensures next { IsNextLarge after least
            (ranked terms.now (unconditional self.now.orders)) result }
        ensures keys { KeysDiffer self.now.orders }
    {
        match after {
            None => self.first_queued(terms, least),
            Some(key) => self.queued_after(terms, key, least),
        }
    }

    // Whether a live order is conditional.
    #[inline(always)]
    pub fn is_conditional(&self, key: Key) -> bool
        requires { has_key key.0 self.now.orders ≡ true }
        ensures { IfSome (order_of key.0 self.now.orders) (λ order.
            result ≡ is_conditional order) }
    {
        self.linked_orders.order(key.0).unwrap().is_conditional()
    }

    // The rank of a live order.
    #[inline(always)]
    fn rank(&self, key: Key) -> u128
        requires { has_key key.0 self.now.orders ≡ true }
        ensures exact { IfSome (find (is_under key.0) self.now.orders) (λ live.
            result ≡ rank_of (number_in self.now.linked_orders) live) }
        ensures small { result + 1 < 2 ^ 128 }
    {
        let order = self.linked_orders.order(key.0).unwrap();
        rank_at(
            level_key_of(order),
            order.shown,
            self.linked_orders.links(key.0).number,
        )
    }

    // The least rank of the orders after the one with the key, or of all that cross the terms.
    fn rank_after(&self, terms: &Terms, after: Option<Key>) -> u128
        requires { IfSome after (λ key. has_key key.0 self.now.orders ≡ true) }
        ensures { result ≡ rank_after (number_in self.now.linked_orders) terms.now after self.now.orders }
    {
        match after {
            None => first_rank(terms),
            Some(key) => self.rank(key) + 1,
        }
    }

    // Whether a live order ranks at `from` or after it, and has `least` open shares.
    #[inline(always)]
    fn is_from(&self, key: Key, from: u128, least: u32) -> bool
        requires { has_key key.0 self.now.orders ≡ true }
        ensures { IfSome (find (is_under key.0) self.now.orders) (λ live.
            result ≡ is_from (number_in self.now.linked_orders) from least live) }
    {
        let order = self.linked_orders.order(key.0).unwrap();
        if order.shares < least {
            return false;
        }
        if from == 0 {
            return true;
        }
        from <= self.rank(key)
    }

    // The next order in the queues, after the one with the key or the first, that ranks at `from` or after it and has
    // `least` open shares.
    #[inline(always)]
    fn ready_from(&self, terms: &Terms, start: Option<Key>, from: u128, least: u32) -> Option<Key>
        requires { IfSome start (λ key.
            IsRanked terms.now key.0 (unconditional self.now.orders)) }
        ensures { result ≡ option_map (λ live. live.key)
            (find (is_from (number_in self.now.linked_orders) from least)
            (rest_after start (ranked terms.now (unconditional self.now.orders)))) }
    {
        let mut last = start;
        'walk: while let Some(key) = self.next_large(terms, last, least) {
            if self.is_from(key, from, least) {
                return Some(key);
            }
            self.note_passed(1);
            last = Some(key);
        }
        None
    }

    // Counts what a walk has cost, in orders passed over.
    #[inline(always)]
    pub fn note_passed(&self, orders: u64) {
        self.passed.set(self.passed.get().wrapping_add(orders));
    }

    // Counts that a walk that passes over small orders has reached another level.
    #[inline(always)]
    pub fn note_reached(&self, least: u32) {
        if least > 1 {
            self.note_passed(REACHED);
        }
    }

    // The next order that is not conditional and has `least` open shares.
    #[inline(always)]
    fn next_ready(&self, terms: &Terms, after: Option<Key>, least: u32) -> Option<Key>
        requires { IfSome after (λ key. IsRanked terms.now key.0 self.now.orders) }
        ensures { result ≡ next_ready terms.now after least self.now.orders }
    {
        let _ = &self.linked_orders;
        let Some(key) = after else {
            return self.ready_from(terms, None, 0, least);
        };
        if self.is_conditional(key) {
            return self.ready_from(terms, None, self.rank(key) + 1, least);
        }
        self.ready_from(terms, after, 0, least)
    }

    // The greatest rank of the orders up to the one with the key, or of all that cross the terms.
    #[inline(always)]
    fn rank_until(&self, terms: &Terms, key: Option<Key>) -> u128
        requires { IfSome key (λ key. has_key key.0 self.now.orders ≡ true) }
        ensures rank { result
            ≡ rank_until (number_in self.now.linked_orders) terms.now key self.now.orders }
        ensures small { limit_of terms.now < 2 ^ 32 }
    {
        let last = last_rank(terms);
        match key {
            Some(key) => self.rank(key),
            None => last,
        }
    }

    // The entry of the next conditional order for which `left` shares are enough and that has `least` open shares, of
    // those that rank before the order with the key `ready`, if there is one: what ranks after it need not be looked at.
    #[inline(always)]
    fn next_waiting(
        &self,
        terms: &Terms,
        after: Option<Key>,
        ready: Option<Key>,
        left: u32,
        least: u32,
    ) -> Option<Entry>
        requires after { IfSome after (λ key. IsRanked terms.now key.0 self.now.orders) }
        requires ready { IfSome ready (λ key. IsRanked terms.now key.0 self.now.orders) }
        ensures { result ≡ option_map (entry_of (number_in self.now.linked_orders))
            (find (is_waiting_until (number_in self.now.linked_orders)
            (rank_until (number_in self.now.linked_orders) terms.now ready self.now.orders) left least)
            (rest_after after (ranked terms.now self.now.orders))) }
    {
        if self.conditional.len() == 0 {
            return None;
        }
        let from = self.rank_after(terms, after);
        let last = self.rank_until(terms, ready);
        self.conditional.first_within(from, last, left, least)
    }

    // The entry of the next conditional order.
    fn next_conditional(&self, terms: &Terms, after: Option<Key>) -> Option<Entry>
        requires { IfSome after (λ key. IsRanked terms.now key.0 self.now.orders) }
        ensures { result ≡ option_map (entry_of (number_in self.now.linked_orders))
            (find (λ live. is_conditional live.order)
            (rest_after after (ranked terms.now self.now.orders))) }
    {
        let _ = &self.linked_orders;
        let from = self.rank_after(terms, after);
        let last = last_rank(terms);
        match self.conditional.first_from(from) {
            Some(entry) if entry.rank <= last => Some(entry),
            _ => None,
        }
    }

    // Whether a rank comes before that of a live order, if there is one.
    #[inline(always)]
    fn is_before(&self, rank: u128, key: Option<Key>) -> bool
        requires { IfSome key (λ key. has_key key.0 self.now.orders ≡ true) }
        ensures none { key ≡ None → result ≡ true }
        ensures some { IfSome key (λ key. IfSome (find (is_under key.0) self.now.orders)
            (λ live. result ≡ nat_lt rank (rank_of (number_in self.now.linked_orders) live))) }
    {
        match key {
            Some(key) => rank < self.rank(key),
            None => true,
        }
    }

    /// The next order by rank that crosses the terms, after the one with the key, or the first.
    pub fn next_crossing(&self, terms: &Terms, after: Option<Key>) -> Option<Key>
        requires { IfSome after (λ key. IsRanked terms.now key.0 self.now.orders) }
        ensures exact { result ≡ next_by_rank terms.now after self.now.orders }
        ensures keys { KeysDiffer self.now.orders }
    {
        let _ = &self.linked_orders;
        let ready = self.next_ready(terms, after, 0);
        let Some(entry) = self.next_conditional(terms, after) else {
            return ready;
        };
        if self.is_before(entry.rank, ready) {
            return Some(Key(entry.key));
        }
        ready
    }

    /// The next order by rank that crosses the terms and qualifies, as a step of a walk.
    #[inline(always)]
    pub fn walk_on(&self, terms: &Terms, walk: &mut Walk, left: u32, minimum: u32) -> Option<Key>
        requires { IsWalk terms.now minimum self.now.orders walk.old }
        ensures exact { result
            ≡ next_qualifying terms.now walk.old.after left minimum self.now.orders }
        ensures met { IfSome result (λ key. walk.new.after ≡ Some key) }
        ensures walk { IsWalk terms.now minimum self.now.orders walk.new }
        ensures keys { KeysDiffer self.now.orders }
    {
        let _ = &self.linked_orders;
        let least = at_least_one(minimum);
        if left < least {
            return None;
        }
        let ready = self.known_ready(terms, walk, least);
        let Some(entry) = self.next_waiting(terms, walk.after, ready, left, least) else {
            return meet(walk, ready);
        };
        let met = Some(Key(entry.key));
        *walk = Walk {
            after: met,
            ahead: Some(ready),
        };
        met
    }

    // The next order that is not conditional and has `least` open shares, from what the walk knows or by a search.
    #[inline(always)]
    fn known_ready(&self, terms: &Terms, walk: &Walk, least: u32) -> Option<Key>
        requires ranked { IfSome walk.now.after (λ key.
            IsRanked terms.now key.0 self.now.orders) }
        requires ahead { IfSome walk.now.ahead (λ next.
            next ≡ next_ready terms.now walk.now.after least self.now.orders) }
        ensures { result ≡ next_ready terms.now walk.now.after least self.now.orders }
    {
        match walk.ahead {
            Some(next) => next,
            None => self.next_ready(terms, walk.after, least),
        }
    }
}

// Has the walk meet the order with the key, if there is one.
#[inline(always)]
fn meet(walk: &mut Walk, next: Option<Key>) -> Option<Key>
    ensures next { result ≡ next }
    ensures some { IfSome next (λ key. (walk.new.after ≡ Some key) × (walk.new.ahead ≡ None)) }
    ensures none { IfNone next (walk.new ≡ walk.old) }
{
    let key = next?;
    *walk = Walk::at(key);
    next
}

// The fewest shares that an execution may have by the incoming order's minimum.
#[inline(always)]
fn at_least_one(minimum: u32) -> u32
    ensures { result ≡ max 1 minimum }
{
    1.max(minimum)
}
