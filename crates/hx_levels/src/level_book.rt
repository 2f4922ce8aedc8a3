//! The book by levels of price.
ghost use Rattle.std.specs.Prelude.{◌≡◌, ◌+◌, ◌-◌, ◌≤◌, ◌++◌, ◌<◌, [], ◌∷◌, Option, Some, None, IfSome, OnOk, OnErr, true, false};
ghost use Rattle.hx_levels.specs.LevelBook.{above_prices, level_key_of, contra, limit_of, to_key};
ghost use Rattle.hx_units.specs.Limits.{greatest_price};
ghost use Rattle.hx_book.specs.Book.{terms_of, has_key, order_of, is_conditional, KeysDiffer, next_by_time, without, reduced};
ghost use Rattle.std.specs.Option.{option_copied, option_map, is_some};

mod best_bounds;
mod level_key;
mod level_store;
mod levels;
mod link;
mod linked_orders;
mod sides;
mod tightening;
mod walking;

use crate::level_book::level_key::LevelKey;
use crate::level_book::link::Link;
use crate::level_book::linked_orders::{
    Ends, LinkedOrders, link_last, store, take_shares, unlink, unlink_in_time,
};
use crate::level_book::sides::Sides;
use crate::level_book::walking::{least_of, rank_at};
use hx_book::{Book, Key, Order, Terms, Walk};
use hx_ranked::{Entry, RankedBlocks};
use hx_units::{NoMemory, Price, Side};
use std::alloc::Global;
use std::cell::Cell;
use std::marker::Model;

// A number above each price: the distance of a buy's level counts down from it.
const ABOVE_PRICES: u32 = 2_000_000_000;

// The last number that an order may have, which leaves a bit of a rank's lower half for whether it is shown.
const LAST_NUMBER: u64 = 9_223_372_036_854_775_807;

// What it costs to read a block of the conditional orders for nothing, in orders passed over.
const MISS: u64 = 16;

/// A book by levels of price: the orders in a slab, linked in time order, and in queues by price and by whether they
/// are shown. A call takes time in proportion to the logarithm of the number of levels at most, apart from walks, and
/// from the entries of one block (256 at most) that move when a level or a conditional order comes or goes. A walk
/// passes a level without a step if the bound on its orders' shares is below the incoming order's minimum.
pub struct LevelBook {
    linked_orders: LinkedOrders,
    sides: Sides,
    time: Ends,
    reserved: Option<Terms>,
    // The level of the reserved slot. It stays also if it is empty.
    retained: Option<LevelKey>,
    // The number of the next order.
    next: u64,
    // The conditional orders by rank: they stand in no queue of a level.
    conditional: RankedBlocks,
    // How many orders the walks have passed over one by one.
    passed: Cell<u64>,
}

// By hand, so that when a value is dropped its owner's proof sees one call.
impl Drop for LevelBook {
    fn drop(self) {
        let LevelBook {
            linked_orders: _,
            sides: _,
            time: _,
            reserved: _,
            retained: _,
            next: _,
            conditional: _,
            passed: _,
        } = self;
    }
}

impl Model for LevelBook {
    ghost use Rattle.hx_levels.specs.LevelBook.{LevelContents, walked, with_room, IsBook};

    ghost Value = { LevelContents };

    ghost view = { λ b. record {
      orders = walked b.linked_orders b.time;
      reserved = b.reserved;
      linked_orders = b.linked_orders;
    } };

    ghost invariant = { λ b. IsBook b.linked_orders b.sides.levels b.time b.reserved b.retained b.next
        (with_room b.conditional b.sides.sizes) (walked b.linked_orders b.time) };
}

impl LevelBook {
    /// An empty book with no reserved slot, which takes its memory from `alloc`.
    pub fn new(alloc: Global) -> Self
        ensures orders { result.orders ≡ [] }
        ensures reserved { result.reserved ≡ None }
    {
        LevelBook {
            linked_orders: LinkedOrders::new(alloc),
            sides: Sides::new(alloc),
            time: Ends::none(),
            reserved: None,
            retained: None,
            next: 0,
            conditional: RankedBlocks::new(alloc),
            passed: Cell::new(0),
        }
    }
}

impl LevelBook {
    // Puts an order last that is not conditional: it joins the queue of its level, which is there.
    #[inline(always)]
    fn add_to_queue(&mut self, order: Order) -> Key
        requires reserved { self.old.reserved ≡ Some (terms_of order) }
        requires queued { is_conditional order ≡ false }
        ensures orders { self.new.orders ≡ self.old.orders
            ++ (record { key = result; order = order }) ∷ [] }
        ensures fresh { has_key result.0 self.old.orders ≡ false }
        ensures reserved { self.new.reserved ≡ None }
    {
        let _price = order.price.get();
        let level_key = level_key_of(&order);
        let number = self.next;
        let key = store(&mut self.linked_orders, order);
        let last = self
            .sides
            .join_queue(level_key, order.shown, key, order.shares);
        link_last(&mut self.linked_orders, key, last, self.time.last, number);
        self.time = self.time.with(key);
        self.reserved = None;
        self.retained = None;
        self.next = number + 1;
        Key(key)
    }

    // Puts a conditional order last: it is stored by its rank, and in no queue.
    fn add_conditional(&mut self, order: Order) -> Key
        requires reserved { self.old.reserved ≡ Some (terms_of order) }
        requires conditional { is_conditional order ≡ true }
        ensures orders { self.new.orders ≡ self.old.orders
            ++ (record { key = result; order = order }) ∷ [] }
        ensures fresh { has_key result.0 self.old.orders ≡ false }
        ensures reserved { self.new.reserved ≡ None }
    {
        let _price = order.price.get();
        let level_key = level_key_of(&order);
        let number = self.next;
        let key = store(&mut self.linked_orders, order);
        link_last(
            &mut self.linked_orders,
            key,
            Link::none(),
            self.time.last,
            number,
        );
        self.conditional.insert(Entry {
            rank: rank_at(level_key, order.shown, number),
            key,
            least: least_of(&order),
            shares: order.shares,
        });
        self.time = self.time.with(key);
        self.reserved = None;
        self.next = number + 1;
        Key(key)
    }
}

// The level of an order.
fn level_key_of(order: &Order) -> LevelKey
    ensures level_key { result ≡ level_key_of (terms_of order.now) }
    ensures priced { order.now.price ≤ greatest_price }
{
    let buy = order.side.is_buy();
    let price = order.price.get();
    LevelKey::of(
        order.locate,
        buy,
        if buy { ABOVE_PRICES - price } else { price },
    )
}

impl LevelBook {
    #[inline(always)]
    fn order(&self, key: Key) -> Option<&Order>
        ensures exact { option_copied result ≡ order_of key.0 self.now.orders }
        ensures live { is_some result ≡ has_key key.0 self.now.orders }
        ensures keys { KeysDiffer self.now.orders }
    {
        self.linked_orders.order(key.0)
    }
}

// The key that a link leads to.
fn key_of(link: Link) -> Option<Key>
    ensures { result ≡ option_map to_key link }
{
    match link.get() {
        Some(key) => Some(Key(key)),
        None => None,
    }
}

impl LevelBook {
    fn time_after(&self, after: Option<Key>) -> Option<Key>
        requires { IfSome after (λ key. has_key key.0 self.now.orders ≡ true) }
        ensures { result ≡ next_by_time after self.now.orders }
    {
        match after {
            None => key_of(self.time.first),
            Some(key) => key_of(self.linked_orders.links(key.0).time.after),
        }
    }
}

impl LevelBook {
    // Takes an order out that is not conditional.
    #[inline(always)]
    fn take_from_queue(&mut self, key: Key) -> Order
        requires live { has_key key.0 self.old.orders ≡ true }
        requires queued { IfSome (order_of key.0 self.old.orders)
            (λ order. is_conditional order ≡ false) }
        ensures was { order_of key.0 self.old.orders ≡ Some result }
        ensures orders { self.new.orders ≡ without key.0 self.old.orders }
        ensures reserved { self.new.reserved ≡ self.old.reserved }
    {
        let linked_order = unlink(&mut self.linked_orders, key.0);
        let level_key = level_key_of(&linked_order.order);
        let shown = linked_order.order.shown;
        self.sides
            .leave_level(level_key, shown, linked_order.queue, self.retained);
        self.time = self.time.without(linked_order.time);
        linked_order.order
    }

    // Takes a conditional order out.
    fn take_conditional(&mut self, key: Key) -> Order
        requires live { has_key key.0 self.old.orders ≡ true }
        requires conditional { IfSome (order_of key.0 self.old.orders)
            (λ order. is_conditional order ≡ true) }
        ensures was { order_of key.0 self.old.orders ≡ Some result }
        ensures orders { self.new.orders ≡ without key.0 self.old.orders }
        ensures reserved { self.new.reserved ≡ self.old.reserved }
    {
        let linked_order = unlink_in_time(&mut self.linked_orders, key.0);
        let level_key = level_key_of(&linked_order.order);
        self.conditional.remove(rank_at(level_key, linked_order.order.shown, linked_order.number));
        self.time = self.time.without(linked_order.time);
        linked_order.order
    }

    // Takes shares off an order that is not conditional.
    fn reduce_in_queue(&mut self, key: Key, by: u32)
        requires less { IfSome (order_of key.0 self.old.orders) (λ order. by < order.shares) }
        requires queued { IfSome (order_of key.0 self.old.orders)
            (λ order. is_conditional order ≡ false) }
        ensures orders { self.new.orders ≡ reduced key.0 by self.old.orders }
        ensures reserved { self.new.reserved ≡ self.old.reserved }
    {
        take_shares(&mut self.linked_orders, key.0, by);
    }

    // Takes shares off a conditional order.
    fn reduce_conditional(&mut self, key: Key, by: u32)
        requires live { has_key key.0 self.old.orders ≡ true }
        requires less { IfSome (order_of key.0 self.old.orders) (λ order. by < order.shares) }
        requires conditional { IfSome (order_of key.0 self.old.orders)
            (λ order. is_conditional order ≡ true) }
        ensures orders { self.new.orders ≡ reduced key.0 by self.old.orders }
        ensures reserved { self.new.reserved ≡ self.old.reserved }
    {
        let number = self.linked_orders.links(key.0).number;
        take_shares(&mut self.linked_orders, key.0, by);
        let order = self.linked_orders.order(key.0).unwrap();
        let rank = rank_at(level_key_of(order), order.shown, number);
        self.conditional.renew(rank, least_of(order), order.shares);
    }

    fn reserve_slot(&mut self, terms: Terms) -> Result<(), NoMemory>
        ensures orders { self.new.orders ≡ self.old.orders }
        ensures ok { OnOk result (self.new.reserved ≡ Some terms) }
        ensures err { OnErr result (self.new.reserved ≡ self.old.reserved) }
    {
        let level_key = level_key_at(&terms);
        // Out of reach: a book would have to be given 2 ^ 63 orders.
        if self.next >= LAST_NUMBER {
            return Err(NoMemory);
        }
        self.linked_orders.reserve()?;
        self.conditional.reserve()?;
        self.sides.make_level(level_key)?;
        if let Some(old) = self.retained {
            self.sides.drop_empty(old, Some(level_key));
        }
        self.retained = Some(level_key);
        self.reserved = Some(terms);
        Ok(())
    }
}

// The level of the terms.
fn level_key_at(terms: &Terms) -> LevelKey
    ensures { result ≡ level_key_of terms.now }
{
    let buy = terms.side.is_buy();
    let price = terms.price.get();
    LevelKey::of(
        terms.locate,
        buy,
        if buy { ABOVE_PRICES - price } else { price },
    )
}

impl Book for LevelBook {
    ghost orders = { λ book. book.orders };

    ghost reserved = { λ book. book.reserved };

    fn reserve(&mut self, locate: u16, side: Side, price: Price) -> Result<(), NoMemory> {
        self.reserve_slot(Terms {
            locate,
            side,
            price,
        })
    }

    #[inline(always)]
    fn add(&mut self, order: Order) -> Key {
        if order.is_conditional() {
            return self.add_conditional(order);
        }
        self.add_to_queue(order)
    }

    fn reduce(&mut self, key: Key, by: u32) {
        if self.is_conditional(key) {
            self.reduce_conditional(key, by);
        } else {
            self.reduce_in_queue(key, by);
        }
    }

    #[inline(always)]
    fn remove(&mut self, key: Key) -> Order {
        if self.is_conditional(key) {
            return self.take_conditional(key);
        }
        self.take_from_queue(key)
    }

    #[inline(always)]
    fn get(&self, key: Key) -> Option<&Order> {
        self.order(key)
    }

    #[inline(always)]
    fn next_contra(
        &self,
        locate: u16,
        side: Side,
        price: Price,
        after: Option<Key>,
    ) -> Option<Key> {
        let terms = Terms {
            locate,
            side,
            price,
        };
        self.next_crossing(&terms, after)
    }

    #[inline(always)]
    fn prepare_walk(&mut self, terms: &Terms, left: u32, minimum: u32) {
        // One share is in each level that is not empty: a walk with no greater minimum does not ask for the bounds.
        if minimum > 1 && minimum <= left {
            self.tighten(terms, left, minimum);
        }
    }

    #[inline(always)]
    fn next_qualifying(
        &self,
        terms: &Terms,
        walk: &mut Walk,
        left: u32,
        minimum: u32,
    ) -> Option<Key> {
        self.walk_on(terms, walk, left, minimum)
    }

    fn next_in_time(&self, after: Option<Key>) -> Option<Key> {
        self.time_after(after)
    }

    // A level that is reached counts as eight orders, and a block of conditional orders that is read for nothing as sixteen.
    fn passed_over(&self) -> u64 {
        let misses = self.conditional.misses().wrapping_mul(MISS);
        self.passed.get().wrapping_add(misses)
    }
}
