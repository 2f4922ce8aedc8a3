//! What a book promises, whatever its data structure.
ghost use Rattle.std.specs.Prelude.{◌≡◌, ◌+◌, ◌-◌, ◌<◌, ◌++◌, List, [], ◌∷◌, Option, Some, None, IfSome, OnOk, OnErr, true, false};
ghost use Rattle.std.specs.Option.{option_copied, is_some};
ghost use Rattle.hx_book.specs.Book.{terms_at, terms_of, order_of, has_key, KeysDiffer, ranked, reduced, without, next_by_rank, next_by_time, next_qualifying, IsRanked, IsWalk};

use crate::order::{Key, Order, Terms, Walk};
use hx_units::{NoMemory, Price, Side};

/// A book, seen as the live orders in time order, each under its key (`orders`), and one reserved slot (`reserved`):
/// the terms for whose order there is room.
pub trait Book {
    ghost use Rattle.hx_book.specs.declared.order.Live.{Live};
    ghost use Rattle.hx_book.specs.declared.order.Terms.{Terms};

    ghost orders: { Self → List Live };

    ghost reserved: { Self → Option Terms };

    /// Makes room for one order of this stock, side and price (in units of 1/10,000 dollar). The slot holds until the
    /// next `add` or `reserve`. After `NoMemory` all is as before.
    fn reserve(&mut self, locate: u16, side: Side, price: Price) -> Result<(), NoMemory>
        ensures orders { orders self.new ≡ orders self.old }
        ensures ok { OnOk result (reserved self.new ≡ Some (terms_at locate side price)) }
        ensures err { OnErr result (reserved self.new ≡ reserved self.old) };

    /// Puts the order last in time, into the reserved slot, and gives its key, which no live order has.
    fn add(&mut self, order: Order) -> Key
        requires { reserved self.old ≡ Some (terms_of order) }
        ensures orders { orders self.new ≡ orders self.old
            ++ (record { key = result; order = order }) ∷ [] }
        ensures fresh { has_key result.0 (orders self.old) ≡ false }
        ensures reserved { reserved self.new ≡ None };

    /// Takes some, but not all, of an order's open shares off. It retains its time priority.
    fn reduce(&mut self, key: Key, by: u32)
        requires live { has_key key.0 (orders self.old) ≡ true }
        requires some { 0 < by }
        requires less { IfSome (order_of key.0 (orders self.old)) (λ order. by < order.shares) }
        ensures orders { orders self.new ≡ reduced key.0 by (orders self.old) }
        ensures reserved { reserved self.new ≡ reserved self.old };

    /// Takes a live order out, and gives it as it stood.
    fn remove(&mut self, key: Key) -> Order
        requires { has_key key.0 (orders self.old) ≡ true }
        ensures was { order_of key.0 (orders self.old) ≡ Some result }
        ensures orders { orders self.new ≡ without key.0 (orders self.old) }
        ensures reserved { reserved self.new ≡ reserved self.old };

    /// The live order under the key, if there is one.
    fn get(&self, key: Key) -> Option<&Order>
        ensures exact { option_copied result ≡ order_of key.0 (orders self.now) }
        ensures live { is_some result ≡ has_key key.0 (orders self.now) }
        ensures keys { KeysDiffer (orders self.now) };

    /// The order that an incoming order of this stock, side and price meets next: of those that cross, the next
    /// by rank (a better price, then shown before hidden, then time) after the one with the key `after`, or the
    /// first.
    fn next_contra(&self, locate: u16, side: Side, price: Price, after: Option<Key>) -> Option<Key>
        requires { IfSome after (λ key.
            IsRanked (terms_at locate side price) key.0 (orders self.now)) }
        ensures exact { result ≡ next_by_rank (terms_at locate side price) after (orders self.now) }
        ensures ranked { IfSome result (λ key.
            IsRanked (terms_at locate side price) key.0 (orders self.now)) }
        ensures keys { KeysDiffer (orders self.now) };

    /// Makes ready for a walk of an incoming order of these terms, with `left` open shares and this minimum: work is done here
    /// that each such walk would else do again. Contracts see the same book afterwards.
    fn prepare_walk(&mut self, terms: &Terms, left: u32, minimum: u32)
        ensures orders { orders self.new ≡ orders self.old }
        ensures reserved { reserved self.new ≡ reserved self.old };

    /// The next order that an incoming order can be executed against, as a step of a walk: of those that cross its terms,
    /// the next by rank after the last one met that qualifies, if `left` shares of the incoming order are open and each
    /// execution has to have `minimum` shares at least. A walk keeps to its terms and its minimum, and `left` never rises,
    /// so an order that was passed over is not looked at again.
    fn next_qualifying(
        &self,
        terms: &Terms,
        walk: &mut Walk,
        left: u32,
        minimum: u32,
    ) -> Option<Key>
        requires { IsWalk terms.now minimum (orders self.now) walk.old }
        ensures exact { result
            ≡ next_qualifying terms.now walk.old.after left minimum (orders self.now) }
        ensures met { IfSome result (λ key. walk.new.after ≡ Some key) }
        ensures walk { IsWalk terms.now minimum (orders self.now) walk.new }
        ensures keys { KeysDiffer (orders self.now) };

    /// The next order in time after the one with the key `after`, or the oldest.
    fn next_in_time(&self, after: Option<Key>) -> Option<Key>
        requires { IfSome after (λ key. has_key key.0 (orders self.now) ≡ true) }
        ensures exact { result ≡ next_by_time after (orders self.now) }
        ensures live { IfSome result (λ key. has_key key.0 (orders self.now) ≡ true) };

    /// What all walks have cost beside the orders that they met, in orders that were passed over one by one: 0 if the book
    /// does not count them. Contracts promise nothing of it.
    fn passed_over(&self) -> u64;
}
