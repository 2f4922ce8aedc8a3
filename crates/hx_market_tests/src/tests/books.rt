//! Each call of a book once, and both books side by side.

use super::orders::{order, price, rest};
use super::{equal, holds};
use hx_book::{Book, Key, ListBook, Order, Terms, Walk};
use hx_levels::LevelBook;
use hx_units::{Price, Side};
use std::alloc::Global;
use std::process::Abort;

// The open shares under a key, and 0 if no order has it.
fn shares<B: Book>(book: &B, key: Key) -> u32 {
    book.get(key).map_or(0, |order| order.shares)
}

// Takes some of an order's shares off. True if the order has more.
fn less<B: Book>(book: &mut B, key: Key, by: u32) -> bool {
    let Some(order) = book.get(key) else {
        return false;
    };
    if by == 0 || order.shares <= by {
        return false;
    }
    book.reduce(key, by);
    true
}

// The shares of an order that is taken out.
fn take<B: Book>(book: &mut B, key: Key) -> Option<u32> {
    book.get(key)?;
    Some(book.remove(key).shares)
}

fn each_call<B: Book>(rt: &impl Abort, book: &mut B) {
    let limit = price(rt, 100000);
    holds(rt, book.next_in_time(None).is_none());
    let hidden = rest(rt, book, order(rt, Side::Buy, 100000, 100, 0, false));
    let shown = rest(rt, book, order(rt, Side::Buy, 100000, 200, 0, true));
    let better = rest(rt, book, order(rt, Side::Buy, 100100, 300, 0, false));
    let low = rest(rt, book, order(rt, Side::Buy, 99900, 400, 0, true));
    // By price, then shown before hidden; a buy below the sell's limit does not cross.
    let first = book.next_contra(1, Side::Sell, limit, None);
    equal(rt, first, Some(better));
    let second = book.next_contra(1, Side::Sell, limit, first);
    equal(rt, second, Some(shown));
    let third = book.next_contra(1, Side::Sell, limit, second);
    equal(rt, third, Some(hidden));
    holds(rt, book.next_contra(1, Side::Sell, limit, third).is_none());
    holds(rt, book.next_contra(2, Side::Sell, limit, None).is_none());
    holds(rt, book.next_contra(1, Side::Buy, limit, None).is_none());
    // A reduced order retains its time priority.
    holds(rt, less(book, hidden, 40));
    equal(rt, shares(book, hidden), 60);
    let oldest = book.next_in_time(None);
    equal(rt, oldest, Some(hidden));
    equal(rt, book.next_in_time(oldest), Some(shown));
    equal(rt, take(book, hidden), Some(60));
    holds(rt, book.get(hidden).is_none());
    equal(rt, book.next_in_time(None), Some(shown));
    equal(rt, shares(book, low), 400);
}

// Of the orders that cross, only those that qualify are met.
fn qualifying_calls<B: Book>(rt: &impl Abort, book: &mut B) {
    let terms = Terms {
        locate: 1,
        side: Side::Sell,
        price: price(rt, 100000),
    };
    let large = rest(rt, book, order(rt, Side::Buy, 100200, 500, 300, false));
    let small = rest(rt, book, order(rt, Side::Buy, 100100, 100, 0, true));
    let exact = rest(rt, book, order(rt, Side::Buy, 100000, 200, 200, false));
    // 200 shares are fewer than the minimum of the first.
    let mut walk = Walk::start();
    equal(
        rt,
        book.next_qualifying(&terms, &mut walk, 200, 0),
        Some(small),
    );
    equal(
        rt,
        book.next_qualifying(&terms, &mut walk, 200, 0),
        Some(exact),
    );
    holds(
        rt,
        book.next_qualifying(&terms, &mut walk, 200, 0).is_none(),
    );
    // 300 are not. The small order is below the minimum of the incoming order.
    let mut walk = Walk::start();
    equal(
        rt,
        book.next_qualifying(&terms, &mut walk, 300, 200),
        Some(large),
    );
    equal(
        rt,
        book.next_qualifying(&terms, &mut walk, 300, 200),
        Some(exact),
    );
    let mut walk = Walk::start();
    holds(rt, book.next_qualifying(&terms, &mut walk, 0, 0).is_none());
}

#[test]
fn list_book(rt: HostRuntime) {
    let mut book = ListBook::new(rt.alloc());
    each_call(&rt, &mut book);
    let mut book = ListBook::new(rt.alloc());
    qualifying_calls(&rt, &mut book);
}

#[test]
fn level_book(rt: HostRuntime) {
    let mut book = LevelBook::new(rt.alloc());
    each_call(&rt, &mut book);
    let mut book = LevelBook::new(rt.alloc());
    qualifying_calls(&rt, &mut book);
}

// Whether the keys are those of the same order, by its reference and its open shares.
fn is_same<A: Book, B: Book>(one: &A, two: &B, a: Key, b: Key) -> bool {
    match (one.get(a), two.get(b)) {
        (Some(x), Some(y)) => x.reference == y.reference && x.shares == y.shares,
        _ => false,
    }
}

// Whether both books give the same orders of a stock by rank, from the first to the last.
fn agree_by_rank<A: Book, B: Book>(
    one: &A,
    two: &B,
    locate: u16,
    side: Side,
    price: Price,
) -> bool {
    let mut a = one.next_contra(locate, side, price, None);
    let mut b = two.next_contra(locate, side, price, None);
    for _ in 0..100000 {
        let (Some(x), Some(y)) = (a, b) else {
            return a.is_none() && b.is_none();
        };
        if !is_same(one, two, x, y) {
            return false;
        }
        a = one.next_contra(locate, side, price, Some(x));
        b = two.next_contra(locate, side, price, Some(y));
    }
    false
}

// Whether both books give the same orders that qualify, from the first to the last, as shares of the incoming order are
// taken.
fn agree_by_minimum<A: Book, B: Book>(
    one: &A,
    two: &B,
    terms: &Terms,
    shares: u32,
    minimum: u32,
) -> bool {
    let mut left = shares;
    let mut walk_a = Walk::start();
    let mut walk_b = Walk::start();
    for i in 0..100000 {
        let a = one.next_qualifying(terms, &mut walk_a, left, minimum);
        let b = two.next_qualifying(terms, &mut walk_b, left, minimum);
        let (Some(x), Some(y)) = (a, b) else {
            return a.is_none() && b.is_none();
        };
        if !is_same(one, two, x, y) {
            return false;
        }
        if i % 3 == 2 {
            left = left.saturating_sub(1);
        }
    }
    false
}

// Whether both books give the same orders in time, from the first to the last.
fn agree_in_time<A: Book, B: Book>(one: &A, two: &B) -> bool {
    let mut a = one.next_in_time(None);
    let mut b = two.next_in_time(None);
    for _ in 0..100000 {
        let (Some(x), Some(y)) = (a, b) else {
            return a.is_none() && b.is_none();
        };
        if !is_same(one, two, x, y) {
            return false;
        }
        a = one.next_in_time(Some(x));
        b = two.next_in_time(Some(y));
    }
    false
}

fn next_number(state: &mut u64) -> u64 {
    let x = *state;
    let x = x ^ (x << 13);
    let x = x ^ (x >> 7);
    let x = x ^ (x << 17);
    *state = x;
    x
}

// An order of one of two stocks, on one of the four sides, at one of 50 prices. A hidden one has a minimum of up to all
// its shares.
fn drawn(rt: &impl Abort, number: u64, reference: u64) -> Order {
    let side = match number / 4 % 6 {
        0..3 => Side::Buy,
        3 => Side::Sell,
        4 => Side::Short,
        _ => Side::ShortExempt,
    };
    let units = (10000 + number / 32 % 50 * 100) as u32;
    let shown = number / 4096 % 2 == 0;
    let minimum = if shown { 0 } else { (number / 8192 % 6) as u32 };
    Order {
        reference,
        locate: if number / 2048 % 2 == 0 { 1 } else { 2 },
        ..order(rt, side, units, 5, minimum, shown)
    }
}

// Whether both books give the same orders of both stocks, against buys and sells of any price, and in time.
fn agree<A: Book, B: Book>(rt: &impl Abort, one: &A, two: &B) -> bool {
    let low = price(rt, 1);
    let high = price(rt, 1000000);
    for locate in [1, 2] {
        if !agree_by_rank(one, two, locate, Side::Buy, high)
            || !agree_by_rank(one, two, locate, Side::Sell, low)
        {
            return false;
        }
    }
    agree_in_time(one, two)
}

// The same of the orders that qualify for `left` shares and this minimum, once both are made ready for the walks.
fn agree_for<A: Book, B: Book>(
    rt: &impl Abort,
    one: &mut A,
    two: &mut B,
    left: u32,
    minimum: u32,
) -> bool {
    let low = price(rt, 1);
    let high = price(rt, 1000000);
    for locate in [1, 2] {
        for (side, price) in [(Side::Buy, high), (Side::Sell, low)] {
            let terms = Terms {
                locate,
                side,
                price,
            };
            one.prepare_walk(&terms, left, minimum);
            two.prepare_walk(&terms, left, minimum);
            if !agree_by_minimum(one, two, &terms, left, minimum) {
                return false;
            }
        }
    }
    true
}

// 2,000 commands, the same to both books, with up to 80 live orders. Both are compared after each, and after each fourth for
// an incoming order of some shares and some minimum.
fn both_agree<A: Book, B: Book>(rt: &impl Abort, alloc: Global, one: &mut A, two: &mut B) {
    let mut keys: Vec<(Key, Key)> = Vec::new(alloc);
    let mut state: u64 = 88172645463325252;
    for i in 0..2000_u64 {
        let number = next_number(&mut state);
        let len = keys.len();
        if len == 0 || (number % 4 < 2 && len < 80) {
            let x = rest(rt, one, drawn(rt, number, i));
            let y = rest(rt, two, drawn(rt, number, i));
            keys.push((x, y)).expect(rt, "memory");
        } else {
            let at = (number / 8 % len as u64) as usize;
            let (x, y) = keys[at];
            if number % 4 != 3 {
                keys.remove(at);
                equal(rt, take(one, x), take(two, y));
            } else {
                equal(rt, less(one, x, 1), less(two, y, 1));
            }
        }
        holds(rt, agree(rt, one, two));
        if i % 4 == 0 {
            let left = (number / 65536 % 8) as u32;
            let minimum = (number / 524288 % 5) as u32;
            holds(rt, agree_for(rt, one, two, left, minimum));
        }
    }
}

#[test]
fn both_books_agree(rt: HostRuntime) {
    let mut one = ListBook::new(rt.alloc());
    let mut two = LevelBook::new(rt.alloc());
    both_agree(&rt, rt.alloc(), &mut one, &mut two);
}
