//! The book as a plain list.
ghost use Rattle.std.specs.Prelude.{◌≡◌, ◌+◌, ◌<◌, [], ◌∷◌, Option, Some, None, IfSome, MatchOption, true, false, IsTrue};
ghost use Rattle.std.specs.List.{position, filter, find};
ghost use Rattle.std.specs.Option.{option_map, option_copied, is_some};
ghost use Rattle.hx_book.specs.Lists.{head_of, drop_first, after_first};
ghost use Rattle.hx_book.specs.Rank.{first_of, higher};
ghost use Rattle.hx_book.specs.Book.{is_under, is_ahead, crosses, outranks, ranked, is_candidate, is_equal, has_key, IsIndex, order_of, KeysDiffer, IsRanked, next_by_rank, next_qualifying};

use crate::book::Book;
use crate::order::{Key, Live, Order, Terms, Walk};
use hx_units::{NoMemory, Price, Side};
use slab::Slab;
use std::alloc::Global;
use std::marker::Model;

/// A book as a plain list: the orders in time order, and the keys that are in use. Each call takes time in
/// proportion to the number of orders.
pub struct ListBook {
    entries: Vec<Live>,
    keys: Slab<bool>,
    reserved: Option<Terms>,
}

// By hand, so that when a value is dropped its owner's proof sees one call.
impl Drop for ListBook {
    fn drop(self) {
        let ListBook {
            entries: _,
            keys: _,
            reserved: _,
        } = self;
    }
}

impl Model for ListBook {
    ghost use Rattle.hx_book.specs.Book.{Contents, IsList};

    ghost Value = { Contents };

    ghost view = { λ b. record { orders = b.entries.items; reserved = b.reserved } };

    ghost invariant = { λ b. IsList b.entries b.keys b.reserved };
}

impl ListBook {
    /// An empty book with no reserved slot, which takes its memory from `alloc`.
    pub fn new(alloc: Global) -> Self
        ensures orders { result.orders ≡ [] }
        ensures reserved { result.reserved ≡ None }
    {
        ListBook {
            entries: Vec::new(alloc),
            keys: Slab::new(alloc),
            reserved: None,
        }
    }
}

// Whether the order crosses the terms.
pub(crate) fn crosses(terms: &Terms, order: &Order) -> bool
    ensures { result ≡ crosses terms.now order.now }
{
    let buy = terms.side.is_buy();
    if order.locate != terms.locate || buy == order.side.is_buy() {
        return false;
    }
    if buy {
        order.price.get() <= terms.price.get()
    } else {
        terms.price.get() <= order.price.get()
    }
}

// Whether x ranks above y, wherever they stand.
pub(crate) fn outranks(side: Side, x: &Order, y: &Order) -> bool
    ensures { result ≡ outranks side x.now y.now }
{
    let (first, second) = (x.price.get(), y.price.get());
    if first == second {
        return x.shown && !y.shown;
    }
    side.is_buy() == (first < second)
}

fn index_of(entries: &[Live], key: Key) -> Option<usize>
    ensures { MatchOption result (has_key key.0 entries.now ≡ false) (IsIndex key.0 entries.now) }
{
    for (i, live) in entries.iter().enumerate() {
        if live.key.0 == key.0 {
            return Some(i);
        }
    }
    None
}

// Whether the order crosses and, if there is one, `than` ranks above it.
fn is_candidate(terms: &Terms, than: Option<&Live>, live: &Live) -> bool
    ensures { result ≡ is_candidate terms.now (option_copied than.entry) live.now }
{
    crosses(terms, &live.order)
        && match than {
            Some(other) => outranks(terms.side, &other.order, &live.order),
            None => true,
        }
}

fn higher<'a>(side: Side, live: &'a Live, best: Option<&'a Live>) -> Option<&'a Live>
    ensures { option_copied result ≡ higher (is_ahead side) live.now (option_copied best.entry) }
{
    match best {
        Some(other) if outranks(side, &other.order, &live.order) => best,
        _ => Some(live),
    }
}

// The first by rank of the candidates.
fn first_below(entries: &[Live], terms: &Terms, than: Option<&Live>) -> Option<Key>
    ensures { result ≡ option_map (λ live. live.key) (first_of (is_ahead terms.now.side)
        (is_candidate terms.now (option_copied than.entry)) entries.now) }
{
    let mut best: Option<&Live> = None;
    let mut i = entries.len();
    while i > 0 {
        i -= 1;
        let live = &entries[i];
        if is_candidate(terms, than, live) {
            best = higher(terms.side, live, best);
        }
    }
    best.map(|live| live.key)
}

// Whether the order crosses and ranks as the other does.
fn is_equal(terms: &Terms, with: &Order, live: &Live) -> bool
    ensures { result ≡ is_equal terms.now with.now live.now }
{
    crosses(terms, &live.order)
        && live.order.price.get() == with.price.get()
        && live.order.shown == with.shown
}

// The first of these that crosses and ranks alike.
fn first_equal(entries: &[Live], terms: &Terms, with: &Order) -> Option<Key>
    ensures { result ≡ option_map (λ live. live.key) (find
        (is_equal terms.now with.now) entries.now) }
{
    for live in entries {
        if is_equal(terms, with, live) {
            return Some(live.key);
        }
    }
    None
}

fn order_in(entries: &[Live], key: Key) -> Option<&Order>
    ensures exact { option_copied result ≡ order_of key.0 entries.now }
    ensures live { is_some result ≡ has_key key.0 entries.now }
{
    match index_of(entries, key) {
        Some(index) => Some(&entries[index].order),
        None => None,
    }
}

fn first_in(entries: &[Live], terms: &Terms) -> Option<Key>
    ensures { result ≡ next_by_rank terms.now None entries.now }
{
    first_below(entries, terms, None)
}

// The next by rank after the order with the key: the next that ranks alike, or else the first of those below.
fn next_in(entries: &[Live], terms: &Terms, key: Key) -> Option<Key>
    requires differ { KeysDiffer entries.now }
    requires ranked { IsRanked terms.now key.0 entries.now }
    ensures { result ≡ next_by_rank terms.now (Some key) entries.now }
{
    let index = index_of(entries, key).unwrap();
    let live = &entries[index];
    match first_equal(&entries[index + 1..], terms, &live.order) {
        Some(next) => Some(next),
        None => first_below(entries, terms, Some(live)),
    }
}

// The next by rank after the order with the key, or the first.
fn next_from(entries: &[Live], terms: &Terms, after: Option<Key>) -> Option<Key>
    requires differ { KeysDiffer entries.now }
    requires ranked { IfSome after (λ key. IsRanked terms.now key.0 entries.now) }
    ensures exact { result ≡ next_by_rank terms.now after entries.now }
    ensures ranked { IfSome result (λ key. IsRanked terms.now key.0 entries.now) }
{
    match after {
        None => first_in(entries, terms),
        Some(key) => next_in(entries, terms, key),
    }
}

// The next by rank that qualifies: the orders are tried one by one.
fn qualifying_from(
    entries: &[Live],
    terms: &Terms,
    after: Option<Key>,
    left: u32,
    minimum: u32,
) -> Option<Key>
    requires differ { KeysDiffer entries.now }
    requires ranked { IfSome after (λ key. IsRanked terms.now key.0 entries.now) }
    ensures exact { result ≡ next_qualifying terms.now after left minimum entries.now }
    ensures ranked { IfSome result (λ key. IsRanked terms.now key.0 entries.now) }
{
    let mut last = after;
    'walk: while let Some(key) = next_from(entries, terms, last) {
        let order = order_in(entries, key).unwrap();
        if order.qualifies(left, minimum) {
            return Some(key);
        }
        last = Some(key);
    }
    None
}

impl Book for ListBook {
    ghost orders = { λ book. book.orders };

    ghost reserved = { λ book. book.reserved };

    fn reserve(&mut self, locate: u16, side: Side, price: Price) -> Result<(), NoMemory> {
        self.entries.reserve(1)?;
        self.keys.reserve(1)?;
        self.reserved = Some(Terms {
            locate,
            side,
            price,
        });
        Ok(())
    }

    fn add(&mut self, order: Order) -> Key {
        let key = Key(self.keys.insert_reserved(true));
        self.entries.push_reserved(Live { key, order });
        self.reserved = None;
        key
    }

    fn reduce(&mut self, key: Key, by: u32) {
        if let Some(index) = index_of(&self.entries, key) {
            let live = &mut self.entries[index];
            live.order.shares -= by;
        }
    }

    fn remove(&mut self, key: Key) -> Order {
        let index = index_of(&self.entries, key).unwrap();
        self.keys.remove(key.0);
        let live = self.entries.remove(index);
        live.order
    }

    fn get(&self, key: Key) -> Option<&Order> {
        order_in(&self.entries, key)
    }

    fn next_contra(
        &self,
        locate: u16,
        side: Side,
        price: Price,
        after: Option<Key>,
    ) -> Option<Key> {
        let terms = Terms {
            locate,
            side,
            price,
        };
        next_from(&self.entries, &terms, after)
    }

    fn prepare_walk(&mut self, _terms: &Terms, _left: u32, _minimum: u32) {}

    fn next_qualifying(
        &self,
        terms: &Terms,
        walk: &mut Walk,
        left: u32,
        minimum: u32,
    ) -> Option<Key> {
        let key = qualifying_from(&self.entries, terms, walk.after, left, minimum)?;
        *walk = Walk::at(key);
        Some(key)
    }

    fn next_in_time(&self, after: Option<Key>) -> Option<Key> {
        let next = match after {
            Some(key) => index_of(&self.entries, key).unwrap() + 1,
            None => 0,
        };
        self.entries.get(next).map(|live| live.key)
    }

    fn passed_over(&self) -> u64 {
        0
    }
}
