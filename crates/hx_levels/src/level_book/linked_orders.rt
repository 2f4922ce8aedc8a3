//! The orders of a book by levels, with their links.
ghost use Rattle.std.specs.Prelude.{◌≡◌, ◌+◌, ◌<◌, ◌≤◌, ◌==◌, ◌&&◌, ◌^◌, [], ℕ, Option, Some, None, IsOk, IsSome, IfSome, OnOk, false, length, slice_get, vec_capacity};
ghost use Rattle.std.specs.Option.{option_copied, option_map, is_some};
ghost use Rattle.slab.specs.Slab.{get, ContainsKey, slab_len, HasRoomFor};
ghost use Rattle.hx_levels.specs.Chain.{links_to};
ghost use Rattle.hx_levels.specs.OrderLinks.{after_at, before_at, on_time, on_queue, no_ends, no_links, not_linked, linked_last, with_links, with_next, unlinked, time_links, queue_links, number_at, ends_with, ends_without, less_at};

use crate::level_book::link::Link;
use hx_book::Order;
use hx_units::{NoMemory, indices_ahead};
use slab::Slab;
use std::alloc::Global;
use std::marker::Model;

/// The keys of the neighbours in a list.
#[derive(Clone, Copy)]
pub struct Links {
    pub before: Link,
    pub after: Link,
}

/// The keys of the first and the last of a list.
#[derive(Clone, Copy)]
pub struct Ends {
    pub first: Link,
    pub last: Link,
}

/// A live order, its neighbours in time and in its queue, and its number: that of an order that came later is greater.
#[derive(Clone, Copy)]
pub struct LinkedOrder {
    pub order: Order,
    pub time: Links,
    pub queue: Links,
    pub number: u64,
}

/// The links of a live order, and its number.
#[derive(Clone, Copy)]
pub struct Both {
    pub time: Links,
    pub queue: Links,
    pub number: u64,
}

/// The orders of a book with their links: the orders in a slab, and beside it the links of each, under the same
/// keys, in a list of their own, so that what is written at a neighbour lies close together.
#[derive(Drop)]
pub struct LinkedOrders {
    orders: Slab<Order>,
    links: Vec<Both>,
}

impl Model for LinkedOrders {
    ghost use Rattle.std.specs.Prelude.{vec_capacity};
    ghost use Rattle.slab.specs.Slab.{Slab as Slots};
    ghost use Rattle.hx_levels.specs.declared.level_book.linked_orders.LinkedOrder.{LinkedOrder};
    ghost use Rattle.hx_levels.specs.OrderLinks.{linked_orders_of, HaveLinks};

    ghost Value = { Slots LinkedOrder };

    ghost view = { λ n. linked_orders_of n.orders n.links.items (vec_capacity n.links) };

    ghost invariant = { λ n. HaveLinks n.orders n.links.items };
}

impl LinkedOrders {
    /// No orders, and no room.
    pub fn new(alloc: Global) -> Self
        ensures empty { result.slots ≡ [] }
        ensures capacity { result.capacity ≡ 0 }
    {
        LinkedOrders {
            orders: Slab::new(alloc),
            links: Vec::new(alloc),
        }
    }

    /// Makes room for one order more. After `NoMemory` the orders and their links are as before.
    #[inline(always)]
    pub fn reserve(&mut self) -> Result<(), NoMemory>
        ensures room { OnOk result (HasRoomFor self.new 1) }
        ensures succeeds { HasRoomFor self.old 1 → IsOk result }
        ensures had_room { HasRoomFor self.old 1 → self.new ≡ self.old }

        // If the orders got memory and their links did not, there is no room until both have it.
        ensures capacity { OnOk result (self.old.capacity ≤ self.new.capacity) }
        ensures rest_kept { self.new ≡ record self.old { capacity = self.new.capacity } }
    {
        reserve_order(&mut self.orders)?;
        reserve_links(&mut self.links, self.orders.capacity())
    }

    /// The order at a key, if there is one.
    #[inline(always)]
    pub fn order(&self, key: usize) -> Option<&Order>
        ensures { option_copied result ≡ option_map (λ linked_order. linked_order.order) (get self.now key) }
    {
        self.orders.get(key)
    }

    /// The links of the order at a key.
    #[inline(always)]
    pub fn links(&self, key: usize) -> Both
        requires { ContainsKey self.now key }
        ensures time { time_links self.now key ≡ Some result.time }
        ensures queue { queue_links self.now key ≡ Some result.queue }
        ensures number { number_at self.now key ≡ Some result.number }
    {
        self.links[key]
    }
}

// Makes room for an order more; if there is none, for later ones too, if there is memory for them.
#[inline(always)]
fn reserve_order(orders: &mut Slab<Order>) -> Result<(), NoMemory>
    ensures room { OnOk result (HasRoomFor orders.new 1) }
    ensures succeeds { HasRoomFor orders.old 1 → IsOk result }
    ensures had_room { HasRoomFor orders.old 1 → orders.new ≡ orders.old }
    ensures capacity { orders.old.capacity ≤ orders.new.capacity }
    ensures rest_kept { orders.new ≡ record orders.old { capacity = orders.new.capacity } }
{
    let len = orders.len();
    if len == orders.capacity() {
        let _refused = orders.reserve(indices_ahead(len));
    }
    orders.reserve(1)?;
    Ok(())
}

// Makes room for the links of `count` orders in all.
#[inline(always)]
fn reserve_links(links: &mut Vec<Both>, indices: usize) -> Result<(), NoMemory>
    ensures items { links.new.items ≡ links.old.items }
    ensures room { OnOk result (indices ≤ vec_capacity links.new) }
    ensures succeeds { indices ≤ vec_capacity links.old → IsOk result }
    ensures had_room { indices ≤ vec_capacity links.old
        → vec_capacity links.new ≡ vec_capacity links.old }
    ensures capacity { vec_capacity links.old ≤ vec_capacity links.new }
{
    if links.capacity() < indices {
        links.reserve(indices.saturating_sub(links.len()))?;
    }
    Ok(())
}

impl Links {
    // The links of the last of a list, after this one.
    pub fn later(before: Link) -> Links
        ensures { result ≡ links_to before None }
    {
        Links {
            before,
            after: Link::none(),
        }
    }

    // Whether there are neighbours on both sides.
    pub fn is_inside(&self) -> bool
        ensures { result ≡ (is_some self.now.before && is_some self.now.after) }
    {
        self.before.is_some() && self.after.is_some()
    }
}

impl Both {
    // The links of an order that is not linked yet.
    fn none() -> Both
        ensures { result ≡ no_links }
    {
        Both {
            time: Links::later(Link::none()),
            queue: Links::later(Link::none()),
            number: 0,
        }
    }
}

impl Ends {
    // The ends of an empty list.
    pub fn none() -> Ends
        ensures { result ≡ no_ends }
    {
        Ends {
            first: Link::none(),
            last: Link::none(),
        }
    }

    // The ends once the key is put last.
    pub fn with(self, key: usize) -> Ends
        requires { key + 1 < 2 ^ 64 }
        ensures { result ≡ ends_with key self }
    {
        let link = Link::to(key);
        Ends {
            first: match self.first.get() {
                Some(_) => self.first,
                None => link,
            },
            last: link,
        }
    }

    // The ends once the one with these links is out.
    pub fn without(self, links: Links) -> Ends
        ensures { result ≡ ends_without links self }
    {
        Ends {
            first: match links.before.get() {
                Some(_) => self.first,
                None => links.after,
            },
            last: match links.after.get() {
                Some(_) => self.last,
                None => links.before,
            },
        }
    }
}

// Writes the key after the linked order `at` in time, if there is one.
#[inline(always)]
fn set_time_after(linked_orders: &mut LinkedOrders, at: Link, to: Link)
    ensures changed { (k : ℕ) → get linked_orders.new k ≡ option_map (on_time (after_at at to k))
        (get linked_orders.old k) }
    ensures capacity { linked_orders.new.capacity ≡ linked_orders.old.capacity }
    ensures len { slab_len linked_orders.new ≡ slab_len linked_orders.old }
{
    if let Some(key) = at.get() {
        if let Some(links) = linked_orders.links.get_mut(key) {
            links.time.after = to;
        }
    }
}

// Writes the key before the linked order `at` in time, if there is one.
#[inline(always)]
fn set_time_before(linked_orders: &mut LinkedOrders, at: Link, to: Link)
    ensures changed { (k : ℕ) → get linked_orders.new k ≡ option_map (on_time (before_at at to k))
        (get linked_orders.old k) }
    ensures capacity { linked_orders.new.capacity ≡ linked_orders.old.capacity }
    ensures len { slab_len linked_orders.new ≡ slab_len linked_orders.old }
{
    if let Some(key) = at.get() {
        if let Some(links) = linked_orders.links.get_mut(key) {
            links.time.before = to;
        }
    }
}

// Writes the key after the linked order `at` in its queue, if there is one.
#[inline(always)]
fn set_queue_after(linked_orders: &mut LinkedOrders, at: Link, to: Link)
    ensures changed { (k : ℕ) → get linked_orders.new k ≡ option_map (on_queue (after_at at to k))
        (get linked_orders.old k) }
    ensures capacity { linked_orders.new.capacity ≡ linked_orders.old.capacity }
    ensures len { slab_len linked_orders.new ≡ slab_len linked_orders.old }
{
    if let Some(key) = at.get() {
        if let Some(links) = linked_orders.links.get_mut(key) {
            links.queue.after = to;
        }
    }
}

// Writes the key before the linked order `at` in its queue, if there is one.
#[inline(always)]
fn set_queue_before(linked_orders: &mut LinkedOrders, at: Link, to: Link)
    ensures changed { (k : ℕ) → get linked_orders.new k ≡ option_map (on_queue (before_at at to k))
        (get linked_orders.old k) }
    ensures capacity { linked_orders.new.capacity ≡ linked_orders.old.capacity }
    ensures len { slab_len linked_orders.new ≡ slab_len linked_orders.old }
{
    if let Some(key) = at.get() {
        if let Some(links) = linked_orders.links.get_mut(key) {
            links.queue.before = to;
        }
    }
}

// Writes at a key the links of an order that is not linked yet. The keys below it that have none get the same.
#[inline(always)]
fn clear_links(links: &mut Vec<Both>, key: usize)
    requires { key < vec_capacity links.old }
    ensures own { slice_get links.new.items key ≡ Some no_links }
    ensures others { (k : ℕ) → k < length links.old.items → (k == key) ≡ false
        → slice_get links.new.items k ≡ slice_get links.old.items k }
    ensures longer { length links.old.items ≤ length links.new.items }
    ensures capacity { vec_capacity links.new ≡ vec_capacity links.old }
{
    while links.len() <= key {
        links.push_reserved(Both::none());
    }
    links[key] = Both::none();
}

// Writes the links of the order at a key, if there is one.
#[inline(always)]
fn set_links(linked_orders: &mut LinkedOrders, key: usize, both: Both)
    ensures own { get linked_orders.new key ≡ option_map (with_links both) (get linked_orders.old key) }
    ensures others { (k : ℕ) → (k == key) ≡ false → get linked_orders.new k ≡ get linked_orders.old k }
    ensures capacity { linked_orders.new.capacity ≡ linked_orders.old.capacity }
    ensures len { slab_len linked_orders.new ≡ slab_len linked_orders.old }
{
    if let Some(links) = linked_orders.links.get_mut(key) {
        *links = both;
    }
}

// Takes an order out, with its links. Those of its neighbours still lead to it.
#[inline(always)]
fn take_out(linked_orders: &mut LinkedOrders, key: usize) -> LinkedOrder
    requires { ContainsKey linked_orders.old key }
    ensures was { get linked_orders.old key ≡ Some result }
    ensures own { get linked_orders.new key ≡ None }
    ensures others { (k : ℕ) → (k == key) ≡ false → get linked_orders.new k ≡ get linked_orders.old k }
    ensures capacity { linked_orders.new.capacity ≡ linked_orders.old.capacity }
    ensures len { slab_len linked_orders.new + 1 ≡ slab_len linked_orders.old }
{
    let Both {
        time,
        queue,
        number,
    } = linked_orders.links[key];
    let order = linked_orders.orders.remove(key);
    LinkedOrder {
        order,
        time,
        queue,
        number,
    }
}

// Stores an order that is not linked yet.
#[inline(always)]
pub fn store(linked_orders: &mut LinkedOrders, order: Order) -> usize
    requires { HasRoomFor linked_orders.old 1 }
    ensures small { result + 1 < 2 ^ 64 }
    ensures fresh { get linked_orders.old result ≡ None }
    ensures own { get linked_orders.new result ≡ Some (not_linked order) }
    ensures others { (k : ℕ) → (k == result) ≡ false → get linked_orders.new k ≡ get linked_orders.old k }
    ensures capacity { linked_orders.new.capacity ≡ linked_orders.old.capacity }
    ensures len { slab_len linked_orders.new ≡ slab_len linked_orders.old + 1 }
{
    let key = linked_orders.orders.insert_reserved(order);
    // The key is below the capacity, which is a number of the machine.
    let _capacity = linked_orders.orders.capacity();
    clear_links(&mut linked_orders.links, key);
    key
}

// Links a stored order, as the last of its queue and the last in time, and gives it its number.
#[inline(always)]
pub fn link_last(
    linked_orders: &mut LinkedOrders,
    key: usize,
    queue_last: Link,
    time_last: Link,
    number: u64,
)
    requires { key + 1 < 2 ^ 64 }
    ensures own { get linked_orders.new key
        ≡ option_map (linked_last queue_last time_last number) (get linked_orders.old key) }
    ensures others { (k : ℕ) → (k == key) ≡ false → get linked_orders.new k
        ≡ option_map (with_next queue_last time_last key k) (get linked_orders.old k) }
    ensures capacity { linked_orders.new.capacity ≡ linked_orders.old.capacity }
    ensures len { slab_len linked_orders.new ≡ slab_len linked_orders.old }
{
    let link = Link::to(key);
    set_queue_after(linked_orders, queue_last, link);
    set_time_after(linked_orders, time_last, link);
    let both = Both {
        time: Links::later(time_last),
        queue: Links::later(queue_last),
        number,
    };
    set_links(linked_orders, key, both);
}

// Takes an order out, and links its neighbours to each other.
#[inline(always)]
pub fn unlink(linked_orders: &mut LinkedOrders, key: usize) -> LinkedOrder
    requires { ContainsKey linked_orders.old key }
    ensures was { get linked_orders.old key ≡ Some result }
    ensures own { get linked_orders.new key ≡ None }
    ensures others { (k : ℕ) → (k == key) ≡ false → get linked_orders.new k
        ≡ option_map (unlinked result k) (get linked_orders.old k) }
    ensures capacity { linked_orders.new.capacity ≡ linked_orders.old.capacity }
    ensures len { slab_len linked_orders.new + 1 ≡ slab_len linked_orders.old }
{
    let linked_order = take_out(linked_orders, key);
    let queue = linked_order.queue;
    set_queue_after(linked_orders, queue.before, queue.after);
    set_queue_before(linked_orders, queue.after, queue.before);
    let time = linked_order.time;
    set_time_after(linked_orders, time.before, time.after);
    set_time_before(linked_orders, time.after, time.before);
    linked_order
}

// Takes an order out that is in no queue, and links its neighbours in time to each other.
pub fn unlink_in_time(linked_orders: &mut LinkedOrders, key: usize) -> LinkedOrder
    requires { ContainsKey linked_orders.old key }
    ensures was { get linked_orders.old key ≡ Some result }
    ensures own { get linked_orders.new key ≡ None }
    ensures others { (k : ℕ) → (k == key) ≡ false → get linked_orders.new k
        ≡ option_map (unlinked (record result { queue = links_to None None }) k)
        (get linked_orders.old k) }
    ensures capacity { linked_orders.new.capacity ≡ linked_orders.old.capacity }
    ensures len { slab_len linked_orders.new + 1 ≡ slab_len linked_orders.old }
{
    let linked_order = take_out(linked_orders, key);
    let time = linked_order.time;
    set_time_after(linked_orders, time.before, time.after);
    set_time_before(linked_orders, time.after, time.before);
    linked_order
}

// Takes shares off an order.
pub fn take_shares(linked_orders: &mut LinkedOrders, key: usize, by: u32)
    requires { IfSome (get linked_orders.old key) (λ linked_order. by ≤ linked_order.order.shares) }
    ensures changed { (k : ℕ) → get linked_orders.new k ≡ option_map (less_at key by k) (get linked_orders.old k) }
    ensures capacity { linked_orders.new.capacity ≡ linked_orders.old.capacity }
    ensures len { slab_len linked_orders.new ≡ slab_len linked_orders.old }
{
    if let Some(order) = linked_orders.orders.get_mut(key) {
        order.shares -= by;
    }
}
