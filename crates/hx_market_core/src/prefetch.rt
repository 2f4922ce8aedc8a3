//! Before any step: coming events are prefetched, so that their memory is in the cache when their turn comes.

use hx_book::{Book, Key};
use hx_members::{Tokens, prefetch_hint};
use hx_rules::Event;
use hx_units::fields::array_at;
use hx_units::{MemberNo, Token};

/// The number of events that are prefetched together, so that their cache misses overlap.
const BATCH: usize = 16;

// The first byte of a message.
fn first_byte(event: &Event) -> u64 {
    match event {
        Event::Message { bytes, .. } => match bytes.as_slice().first() {
            Some(byte) => u64::from(*byte),
            None => 0,
        },
        Event::Tick { .. } | Event::Hours { .. } | Event::Halt { .. } | Event::Break { .. } => 0,
    }
}

// Prefetches the bytes of messages.
fn sum_of_bytes(events: &[Event]) -> u64 {
    let mut sum: u64 = 0;
    for event in events.iter().take(BATCH) {
        sum = sum.wrapping_add(first_byte(event));
    }
    sum
}

// The hint of the token that a message names first (OUCH 4.2: it follows the message's type), or 0.
#[inline(always)]
fn hint_of(event: &Event) -> u64 {
    let Event::Message { member, bytes, .. } = event else {
        return 0;
    };
    let bytes = bytes.as_slice();
    match MemberNo::of(*member) {
        Some(member) if bytes.len() >= 15 => prefetch_hint(member, &Token(array_at(bytes, 1))),
        _ => 0,
    }
}

// The hints of the tokens that messages name first.
fn hints_of(events: &[Event]) -> [u64; BATCH] {
    let mut hints = [0; BATCH];
    for (hint, event) in hints.iter_mut().zip(events) {
        *hint = hint_of(event);
    }
    hints
}

// Prefetches orders.
fn sum_of_orders<B: Book>(book: &B, keys: &[usize]) -> u64 {
    let mut sum: u64 = 0;
    for key in keys {
        if let Some(order) = book.get(Key(*key)) {
            sum = sum.wrapping_add(order.reference ^ u64::from(order.shares));
        }
    }
    sum
}

/// Prefetches what the first sixteen of the events are about, as far as it can be guessed: their bytes, the used tokens
/// that they name first, and the orders under these. The result is unspecified.
pub fn prefetch<B: Book>(tokens: &Tokens, book: &B, events: &[Event]) -> u64 {
    let bytes = sum_of_bytes(events);
    let hints = hints_of(events);
    let first = tokens.prefetch(&hints);
    let orders = sum_of_orders(book, &tokens.prefetched_keys(&hints));
    bytes.wrapping_add(first).wrapping_add(orders)
}
