//! A vendor's screen: datagrams to messages to the book.

use crate::failure::Failure;
use crate::report::report;
use arrayvec::ArrayVec;
use hx_itch::{AddOrder, Feed, OrderDelete, OrderExecuted, encode};
use hx_mold::cut;
use hx_reader::Screen;
use hx_units::{NoMemory, Symbol};
use std::alloc::Global;
use std::time::{Clock, Instant};

const SESSION: [u8; 10] = *b"HX00000001";

// The number of messages that the screen stores which came too early.
const WINDOW: usize = 4_096;

type Message = ArrayVec<u8, 44>;

type Packet = ArrayVec<u8, 1400>;

fn add(reference: u64) -> Message {
    let side = if reference % 2 == 0 { b'B' } else { b'S' };
    let distance = (reference % 1_000_003 * 7_919 % 400) as u32 * 100;
    encode(&Feed::AddOrder(AddOrder {
        locate: 1,
        time: 5,
        reference,
        side,
        shares: 200,
        stock: Symbol(*b"ABCD    "),
        price: if side == b'B' {
            100_000 - distance
        } else {
            100_100 + distance
        },
    }))
}

fn execute(reference: u64) -> Message {
    encode(&Feed::OrderExecuted(OrderExecuted {
        locate: 1,
        time: 6,
        reference,
        shares: 100,
        match_number: reference,
    }))
}

fn delete(reference: u64) -> Message {
    encode(&Feed::OrderDelete(OrderDelete {
        locate: 1,
        time: 7,
        reference,
    }))
}

// The messages of an order's turn: it comes, an older one is executed, and the oldest leaves.
fn turn(messages: &mut Vec<Message>, number: u64, resting: u64) -> Result<(), NoMemory> {
    messages.push(add(number))?;
    if number > resting {
        messages.push(execute(number - resting / 2))?;
        messages.push(delete(number - resting))?;
    }
    Ok(())
}

// The feed of this number of orders, in packets, and the number of its messages.
fn packets_of(alloc: Global, orders: u64, resting: u64) -> Result<(Vec<Packet>, u64), NoMemory> {
    let mut messages = Vec::new(alloc);
    for number in 1..=orders {
        turn(&mut messages, number, resting)?;
    }
    let count = messages.len() as u64;
    Ok((cut(alloc, SESSION, 1, &messages)?, count))
}

// Hands out all that has come. Returns the number of messages.
fn show(screen: &mut Screen) -> u64 {
    let mut count = 0u64;
    for _ in 0..u64::MAX {
        match screen.step() {
            Ok(Some(_)) => count = count.saturating_add(1),
            Ok(None) | Err(_) => break,
        }
    }
    count
}

// Shows all packets. Returns the number of messages.
fn show_all(screen: &mut Screen, packets: &[Packet]) -> u64 {
    let mut shown = 0u64;
    for packet in packets {
        screen.receive(packet.as_slice());
        shown = shown.saturating_add(show(screen));
    }
    shown
}

// The rate of a screen that is sent packets with `count` messages in all.
fn show_rate<R: Print + Eprint + Clock>(
    rt: &R,
    screen: &mut Screen,
    packets: &[Packet],
    count: u64,
) -> Result<(), Failure> {
    let begun = Instant::now(rt)?;
    let shown = show_all(screen, packets);
    report(rt, begun, "shown", shown, "messages")?;
    if shown == count {
        return Ok(());
    }
    Err(Failure::Wrong)
}

/// The rate of a screen that is sent the feed of this number of orders, with at most `resting` of them in the book.
pub fn screen_rate<R: Print + Eprint + Clock>(
    rt: &R,
    alloc: Global,
    orders: u64,
    resting: u64,
) -> Result<(), Failure> {
    let (packets, count) = packets_of(alloc, orders, resting)?;
    let mut screen = Screen::new(alloc, SESSION, WINDOW)?;
    show_rate(rt, &mut screen, &packets, count)
}
