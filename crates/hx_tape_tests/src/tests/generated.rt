//! A day of 2,000 random lines: hidden and displayed orders, Replaces, Cancels and minimums of three members, ticks, and
//! halts of one of the two stocks.

use super::replaying::replayed;
use super::{equal, holds};
use hx_ouch::{Cancel, Enter, Inbound, Replace, encode_in};
use hx_strike::{strike_all_tape, strike_tape};
use hx_testing::lines::lines_that;
use hx_testing::setups::standard;
use hx_units::{Firm, MemberNo, Symbol, Token};
use std::alloc::Global;
use std::process::Abort;

fn next_number(state: &mut u64) -> u64 {
    let x = *state;
    let x = x ^ (x << 13);
    let x = x ^ (x >> 7);
    let x = x ^ (x << 17);
    *state = x;
    x
}

// The token of a line: its number in four digits.
fn token(line: u64) -> Token {
    let mut name = *b"T0000         ";
    name[1] = b'0' + (line / 1000 % 10) as u8;
    name[2] = b'0' + (line / 100 % 10) as u8;
    name[3] = b'0' + (line / 10 % 10) as u8;
    name[4] = b'0' + (line % 10) as u8;
    Token(name)
}

// One of five prices, from 10.00 to 10.04 dollars.
fn price(number: u64) -> u32 {
    100_000 + (number % 5) as u32 * 100
}

fn shares(number: u64) -> u32 {
    100 + (number % 4) as u32 * 100
}

// Day, at once, or five seconds.
fn life(number: u64) -> u32 {
    match number % 8 {
        0 => 0,
        1 => 5,
        _ => 99_999,
    }
}

fn entered(line: u64, number: u64) -> Inbound {
    let hidden = number % 3 != 0;
    let minimum = if hidden && number / 3 % 5 == 0 {
        100
    } else {
        0
    };
    Inbound::Enter(Enter {
        token: token(line),
        side: if number / 16 % 2 == 0 { b'B' } else { b'S' },
        shares: shares(number / 32),
        stock: Symbol(if number / 128 % 4 == 0 {
            *b"WXYZ    "
        } else {
            *b"ABCD    "
        }),
        price: price(number / 512),
        time_in_force: life(number / 4096),
        firm: Firm(*b"    "),
        display: if hidden { b'N' } else { b'Y' },
        capacity: b'O',
        intermarket_sweep: b'N',
        minimum_quantity: minimum,
        cross_type: b'N',
        customer_type: b'R',
    })
}

fn replaced(line: u64, earlier: u64, number: u64) -> Inbound {
    Inbound::Replace(Replace {
        existing_token: token(earlier),
        replacement_token: token(line),
        shares: shares(number / 32),
        price: price(number / 512),
        time_in_force: 99_999,
        display: if number % 4 == 0 { b'Y' } else { b'N' },
        intermarket_sweep: b'N',
        minimum_quantity: 0,
    })
}

// The message of a line: about half are Enters, and the others name a token of one of the twelve lines before.
fn message(line: u64, number: u64) -> Inbound {
    let earlier = line.saturating_sub(1 + number / 65_536 % 12);
    match number / 1_048_576 % 8 {
        0..5 => entered(line, number),
        5 | 6 => replaced(line, earlier, number),
        _ => Inbound::Cancel(Cancel {
            token: token(earlier),
            shares: shares(number / 32).saturating_sub(100),
        }),
    }
}

// What the operator says: a tick, that WXYZ is halted for T1, or that it trades again.
fn operator_said(number: u64) -> &'static str {
    match number {
        0 => "4b",
        1 => "485758595a202020204854312020",
        _ => "485758595a202020205454312020",
    }
}

/// The day's tape. The lines of a number between 12 and 24 are of one member, so that most messages name its own
/// tokens.
pub fn tape(rt: &impl Abort, alloc: Global) -> Vec<u8> {
    let mut text = Vec::new(alloc);
    let mut state = 88_172_645_463_325_252;
    for line in 100..2_100u64 {
        let time = line * 100_000_000;
        let number = next_number(&mut state);
        if number % 64 < 3 {
            let said = operator_said(number % 64);
            let sent = format!(in alloc; "{time} 0 {said}\n").expect(rt, "memory");
            text.extend_from_slice(sent.as_bytes()).expect(rt, "memory");
        } else {
            let member = 1 + line / 16 % 3;
            let digits = hex::encode(alloc, encode_in(&message(line, number)).as_slice()).expect(
                rt, "memory",
            );
            let sent = format!(in alloc; "{time} {member} {digits}\n").expect(rt, "memory");
            text.extend_from_slice(sent.as_bytes()).expect(rt, "memory");
        }
    }
    text
}

// What a replay writes.
fn output(rt: &impl Abort, alloc: Global, tape: &[u8]) -> Vec<u8> {
    let (output, result) = replayed(alloc, tape);
    result.expect(rt, "a replay");
    output
}

fn struck(rt: &impl Abort, alloc: Global, tape: &[u8], number: u16) -> Vec<u8> {
    let setup = standard(alloc).expect(rt, "memory");
    let member = MemberNo::of(number).expect(rt, "a number of a member");
    let mut left = Vec::new(alloc);
    let mut reader = tape;
    strike_tape(alloc, &setup, &mut reader, &mut left, member).expect(rt, "a strike");
    left
}

#[test]
fn each_members_quiet_chains_tell_nobody_else_anything(rt: HostRuntime) {
    let alloc = rt.alloc();
    let day = tape(&rt, alloc);
    let whole = output(&rt, alloc, &day);
    for (number, beginning) in [(1, b"M 1 "), (2, b"M 2 "), (3, b"M 3 ")] {
        let left = struck(&rt, alloc, &day, number);
        holds(&rt, left.len() < day.len());
        let others = lines_that(alloc, &output(&rt, alloc, &left), beginning, false).expect(
            &rt, "memory",
        );
        equal(
            &rt,
            others.as_slice(),
            lines_that(alloc, &whole, beginning, false)
                .expect(&rt, "memory")
                .as_slice(),
        );
    }
}

#[test]
fn all_quiet_chains_leave_the_feed(rt: HostRuntime) {
    let alloc = rt.alloc();
    let day = tape(&rt, alloc);
    let setup = standard(alloc).expect(&rt, "memory");
    let mut left = Vec::new(alloc);
    let mut reader = day.as_slice();
    strike_all_tape(alloc, &setup, &mut reader, &mut left).expect(&rt, "a strike");
    // More goes than of the member of whom most goes.
    for number in 1..=3 {
        holds(&rt, left.len() < struck(&rt, alloc, &day, number).len());
    }
    let feed = lines_that(alloc, &output(&rt, alloc, &left), b"F ", true).expect(&rt, "memory");
    equal(
        &rt,
        feed.as_slice(),
        lines_that(alloc, &output(&rt, alloc, &day), b"F ", true)
            .expect(&rt, "memory")
            .as_slice(),
    );
    holds(&rt, feed.len() > 10_000);
}
