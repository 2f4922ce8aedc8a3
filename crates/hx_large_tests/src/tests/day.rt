//! A day of 20,000 lines, made so that its output can be found by counting.
//!
//! Six members trade three stocks. 20 orders are executed 150 times each; 40 hidden and 10 displayed orders are replaced 50
//! times each; 2,000 orders are rejected; 100 messages have 1,023 bytes; 7,276 cancels name no order; 5,000 displayed
//! orders rest at once, until the system hours end.

use super::script::Script;
use hx_testing::Day;
use std::alloc::{AllocError, Global};
use std::test::Fail;

/// The text of its setup.
pub const SETUP: &[u8] = b"session HX00000009
start open
stock S1 5120000000644e435a20502020314e000000004e
stock S2 5120000000644e435a20502020314e000000004e
stock S3 5120000000644e435a20502020314e000000004e
member 1 FMA1 U1 P 100000
member 2 FMB2 U2 P 100000
member 3 FMC3 U3 P 100000
member 4 FMC3 U4 P 100000
member 5 FMC3 U5 P 100000
member 6 FMC3 U6 P 100000
";

// Orders that are executed.
const SWEEPS: u64 = 20;

// Executions of each.
const EXECUTIONS: u64 = 150;

// Orders that are replaced, and how often each is.
const HIDDEN_CHAINS: u64 = 40;

const DISPLAYED_CHAINS: u64 = 10;

const REPLACES: u64 = 50;

const REJECTED: u64 = 2_000;

const LONG_MESSAGES: u64 = 100;

const VAIN_CANCELS: u64 = 7_276;

const RESTING: u64 = 5_000;

/// The day.
pub fn day(alloc: Global) -> Result<Day, Fail> {
    let mut script = Script::new(alloc, 6)?;
    sweep_all(&mut script);
    hide_chains(&mut script);
    reject_orders(&mut script);
    display_chains(&mut script);
    send_long_messages(alloc, &mut script)?;
    cancel_in_vain(&mut script);
    let before = script.references;
    rest(&mut script);
    end(&mut script, before);
    script.day()
}

/// How many lines stand before those of the quiet chains, which stand together: the offers, and the orders that sweep
/// them.
pub const BEFORE_QUIET: u64 = SWEEPS * (EXECUTIONS + 1);

/// How many lines the hidden chains of the third member have: an order each, its replaces, and its cancel.
pub const QUIET_OF_THIRD: u64 = HIDDEN_CHAINS * (REPLACES + 2);

/// How many lines the quiet chains of all have: after those come the rejected orders of the sixth member.
pub const QUIET_OF_ALL: u64 = QUIET_OF_THIRD + REJECTED;

fn sweep_all(script: &mut Script) {
    for round in 1..=SWEEPS {
        sweep(script, round);
    }
}

// The first member offers single shares, displayed in every second round, and the second member buys them all at once.
fn sweep(script: &mut Script, round: u64) {
    let stock = 1 + round % 3;
    let before = script.references;
    for number in 0..EXECUTIONS {
        offer(script, round, number);
    }
    script.send(
        2,
        format_args!("enter B{round} buy {EXECUTIONS} S{stock} 11.0400 now hidden"),
    );
    execute(script, round, before);
    script.reply(2, format_args!("accepted 2.{round}"));
    tell(script, round);
}

// The price of an offer in cents above 11 dollars: 30 stand at each, the later ones at the higher one.
fn cents(number: u64) -> u64 {
    number / 30
}

fn offer(script: &mut Script, round: u64, number: u64) {
    let (stock, cents) = (1 + round % 3, cents(number));
    if round % 2 == 0 {
        let private = script.private(1);
        script.send(
            1,
            format_args!("enter A{round}-{number} sell 1 S{stock} 11.0{cents}00 day hidden"),
        );
        script.reply(1, format_args!("accepted 1.{private}"));
        return;
    }
    let reference = script.reference();
    script.send(
        1,
        format_args!("enter A{round}-{number} sell 1 S{stock} 11.0{cents}00 day shown"),
    );
    script.publish(format_args!("add {reference} sell 1 S{stock} 11.0{cents}00"));
    script.reply(1, format_args!("accepted {reference}"));
}

// The executions of a round in the feed. Its offers, if they are displayed, drew the references after this one.
fn execute(script: &mut Script, round: u64, before: u64) {
    let stock = 1 + round % 3;
    for number in 0..EXECUTIONS {
        let matched = script.matches.saturating_add(number + 1);
        if round % 2 == 0 {
            let cents = cents(number);
            script.publish(format_args!("trade 1 S{stock} 11.0{cents}00 match {matched}"));
        } else {
            let reference = before.saturating_add(number + 1);
            script.publish(format_args!("executed {reference} 1 match {matched} S{stock}"));
        }
    }
}

// The executions of a round in the replies to both.
fn tell(script: &mut Script, round: u64) {
    let flag = if round % 2 == 0 { "hidden" } else { "added" };
    for number in 0..EXECUTIONS {
        let cents = cents(number);
        script.matches = script.matches.saturating_add(1);
        let matched = script.matches;
        script.reply(
            1,
            format_args!("executed A{round}-{number} 1 11.0{cents}00 {flag} match {matched}"),
        );
        script.reply(
            2,
            format_args!("executed B{round} 1 11.0{cents}00 removed match {matched}"),
        );
    }
}

fn hide_chains(script: &mut Script) {
    for chain in 1..=HIDDEN_CHAINS {
        hide_chain(script, chain);
    }
}

// A hidden order of the third member, its replaces, and its cancel.
fn hide_chain(script: &mut Script, chain: u64) {
    let private = script.private(3);
    script.send(
        3,
        format_args!("enter H{chain}-0 sell 100 S3 12.0000 day hidden"),
    );
    script.reply(3, format_args!("accepted 3.{private}"));
    for old in 0..REPLACES {
        let new = old + 1;
        let private = script.private(3);
        script.send(
            3,
            format_args!("replace H{chain}-{old} H{chain}-{new} 100 12.0000 day hidden"),
        );
        script.reply(3, format_args!("replaced sell 100 3.{private} stock S3"));
    }
    script.send(3, format_args!("cancel H{chain}-{REPLACES} 0"));
    script.reply(3, format_args!("canceled H{chain}-{REPLACES} 100 user"));
}

fn display_chains(script: &mut Script) {
    for chain in 1..=DISPLAYED_CHAINS {
        display_chain(script, chain);
    }
}

// A displayed order of the fourth member, its replaces, and its cancel.
fn display_chain(script: &mut Script, chain: u64) {
    let mut reference = script.reference();
    script.send(
        4,
        format_args!("enter D{chain}-0 sell 100 S2 12.0000 day shown"),
    );
    script.publish(format_args!("add {reference} sell 100 S2 12.0000"));
    script.reply(4, format_args!("accepted {reference}"));
    for old in 0..REPLACES {
        let new = old + 1;
        let earlier = reference;
        reference = script.reference();
        script.send(
            4,
            format_args!("replace D{chain}-{old} D{chain}-{new} 100 12.0000 day shown"),
        );
        script.publish(format_args!("replace {earlier} {reference} 100 12.0000 S2"));
        script.reply(4, format_args!("replaced sell 100 {reference} stock S2"));
    }
    script.send(4, format_args!("cancel D{chain}-{REPLACES} 0"));
    script.publish(format_args!("delete {reference} S2"));
    script.reply(4, format_args!("canceled D{chain}-{REPLACES} 100 user"));
}

// Messages of the fifth member of the largest length. An Enter has 49 bytes, so these are none, and have no output.
fn send_long_messages(alloc: Global, script: &mut Script) -> Result<(), AllocError> {
    let digits = hex::encode(alloc, &[b'O'; 1_023])?;
    for _ in 0..LONG_MESSAGES {
        script.send(5, format_args!("bytes {digits}"));
    }
    Ok(())
}

// Orders of the sixth member for no share.
fn reject_orders(script: &mut Script) {
    for number in 1..=REJECTED {
        script.send(
            6,
            format_args!("enter Z{number} buy 0 S1 10.0000 day shown"),
        );
        script.reply(6, "rejected Z");
    }
}

// Cancels of the fifth member, which uses no such token.
fn cancel_in_vain(script: &mut Script) {
    for number in 1..=VAIN_CANCELS {
        script.send(5, format_args!("cancel N{number} 0"));
    }
}

// Whose an order that rests is, members 1 to 5 in turn, and of which stock.
fn owner(number: u64) -> (usize, u64) {
    ((1 + number % 5) as usize, 1 + number % 3)
}

// The orders that rest, of one share each, at 50 prices.
fn rest(script: &mut Script) {
    for number in 1..=RESTING {
        let (member, stock) = owner(number);
        let cents = 10 + number % 50;
        let reference = script.reference();
        script.send(
            member,
            format_args!("enter R{number} buy 1 S{stock} 10.{cents}00 day shown"),
        );
        script.publish(format_args!("add {reference} buy 1 S{stock} 10.{cents}00"));
        script.reply(member, format_args!("accepted {reference}"));
    }
}

// The codes of the hours.
fn end(script: &mut Script, before: u64) {
    for code in ["Q", "M", "E"] {
        script.send(0, format_args!("hours {code}"));
        script.publish(format_args!("system {code}"));
    }
    cancel_all(script, before);
    script.send(0, "hours C");
    script.publish("system C");
}

// By code E each order that rests is canceled. They drew the references after this one.
fn cancel_all(script: &mut Script, before: u64) {
    for number in 1..=RESTING {
        let (_, stock) = owner(number);
        let reference = before.saturating_add(number);
        script.publish(format_args!("delete {reference} S{stock}"));
    }
    for member in 1..=6 {
        script.reply(member, "system E");
    }
    for number in 1..=RESTING {
        let (member, _) = owner(number);
        script.reply(member, format_args!("canceled R{number} 1 timeout"));
    }
}
