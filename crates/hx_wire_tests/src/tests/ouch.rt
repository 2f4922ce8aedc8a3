//! The messages of worked histories, as the exchange and its members exchange them.
use super::equal;
use arrayvec::ArrayVec;
use hx_ouch::{
    Accepted, BrokenTrade, Cancel, Canceled, Enter, Executed, Inbound, Outbound, Rejected, Replace,
    Replaced, SystemEvent, decode_in, decode_out, encode_in, encode_out,
};
use hx_units::{Firm, Symbol, Token};
use std::process::Abort;

// The stock of these histories.
const ABCD: Symbol = Symbol(*b"ABCD    ");

// No firm: the member's own is meant.
const BLANK: Firm = Firm(*b"    ");

// A token of two letters, filled with spaces.
fn token(name: [u8; 2]) -> Token {
    let [first, second] = name;
    let mut bytes = [b' '; 14];
    bytes[0] = first;
    bytes[1] = second;
    Token(bytes)
}

// The bytes with one more at the end.
fn longer(bytes: &[u8]) -> ArrayVec<u8, 81> {
    let mut more = ArrayVec::new();
    let _ = more.try_extend_from_slice(bytes);
    let _ = more.try_push(b' ');
    more
}

// The bytes are this message of a member, and those of one byte less or more are none.
fn is_inbound(rt: &impl Abort, bytes: &[u8], message: Inbound) {
    equal(rt, decode_in(bytes), Some(message));
    equal(rt, encode_in(&message).as_slice(), bytes);
    equal(rt, decode_in(longer(bytes).as_slice()), None);
    if let Some((_, shorter)) = bytes.split_last() {
        equal(rt, decode_in(shorter), None);
    }
}

// The bytes are this reply, and those of one byte less or more are none.
fn is_outbound(rt: &impl Abort, bytes: &[u8], message: Outbound) {
    equal(rt, decode_out(bytes), Some(message));
    equal(rt, encode_out(&message).as_slice(), bytes);
    equal(rt, decode_out(longer(bytes).as_slice()), None);
    if let Some((_, shorter)) = bytes.split_last() {
        equal(rt, decode_out(shorter), None);
    }
}

// A displayed buy, and a sell that is immediate or cancel.
#[test]
fn enter_order(rt: HostRuntime) {
    let bytes = b"OT1            B\x00\x00\x00dABCD    \x00\x01\x86\xa0\x00\x01\x86\x9f    \
         YON\x00\x00\x00\x00NR";
    let message = Enter {
        token: token(*b"T1"),
        side: b'B',
        shares: 100,
        stock: ABCD,
        price: 100_000,
        time_in_force: 99_999,
        firm: BLANK,
        display: b'Y',
        capacity: b'O',
        intermarket_sweep: b'N',
        minimum_quantity: 0,
        cross_type: b'N',
        customer_type: b'R',
    };
    is_inbound(&rt, bytes, Inbound::Enter(message));

    let bytes = b"OS1            S\x00\x00\x00\x1eABCD    \x00\x01\x86\xa0\x00\x00\x00\x00    \
         NON\x00\x00\x00\x00NR";
    let message = Enter {
        token: token(*b"S1"),
        side: b'S',
        shares: 30,
        stock: ABCD,
        price: 100_000,
        time_in_force: 0,
        firm: BLANK,
        display: b'N',
        capacity: b'O',
        intermarket_sweep: b'N',
        minimum_quantity: 0,
        cross_type: b'N',
        customer_type: b'R',
    };
    is_inbound(&rt, bytes, Inbound::Enter(message));
}

// An order is replaced by one that is not displayed; and cancelled but for 99 shares.
#[test]
fn replace_and_cancel_order(rt: HostRuntime) {
    let bytes = b"UT1            T2            \
         \x00\x00\x00d\x00\x01\x86\xa0\x00\x01\x86\x9fNN\x00\x00\x00\x00";
    let message = Replace {
        existing_token: token(*b"T1"),
        replacement_token: token(*b"T2"),
        shares: 100,
        price: 100_000,
        time_in_force: 99_999,
        display: b'N',
        intermarket_sweep: b'N',
        minimum_quantity: 0,
    };
    is_inbound(&rt, bytes, Inbound::Replace(message));

    let bytes = b"XT1            \x00\x00\x00c";
    let message = Cancel {
        token: token(*b"T1"),
        shares: 99,
    };
    is_inbound(&rt, bytes, Inbound::Cancel(message));
}

// A displayed order is accepted; a hidden one replaces it, with the first number of its own.
#[test]
fn accepted_and_replaced(rt: HostRuntime) {
    let bytes = b"A\x00\x00\x00\x00\x00\x00\x03\xe8T1            B\x00\x00\x00dABCD    \
         \x00\x01\x86\xa0\x00\x01\x86\x9fFMA1Y\x00\x00\x00\x00\x00\x00\x00\x01ON\x00\x00\x00\
         \x00NL ";
    let message = Accepted {
        time: 1_000,
        token: token(*b"T1"),
        side: b'B',
        shares: 100,
        stock: ABCD,
        price: 100_000,
        time_in_force: 99_999,
        firm: Firm(*b"FMA1"),
        display: b'Y',
        reference: 1,
        capacity: b'O',
        intermarket_sweep: b'N',
        minimum_quantity: 0,
        cross_type: b'N',
        order_state: b'L',
        bbo_weight: b' ',
    };
    is_outbound(&rt, bytes, Outbound::Accepted(message));

    let bytes = b"U\x00\x00\x00\x00\x00\x00\x00\x14T2            B\x00\x00\x00dABCD    \
         \x00\x01\x86\xa0\x00\x01\x86\x9fFMA1N\x80\x00\x01\x00\x00\x00\x00\x01ON\x00\x00\x00\
         \x00NLT1             ";
    let message = Replaced {
        time: 20,
        replacement_token: token(*b"T2"),
        side: b'B',
        shares: 100,
        stock: ABCD,
        price: 100_000,
        time_in_force: 99_999,
        firm: Firm(*b"FMA1"),
        display: b'N',
        reference: 9_223_373_136_366_403_585,
        capacity: b'O',
        intermarket_sweep: b'N',
        minimum_quantity: 0,
        cross_type: b'N',
        order_state: b'L',
        previous_token: token(*b"T1"),
        bbo_weight: b' ',
    };
    is_outbound(&rt, bytes, Outbound::Replaced(message));
}

// Shares are taken off, shares are added to the book and removed from it, and an order comes before the hours.
#[test]
fn canceled_executed_and_rejected(rt: HostRuntime) {
    let bytes = b"C\x00\x00\x00\x00\x00\x00\x00(T1            \x00\x00\x00\x01U";
    let message = Canceled {
        time: 40,
        token: token(*b"T1"),
        shares: 1,
        reason: b'U',
    };
    is_outbound(&rt, bytes, Outbound::Canceled(message));

    let bytes = b"E\x00\x00\x00\x00\x00\x00\x00\x14T1            \
         \x00\x00\x00\x1e\x00\x01\x86\xa0A\x00\x00\x00\x00\x00\x00\x00\x01";
    let message = Executed {
        time: 20,
        token: token(*b"T1"),
        shares: 30,
        price: 100_000,
        liquidity_flag: b'A',
        match_number: 1,
    };
    is_outbound(&rt, bytes, Outbound::Executed(message));

    let bytes = b"E\x00\x00\x00\x00\x00\x00\x00\x1eS1            \
         \x00\x00\x00d\x00\x01\x86\xa0R\x00\x00\x00\x00\x00\x00\x00\x02";
    let message = Executed {
        time: 30,
        token: token(*b"S1"),
        shares: 100,
        price: 100_000,
        liquidity_flag: b'R',
        match_number: 2,
    };
    is_outbound(&rt, bytes, Outbound::Executed(message));

    let bytes = b"J\x00\x00\x00\x00\x00\x00\x00\x02T0            C";
    let message = Rejected {
        time: 2,
        token: token(*b"T0"),
        reason: b'C',
    };
    is_outbound(&rt, bytes, Outbound::Rejected(message));
}

// An execution is broken.
#[test]
fn broken_trade(rt: HostRuntime) {
    let bytes = b"B\x00\x00\x00\x00\x00\x00\x00ZT1            \x00\x00\x00\x00\x00\x00\x00\x01S";
    let message = BrokenTrade {
        time: 90,
        token: token(*b"T1"),
        match_number: 1,
        reason: b'S',
    };
    is_outbound(&rt, bytes, Outbound::BrokenTrade(message));
}

// The day starts, and ends.
#[test]
fn system_event(rt: HostRuntime) {
    let bytes = b"S\x00\x00\x00\x00\x00\x00\x00\x03S";
    let message = SystemEvent {
        time: 3,
        event_code: b'S',
    };
    is_outbound(&rt, bytes, Outbound::SystemEvent(message));

    let bytes = b"S\x00\x00\x00\x00\x00\x00\x00\x0aE";
    let message = SystemEvent {
        time: 10,
        event_code: b'E',
    };
    is_outbound(&rt, bytes, Outbound::SystemEvent(message));
}
