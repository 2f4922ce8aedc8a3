//! The session table of an open day, and its trading status.

use super::days::standard;
use super::{equal, holds};
use hx_market::Event;
use hx_members::Setup;
use hx_serve::{ActiveSession, SessionSlots, Stage, TradingStatus};
use hx_units::{MemberNo, Symbol};
use std::alloc::Global;
use std::net::{Ipv4Addr, SocketAddr};
use std::process::Abort;

const CLOSED: &[u8] = b"session HX00000001
start closed
stock ABCD 5120000000644e435a20502020314e000000004e
stock WXYZ 5120000000644e435a20502020314e000000004e
member 1 FMA1 ALPHA PWALPHA 3000
";

fn closed<R: Abort>(rt: &R, alloc: Global) -> Setup {
    Setup::read(alloc, CLOSED).expect(rt, "a setup")
}

fn trading_status_of<R: Abort>(rt: &R, alloc: Global, setup: &Setup) -> TradingStatus {
    TradingStatus::new(alloc, setup).expect(rt, "memory")
}

fn session_slots_of<R: Abort>(rt: &R, alloc: Global, count: usize) -> SessionSlots {
    SessionSlots::new(alloc, count).expect(rt, "memory")
}

fn member<R: Abort>(rt: &R, number: u16) -> MemberNo {
    MemberNo::of(number).expect(rt, "a member")
}

fn phase(code: u8) -> Event {
    Event::Hours { time: 1, code }
}

fn halt(stock: [u8; 8], state: u8) -> Event {
    Event::Halt {
        time: 1,
        stock: Symbol(stock),
        state,
        reason: *b"T1  ",
    }
}

#[test]
fn codes_count_in_their_order(rt: HostRuntime) {
    let alloc = rt.alloc();
    let setup = closed(&rt, alloc);
    let trading_status = trading_status_of(&rt, alloc, &setup);
    equal(&rt, trading_status.phase(), None);
    equal(&rt, trading_status.stage(&setup, &phase(b'O')), Stage::Now);
    equal(
        &rt,
        trading_status.stage(&setup, &phase(b'S')),
        Stage::TooEarly,
    );
    trading_status.note(&setup, &phase(b'S'));
    equal(&rt, trading_status.phase(), None);
    for code in *b"OSQMEC" {
        trading_status.note(&setup, &phase(code));
        equal(&rt, trading_status.phase(), Some(code));
        equal(&rt, trading_status.stage(&setup, &phase(code)), Stage::Past);
    }
    equal(&rt, trading_status.past(), 6);
}

#[test]
fn a_day_that_begins_open_is_after_two_codes(rt: HostRuntime) {
    let alloc = rt.alloc();
    let setup = standard(&rt, alloc);
    let trading_status = trading_status_of(&rt, alloc, &setup);
    equal(&rt, trading_status.phase(), Some(b'S'));
    equal(&rt, trading_status.stage(&setup, &phase(b'O')), Stage::Past);
    equal(&rt, trading_status.stage(&setup, &phase(b'Q')), Stage::Now);
}

#[test]
fn one_stock_is_halted_and_trades_again(rt: HostRuntime) {
    let alloc = rt.alloc();
    let setup = closed(&rt, alloc);
    let trading_status = trading_status_of(&rt, alloc, &setup);
    let (stop, go) = (halt(*b"WXYZ    ", b'H'), halt(*b"WXYZ    ", b'T'));
    equal(&rt, trading_status.stage(&setup, &stop), Stage::Now);
    trading_status.note(&setup, &stop);
    holds(
        &rt,
        !trading_status.is_halted(0) && trading_status.is_halted(1) && !trading_status.is_halted(2),
    );
    trading_status.note(&setup, &go);
    holds(&rt, !trading_status.is_halted(1));
    equal(
        &rt,
        trading_status.stage(&setup, &halt(*b"NONE    ", b'H')),
        Stage::NoStock,
    );
    trading_status.note(&setup, &halt(*b"NONE    ", b'H'));
    holds(
        &rt,
        !trading_status.is_halted(0) && !trading_status.is_halted(1),
    );
}

#[test]
fn a_session_slot_is_taken_called_off_and_free_again(rt: HostRuntime) {
    let session_slots = session_slots_of(&rt, rt.alloc(), 3);
    let (first, second) = (member(&rt, 1), member(&rt, 4095));
    let from = SocketAddr::from((Ipv4Addr::new(127, 0, 0, 1), 9001));
    equal(&rt, (session_slots.len(), session_slots.taken(&rt)), (3, 0));
    for (session_slot, member) in [(0, first), (2, second)] {
        session_slots.occupy(&rt, session_slot, ActiveSession { member, from });
    }
    equal(&rt, session_slots.taken(&rt), 2);
    equal(&rt, session_slots.active_session(&rt, 1), None);
    equal(
        &rt,
        session_slots
            .active_session(&rt, 2)
            .map(|active_session| active_session.member),
        Some(second),
    );
    equal(&rt, session_slots.call_off(&rt, second), 1);
    holds(
        &rt,
        session_slots.is_called(2) && !session_slots.is_called(0),
    );
    holds(
        &rt,
        session_slots.vacate(&rt, 2) && !session_slots.vacate(&rt, 0),
    );
    equal(
        &rt,
        (
            session_slots.taken(&rt),
            session_slots.call_off(&rt, second),
        ),
        (0, 0),
    );
    holds(&rt, !session_slots.is_called(2) && !session_slots.is_late());
    session_slots.hurry();
    holds(&rt, session_slots.is_late());
}

#[test]
fn a_member_is_suspended_and_let_in_again(rt: HostRuntime) {
    let session_slots = session_slots_of(&rt, rt.alloc(), 1);
    let (last, other) = (member(&rt, 4095), member(&rt, 1));
    holds(&rt, session_slots.may_log_in(last));
    session_slots.permit(last, false);
    holds(
        &rt,
        !session_slots.may_log_in(last) && session_slots.may_log_in(other),
    );
    session_slots.permit(last, true);
    holds(&rt, session_slots.may_log_in(last));
}
