//! Setups and used tokens.

mod texts;

use super::{equal, holds};
use hx_members::{ChainFacts, Setup, SetupError, TokenState, Tokens};
use hx_units::{Firm, MemberNo, NoMemory, Symbol, Token};
use std::alloc::{AllocError, Global};
use std::process::Abort;
use std::test::Fail;

// Each function is proved for itself, over any setup and any tokens. No contract says what made them, so that proofs do
// not compute with it.

fn number<R: Abort>(rt: &R, number: u16) -> MemberNo {
    let Some(number) = MemberNo::of(number) else {
        panic!(rt; "no member");
    };
    number
}

fn standard(rt: &impl Abort, alloc: Global) -> Setup {
    Setup::standard(alloc).expect(rt, "memory")
}

fn copied(rt: &impl Abort, alloc: Global) -> Setup {
    standard(rt, alloc).copy(alloc).expect(rt, "memory")
}

fn expect_day<R: Abort>(rt: &R, setup: &Setup) {
    equal(rt, setup.session(), b"HX00000001");
    holds(rt, setup.start_open());
    equal(rt, setup.stocks().len(), 2);
    equal(rt, setup.members().len(), 3);
}

fn expect_locates<R: Abort>(rt: &R, setup: &Setup) {
    equal(rt, setup.locate(Symbol(*b"WXYZ    ")), Some(2));
    equal(rt, setup.locate(Symbol(*b"WXY     ")), None);
}

fn expect_stocks<R: Abort>(rt: &R, setup: &Setup) {
    let Some(stock) = setup.stock(1) else {
        panic!(rt; "no stock");
    };
    equal(rt, stock.symbol, Symbol(*b"ABCD    "));
    equal(rt, stock.tail[5], 0x64);
    holds(rt, setup.stock(0).is_none());
    holds(rt, setup.stock(3).is_none());
}

fn expect_members<R: Abort>(rt: &R, setup: &Setup) {
    let Some(member) = setup.member(number(rt, 3)) else {
        panic!(rt; "no member");
    };
    equal(rt, member.firm, Firm(*b"FMC3"));
    equal(rt, member.limit, 1000);
    holds(rt, setup.member(number(rt, 4)).is_none());
}

#[test]
fn standard_setup(rt: HostRuntime) {
    let setup = standard(&rt, rt.alloc());
    expect_day(&rt, &setup);
    expect_locates(&rt, &setup);
    expect_stocks(&rt, &setup);
    expect_members(&rt, &setup);
}

fn expect_login<R: Abort>(rt: &R, setup: &Setup, user: &[u8; 6], password: &[u8; 10]) {
    equal(rt, setup.login(user, password), Some(number(rt, 2)));
}

fn expect_no_login<R: Abort>(rt: &R, setup: &Setup, user: &[u8; 6], password: &[u8; 10]) {
    equal(rt, setup.login(user, password), None);
}

#[test]
fn logins(rt: HostRuntime) {
    let setup = standard(&rt, rt.alloc());
    expect_login(&rt, &setup, b"BRAVO ", b"PWBRAVO   ");
    expect_no_login(&rt, &setup, b"BRAVO ", b"PWALPHA   ");
}

#[test]
fn logins_of_a_copy(rt: HostRuntime) {
    let copy = copied(&rt, rt.alloc());
    expect_login(&rt, &copy, b"bravo ", b"pwBravo   ");
    expect_no_login(&rt, &copy, b" BRAVO", b"PWBRAVO   ");
}

// A token enters, executes shares, and its order lives.
fn entered(alloc: Global, member: MemberNo, first: &Token) -> Result<Tokens, Fail> {
    let mut tokens = Tokens::new(alloc);
    tokens.reserve(member, first)?;
    tokens.consume(member, first);
    tokens.note(0, 100, true);
    tokens.settle(member, first, Some(7));
    Ok(tokens)
}

// A token joins the chain of another.
fn join(tokens: &mut Tokens, member: MemberNo, first: &Token, second: &Token) -> Result<(), Fail> {
    let Some(state) = tokens.state(member, first) else {
        return Err(Fail::new("unused"));
    };
    if tokens.state(member, second).is_some() {
        return Err(Fail::new("used"));
    }
    tokens.reserve(member, second)?;
    tokens.join_chain(member, second, state.chain);
    Ok(())
}

fn state_of(rt: &impl Abort, tokens: &Tokens, member: MemberNo, token: &Token) -> TokenState {
    tokens
        .state(member, token)
        .expect(rt, "a token that is used")
}

fn expect_facts<R: Abort>(rt: &R, state: TokenState, key: Option<usize>) {
    let facts = ChainFacts {
        executed: 100,
        displayed: true,
        traded: true,
    };
    let chain = 0;
    equal(rt, state, TokenState { chain, facts, key });
}

#[test]
fn no_token_is_used(rt: HostRuntime) {
    let tokens = Tokens::new(rt.alloc());
    holds(
        &rt,
        tokens
            .state(number(&rt, 1), &Token(*b"FIRST         "))
            .is_none(),
    );
}

#[test]
fn a_chain_of_two_tokens(rt: HostRuntime) -> Result<(), Fail> {
    let member = number(&rt, 1);
    let first = Token(*b"FIRST         ");
    let second = Token(*b"SECOND        ");
    let mut tokens = entered(rt.alloc(), member, &first)?;
    join(&mut tokens, member, &first, &second)?;
    equal(&rt, tokens.count(), 2);
    expect_facts(&rt, state_of(&rt, &tokens, member, &first), Some(7));
    expect_facts(&rt, state_of(&rt, &tokens, member, &second), None);
    Ok(())
}
