//! Thousands of used tokens of several members, those that count up and others, under either seed: each is found at its
//! index, and no other.

use super::{equal, holds};
use hx_members::{Seed, Tokens, prefetch_hint};
use hx_units::{MemberNo, Token};
use std::hash::RandomState;
use std::process::Abort;
use std::test::Fail;

const MEMBERS: u16 = 5;

const COUNT: u32 = 2_000;

// The position of a token's number: at its end, so that tokens count up, or in front, so that their last letters are
// all alike.
#[derive(Clone, Copy)]
enum Form {
    AtTheEnd,
    InFront,
}

// Writes a number in digits, with 0 before it.
fn write_digits(letters: &mut [u8], number: u32) {
    let mut left = number;
    for letter in letters.iter_mut().rev() {
        *letter = b'0' + (left % 10) as u8;
        left /= 10;
    }
}

// The token of fourteen digits that has a number at its end, or in its first six.
fn numbered(form: Form, number: u32) -> Token {
    let mut letters = *b"00000000000000";
    match form {
        Form::AtTheEnd => write_digits(&mut letters, number),
        Form::InFront => write_digits(&mut letters[..6], number),
    }
    Token(letters)
}

fn member_of<R: Abort>(rt: &R, number: u16) -> MemberNo {
    MemberNo::of(number).expect(rt, "a member")
}

// A token enters, with its index as the key of its order.
fn enter(tokens: &mut Tokens, member: MemberNo, token: &Token) -> Result<(), Fail> {
    if tokens.state(member, token).is_some() {
        return Err(Fail::new("used"));
    }
    let index = tokens.count();
    tokens.reserve(member, token)?;
    tokens.consume(member, token);
    tokens.settle(member, token, Some(index as usize));
    Ok(())
}

fn enter_all(tokens: &mut Tokens, member: MemberNo, form: Form) -> Result<(), Fail> {
    for number in 0..COUNT {
        enter(tokens, member, &numbered(form, number))?;
    }
    Ok(())
}

// The tokens of all members, of one member after the other.
fn fill<R: Abort>(rt: &R, tokens: &mut Tokens, form: Form) -> Result<(), Fail> {
    for number in 1..=MEMBERS {
        enter_all(tokens, member_of(rt, number), form)?;
    }
    Ok(())
}

// The tokens of a member are there from an index on, and tokens of other numbers are not used.
fn expect_tokens<R: Abort>(rt: &R, tokens: &Tokens, form: Form, number: u16, first: u64) {
    let member = member_of(rt, number);
    for number in 0..COUNT {
        let token = numbered(form, number);
        let state = tokens.state(member, &token).expect(rt, "a used token");
        let index = first.wrapping_add(u64::from(number));
        equal(rt, state.chain, index);
        equal(rt, state.key, Some(index as usize));
        let other = numbered(form, number + COUNT);
        holds(rt, tokens.state(member, &other).is_none());
    }
}

fn expect_all<R: Abort>(rt: &R, tokens: &Tokens, form: Form) {
    for number in 1..=MEMBERS {
        let first = u64::from(number - 1) * u64::from(COUNT);
        expect_tokens(rt, tokens, form, number, first);
    }
    let stranger = member_of(rt, MEMBERS + 1);
    let token = numbered(form, 1);
    holds(rt, tokens.state(stranger, &token).is_none());
}

// The tokens of all members are used, and found.
fn expect_filled<R: Abort>(rt: &R, tokens: &mut Tokens, form: Form) -> Result<(), Fail> {
    fill(rt, tokens, form)?;
    expect_all(rt, tokens, form);
    Ok(())
}

#[test]
fn tokens_that_count_up_are_found(rt: HostRuntime) -> Result<(), Fail> {
    let mut tokens = Tokens::new(rt.alloc());
    expect_filled(&rt, &mut tokens, Form::AtTheEnd)
}

#[test]
fn other_tokens_are_found_under_the_fixed_seed(rt: HostRuntime) -> Result<(), Fail> {
    let mut tokens = Tokens::new(rt.alloc());
    expect_filled(&rt, &mut tokens, Form::InFront)
}

#[test]
fn other_tokens_are_found_under_a_drawn_seed(rt: HostRuntime) -> Result<(), Fail> {
    let seed = Seed::Drawn(RandomState::new(&rt).expect(&rt, "a seed"));
    let mut tokens = Tokens::seeded(rt.alloc(), seed);
    expect_filled(&rt, &mut tokens, Form::InFront)
}

// How many tokens of a member lead to their keys by their cells alone.
fn count_likely<R: Abort>(rt: &R, tokens: &Tokens, member: MemberNo) -> u32 {
    let mut found: u32 = 0;
    for number in 0..COUNT {
        let token = numbered(Form::AtTheEnd, number);
        let state = tokens.state(member, &token).expect(rt, "a used token");
        let [key, ..] = tokens.prefetched_keys(&[prefetch_hint(member, &token)]);
        if state.key == Some(key) {
            found = found.wrapping_add(1);
        }
    }
    found
}

#[test]
fn most_keys_are_likely_ones(rt: HostRuntime) -> Result<(), Fail> {
    let mut tokens = Tokens::new(rt.alloc());
    fill(&rt, &mut tokens, Form::AtTheEnd)?;
    let found = count_likely(&rt, &tokens, member_of(&rt, 1));
    holds(&rt, found > COUNT / 2);
    let none = Tokens::new(rt.alloc());
    let [first, .., last] = none.prefetched_keys(&[]);
    equal(&rt, first, usize::MAX);
    equal(&rt, last, usize::MAX);
    Ok(())
}
