//! The chains of a member.

use super::super::equal;
use super::with_second;
use hx_audit::{Chain, StrikeError, chains};
use hx_market::{Event, PrepareError};
use hx_members::{ChainFacts, Setup};
use hx_testing::Day;
use hx_testing::lines::events_of;
use hx_testing::worked::{CHAIN_THAT_TRADED, FAILED_REPLACE};
use hx_units::{MemberNo, Token};
use std::alloc::Global;
use std::process::Abort;
use std::test::Fail;

// The chains of a member after a day, by the standard setup.
fn chains_after(
    rt: &impl Abort,
    alloc: Global,
    words: &str,
    member: u16,
) -> Result<Vec<Chain>, Fail> {
    let setup = Setup::standard(alloc).expect(rt, "memory");
    let events = events_of(alloc, &Day::of(alloc, words)?.tape)?;
    let member = MemberNo::of(member).expect(rt, "a number of a member");
    Ok(chains(alloc, &setup, &events, member).expect(rt, "chains"))
}

// Why these events are not audited.
fn refused(rt: &impl Abort, alloc: Global, events: &[Event]) -> StrikeError {
    let setup = Setup::standard(alloc).expect(rt, "memory");
    let member = MemberNo::of(1).expect(rt, "a number of a member");
    match chains(alloc, &setup, events, member) {
        Ok(_) => panic!(rt; "all events are accepted"),
        Err(error) => error,
    }
}

// The one chain of a member after a day.
fn expect_chain<R: AllocGlobal + Abort>(
    rt: &R,
    words: &str,
    member: u16,
    tokens: &[Token],
    facts: ChainFacts,
) -> Result<(), Fail> {
    let mut chains = chains_after(rt, rt.alloc(), words, member)?;
    equal(rt, chains.len(), 1);
    let chain = chains.pop().expect(rt, "a chain");
    equal(rt, chain.tokens.as_slice(), tokens);
    equal(rt, chain.facts, facts);
    equal(rt, chain.tokens.into_vec().len(), tokens.len());
    Ok(())
}

#[test]
fn a_chain_holds_all_its_tokens(rt: HostRuntime) -> Result<(), Fail> {
    let tokens = [
        Token(*b"H1            "),
        Token(*b"H2            "),
        Token(*b"H3            "),
        Token(*b"H4            "),
        Token(*b"H5            "),
    ];
    let facts = ChainFacts {
        executed: 1,
        displayed: false,
        traded: true,
    };
    expect_chain(&rt, CHAIN_THAT_TRADED, 1, &tokens, facts)?;
    expect_chain(
        &rt,
        CHAIN_THAT_TRADED,
        2,
        &[Token(*b"S1            ")],
        facts,
    )
}

#[test]
fn a_failed_replace_keeps_its_token(rt: HostRuntime) -> Result<(), Fail> {
    let tokens = [Token(*b"T1            "), Token(*b"T2            ")];
    let facts = ChainFacts {
        executed: 0,
        displayed: true,
        traded: false,
    };
    expect_chain(&rt, FAILED_REPLACE, 1, &tokens, facts)
}

#[test]
fn a_stranger_has_no_chains(rt: HostRuntime) -> Result<(), Fail> {
    let none = chains_after(&rt, rt.alloc(), CHAIN_THAT_TRADED, 77)?;
    equal(&rt, none.len(), 0);
    Ok(())
}

#[test]
fn a_refusal_tells_its_event(rt: HostRuntime) -> Result<(), Fail> {
    let events = with_second(&rt, rt.alloc(), 86_400_000_000_000, 1)?;
    let error = refused(&rt, rt.alloc(), &events);
    let late = StrikeError::Refused {
        index: 1,
        error: PrepareError::BadTime,
    };
    equal(&rt, error, late);
    Ok(())
}
