//! The chains of the day's members.

use super::day::{SETUP, day};
use super::equal;
use hx_audit::{Chain, chains};
use hx_market::Event;
use hx_members::{ChainFacts, Setup};
use hx_testing::lines::events_of;
use hx_testing::setups::setup_of;
use hx_units::{MemberNo, Token};
use std::alloc::Global;
use std::process::Abort;
use std::test::Fail;

// The first chains of a member. After them are those of its 1,000 orders that rest.
fn first_chains<R: Abort>(
    rt: &R,
    alloc: Global,
    setup: &Setup,
    events: &[Event],
    number: u16,
) -> Vec<Chain> {
    let member = MemberNo::of(number).expect(rt, "a number of a member");
    let mut all = chains(alloc, setup, events, member).expect(rt, "chains");
    all.truncate(all.len().saturating_sub(1_000));
    all
}

// There are `chains` chains, of `tokens` tokens each, and each has done this.
fn expect_chains<R: Abort>(
    rt: &R,
    chains: &[Chain],
    count: usize,
    tokens: usize,
    facts: ChainFacts,
) {
    equal(rt, chains.len(), count);
    for chain in chains {
        equal(rt, chain.tokens.as_slice().len(), tokens);
        equal(rt, chain.facts, facts);
    }
}

#[test]
fn chains_of_the_day(rt: HostRuntime) -> Result<(), Fail> {
    let alloc = rt.alloc();
    let setup = setup_of(alloc, SETUP)?;
    let events = events_of(alloc, &day(alloc)?.tape)?;
    let replaced = first_chains(&rt, alloc, &setup, &events, 3);
    let quiet = ChainFacts {
        executed: 0,
        displayed: false,
        traded: false,
    };
    expect_chains(&rt, &replaced, 40, 51, quiet);
    let last = replaced.last().expect(&rt, "a chain").tokens.as_slice();
    equal(&rt, last.first(), Some(&Token(*b"H40-0         ")));
    equal(&rt, last.last(), Some(&Token(*b"H40-50        ")));
    let executed = first_chains(&rt, alloc, &setup, &events, 2);
    let traded = ChainFacts {
        executed: 150,
        displayed: false,
        traded: true,
    };
    expect_chains(&rt, &executed, 20, 1, traded);
    Ok(())
}
