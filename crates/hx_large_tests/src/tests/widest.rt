//! A day of 1,000 stocks and 4,095 members: orders of the last member in the last stock.

use super::equal;
use super::replaying::{expect_day, expect_day_on_list};
use super::script::Script;
use hx_replay::Counts;
use hx_testing::Day;
use hx_testing::setups::{setup_of, widest};
use std::alloc::Global;
use std::test::Fail;

const STOCKS: u16 = 1_000;

const MEMBERS: u16 = 4_095;

// Code O, by which each stock is named.
fn name_stocks(script: &mut Script) {
    script.send(0, "hours O");
    script.publish("system O");
    for stock in 1..=STOCKS {
        script.publish(format_args!("directory S{stock}"));
    }
}

// Code S or E, which goes to each member.
fn tell_members(script: &mut Script, code: &str) {
    script.send(0, format_args!("hours {code}"));
    script.publish(format_args!("system {code}"));
    for member in 1..=MEMBERS {
        script.reply(usize::from(member), format_args!("system {code}"));
    }
}

// Two orders of the last member, which the first member's order trades with: the displayed one first.
fn trade(script: &mut Script) {
    script.send(4095, "enter T1 buy 100 S1000 10.0000 day shown firm FMA1");
    script.publish("add 1 buy 100 S1000 10.0000");
    script.reply(4095, "accepted 1");
    script.send(4095, "enter H1 buy 100 S1000 10.0000 day hidden firm FMA1");
    script.reply(4095, "accepted 4095.1");
    script.send(1, "enter A1 sell 140 S1000 10.0000 now hidden");
    script.publish("executed 1 100 match 1 S1000");
    script.publish("trade 40 S1000 10.0000 match 2");
    script.reply(1, "accepted 1.1");
    script.reply(4095, "executed T1 100 10.0000 added match 1");
    script.reply(1, "executed A1 100 10.0000 removed match 1");
    script.reply(4095, "executed H1 40 10.0000 hidden match 2");
    script.reply(1, "executed A1 40 10.0000 removed match 2");
}

// A code of the hours that only the feed reports.
fn publish_code(script: &mut Script, code: &str) {
    script.send(0, format_args!("hours {code}"));
    script.publish(format_args!("system {code}"));
}

fn day(alloc: Global) -> Result<Day, Fail> {
    let mut script = Script::new(alloc, MEMBERS)?;
    name_stocks(&mut script);
    tell_members(&mut script, "S");
    trade(&mut script);
    publish_code(&mut script, "Q");
    publish_code(&mut script, "M");
    tell_members(&mut script, "E");
    script.reply(4095, "canceled H1 60 timeout");
    publish_code(&mut script, "C");
    script.day()
}

#[test]
fn the_last_member_in_the_last_stock(rt: HostRuntime) -> Result<(), Fail> {
    let text = widest(rt.alloc()).expect(&rt, "a setup");
    let setup = setup_of(rt.alloc(), &text)?;
    let day = day(rt.alloc())?;
    let want = Counts {
        events: 9,
        // 1,000 stocks, six codes, and the trades' three.
        feed: 1_000 + 6 + 3,
        // Two codes to each member, and the trades' eight.
        replies: 2 * 4_095 + 8,
    };
    equal(&rt, expect_day(&rt, &setup, &day), want);
    equal(&rt, expect_day_on_list(&rt, &setup, &day), want);
    Ok(())
}
