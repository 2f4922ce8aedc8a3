//! What a report says of worked days.
ghost use Rattle.std.specs.Prelude.{◌≡◌};

mod texts;

use crate::tests::{equal, holds};
use hx_replay::{Kind, TapeError};
use hx_report::{
    Day, Document, Progress, Report, Tally, audit, write_html, write_json, write_plain,
};
use hx_testing::setups::standard;
use hx_testing::{Day as Worked, worked};
use std::alloc::Global;
use std::process::Abort;
use std::test::Fail;
use std::thread::Threads;

// Counts the reports of progress.
#[derive(Drop)]
struct EventOutput {
    times: u64,
    done: usize,
}

impl Progress for EventOutput {
    fn tell(&mut self, done: usize, _of: usize) {
        self.times = self.times.saturating_add(1);
        self.done = done;
    }
}

// The report of a worked day over the standard setup, of three members.
fn report_of<R: AllocGlobal + Threads + Sync + Abort>(rt: &R, words: &str) -> Result<Report, Fail> {
    let alloc = rt.alloc();
    let Worked { tape, .. } = Worked::of(alloc, words)?;
    let day = Day::of(alloc, &standard(alloc).expect(rt, "memory"), tape).expect(rt, "a day");
    let mut outputs = EventOutput { times: 0, done: 0 };
    Ok(audit(rt, alloc, &day, &mut outputs).expect(rt, "memory"))
}

// A member's numbers: messages, chains, quiet ones, shares that rested hidden, trades.
fn tally(messages: u64, chains: u64, quiet: u64, rested: u64, trades: u64) -> Tally {
    Tally {
        messages,
        chains,
        quiet,
        rested,
        trades,
    }
}

// What a report says of three members, and how many lines are struck of each and of all.
fn expect<R: AllocGlobal + Threads + Sync + Abort>(
    rt: &R,
    words: &str,
    tallies: [Tally; 3],
    struck: [u64; 4],
) -> Result<(), Fail> {
    let report = report_of(rt, words)?;
    count(rt, report.rows.len(), 3);
    for index in 0..3 {
        let row = &report.rows[index];
        equal(rt, usize::from(row.member.get()), index + 1);
        equal(rt, row.tally, tallies[index]);
        equal(rt, row.check.struck, struck[index]);
        holds(rt, row.check.comparison.same);
        equal(rt, row.check.comparison.day, row.check.comparison.struck);
    }
    equal(rt, report.all.struck, struck[3]);
    holds(rt, report.all.comparison.same);
    Ok(())
}

// A hidden order that rests, and a displayed one.
#[test]
fn a_quiet_order(rt: HostRuntime) -> Result<(), Fail> {
    expect(
        &rt,
        worked::HIDDEN_THEN_DISPLAYED,
        [
            tally(1, 1, 1, 100, 0),
            tally(1, 1, 0, 0, 0),
            tally(0, 0, 0, 0, 0),
        ],
        [1, 0, 0, 1],
    )
}

// Hidden orders that trade are not quiet, and an immediate one does not rest.
#[test]
fn hidden_orders_that_trade(rt: HostRuntime) -> Result<(), Fail> {
    expect(
        &rt,
        worked::HIDDEN_EXECUTIONS_ON_BOTH_SIDES,
        [
            tally(2, 2, 0, 150, 2),
            tally(2, 2, 0, 0, 2),
            tally(0, 0, 0, 0, 0),
        ],
        [0, 0, 0, 0],
    )
}

// An order that is passed over for its minimum is quiet; one that is executed at once does not rest.
#[test]
fn an_order_that_is_passed_over(rt: HostRuntime) -> Result<(), Fail> {
    expect(
        &rt,
        worked::MINIMUM_PASSED_OVER,
        [
            tally(1, 1, 1, 200, 0),
            tally(1, 1, 0, 500, 1),
            tally(1, 1, 0, 0, 1),
        ],
        [1, 0, 0, 1],
    )
}

// Each Replace that rests hidden counts its shares again, and a failed one makes no new chain.
#[test]
fn replaces_and_a_quiet_chain(rt: HostRuntime) -> Result<(), Fail> {
    expect(
        &rt,
        worked::REPLACES_OF_LIFE_AND_MINIMUM,
        [
            tally(6, 2, 1, 220, 2),
            tally(2, 2, 0, 50, 2),
            tally(0, 0, 0, 0, 0),
        ],
        [2, 0, 0, 2],
    )?;
    expect(
        &rt,
        worked::CHAIN_THAT_TRADED,
        [
            tally(5, 1, 0, 400, 1),
            tally(1, 1, 0, 0, 1),
            tally(0, 0, 0, 0, 0),
        ],
        [0, 0, 0, 0],
    )
}

// The texts of a day by which anybody can know them, as `sha256sum` gives them of the day's worked output.
#[test]
fn digests(rt: HostRuntime) -> Result<(), Fail> {
    let report = report_of(&rt, worked::HIDDEN_THEN_DISPLAYED)?;
    let [first, second, ..] = report.rows.as_slice() else {
        panic!(rt; "a row for each member");
    };
    equal(&rt, first.check.comparison.day.lines, 2);
    let digest = hex::encode(rt.alloc(), first.check.comparison.day.digest.as_slice()).expect(
        &rt, "memory",
    );
    equal(
        &rt,
        digest.as_str(),
        "6ce7f5288577a61a0d951fd2c801f70243a049dc5d822f072d5b6ee842b180e7",
    );
    let digest = hex::encode(rt.alloc(), second.check.comparison.day.digest.as_slice()).expect(
        &rt, "memory",
    );
    equal(
        &rt,
        digest.as_str(),
        "c2c25c58d1849b53ee8264fe05ba51870a7a9eac87b54e9a02ddede5a3c937a5",
    );
    equal(&rt, report.all.comparison.day.lines, 1);
    let digest = hex::encode(rt.alloc(), report.all.comparison.day.digest.as_slice()).expect(
        &rt, "memory",
    );
    equal(
        &rt,
        digest.as_str(),
        "708c416b6b9b64ee20d6908813f4ffeb22cb23ef4ee6f40165c0d48b7570d415",
    );
    Ok(())
}

// The first line that fails a check is named.
#[test]
fn a_bad_line(rt: HostRuntime) {
    let alloc = rt.alloc();
    let text = Vec::from_slice(alloc, b"10 0 4b\n20 9 58\n").expect(&rt, "memory");
    match Day::of(alloc, &standard(alloc).expect(&rt, "memory"), text) {
        Err(
            TapeError::Line {
                line: 2,
                kind: Kind::Member,
            },
        ) => {}
        _ => panic!(rt; "the second line is bad"),
    }
}

// Whether a text has a line.
fn has_line(text: &str, line: &str) -> bool {
    text.lines().any(|other| other == line)
}

// The pages say what the report says.
#[test]
fn pages(rt: HostRuntime) -> Result<(), Fail> {
    let alloc = rt.alloc();
    let report = report_of(&rt, worked::HIDDEN_THEN_DISPLAYED)?;
    let setup = standard(alloc).expect(&rt, "memory");
    let document = Document {
        report: &report,
        members: setup.members(),
        has_setup: false,
    };
    let plain = write_plain(alloc, &document).expect(&rt, "memory");
    holds(
        &rt,
        has_line(
            &plain,
            "A day of 2 events, 1 messages of the feed and 2 replies.",
        ),
    );
    holds(&rt, has_line(&plain, "member 1: same, 1 lines struck"));
    holds(
        &rt,
        has_line(&plain, "hx_tape strike --all < day.tape > struck.tape"),
    );
    let json = write_json(alloc, &document).expect(&rt, "memory");
    holds(
        &rt,
        json.starts_with(
            "{\"events\":2,\"feed\":1,\"replies\":2,\"members\":[{\"member\":1,\"firm\":\"FMA1\"",
        ),
    );
    let html = write_html(alloc, &document).expect(&rt, "memory");
    holds(
        &rt,
        has_line(
            &html,
            "hx_tape strike --member $N &lt; day.tape &gt; struck.tape",
        ),
    );
    Ok(())
}

// There are `wanted`, or the test ends.
fn count<R: Abort>(rt: &R, found: usize, wanted: usize)
    ensures { found ≡ wanted }
{
    assert_eq!(rt; found, wanted);
}
