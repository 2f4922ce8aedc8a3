//! The day by a desk: its feed as a publisher sends it out of the log, and each member's replies.
ghost use Rattle.std.specs.Prelude.{◌≡◌, length};

use super::day::{SETUP, day};
use super::packets::SESSION;
use super::{equal, holds};
use hx_blog::{Log, Reader};
use hx_desk::{Desk, Entry};
use hx_market::Event;
use hx_mold::{MoldPacket, decode_packet};
use hx_retransmit::{LogMessages, Publisher};
use hx_testing::Day;
use hx_testing::lines::{events_of, lines_that};
use hx_testing::setups::setup_of;
use hx_units::MemberNo;
use std::alloc::Global;
use std::process::Abort;
use std::test::Fail;

// All events are recorded.
fn submit_all<R: Abort>(rt: &R, desk: &mut Desk, log: &Log<Entry>, events: &[Event])
    requires log { desk.old.log ≡ log.now }
    requires still { desk.old.published_end ≡ length desk.old.history }
    ensures { desk.new.log ≡ desk.old.log }
{
    for event in events {
        holds(rt, desk.submit(log, 1, event).is_ok());
    }
    equal(rt, desk.history_len(), events.len() as u64);
}

/// Lines of messages, which count from 1, after a beginning that all have.
#[derive(Drop)]
struct Lines<'a> {
    alloc: Global,
    beginning: &'a str,
    text: Vec<u8>,
    count: u64,
}

impl<'a> Lines<'a> {
    fn new(alloc: Global, beginning: &'a str) -> Lines<'a> {
        Lines {
            alloc,
            beginning,
            text: Vec::new(alloc),
            count: 0,
        }
    }

    // The next message.
    fn add<R: Abort>(&mut self, rt: &R, message: &[u8]) {
        self.count = self.count.saturating_add(1);
        let (beginning, number) = (self.beginning, self.count);
        let digits = hex::encode(self.alloc, message).expect(rt, "digits");
        let line = format!(in self.alloc; "{beginning}{number} {digits}\n").expect(rt, "a line");
        self.text
            .extend_from_slice(line.as_bytes())
            .expect(rt, "a text");
    }

    // The messages of a packet, whose number is that of the next message.
    fn add_packet<R: Abort>(&mut self, rt: &R, packet: &[u8]) {
        let Some(
            MoldPacket::Blocks {
                session,
                sequence,
                messages,
            },
        ) = decode_packet(packet)
        else {
            panic!(rt; "messages");
        };
        equal(rt, session, SESSION);
        equal(rt, sequence, self.count.saturating_add(1));
        for message in messages {
            self.add(rt, message);
        }
    }
}

// The feed is that of the day's output, out of the packets that a publisher sends. How many these are.
fn expect_feed<R: AllocGlobal + Abort>(
    rt: &R,
    log: &Log<Entry>,
    reader: Reader<Entry>,
    day: &Day,
) -> u64
    requires { reader.log ≡ log.now }
{
    let mut publisher = Publisher::new(SESSION, LogMessages::new(log, reader), 0);
    let mut feed = Lines::new(rt.alloc(), "F ");
    let mut packets = 0;
    for turn in 0..u64::MAX {
        let Some(packet) = publisher.turn(0) else {
            packets = turn;
            break;
        };
        feed.add_packet(rt, packet.as_slice());
    }
    let outputs = lines_that(rt.alloc(), &day.output, b"F ", true).expect(rt, "the feed's lines");
    holds(rt, feed.text.as_slice() == outputs.as_slice());
    packets
}

// The replies to a member are those that the day has for it.
fn expect_replies<R: AllocGlobal + Abort>(rt: &R, desk: &Desk, number: u16, day: &Day) {
    let member = MemberNo::of(number).expect(rt, "a member");
    let beginning = format!(in rt.alloc(); "M {number} ").expect(rt, "a beginning");
    let mut replies = Lines::new(rt.alloc(), &beginning);
    for reply in &desk.replies_from(member, 1).expect(rt, "replies") {
        replies.add(rt, reply.as_slice());
    }
    let outputs = lines_that(rt.alloc(), &day.output, beginning.as_bytes(), true);
    let outputs = outputs.expect(rt, "the member's lines");
    holds(rt, replies.text.as_slice() == outputs.as_slice());
}

// A page in the midst of the first member's replies is the same part of all of them.
fn expect_page<R: AllocGlobal + Abort>(rt: &R, desk: &Desk) {
    let member = MemberNo::of(1).expect(rt, "a member");
    let all = desk.replies_from(member, 1).expect(rt, "replies");
    // 20 times 150 offers accepted and executed, 1,000 orders accepted and canceled, and code E.
    equal(rt, all.len(), 20 * 300 + 2 * 1_000 + 1);
    let page = desk.replies_page(member, 4_001, 1_000).expect(rt, "a page");
    equal(rt, page.len(), 1_000);
    holds(rt, all.get(4_000..5_000) == Some(page.as_slice()));
}

#[test]
fn the_day_by_a_desk(rt: HostRuntime) -> Result<(), Fail> {
    let alloc = rt.alloc();
    let day = day(alloc)?;
    let (setup, events) = (setup_of(alloc, SETUP)?, events_of(alloc, &day.tape)?);
    let (log, writer, reader) = Log::<Entry>::new(alloc, 25_000).expect(&rt, "a log");
    let mut desk = Desk::new(alloc, setup, writer).expect(&rt, "a desk");
    submit_all(&rt, &mut desk, &log, &events);
    holds(&rt, expect_feed(&rt, &log, reader, &day) > 70);
    for number in 1..=6 {
        expect_replies(&rt, &desk, number, &day);
    }
    expect_page(&rt, &desk);
    Ok(())
}
