//! What an exchange has published: the messages of the feed, and the replies to each member.
ghost use Rattle.std.specs.Prelude.{◌≡◌};

use arrayvec::ArrayVec;
use hx_blog::{Log, Reader};
use hx_engine::{Entry, Exchange, Journal, Venue};
use hx_units::MemberNo;
use std::alloc::Global;
use std::process::Abort;
use std::sync::Wait;

/// The messages of the feed, and the replies to the members 1 to 3, all as bytes.
#[derive(Drop, PartialEq)]
pub struct EventOutput {
    /// The feed.
    pub feed: Vec<ArrayVec<u8, 44>>,
    /// The replies to each member.
    pub replies: Vec<Vec<ArrayVec<u8, 80>>>,
}

// All messages that the reader's count allows.
fn whole_feed<R: Abort>(
    rt: &R,
    alloc: Global,
    log: &Log<Entry>,
    reader: &mut Reader<Entry>,
) -> Vec<ArrayVec<u8, 44>>
    requires { reader.old.log ≡ log.now }
    ensures { reader.new.log ≡ reader.old.log }
{
    let mut feed = Vec::new(alloc);
    for number in 1..=reader.look(log) {
        let message = reader.at(log, number).expect(rt, "a message");
        feed.push(message).expect(rt, "a place");
    }
    feed
}

/// What a reader, which waits for nobody, finds in the feed, and the replies of each member that then asks for all of
/// them.
pub fn hear<V: Venue, J: Journal + Drop, R: Wait + Abort>(
    rt: &R,
    alloc: Global,
    exchange: &Exchange<V, J>,
    reader: &mut Reader<Entry>,
) -> EventOutput
    requires { reader.old.log ≡ V.log }
    ensures { reader.new.log ≡ V.log }
{
    let feed = whole_feed(rt, alloc, exchange.feed_log(), reader);
    let mut replies = Vec::new(alloc);
    for number in 1..=3u16 {
        let member = MemberNo::of(number).expect(rt, "a member");
        let own = exchange
            .replies(rt, reader, member, 1)
            .expect(rt, "replies");
        replies.push(own).expect(rt, "a place");
    }
    EventOutput { feed, replies }
}

impl EventOutput {
    /// Nothing.
    pub fn nothing<R: Abort>(rt: &R, alloc: Global) -> EventOutput {
        let mut replies = Vec::new(alloc);
        for _member in 0..3u16 {
            replies.push(Vec::new(alloc)).expect(rt, "a place");
        }
        EventOutput {
            feed: Vec::new(alloc),
            replies,
        }
    }

    /// Whether all of this is published here, byte for byte and in its order, before anything else.
    pub fn begins_with(&self, other: &EventOutput) -> bool {
        self.feed.starts_with(&other.feed)
            && self
                .replies
                .iter()
                .zip(&other.replies)
                .all(|(all, first)| all.starts_with(first))
    }

    /// The number of replies in all.
    pub fn reply_count(&self) -> usize {
        let mut count = 0usize;
        for replies in &self.replies {
            count = count.saturating_add(replies.len());
        }
        count
    }
}
