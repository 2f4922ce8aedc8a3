//! What an exchange says of a member's replies, and of the end of the day.
ghost use Rattle.std.specs.Prelude.{◌≡◌, ◌<◌, ◌≤◌, length, IfOk, IfErr};
ghost use Rattle.hx_units.specs.Fields.{texts};
ghost use Rattle.hx_desk.specs.Rows.{from_number, page};
ghost use Rattle.hx_desk.specs.Desks.{is_over};
ghost use Rattle.hx_desk.specs.Known.{AreFew, CatchesUp, IsWhole, known_market, known_replies};
ghost use Rattle.hx_engine.specs.Exchanges.{AreKnownReplies, IsNews};

use crate::answers::{Counts, News};
use crate::exchange::Exchange;
use crate::locked::Held;
use crate::pass::Pass;
use crate::venue::Venue;
use arrayvec::ArrayVec;
use hx_blog::{Log, Reader};
use hx_desk::Entry;
use hx_journal::Journal;
use hx_units::{MemberNo, NoMemory};
use hx_wake::Waker;
use std::sync::Wait;
use std::sync::atomic::Ordering;

// Returns what stands for a member. The reader knows from now on all that is published.
fn tell<V: Venue, J: Journal + Drop>(
    held: &mut Held<V, J>,
    log: &Log<Entry>,
    reader: &mut Reader<Entry>,
    member: MemberNo,
) -> News
    requires log { log.now ≡ V.log }
    requires reader { reader.old.log ≡ V.log }
    ensures news { IsNews V.setup member reader.new.known result }
    ensures whole { IsWhole V.setup reader.new.known }
    ensures reader { CatchesUp reader.old reader.new }
{
    held.desk.inform(log, reader);
    held.desk.stands();
    News {
        replies: held.desk.reply_count(member),
        ended: held.desk.ended(),
    }
}

// Whether the day is over. The reader knows from now on all that is published.
fn tell_end<V: Venue, J: Journal + Drop>(
    held: &mut Held<V, J>,
    log: &Log<Entry>,
    reader: &mut Reader<Entry>,
) -> bool
    requires log { log.now ≡ V.log }
    requires reader { reader.old.log ≡ V.log }
    ensures over { result ≡ is_over (known_market V.setup reader.new.known) }
    ensures whole { IsWhole V.setup reader.new.known }
    ensures reader { CatchesUp reader.old reader.new }
{
    held.desk.inform(log, reader);
    held.desk.stands();
    held.desk.ended()
}

impl<V: Venue, J: Journal + Drop> Exchange<V, J> {
    /// The number of a member's replies, and whether the day is over. The reader knows from then on the history to
    /// which these belong.
    pub fn news(&self, rt: &impl Wait, reader: &mut Reader<Entry>, member: MemberNo) -> News
        requires { reader.old.log ≡ V.log }
        ensures news { IsNews V.setup member reader.new.known result }
        ensures whole { IsWhole V.setup reader.new.known }
        ensures reader { CatchesUp reader.old reader.new }
    {
        let mut held = self.desk.lock(rt);
        let held = &mut *held;
        tell(held, &self.log, reader, member)
    }

    /// Whether the day is over: the market is past hours code `C`. The reader knows from then on the history to which
    /// this belongs.
    pub fn is_over(&self, rt: &impl Wait, reader: &mut Reader<Entry>) -> bool
        requires { reader.old.log ≡ V.log }
        ensures over { result ≡ is_over (known_market V.setup reader.new.known) }
        ensures whole { IsWhole V.setup reader.new.known }
        ensures reader { CatchesUp reader.old reader.new }
    {
        let mut held = self.desk.lock(rt);
        let held = &mut *held;
        tell_end(held, &self.log, reader)
    }

    /// The replies to a member from this number on, which counts from 1; 0 is read as 1. The reader knows from then on
    /// the history to which they belong. The call takes memory only if there are replies.
    pub fn replies(
        &self,
        rt: &impl Wait,
        reader: &mut Reader<Entry>,
        member: MemberNo,
        from: u64,
    ) -> Result<Vec<ArrayVec<u8, 80>>, NoMemory>
        requires { reader.old.log ≡ V.log }
        ensures replies { IfOk result (λ rows.
            AreKnownReplies V.setup member reader.new.known (from_number from) (texts rows.items)) }
        ensures memory { IfErr result (λ _.
            0 < length (from_number from (known_replies V.setup member reader.new.known))) }
        ensures few { AreFew V.setup member reader.new.known }
        ensures whole { IsWhole V.setup reader.new.known }
        ensures reader { CatchesUp reader.old reader.new }
    {
        let mut held = self.desk.lock(rt);
        let held = &mut *held;
        held.desk.inform(&self.log, reader);
        held.desk.stands();
        held.desk.replies_from(member, from)
    }

    /// At most `most` replies to a member, from this number on: the call holds the lock no longer than these take. It
    /// takes memory only if there are replies.
    pub fn replies_page(
        &self,
        rt: &impl Wait,
        reader: &mut Reader<Entry>,
        member: MemberNo,
        from: u64,
        most: u64,
    ) -> Result<Vec<ArrayVec<u8, 80>>, NoMemory>
        requires { reader.old.log ≡ V.log }
        ensures replies { IfOk result (λ rows.
            AreKnownReplies V.setup member reader.new.known (page from most) (texts rows.items)) }
        ensures memory { IfErr result (λ _.
            0 < length (page from most (known_replies V.setup member reader.new.known))) }
        ensures few { AreFew V.setup member reader.new.known }
        ensures whole { IsWhole V.setup reader.new.known }
        ensures reader { CatchesUp reader.old reader.new }
    {
        let mut held = self.desk.lock(rt);
        let held = &mut *held;
        held.desk.inform(&self.log, reader);
        held.desk.stands();
        held.desk.replies_page(member, from, most)
    }

    /// The same, together with what stands for the member then: both under one lock.
    pub fn news_page(
        &self,
        rt: &impl Wait,
        reader: &mut Reader<Entry>,
        member: MemberNo,
        from: u64,
        most: u64,
    ) -> (News, Result<Vec<ArrayVec<u8, 80>>, NoMemory>)
        requires { reader.old.log ≡ V.log }
        ensures news { IsNews V.setup member reader.new.known result.0 }
        ensures replies { IfOk result.1 (λ rows.
            AreKnownReplies V.setup member reader.new.known (page from most) (texts rows.items)) }
        ensures memory { IfErr result.1 (λ _.
            0 < length (page from most (known_replies V.setup member reader.new.known))) }
        ensures whole { IsWhole V.setup reader.new.known }
        ensures reader { CatchesUp reader.old reader.new }
    {
        let mut held = self.desk.lock(rt);
        let held = &mut *held;
        held.desk.inform(&self.log, reader);
        held.desk.stands();
        let (replies, ended) = (held.desk.reply_count(member), held.desk.ended());
        let news = News { replies, ended };
        (news, held.desk.replies_page(member, from, most))
    }

    /// Whether hours code `C` is past. No clause says what the market was when it was asked: `is_over` does.
    pub fn ended(&self, rt: &impl Wait) -> bool {
        self.desk.lock(rt).desk.ended()
    }

    /// Whether nothing more is published: the market is past hours code `C`, or the journal has failed. No clause says
    /// what the market was when it was asked.
    pub fn is_closed(&self, rt: &impl Wait) -> bool {
        let held = self.desk.lock(rt);
        held.desk.ended() || held.failed.is_some()
    }

    /// The waker of the publisher of the feed: it is woken when messages are published, and at the end of the day.
    pub fn feed_waker(&self) -> &Waker {
        &self.feed_waker
    }

    /// Wakes the publisher of the feed, if a `submit_all` has left that to its caller.
    pub fn wake_feed(&self) {
        if self.is_feed_due.load(Ordering::SeqCst)
            && self.is_feed_due.swap(false, Ordering::SeqCst)
        {
            self.feed_waker.wake();
        }
    }

    /// Whether some thread has events to record just now. It is a guess: only the number of messages that a session
    /// takes at once depends on it.
    pub fn is_busy(&self) -> bool {
        self.entering.load(Ordering::SeqCst) != 0
    }

    /// The waker of a pass's session.
    pub fn waker(&self, pass: &Pass<V>) -> &Waker {
        self.wakers.waker(pass.number)
    }

    /// The waker of a pass's session wakes it from now on when a member has news, and for nobody else.
    pub fn listen(&self, rt: &impl Wait, pass: &Pass<V>, member: MemberNo) {
        self.wakers.listen(rt, pass.number, member);
    }

    /// The waker of a pass's session, which woke it for a member, wakes it for nobody.
    pub fn leave(&self, rt: &impl Wait, pass: &Pass<V>, member: MemberNo) {
        self.wakers.leave(rt, pass.number, member);
    }

    /// Wakes all sessions: each looks whether it is to end.
    pub fn wake_all(&self) {
        self.wakers.wake_all();
    }

    /// How far the exchange has come.
    pub fn counts(&self, rt: &impl Wait) -> Counts
        ensures { result.published_end ≤ result.recorded }
    {
        let held = self.desk.lock(rt);
        held.desk.stands();
        Counts {
            recorded: held.desk.history_len(),
            published_end: held.desk.published_len(),
            feed: held.desk.feed_count(),
        }
    }
}
