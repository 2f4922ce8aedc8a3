//! The acceptor of an open day: connections are taken all day, and wait here until they have sent their login.

use crate::backoffs::Backoffs;
use crate::left::Left;
use crate::pending_login::{Login, PendingLogin, Stage};
use crate::pending_logins::PendingLogins;
use crate::queue::{Queue, await_next, make_room};
use crate::rules::{AcceptorRules, ConnectionNotices, DayEnd};
use crate::source::source_of;
use crate::tally::count;
use std::alloc::Global;
use std::io;
use std::io::ErrorKind;
use std::net::{IpAddr, SocketAddr, TcpListener, TcpStream};
use std::sync::Wait;
use std::time::{Clock, Instant};

// At most this number of logins is pending. If one more comes, one of the address with the most goes.
const ROOM: usize = 256;

// At most this number of connections is taken before the pending logins are checked again.
const BURST: u32 = 64;

// The interval, in milliseconds, at which the pending logins are checked; a new connection is taken at once.
const LOOK_AGAIN: u16 = 5;

// Milliseconds of a second.
const SECOND: u64 = 1_000;

// The pending logins, in the order in which they came. Times are in milliseconds since the acceptor was opened.
#[derive(Drop)]
struct Acceptor<'a> {
    pending_logins: Vec<PendingLogin>,
    backoffs: Backoffs,
    rules: AcceptorRules<'a>,
    opened: Instant,
    // The second in which it was last reported that too many of one address came.
    reported: Option<u64>,
}

impl<'a> Acceptor<'a> {
    fn new<T: Clock>(rt: &T, alloc: Global, rules: AcceptorRules<'a>) -> io::Result<Acceptor<'a>> {
        Ok(Acceptor {
            pending_logins: Vec::with_capacity(alloc, ROOM)?,
            backoffs: Backoffs::new(alloc)?,
            rules,
            opened: Instant::now(rt)?,
            reported: None,
        })
    }

    // The present time. If the clock cannot be read, everybody's time is over.
    fn now<T: Clock>(&self, rt: &T) -> u64 {
        match self.opened.elapsed(rt) {
            Ok(time) => u64::try_from(time.as_millis()).unwrap_or(u64::MAX),
            Err(_) => u64::MAX,
        }
    }

    // A connection is closed.
    fn tell<B: ConnectionNotices>(&self, notice_sink: &B, from: SocketAddr, why: Left) {
        count(self.rules.tally.closed(why));
        notice_sink.tell_left(from, why);
    }

    // The pending login in this slot goes.
    fn let_go<B: ConnectionNotices>(&mut self, notice_sink: &B, slot: usize, why: Left) {
        if slot < self.pending_logins.len() {
            let pending_login = self.pending_logins.remove(slot);
            self.tell(notice_sink, pending_login.from, why);
        }
    }

    // Closes a connection of an address that has too many, and reports it once a second at most.
    fn turn_away<B: ConnectionNotices>(&mut self, notice_sink: &B, from: SocketAddr, now: u64) {
        let second = Some(now / SECOND);
        if self.reported == second {
            count(self.rules.tally.closed(Left::TooMany));
            return;
        }
        self.reported = second;
        self.tell(notice_sink, from, Left::TooMany);
    }

    // How many of an address wait.
    fn waiting(&self, source: IpAddr) -> usize {
        self.pending_logins
            .iter()
            .filter(|pending_login| pending_login.source == source)
            .count()
    }

    // The slot of the pending login that has to make room: of the heaviest, the one that came first.
    fn heaviest(&self) -> usize {
        let (mut heaviest, mut most) = (0, 0);
        for (slot, pending_login) in self.pending_logins.iter().enumerate() {
            let weight = pending_login.weight();
            if weight > most {
                (heaviest, most) = (slot, weight);
            }
        }
        heaviest
    }

    // Takes a connection that has come, unless there are too many of its address.
    fn take<B: ConnectionNotices, T: Wait>(
        &mut self,
        rt: &T,
        pending_logins: &PendingLogins,
        notice_sink: &B,
        stream: TcpStream,
        from: SocketAddr,
        now: u64,
    ) {
        count(&self.rules.tally.taken);
        let source = source_of(from.ip());
        let beside = self.waiting(source);
        if beside.saturating_add(pending_logins.inside(rt, source)) >= self.rules.each as usize {
            self.turn_away(notice_sink, from, now);
            return;
        }
        if stream.set_nonblocking(true).is_err() {
            self.tell(notice_sink, from, Left::Gone);
            return;
        }
        if self.pending_logins.len() >= ROOM {
            self.let_go(notice_sink, self.heaviest(), Left::Crowded);
        }
        let _ = self
            .pending_logins
            .push(PendingLogin::new(stream, from, now, beside));
    }

    // Takes the connections that have come, and returns what is still in the queue.
    fn welcome<B: ConnectionNotices, T: Wait + Clock>(
        &mut self,
        rt: &T,
        listener: &TcpListener,
        pending_logins: &PendingLogins,
        notice_sink: &B,
    ) -> Queue {
        let now = self.now(rt);
        for _ in 0..BURST {
            match listener.accept() {
                Ok((stream, from)) => self.take(rt, pending_logins, notice_sink, stream, from, now),
                Err(error) => match error.kind() {
                    ErrorKind::Interrupted | ErrorKind::ConnectionAborted => {}
                    ErrorKind::WouldBlock => return Queue::Empty,
                    _ => return Queue::Stuck,
                },
            }
        }
        Queue::Full
    }

    // Reads what has come of each pending login, and looks up whose login it is, unless a login of its address has
    // failed a short time ago. A connection that sends something else is closed.
    fn read_all<B: ConnectionNotices>(&mut self, notice_sink: &B, now: u64) {
        let mut slot = 0;
        for _ in 0..self.pending_logins.len() {
            let Some(pending_login) = self.pending_logins.get_mut(slot) else {
                return;
            };
            match pending_login.read() {
                Stage::Goes(why) => self.let_go(notice_sink, slot, why),
                Stage::IsReady if pending_login.is_due(now) => {
                    pending_login.paused = self.backoffs.end(pending_login.source);
                    if pending_login.is_due(now) {
                        pending_login.look_up(self.rules.setup);
                    }
                    slot += 1;
                }
                Stage::IsReady | Stage::Waits => slot += 1,
            }
        }
    }

    // Whether a pending login may go to a session slot now. A login that is nobody's waits until the back-off of its
    // address is over, and until no other such login is in a session slot.
    fn may_enter<T: Wait>(
        &self,
        rt: &T,
        pending_logins: &PendingLogins,
        pending_login: &PendingLogin,
        now: u64,
    ) -> bool {
        match pending_login.login {
            Login::Unread => false,
            Login::Known => pending_logins.has_slot(rt),
            Login::Unknown => {
                pending_logins.has_slot_for_unknown(rt)
                    && self.backoffs.end(pending_login.source) <= now
            }
        }
    }

    // Gives the pending logins with this kind of login to session slots, in the order in which they came.
    fn admit<B: ConnectionNotices, T: Wait>(
        &mut self,
        rt: &T,
        pending_logins: &PendingLogins,
        notice_sink: &B,
        login: Login,
        now: u64,
    ) {
        let mut slot = 0;
        for _ in 0..self.pending_logins.len() {
            let Some(pending_login) = self.pending_logins.get(slot) else {
                return;
            };
            if pending_login.login == login
                && self.may_enter(rt, pending_logins, pending_login, now)
            {
                let pending_login = self.pending_logins.remove(slot);
                self.enter(rt, pending_logins, notice_sink, pending_login, now);
            } else {
                slot += 1;
            }
        }
    }

    // Gives a pending login to a session slot.
    fn enter<B: ConnectionNotices, T: Wait>(
        &mut self,
        rt: &T,
        pending_logins: &PendingLogins,
        notice_sink: &B,
        pending_login: PendingLogin,
        now: u64,
    ) {
        let (from, source) = (pending_login.from, pending_login.source);
        let is_known = pending_login.login == Login::Known;
        if is_known {
            self.backoffs.forget(source);
        } else {
            self.backoffs.fail(source, now);
        }
        match pending_login.connection() {
            Ok(connection) => {
                if pending_logins.enter(rt, connection, is_known).is_some() {
                    self.tell(notice_sink, from, Left::NoSlot);
                }
            }
            Err(_) => self.tell(notice_sink, from, Left::Gone),
        }
    }

    // Closes the pending logins whose time is over.
    fn let_late_go<B: ConnectionNotices>(&mut self, notice_sink: &B, now: u64) {
        let limit = u64::from(self.rules.login_limit) * SECOND;
        let mut slot = 0;
        for _ in 0..self.pending_logins.len() {
            let Some(pending_login) = self.pending_logins.get(slot) else {
                return;
            };
            if now.saturating_sub(pending_login.came) < limit {
                slot += 1;
            } else {
                let why = pending_login.lateness();
                self.let_go(notice_sink, slot, why);
            }
        }
    }

    // Checks all pending logins. Members go to session slots before others.
    fn look<B: ConnectionNotices, T: Wait + Clock>(
        &mut self,
        rt: &T,
        pending_logins: &PendingLogins,
        notice_sink: &B,
    ) {
        let now = self.now(rt);
        self.read_all(notice_sink, now);
        self.admit(rt, pending_logins, notice_sink, Login::Known, now);
        self.admit(rt, pending_logins, notice_sink, Login::Unknown, now);
        self.let_late_go(notice_sink, now);
    }

    // Lets all go.
    fn close<B: ConnectionNotices>(self, notice_sink: &B) {
        for pending_login in &self.pending_logins {
            self.tell(notice_sink, pending_login.from, Left::DayEnd);
        }
    }
}

/// Takes connections until the day is over, and gives those that have sent their login to session slots. A connection
/// that has not sent its login within its time is closed, and so are all that wait in the end. If there is no memory to
/// begin, no connection is taken.
pub fn keep_acceptor<E: DayEnd, B: ConnectionNotices, T: Wait + Clock>(
    rt: &T,
    alloc: Global,
    end: &E,
    listener: TcpListener,
    pending_logins: &PendingLogins,
    rules: AcceptorRules<'_>,
    notice_sink: &B,
) {
    if let Ok(mut acceptor) = Acceptor::new(rt, alloc, rules)
        && listener.set_nonblocking(true).is_ok()
    {
        make_room(&listener);
        for _ in 0..u64::MAX {
            if end.is_over(rt) {
                break;
            }
            let queue = acceptor.welcome(rt, &listener, pending_logins, notice_sink);
            acceptor.look(rt, pending_logins, notice_sink);
            await_next(rt, &listener, queue, LOOK_AGAIN);
        }
        acceptor.close(notice_sink);
    }
    drop(listener);
    pending_logins.close(rt);
}
