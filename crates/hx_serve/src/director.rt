//! The direction of an open day by the operator's socket and by the clock: the hours of a schedule, and ticks.

use crate::operating::refusal_of;
use hx_day_context::{
    DayClock, DayContext, Notice, NoticeSink, Refusal, Stage, since_1970, write_status,
};
use hx_engine::{Exchange, Journal, Pass, Venue};
use hx_market::Event;
use hx_operator::{Command, Directed, HELP, OperatorSocket, Schedule, events_of, read_command};
use hx_units::MemberNo;
use std::alloc::{AllocError, Global};
use std::fmt::Write;
use std::sync::Wait;
use std::sync::atomic::{AtomicBool, Ordering};
use std::thread;
use std::time::{Clock, Duration};

// The interval, in milliseconds, at which the socket and the clock are checked.
const LOOK_AGAIN: u64 = 20;

// How many codes of the hours there are (ITCH 5.0, System Event Message).
const CODES: u32 = 6;

/// Carries out what the operator says and what the clock asks for, by a pass of its own.
#[derive(Drop)]
pub struct Director<'a, V: Venue, J: Journal + Drop, B, T> {
    /// The runtime.
    pub rt: &'a T,
    /// Where answers take memory from.
    pub alloc: Global,
    /// The exchange.
    pub exchange: &'a Exchange<V, J>,
    /// What the workers share.
    pub day_context: &'a DayContext<'a, B>,
    /// The times of what it records.
    pub clock: DayClock<'a, T>,
    /// Its pass.
    pub pass: Pass<V>,
}

/// The operator's socket, and what the clock asks for.
pub struct Duties {
    /// The operator's socket, if there is one.
    pub socket: Option<OperatorSocket>,
    /// The hours, if they go by the clock.
    pub schedule: Option<Schedule>,
    /// After how many milliseconds time passes for orders with seconds; 0 if it does not.
    pub tick: u64,
    /// How many seconds sessions have after the day's end for the rest of their output.
    pub grace: u64,
}

// By hand, so that when a value is dropped its owner's proof sees one call.
impl Drop for Duties {
    fn drop(self) {
        let Duties {
            socket: _,
            schedule: _,
            tick: _,
            grace: _,
        } = self;
    }
}

// How long ago the last tick and the day's end are, and after how long what is to be done, in milliseconds; and how
// many events were seen.
#[derive(Clone, Copy, Drop)]
struct Beat {
    tick: u64,
    since_tick: u64,
    grace: u64,
    since_end: u64,
    seen: u64,
}

impl Beat {
    // From the milliseconds between two ticks and the seconds after the day's end.
    fn of(tick: u64, grace: u64) -> Beat {
        Beat {
            tick,
            since_tick: 0,
            grace: grace.saturating_mul(1_000),
            since_end: 0,
            seen: 0,
        }
    }
}

// Appends a line to an answer.
fn say(answer: &mut Vec<u8>, words: &str) -> Result<(), AllocError> {
    answer.extend_from_slice(words.as_bytes())?;
    answer.push(b'\n')?;
    Ok(())
}

// Refuses.
fn refuse(answer: &mut Vec<u8>, why: &str) -> Result<(), AllocError> {
    answer.extend_from_slice(b"no: ")?;
    say(answer, why)
}

impl<'a, V: Venue, J: Journal + Drop, B: NoticeSink, T: Wait + Clock> Director<'a, V, J, B, T> {
    // Records an event.
    fn record(&mut self, event: &Event) -> Result<(), Refusal> {
        match self.exchange.submit(self.rt, &mut self.pass, event) {
            Ok(_) => {
                self.day_context
                    .trading_status
                    .note(self.day_context.setup, event);
                Ok(())
            }
            Err(error) => Err(refusal_of(error)),
        }
    }

    // Records the events of a command that are not past, and answers.
    fn carry_out(&mut self, events: &[Event], answer: &mut Vec<u8>) -> Result<(), AllocError> {
        let mut is_done = false;
        for event in events {
            match self
                .day_context
                .trading_status
                .stage(self.day_context.setup, event)
            {
                Stage::Past => continue,
                Stage::TooEarly => return refuse(answer, "it is not the next code of the hours"),
                Stage::NoStock => return refuse(answer, "no such stock"),
                Stage::Now => {}
            }
            if let Err(why) = self.record(event) {
                let mut words = String::new(self.alloc);
                let _ = write!(words, "{why}");
                return refuse(answer, &words);
            }
            is_done = true;
        }
        if !is_done {
            return refuse(answer, "it is past already");
        }
        say(answer, "ok")
    }

    // Ends the sessions of a member.
    fn disconnect(&mut self, member: MemberNo, answer: &mut Vec<u8>) -> Result<(), AllocError> {
        let count = self.day_context.session_slots.call_off(self.rt, member);
        if count == 0 {
            return refuse(answer, "he has no session");
        }
        self.exchange.wake_all();
        let mut words = String::new(self.alloc);
        let _ = write!(words, "ok\nsessions ended: {count}");
        say(answer, &words)
    }

    // Lets a member log in, or not.
    fn permit(
        &mut self,
        member: MemberNo,
        may: bool,
        answer: &mut Vec<u8>,
    ) -> Result<(), AllocError> {
        if self.day_context.setup.member(member).is_none() {
            return refuse(answer, "no such member");
        }
        self.day_context.session_slots.permit(member, may);
        say(answer, "ok")
    }

    // Carries a command out, and answers.
    fn perform(&mut self, command: Command, answer: &mut Vec<u8>) -> Result<(), AllocError> {
        match command {
            Command::Status => {
                say(answer, "ok")?;
                write_status(self.rt, self.alloc, answer, self.exchange, self.day_context)
            }
            Command::Help => {
                say(answer, "ok")?;
                answer.extend_from_slice(HELP.as_bytes())
            }
            Command::Disconnect(member) => self.disconnect(member, answer),
            Command::Allow(member) => self.permit(member, true, answer),
            Command::Refuse(member) => self.permit(member, false, answer),
            Command::Start
            | Command::Open
            | Command::Close
            | Command::End
            | Command::Code(_)
            | Command::Halt { .. }
            | Command::Resume { .. }
            | Command::Break { .. }
            | Command::Tick => {
                let events = events_of(self.alloc, command, self.clock.time_of_day())?;
                self.carry_out(&events, answer)
            }
        }
    }

    // Records the codes of the schedule whose time has come. A code that is past does nothing; any other code that is
    // not the next one is reported.
    fn keep_hours(&mut self, schedule: &mut Schedule) {
        let time = self.clock.time_of_day();
        for _ in 0..CODES {
            let Some(code) = schedule.next_due(time) else {
                return;
            };
            let event = Event::Hours { time, code };
            match self
                .day_context
                .trading_status
                .stage(self.day_context.setup, &event)
            {
                Stage::Past => {}
                Stage::Now => {
                    let why = self.record(&event).err();
                    self.day_context
                        .notice_sink
                        .post(Notice::Scheduled { code, why });
                }
                Stage::TooEarly | Stage::NoStock => {
                    let why = Some(Refusal::Other);
                    self.day_context
                        .notice_sink
                        .post(Notice::Scheduled { code, why });
                }
            }
        }
    }

    // Lets time pass, if the day has begun. Returns whether that is recorded.
    fn tick(&mut self) -> bool {
        let time = self.clock.time_of_day();
        self.day_context.trading_status.phase().is_some()
            && self.record(&Event::Tick { time }).is_ok()
    }

    // Looks whether there are more events than were seen, and notes when. Returns how many there are.
    fn see(&self, seen: u64) -> u64 {
        let recorded = self.exchange.counts(self.rt).recorded;
        if recorded != seen {
            let now = since_1970(self.rt);
            self.day_context
                .counters
                .last_event
                .store(now, Ordering::Relaxed);
        }
        recorded
    }

    // What the clock asks for: the codes of the schedule and ticks, and, after the day's end, that sessions end.
    fn keep_time(&mut self, beat: &mut Beat, schedule: &mut Option<Schedule>) {
        beat.seen = self.see(beat.seen);
        if self.exchange.is_closed(self.rt) {
            beat.since_end = beat.since_end.saturating_add(LOOK_AGAIN);
            if beat.since_end >= beat.grace {
                self.day_context.session_slots.hurry();
            }
            return;
        }
        if let Some(schedule) = schedule {
            self.keep_hours(schedule);
        }
        beat.since_tick = beat.since_tick.saturating_add(LOOK_AGAIN);
        if beat.tick != 0 && beat.since_tick >= beat.tick {
            beat.since_tick = 0;
            if self.tick() {
                beat.seen = beat.seen.saturating_add(1);
            }
        }
    }
}

impl<'a, V: Venue, J: Journal + Drop, B: NoticeSink, T: Wait + Clock> Director<'a, V, J, B, T> {
    /// Hears the operator, and does what the clock asks for, until all sessions have ended. Gives the pass and the
    /// socket back.
    pub fn direct(self, duties: Duties, gone: &AtomicBool) -> (Pass<V>, Option<OperatorSocket>) {
        let mut director = self;
        let mut duties = duties;
        let mut beat = Beat::of(duties.tick, duties.grace);
        for _ in 0..u64::MAX {
            if gone.load(Ordering::SeqCst) {
                break;
            }
            let (rt, alloc) = (director.rt, director.alloc);
            if let Some(socket) = &mut duties.socket {
                socket.turn(rt, alloc, &mut director);
            }
            director.keep_time(&mut beat, &mut duties.schedule);
            thread::sleep(rt, Duration::from_millis(LOOK_AGAIN));
        }
        (director.pass, duties.socket.take())
    }
}

impl<V: Venue, J: Journal + Drop, B: NoticeSink, T: Wait + Clock> Directed
    for Director<'_, V, J, B, T> {
    fn direct(&mut self, line: &[u8], answer: &mut Vec<u8>) -> Result<(), AllocError> {
        match read_command(line) {
            Ok(command) => self.perform(command, answer),
            Err(error) => {
                let mut words = String::new(self.alloc);
                let _ = write!(words, "{error}");
                refuse(answer, &words)
            }
        }
    }
}
