//! The operator of an open day: a line that is bad or refused is reported, and the next one is read.

use crate::fault::ServeError;
use hx_day_context::{DayClock, DayContext, Notice, NoticeSink, Refusal, Times};
use hx_engine::{DeskError, Exchange, Journal, Pass, SubmitError, Venue};
use hx_market::Event;
use hx_tape_lines::{LONGEST_LINE, read_operator_line};
use hx_units::split_once;
use std::alloc::Global;
use std::io::{ErrorKind, Read};
use std::sync::Wait;
use std::thread;
use std::time::{Clock, Duration};

// The codes of the hours, in their order (ITCH 5.0, System Event Message).
const HOURS: [u8; 6] = *b"OSQMEC";

// If the last codes are not recorded when out of memory, they are tried again after this number of milliseconds.
const AGAIN: u64 = 200;

// How many bytes are read at once.
const PIECE: usize = 4096;

// The operator's desk: the pass by which the operator's events are sent, and the input that is not yet a line.
#[derive(Drop)]
struct Conductor<V: Venue> {
    pass: Pass<V>,
    lines: u64,
    pending: Vec<u8>,
    // Whether what is pending belongs to a line that is too long, of which the beginning is thrown away.
    overlong: bool,
}

/// Why an event of the operator is refused.
pub fn refusal_of(error: SubmitError) -> Refusal {
    let SubmitError::Refused(error) = error else {
        return Refusal::Journal;
    };
    match error {
        DeskError::NoMemory => Refusal::NoMemory,
        DeskError::Full { .. } => Refusal::Full,
        DeskError::BadTime => Refusal::Time,
        DeskError::Limit { .. } | DeskError::NoMember => Refusal::Other,
    }
}

impl<V: Venue> Conductor<V> {
    // Sends the event of a line, or answers why not.
    fn send_line<J: Journal + Drop, B, T: Wait>(
        &mut self,
        rt: &T,
        alloc: Global,
        exchange: &Exchange<V, J>,
        day_context: &DayContext<'_, B>,
        text: &[u8],
    ) -> Result<(), Refusal> {
        if self.overlong {
            return Err(Refusal::Bad);
        }
        let Ok(read) = read_operator_line(alloc, text) else {
            return Err(Refusal::NoMemory);
        };
        let Some(event) = read else {
            return Err(Refusal::Bad);
        };
        match exchange.submit(rt, &mut self.pass, &event) {
            Ok(_) => {
                day_context.trading_status.note(day_context.setup, &event);
                Ok(())
            }
            Err(error) => Err(refusal_of(error)),
        }
    }

    // Takes the next line, and posts a notice if it is refused.
    fn take_line<J: Journal + Drop, B: NoticeSink, T: Wait>(
        &mut self,
        rt: &T,
        alloc: Global,
        exchange: &Exchange<V, J>,
        day_context: &DayContext<'_, B>,
        text: &[u8],
    ) {
        self.lines = self.lines.saturating_add(1);
        if let Err(why) = self.send_line(rt, alloc, exchange, day_context, text) {
            day_context.notice_sink.post(Notice::Refused {
                line: self.lines,
                why,
            });
        }
        self.overlong = false;
    }

    // Takes the lines that are whole with the next piece of the input. Of a line that is too long the rest is awaited,
    // and thrown away.
    fn take_piece<J: Journal + Drop, B: NoticeSink, T: Wait>(
        &mut self,
        rt: &T,
        alloc: Global,
        exchange: &Exchange<V, J>,
        day_context: &DayContext<'_, B>,
        piece: &[u8],
    ) -> Result<(), ServeError> {
        let mut text = Vec::from_slice(alloc, &self.pending)?;
        text.extend_from_slice(piece)?;
        let mut rest = text.as_slice();
        for _ in 0..text.len() {
            let Some((line, others)) = split_once(rest, b'\n') else {
                break;
            };
            self.take_line(rt, alloc, exchange, day_context, line);
            rest = others;
        }
        if rest.len() > LONGEST_LINE {
            self.overlong = true;
            rest = &[];
        }
        self.pending = Vec::from_slice(alloc, rest)?;
        Ok(())
    }

    // Reads the input to its end, or to a fault of it, in at most `day_context.turns` reads.
    fn read_all<J: Journal + Drop, B: NoticeSink, R: Read, T: Wait>(
        &mut self,
        rt: &T,
        alloc: Global,
        exchange: &Exchange<V, J>,
        day_context: &DayContext<'_, B>,
        input: &mut R,
    ) -> Result<(), ServeError> {
        let mut chunk = [0; PIECE];
        for _ in 0..day_context.turns {
            match input.read(&mut chunk) {
                Ok(0) => return Ok(()),
                Ok(count) => {
                    self.take_piece(rt, alloc, exchange, day_context, &chunk[..count])?;
                }
                Err(error) if error.kind() == ErrorKind::Interrupted => {}
                Err(_) => return Err(ServeError::Read),
            }
            if exchange.is_closed(rt) {
                return Ok(());
            }
        }
        Err(ServeError::Turns)
    }

    // Sends all codes of the hours, of which those that are past do nothing.
    fn send_hours<J: Journal + Drop, B, T: Wait>(
        &mut self,
        rt: &T,
        exchange: &Exchange<V, J>,
        day_context: &DayContext<'_, B>,
        time: u64,
    ) {
        for code in HOURS {
            let event = Event::Hours { time, code };
            if !exchange.is_closed(rt) && exchange.submit(rt, &mut self.pass, &event).is_ok() {
                day_context.trading_status.note(day_context.setup, &event);
            }
        }
    }
}

/// Reads the operator's input, and sends the event of each line by the operator's pass; a line that is bad or refused
/// is reported, and the next one is read. If the input ends, or fails, before code `C` is past, the remaining codes are
/// sent: so the day ends, unless it stays open without an input. If the journal has failed, nothing more is read or
/// sent. Gives the pass back, and what was wrong with the input itself.
pub fn conduct<V: Venue, J: Journal + Drop, B: NoticeSink, R: Read, T: Wait + Clock>(
    rt: &T,
    alloc: Global,
    exchange: &Exchange<V, J>,
    day_context: &DayContext<'_, B>,
    times: Times<'_>,
    pass: Pass<V>,
    input: &mut R,
) -> (Pass<V>, Option<ServeError>) {
    let mut conductor = Conductor {
        pass,
        lines: 0,
        pending: Vec::new(alloc),
        overlong: false,
    };
    let fault = conductor
        .read_all(rt, alloc, exchange, day_context, input)
        .err();
    if day_context.stays_open {
        return (conductor.pass, fault);
    }
    if !exchange.is_closed(rt) {
        day_context.notice_sink.post(Notice::Closing);
    }
    for _ in 0..u64::MAX {
        if exchange.is_closed(rt) {
            break;
        }
        let time = DayClock::of(rt, times).time_of_day();
        conductor.send_hours(rt, exchange, day_context, time);
        thread::sleep(rt, Duration::from_millis(AGAIN));
    }
    (conductor.pass, fault)
}
