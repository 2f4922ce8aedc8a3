//! The login of a session.
ghost use Rattle.std.specs.Prelude.{ℕ, List, Result, Err, IfErr, IsSome, ◌≡◌, ◌⊎◌, ◌+◌, ◌<◌, ◌≤◌, ◌^◌, ◌++◌, [], length, IfOk, OnErr};
ghost use mathlib.Core.List.{IsPrefix};
ghost use Rattle.hx_sessions.specs.Starts.{start_of};
ghost use Rattle.hx_desk.specs.Known.{known_replies};
ghost use Rattle.hx_sessions.specs.Frames.{day_over};
ghost use Rattle.hx_sessions.specs.Logins.{LogsIn, Opens, NoLogin, ReadsFirst, FailsFirst};
ghost use Rattle.hx_sessions.specs.Served.{Admits, Dismisses};

use crate::beginning::Start;
use crate::copies::{Logins, read_by};
use crate::ending::{Ended, Fault, Stop};
use crate::inbound::is_passing;
use crate::intake::{Action, Intake};
use crate::login::start;
use hx_blog::Reader;
use hx_engine::{Entry, Exchange, Journal, Venue};
use hx_soup::{Framer, FramerError, LoginRequest, accepted, rejected};
use hx_units::{WriteFailed, write_whole};
use std::alloc::Global;
use std::io::{Read, Write};
use std::sync::Wait;

// The bytes of a login packet. No byte after them is read with it.
const LOGIN: usize = 49;

// Reads once: returns the login, if it is whole now, and the number of bytes that came.
fn read_more<R: Read>(
    alloc: Global,
    input: &mut R,
    framer: &mut Framer,
    space: &mut [u8],
) -> Result<(Option<LoginRequest>, usize), Stop>
    requires framer { IsSome framer.old }
    requires space { 0 < length space.old }
    ensures ok { IfOk result (λ r.
        ReadsFirst (R.remaining input.old) (R.remaining input.new) framer.old framer.new
        (length space.old) r.0 r.1) }
    ensures err { IfErr result (FailsFirst (R.remaining input.old) (R.remaining input.new)) }
{
    match input.read(space) {
        Ok(0) => Err(Stop::Ended(Ended::ReaderEnd)),
        Ok(count) => {
            let piece = &space[..count];
            match framer.feed(alloc, piece) {
                Ok(packets) => match packets.first() {
                    Some(packet) => match Intake::new().packet(packet) {
                        Action::Login(login) => Ok((Some(login), count)),
                        _ => Err(Stop::Faulted(Fault::Framing)),
                    },
                    None => Ok((None, count)),
                },
                Err(FramerError::NoMemory) => Err(Stop::Faulted(Fault::NoMemory)),
                Err(_) => Err(Stop::Faulted(Fault::Framing)),
            }
        }
        Err(error) => {
            if is_passing(&error) {
                return Ok((None, 0));
            }
            Err(Stop::Faulted(Fault::Read))
        }
    }
}

/// Reads the first packet, which must be a login, and no byte after it. Returns the reads that are left. After each
/// read that leaves less than a login it looks whether the day is over, or the journal has failed, and stops then: a
/// silent client does not hold up the end of the day.
pub fn read_login<V: Venue, J: Journal + Drop, R: Read, T: Wait>(
    rt: &T,
    alloc: Global,
    exchange: &Exchange<V, J>,
    input: &mut R,
    reader: &mut Reader<Entry>,
    turns: u64,
) -> Result<(LoginRequest, u64), Stop>
    requires { reader.old.log ≡ V.log }
    ensures log { reader.new.log ≡ V.log }
    ensures known { IsPrefix reader.old.known reader.new.known }
    ensures ok { IfOk result (λ r. LogsIn (R.remaining input.old) (R.remaining input.new) r.0) }
    ensures err { IfErr result (NoLogin (day_over V.setup reader.new.known)
        (R.remaining input.old) (R.remaining input.new)) }
{
    let mut framer = Framer::new();
    let mut buffer = [0; LOGIN];
    let mut retained = 0;
    for turn in 0..turns {
        if retained >= LOGIN {
            return Err(Stop::Faulted(Fault::Framing));
        }
        let space = &mut buffer[retained..];
        match read_more(alloc, input, &mut framer, space) {
            Ok((Some(login), _count)) => return Ok((login, turns - turn - 1)),
            Ok((None, count)) => {
                retained += count;
                if exchange.failure(rt).is_some() {
                    return Err(Stop::Faulted(Fault::Stopped));
                }
                if exchange.is_over(rt, reader) {
                    return Err(Stop::Ended(Ended::DayEnd));
                }
            }
            Err(stop) => return Err(stop),
        }
    }
    Err(Stop::Faulted(Fault::Turns))
}

/// Where the session of a login begins, or the letter of its rejection. The reader knows the replies that are there.
pub fn open<V: Venue, J: Journal + Drop, T: Wait>(
    rt: &T,
    exchange: &Exchange<V, J>,
    logins: &Logins<'_>,
    reader: &mut Reader<Entry>,
    login: &LoginRequest,
) -> Result<Start, u8>
    requires { reader.old.log ≡ V.log }
    ensures log { reader.new.log ≡ V.log }
    ensures known { IsPrefix reader.old.known reader.new.known }
    ensures ok { IfOk result
        (λ s. Opens V.setup logins.now.setup.now logins.now.copies.now login.now
        reader.new.known s) }
    ensures err { IfErr result (λ reason.
        (replies : ℕ) × (start_of logins.now.setup.now login.now replies ≡ Err reason)) }
{
    let replies = match logins.setup.login(&login.user, &login.password) {
        Some(member) => {
            let member = read_by(logins.copies, member);
            exchange.news(rt, reader, member).replies
        }
        None => 0,
    };
    start(logins.setup, login, replies)
}

/// The two directions of a connection.
#[derive(Drop)]
pub struct Line<R, W> {
    pub input: R,
    pub output: W,
}

/// Logs a client in, and answers it. Returns the beginning of its session and the reads that are left, or how the
/// session ends here.
pub fn admit<V: Venue, J: Journal + Drop, R: Read, W: Write, T: Wait>(
    rt: &T,
    alloc: Global,
    exchange: &Exchange<V, J>,
    logins: &Logins<'_>,
    line: &mut Line<R, W>,
    reader: &mut Reader<Entry>,
    turns: u64,
) -> Result<(Start, u64), Result<Ended, Fault>>
    requires log { reader.old.log ≡ V.log }
    ensures log { reader.new.log ≡ V.log }
    ensures known { IsPrefix reader.old.known reader.new.known }
    ensures ok { IfOk result (λ r.
        Admits V.setup logins.now.setup.now logins.now.copies.now (R.remaining line.old.input)
        (R.remaining line.new.input)
        (W.contents line.old.output) (W.contents line.new.output) reader.new.known r.0) }
    ensures err { IfErr result
        (Dismisses V.setup logins.now.setup.now logins.now.copies.now
        (R.remaining line.old.input) (R.remaining line.new.input)
        (W.contents line.old.output) (W.contents line.new.output) reader.new.known) }
{
    let (login, left) = match read_login(rt, alloc, exchange, &mut line.input, reader, turns) {
        Ok(read) => read,
        Err(Stop::Ended(ended)) => return Err(Ok(ended)),
        Err(Stop::Faulted(fault)) => return Err(Err(fault)),
        Err(Stop::PeerStopped) => return Err(Err(Fault::Turns)),
    };
    match open(rt, exchange, logins, reader, &login) {
        Ok(begun) => {
            let frame = accepted(*logins.setup.session(), begun.first);
            match write_whole(&mut line.output, frame.as_slice()) {
                Ok(()) => Ok((begun, left)),
                Err(WriteFailed) => Err(Err(Fault::Write)),
            }
        }
        Err(reason) => {
            let frame = rejected(reason);
            match write_whole(&mut line.output, frame.as_slice()) {
                Ok(()) => Err(Err(Fault::NotAuthorized { reason })),
                Err(WriteFailed) => Err(Err(Fault::Write)),
            }
        }
    }
}
