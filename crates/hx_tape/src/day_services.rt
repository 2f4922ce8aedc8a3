//! What the command line says an open day has besides its acceptors.

use crate::failure::Failure;
use clap::ArgMatches;
use hx_listener::address_of;
use hx_members::Setup;
use hx_operator::{OperatorSocket, Schedule, read_schedule};
use hx_serve::{DayServices, Duties, Metrics};
use hx_sessions::DropCopy;
use hx_units::MemberNo;
use std::alloc::Global;
use std::hash::RandomState;
use std::net::{Net, TcpListener, TcpStream};
use std::random::RandomSource;
use std::rt::Files;
use std::{fs, io};

// The letters of a user's name (SoupBinTCP 3.00, Login Request Packet).
const USER: usize = 6;

// The schedule that the command line names.
fn schedule_of<R: AllocGlobal + Files>(
    rt: &R,
    matches: &ArgMatches<'_>,
) -> Result<Option<Schedule>, Failure> {
    let Some(path) = matches.get_str("schedule") else {
        return Ok(None);
    };
    match fs::read(rt, path) {
        Ok(text) => Ok(Some(read_schedule(rt.alloc(), &text)?)),
        Err(error) if error.kind() == io::ErrorKind::OutOfMemory => Err(Failure::NoMemory),
        Err(_) => Err(Failure::NoSchedule),
    }
}

// The operator's socket that the command line names.
fn socket_of<R: AllocGlobal + Net + Files<File = fs::File>>(
    rt: &R,
    matches: &ArgMatches<'_>,
) -> Result<Option<OperatorSocket>, Failure> {
    match matches.get_str("operator") {
        Some(path) => Ok(Some(OperatorSocket::open(rt, path)?)),
        None => Ok(None),
    }
}

// Where the command line says that the day shows its figures.
fn metrics_of<R: Net<Listener = TcpListener, Stream = TcpStream> + RandomSource>(
    rt: &R,
    matches: &ArgMatches<'_>,
) -> Result<Option<Metrics>, Failure> {
    let Some(word) = matches.get_str("metrics") else {
        return Ok(None);
    };
    let flag = "--metrics";
    let address = address_of(word).ok_or(Failure::NoAddress { flag })?;
    let Ok(keys) = RandomState::new(rt) else {
        return Err(Failure::NoMetrics);
    };
    match TcpListener::bind(rt, address) {
        Ok(listener) => Ok(Some(Metrics { listener, keys })),
        Err(_) => Err(Failure::NoMetrics),
    }
}

/// What an open day has besides its acceptors: nothing, if the day is not open.
pub fn day_services_of<
    R: AllocGlobal
        + Net<Listener = TcpListener, Stream = TcpStream>
        + Files<File = fs::File>
        + RandomSource,
>(rt: &R, matches: &ArgMatches<'_>) -> Result<DayServices, Failure> {
    if !matches.get_flag("open") {
        return Ok(DayServices::none());
    }
    let schedule = schedule_of(rt, matches)?;
    let metrics = metrics_of(rt, matches)?;
    let socket = socket_of(rt, matches)?;
    Ok(DayServices {
        duties: Duties {
            socket,
            schedule,
            tick: u64::from(matches.get_one::<u32>("tick").unwrap_or(0)),
            grace: u64::from(matches.get_one::<u32>("grace").unwrap_or(0)),
        },
        metrics,
    })
}

// The member whose user has this name.
fn member_of(setup: &Setup, user: &str) -> Option<MemberNo> {
    let bytes = user.as_bytes();
    if bytes.is_empty() || bytes.len() > USER {
        return None;
    }
    let mut name = [b' '; USER];
    name[..bytes.len()].copy_from_slice(bytes);
    for member in setup.members() {
        if member.user.eq_ignore_ascii_case(&name) {
            return Some(member.number);
        }
    }
    None
}

// The drop copy of a word, as `1=BRAVO`.
fn copy_of(setup: &Setup, word: &str) -> Option<DropCopy> {
    let (number, user) = word.split_once('=')?;
    let member = MemberNo::of(number.parse::<u16>().ok()?)?;
    setup.member(member)?;
    let login = member_of(setup, user)?;
    Some(DropCopy { login, member })
}

/// The drop copies that the command line asks for.
pub fn copies_of(
    alloc: Global,
    setup: &Setup,
    matches: &ArgMatches<'_>,
) -> Result<Vec<DropCopy>, Failure> {
    let mut copies = Vec::new(alloc);
    for word in matches.get_strs("drop-copy").unwrap_or(&[]) {
        match copy_of(setup, word) {
            Some(copy) => copies.push(copy)?,
            None => {
                return Err(Failure::NoCopy {
                    word: String::from_str(alloc, word)?,
                });
            }
        }
    }
    Ok(copies)
}
