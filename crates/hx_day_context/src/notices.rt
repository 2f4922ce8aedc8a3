//! What is reported to the operator as it happens.
ghost use Rattle.std.specs.Prelude.{◌≡◌};
ghost use Rattle.hx_day_context.specs.Faults.{fault_number};

use hx_listener::{ConnectionNotices, Left};
use hx_sessions::{Ended, Fault, Gate};
use hx_units::MemberNo;
use log::{Log, info};
use std::fmt;
use std::fmt::{Display, Formatter};
use std::net::SocketAddr;

/// Something that is reported to the operator. Nothing in it is secret: no order, no password.
#[derive(Clone, Copy, Debug, PartialEq, Eq)]
pub enum Notice {
    /// A member has logged in.
    Opened {
        /// The member.
        member: MemberNo,
        /// From where.
        from: SocketAddr,
    },
    /// The session of a member has ended.
    Ended {
        /// The member.
        member: MemberNo,
        /// From where.
        from: SocketAddr,
        /// How.
        how: Ended,
    },
    /// A session has ended with a fault.
    Faulted {
        /// The number of the fault, 1 to 8.
        fault: u8,
        /// The member, if one had logged in.
        member: Option<MemberNo>,
        /// From where.
        from: SocketAddr,
    },
    /// A connection has ended before its login.
    Left {
        /// From where.
        from: SocketAddr,
        /// Why.
        why: Left,
    },
    /// A line of the operator was refused, and nothing of it is recorded.
    Refused {
        /// Its number, counted from 1.
        line: u64,
        /// Why.
        why: Refusal,
    },
    /// The operator's input has ended: the codes of the hours that are left are recorded.
    Closing,
    /// The time of a code of the schedule has come.
    Scheduled {
        /// The code.
        code: u8,
        /// Why it was not recorded, if it was not.
        why: Option<Refusal>,
    },
    /// The operator has ended a session.
    Dropped {
        /// The member.
        member: MemberNo,
        /// From where.
        from: SocketAddr,
    },
    /// A member may not log in now, and has tried.
    Forbidden {
        /// The member.
        member: MemberNo,
        /// From where.
        from: SocketAddr,
    },
    /// An answer to a request could not be sent.
    Unanswered {
        /// The requester's address.
        to: SocketAddr,
    },
    /// More requests came than are answered, in some second.
    Crowd,
    /// The journal is being read.
    Reading {
        /// This number of events are.
        events: u64,
    },
    /// The day goes on from its journal.
    Resumed {
        /// The number of events.
        events: u64,
        /// The number of messages of the feed.
        feed: u64,
    },
    /// The log is read as records come, until the active server is gone.
    StandingBy,
    /// This server takes over.
    Active {
        /// The number of events, which are applied next.
        events: u64,
    },
    /// The disk has no room for the journal: nothing is published until there is room.
    JournalWaits,
    /// There is room again.
    JournalGoesOn,
    /// There is no setup: the passwords are those of the standard one, which everybody can read.
    StandardSetup,
    /// Other machines can reach the day.
    OpenToOthers,
    /// A packet of the feed could not be sent to one of its addresses.
    Unsent {
        /// To which.
        to: SocketAddr,
    },
}

/// Why a line of the operator was refused.
#[derive(Clone, Copy, Debug, PartialEq, Eq)]
pub enum Refusal {
    /// It is no line of an operator.
    Bad,
    /// Its time is not within the day.
    Time,
    /// The log has no room for its feed messages.
    Full,
    /// A growth was refused.
    NoMemory,
    /// The journal failed: nothing more is published.
    Journal,
    /// The market refused it otherwise.
    Other,
}

impl Display for Refusal {
    fn fmt<W: fmt::Write>(&self, f: &mut Formatter<W>) -> fmt::Result {
        f.write_str(match self {
            Refusal::Bad => "bad line",
            Refusal::Time => "bad time",
            Refusal::Full => "feed full",
            Refusal::NoMemory => "no memory",
            Refusal::Journal => "journal failed",
            Refusal::Other => "refused",
        })
    }
}

// How a session ended, in words.
fn how_of(how: Ended) -> &'static str {
    match how {
        Ended::Logout => "logged out",
        Ended::ReaderEnd => "hung up",
        Ended::DayEnd => "the day is over",
    }
}

impl Display for Notice {
    fn fmt<W: fmt::Write>(&self, f: &mut Formatter<W>) -> fmt::Result {
        match self {
            Notice::Opened { member, from } => {
                let member = member.get();
                write!(f, "session open member {member} from {from}")
            }
            Notice::Ended { member, from, how } => {
                let (member, how) = (member.get(), how_of(*how));
                write!(f, "session end member {member} from {from}: {how}")
            }
            Notice::Faulted {
                fault,
                member: Some(member),
                from,
            } => {
                let member = member.get();
                write!(f, "session fault {fault} member {member} from {from}")
            }
            Notice::Faulted {
                fault,
                member: None,
                from,
            } => write!(f, "session fault {fault} from {from}"),
            Notice::Left { from, why } => write!(f, "connection from {from} closed: {why}"),
            Notice::Refused { line, why } => write!(f, "operator line {line}: {why}"),
            Notice::Closing => f.write_str("operator input ended: the hours are ended"),
            Notice::Scheduled { code, why } => {
                let code = char::from(*code);
                match why {
                    None => write!(f, "hours {code} by the schedule"),
                    Some(why) => write!(f, "hours {code} by the schedule: {why}"),
                }
            }
            Notice::Dropped { member, from } => {
                let member = member.get();
                write!(
                    f,
                    "session end member {member} from {from}: ended by the operator"
                )
            }
            Notice::Forbidden { member, from } => {
                let member = member.get();
                write!(
                    f,
                    "login of member {member} from {from} refused by the operator"
                )
            }
            Notice::Unanswered { to } => write!(f, "answer to {to} not sent"),
            Notice::Crowd => f.write_str("more requests than are answered"),
            Notice::Reading { events } => write!(f, "journal read up to event {events}"),
            Notice::Resumed { events, feed } => {
                write!(f, "resumed at event {events}, feed {feed}")
            }
            Notice::StandingBy => f.write_str("standing by"),
            Notice::Active { events } => write!(f, "in office with {events} events"),
            Notice::JournalWaits => f.write_str(
                "journal full: nothing is told until there is room",
            ),
            Notice::JournalGoesOn => f.write_str("journal has room again"),
            Notice::StandardSetup => f.write_str("no setup: the passwords are the published ones"),
            Notice::OpenToOthers => f.write_str(
                "open to other machines: put a line that encrypts before it (see OPERATING)",
            ),
            Notice::Unsent { to } => write!(f, "feed to {to} not sent"),
        }
    }
}

/// A notice as an object of JSON (RFC 8259), on one line.
#[derive(Clone, Copy, Drop)]
pub struct Json {
    /// The notice.
    pub notice: Notice,
}

impl Display for Json {
    fn fmt<W: fmt::Write>(&self, f: &mut Formatter<W>) -> fmt::Result {
        match self.notice {
            Notice::Opened { member, from } => {
                let member = member.get();
                write!(
                    f,
                    "{{\"notice\":\"session open\",\"member\":{member},\"from\":\"{from}\"}}"
                )
            }
            Notice::Ended { member, from, how } => {
                let (member, how) = (member.get(), how_of(how));
                write!(
                    f,
                    "{{\"notice\":\"session end\",\"member\":{member},\"from\":\"{from}\",\"how\":\"{how}\"}}"
                )
            }
            Notice::Faulted {
                fault,
                member: Some(member),
                from,
            } => {
                let member = member.get();
                write!(
                    f,
                    "{{\"notice\":\"session fault\",\"fault\":{fault},\"member\":{member},\"from\":\"{from}\"}}"
                )
            }
            Notice::Faulted {
                fault,
                member: None,
                from,
            } => write!(
                f,
                "{{\"notice\":\"session fault\",\"fault\":{fault},\"from\":\"{from}\"}}"
            ),
            Notice::Left { from, why } => write!(
                f,
                "{{\"notice\":\"connection closed\",\"from\":\"{from}\",\"why\":\"{why}\"}}"
            ),
            Notice::Refused { line, why } => write!(
                f,
                "{{\"notice\":\"operator line\",\"line\":{line},\"why\":\"{why}\"}}"
            ),
            Notice::Unanswered { to } => {
                write!(f, "{{\"notice\":\"answer not sent\",\"to\":\"{to}\"}}")
            }
            Notice::Unsent { to } => {
                write!(f, "{{\"notice\":\"feed not sent\",\"to\":\"{to}\"}}")
            }
            Notice::Reading { events } => {
                write!(f, "{{\"notice\":\"journal read\",\"events\":{events}}}")
            }
            Notice::Resumed { events, feed } => write!(
                f,
                "{{\"notice\":\"resumed\",\"events\":{events},\"feed\":{feed}}}"
            ),
            Notice::Active { events } => {
                write!(f, "{{\"notice\":\"in office\",\"events\":{events}}}")
            }
            Notice::Dropped { member, from } => {
                let member = member.get();
                write!(
                    f,
                    "{{\"notice\":\"session end\",\"member\":{member},\"from\":\"{from}\",\"how\":\"ended by the operator\"}}"
                )
            }
            Notice::Forbidden { member, from } => {
                let member = member.get();
                write!(
                    f,
                    "{{\"notice\":\"login refused by the operator\",\"member\":{member},\"from\":\"{from}\"}}"
                )
            }
            Notice::Closing
            | Notice::Scheduled { .. }
            | Notice::Crowd
            | Notice::StandingBy
            | Notice::JournalWaits
            | Notice::JournalGoesOn
            | Notice::StandardSetup
            | Notice::OpenToOthers => {
                let notice = self.notice;
                write!(f, "{{\"notice\":\"{notice}\"}}")
            }
        }
    }
}

/// Where notices go.
pub trait NoticeSink {
    /// Reports a notice to the operator.
    fn post(&self, notice: Notice);

    /// The journal was synced, which took this number of nanoseconds.
    fn synced(&self, _nanoseconds: u64) {}
}

/// The notice sink of the acceptor: it posts a notice of each connection that the acceptor closed.
#[derive(Clone, Copy)]
pub struct AcceptorNotices<'a, B> {
    /// Where the notices go.
    pub notice_sink: &'a B,
}

impl<'a, B: NoticeSink> ConnectionNotices for AcceptorNotices<'a, B> {
    fn tell_left(&self, from: SocketAddr, why: Left) {
        self.notice_sink.post(Notice::Left { from, why });
    }
}

/// A gate that holds nothing, and a notice sink that writes each notice as a line of the log.
#[derive(Clone, Copy)]
pub struct Notices<'a, T> {
    /// Where the notices go.
    pub rt: &'a T,
}

impl<'a, T: Log> Gate for Notices<'a, T> {
    fn opened(&self, member: MemberNo) {
        info!(self.rt; "session open member {}", member.get());
    }

    fn before(&self, _member: MemberNo, _number: u64) {}

    fn after(&self, _member: MemberNo, _number: u64) {}
}

impl<'a, T: Log> NoticeSink for Notices<'a, T> {
    fn post(&self, notice: Notice) {
        info!(self.rt; "{}", notice);
    }
}

/// A notice sink that writes each notice as an object of JSON, on a line of standard error.
#[derive(Clone, Copy)]
pub struct JsonNotices<'a, T> {
    /// The runtime whose standard error it is.
    pub rt: &'a T,
}

impl<'a, T: Eprint> NoticeSink for JsonNotices<'a, T> {
    fn post(&self, notice: Notice) {
        let _ = self.rt.eprintln(Json { notice });
    }
}

/// A gate that holds nothing, and a notice sink that drops all notices.
#[derive(Clone, Copy, Drop)]
pub struct Silent;

impl Gate for Silent {
    fn before(&self, _member: MemberNo, _number: u64) {}

    fn after(&self, _member: MemberNo, _number: u64) {}
}

/// The number by which a fault of a session is reported.
pub fn fault_number(fault: &Fault) -> u8
    ensures { result ≡ fault_number fault.now }
{
    match fault {
        Fault::Read => 1,
        Fault::Write => 2,
        Fault::Framing => 3,
        Fault::NotAuthorized { .. } => 4,
        Fault::NoMemory => 5,
        Fault::Turns => 6,
        Fault::Refused(_) => 7,
        Fault::Stopped => 8,
    }
}

/// Logs how a session ended: of a member who was logged in, or with a fault.
pub fn tell_end<T: Log>(rt: &T, member: Option<MemberNo>, how: &Result<Ended, Fault>) {
    match how {
        Ok(_) => {
            if let Some(member) = member {
                info!(rt; "session end member {}", member.get());
            }
        }
        Err(fault) => info!(rt; "session fault {}", fault_number(fault)),
    }
}

/// The notice of a session's end: none if nobody had logged in and nothing was wrong.
pub fn notice_of_end(
    member: Option<MemberNo>,
    from: SocketAddr,
    how: &Result<Ended, Fault>,
) -> Option<Notice> {
    match how {
        Ok(how) => {
            let how = *how;
            member.map(|member| Notice::Ended { member, from, how })
        }
        Err(fault) => Some(Notice::Faulted {
            fault: fault_number(fault),
            member,
            from,
        }),
    }
}
