//! A watch: the feed's datagrams come in, missing messages are requested, and changes are reported.

mod fault;
mod observer;
mod quotes;
mod requests;
mod text;

use crate::datagrams::{AHEAD, DATAGRAM, hear, now, session_of};
use crate::watching::observer::{Nobody, Observer, Progress, WebObserver};
use crate::watching::quotes::Quotes;
use crate::watching::requests::Requests;
use crate::watching::text::{Depth, Name};
pub use fault::WatchError;
use hx_itch::Feed;
use hx_market_view::{Post, Recorder};
use hx_mold::encode_request;
use hx_reader::Screen;
use hx_units::Symbol;
use hx_web::serve_web;
use std::alloc::Global;
use std::hash::RandomState;
use std::io;
use std::io::{ErrorKind, Write};
use std::net::{Ipv4Addr, Net, TcpListener, TcpStream, UdpSocket};
use std::sync::Wait;
use std::thread::{Threads, join};
use std::time::{Clock, Duration, Instant};

// The longest wait for a datagram, in milliseconds.
const WAIT: u64 = 5;

// A feed that is silent for this time, in seconds, has no sender: it would send heartbeats.
const SILENCE: u64 = 5;

/// What is watched.
#[derive(Clone, Copy)]
pub struct WatchArgs {
    /// The UDP port, at 127.0.0.1, that the feed comes to.
    pub feed: u16,
    /// The UDP port, at 127.0.0.1, of requests.
    pub requests: u16,
    /// The one stock whose depth is reported; without one, the best prices of all stocks are.
    pub stock: Option<Symbol>,
}

// A socket of the feed, which waits for a short time.
fn bind<R: Net>(rt: &R, port: u16) -> io::Result<UdpSocket> {
    let socket = UdpSocket::bind(rt, (Ipv4Addr::new(127, 0, 0, 1), port))?;
    socket.set_read_timeout(Some(Duration::from_millis(WAIT)))?;
    Ok(socket)
}

// A watch of a session that was heard of.
#[derive(Drop)]
struct Watching {
    session: [u8; 10],
    screen: Screen,
    quotes: Quotes,
    requests: Requests,
    heard: Instant,
}

impl Watching {
    // Reports what a message has changed.
    fn tell<W: Write>(
        &mut self,
        writer: &mut W,
        stock: Option<Symbol>,
        message: &Feed,
    ) -> Result<(), WatchError> {
        let Some(change) = self.quotes.note(message, &self.screen.book)? else {
            return Ok(());
        };
        let reported = match stock {
            Some(stock) if stock == change.stock => {
                let depth = Depth {
                    book: &self.screen.book,
                    locate: change.locate,
                };
                writeln!(writer, "{}{depth}", Name(stock))
            }
            None if change.is_new => writeln!(writer, "{change}"),
            _ => Ok(()),
        };
        match reported {
            Ok(()) => Ok(()),
            Err(_) => Err(WatchError::Write),
        }
    }

    // Hands out all messages that have come, and reports what they have changed.
    fn show<W: Write, O: Observer>(
        &mut self,
        writer: &mut W,
        observer: &mut O,
        stock: Option<Symbol>,
    ) -> Result<(), WatchError> {
        for _ in 0..u64::MAX {
            let (number, _) = self.screen.reader.progress();
            observer.look(&self.screen);
            match self.screen.step() {
                Ok(Some(message)) => {
                    observer.note(&message, &self.screen.book)?;
                    self.tell(writer, stock, &message)?;
                }
                Ok(None) => break,
                Err(fault) => return Err(WatchError::Screen { number, fault }),
            }
        }
        match writer.flush() {
            Ok(()) => Ok(()),
            Err(_) => Err(WatchError::Write),
        }
    }

    // Requests what is missing, if that is due.
    fn ask(&mut self, socket: &UdpSocket, port: u16, now: Instant) -> Result<(), WatchError> {
        let Some(request) = self.screen.reader.request() else {
            return Ok(());
        };
        if !self.requests.is_due(&request, now) {
            return Ok(());
        }
        self.requests.note(&request, now);
        let bytes = encode_request(request);
        match socket.send_to(bytes.as_slice(), (Ipv4Addr::new(127, 0, 0, 1), port)) {
            Ok(_) => Ok(()),
            Err(error) => match error.kind() {
                ErrorKind::WouldBlock | ErrorKind::Interrupted | ErrorKind::ConnectionRefused => {
                    Ok(())
                }
                _ => Err(WatchError::Network),
            },
        }
    }

    // How far it is.
    fn progress(&self, is_over: bool) -> Progress {
        Progress {
            session: self.session,
            asked: self.requests.count,
            is_over,
        }
    }

    // Whether nothing more is to come: all was handed out, or the feed has been silent for too
    // long.
    fn is_over(&self, now: Instant) -> bool {
        self.screen.reader.is_whole()
            || now.saturating_duration_since(self.heard) >= Duration::from_secs(SILENCE)
    }

    // Reports what has come, and requests what is missing. Returns whether nothing more is to come.
    fn turn<R: Clock, W: Write, O: Observer>(
        &mut self,
        rt: &R,
        args: &WatchArgs,
        socket: &UdpSocket,
        writer: &mut W,
        observer: &mut O,
    ) -> Result<bool, WatchError> {
        self.show(writer, observer, args.stock)?;
        let time = now(rt)?;
        let is_over = self.is_over(time);
        observer.hear(&self.screen, self.progress(is_over), time)?;
        if !is_over {
            self.ask(socket, args.requests, time)?;
        }
        Ok(is_over)
    }

    // Takes the next datagram in, if one comes in time.
    fn hear<R: Clock>(
        &mut self,
        rt: &R,
        socket: &UdpSocket,
        buffer: &mut [u8],
    ) -> Result<(), WatchError> {
        let Some(count) = hear(socket, buffer)? else {
            return Ok(());
        };
        if let Some(datagram) = buffer.get(..count) {
            self.screen.receive(datagram);
        }
        self.heard = now(rt)?;
        Ok(())
    }

    // Turn by turn, until nothing more is to come; then the last line. Datagrams come by this socket into this buffer.
    fn follow<R: Clock, W: Write, O: Observer>(
        &mut self,
        rt: &R,
        args: &WatchArgs,
        line: (&UdpSocket, &mut [u8]),
        writer: &mut W,
        observer: &mut O,
    ) -> Result<(), WatchError> {
        let (socket, buffer) = line;
        for _ in 0..u64::MAX {
            if self.turn(rt, args, socket, writer, observer)? {
                break;
            }
            self.hear(rt, socket, buffer)?;
        }
        write_end(writer, self)
    }
}

// The last line: how many messages were handed out, how many of all were asked for, and whether any
// is missing.
fn write_end<W: Write>(writer: &mut W, watching: &Watching) -> Result<(), WatchError> {
    let reader = &watching.screen.reader;
    let (next, reported) = reader.progress();
    let handed = next.saturating_sub(1);
    let missing = reported.saturating_sub(next);
    let asked = watching.requests.count;
    let written = if reader.is_whole() {
        writeln!(writer, "messages {handed}, asked for {asked}, none missing")
    } else if missing > 0 {
        writeln!(
            writer,
            "messages {handed}, asked for {asked}, missing {missing}"
        )
    } else {
        writeln!(
            writer,
            "messages {handed}, asked for {asked}, the end was not heard"
        )
    };
    match written {
        Ok(()) => match writer.flush() {
            Ok(()) => Ok(()),
            Err(_) => Err(WatchError::Write),
        },
        Err(_) => Err(WatchError::Write),
    }
}

// Waits for the first packet: the watch of its session, which has taken it.
fn first_heard<R: Clock>(
    rt: &R,
    alloc: Global,
    socket: &UdpSocket,
    buffer: &mut [u8],
) -> Result<Watching, WatchError> {
    for _ in 0..u64::MAX {
        let Some(count) = hear(socket, buffer)? else {
            continue;
        };
        let Some(datagram) = buffer.get(..count) else {
            continue;
        };
        let Some(session) = session_of(datagram) else {
            continue;
        };
        let mut screen = Screen::new(alloc, session, AHEAD)?;
        screen.receive(datagram);
        return Ok(Watching {
            session,
            screen,
            quotes: Quotes::new(alloc),
            requests: Requests::new(),
            heard: now(rt)?,
        });
    }
    Err(WatchError::Network)
}

// Watches a feed, with or without an observer.
fn watch_before<R: AllocGlobal + Net + Clock, W: Write, O: Observer>(
    rt: &R,
    args: &WatchArgs,
    writer: &mut W,
    observer: &mut O,
) -> Result<(), WatchError> {
    let alloc = rt.alloc();
    let Ok(socket) = bind(rt, args.feed) else {
        return Err(WatchError::Network);
    };
    let mut buffer = vec![in alloc; 0u8; DATAGRAM]?;
    let mut watching = first_heard(rt, alloc, &socket, &mut buffer)?;
    watching.follow(rt, args, (&socket, &mut buffer), writer, observer)
}

/// Watches a feed until its session has ended and nothing is missing, or until it has been silent for five seconds, and
/// writes what changes as lines of text. It waits for the first packet, of whichever session, for as long as none
/// comes.
pub fn watch<R: AllocGlobal + Net + Clock, W: Write>(
    rt: &R,
    args: &WatchArgs,
    writer: &mut W,
) -> Result<(), WatchError> {
    watch_before(rt, args, writer, &mut Nobody)
}

/// Watches a feed as `watch` does, and meanwhile serves its web page to all clients that connect there, from before the
/// first packet until at most a second after the end. The keys are secret: a peer chooses the names of its headers.
pub fn watch_on_page<
    R: AllocGlobal
        + Net<Listener = TcpListener, Stream = TcpStream>
        + Clock
        + Threads
        + Wait
        + Sync,
    W: Write,
>(
    rt: &R,
    args: &WatchArgs,
    writer: &mut W,
    listener: TcpListener,
    keys: RandomState,
) -> Result<(), WatchError> {
    let alloc = rt.alloc();
    let post = Post::new(alloc);
    let shared = &post;
    let (served, watched) = join(
        rt,
        move || {
            let served = serve_web(rt, alloc, listener, shared, keys);
            shared.close(rt);
            served
        },
        move || {
            let mut page = WebObserver {
                rt,
                post: shared,
                recorder: Recorder::new(alloc),
            };
            let watched = watch_before(rt, args, writer, &mut page);
            shared.end(rt);
            watched
        },
    );
    watched?;
    match served {
        Ok(()) => Ok(()),
        Err(_) => Err(WatchError::Network),
    }
}
