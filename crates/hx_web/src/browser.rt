//! A browser that receives changes by a WebSocket (RFC 6455).

use bytes::{Buf, ByteStr, BytesMut};
use http_server::Rope;
use hx_market_view::{MarketView, PACE};
use std::alloc::Global;
use std::io;
use std::io::{ErrorKind, Write};
use std::net::TcpStream;
use std::time::{Duration, Instant};
use websocket::error::Error;
use websocket::protocol::frame::{FrameStatus, NoMask};
use websocket::protocol::{Message, Role, WebSocketConfig, WebSocketContext};

// What a browser says is at most so long, in bytes: nothing is done with it.
const SAID: usize = 1024;

// While more bytes than this wait to be sent, a browser is not read: what it says is answered at once.
const PENDING: usize = 4096;

// How many frames of a browser are read in one look at most.
const FRAMES: u32 = 16;

// How often a browser is read and written in one look at most.
const TURNS: u32 = 16;

// After this time without a word, in seconds, a browser is asked whether it is there.
const QUIET: u64 = 15;

// After this time, in seconds, it is gone.
const GONE: u64 = 40;

/// A browser.
#[derive(Drop)]
pub struct Browser {
    context: WebSocketContext,
    input: BytesMut,
    output: Rope,
    // The change of the market view that it was sent last.
    seen: u64,
    reported: Option<Instant>,
    heard: Instant,
    asked: Instant,
}

// The number of bytes moved; none if that would wait.
fn moved(moving: io::Result<usize>) -> io::Result<Option<usize>> {
    match moving {
        Ok(count) => Ok(Some(count)),
        Err(error) => match error.kind() {
            ErrorKind::WouldBlock | ErrorKind::TimedOut | ErrorKind::Interrupted => Ok(None),
            _ => Err(error),
        },
    }
}

impl Browser {
    /// A browser that was sent nothing, with the bytes that came after its request, and those of the answer that it has
    /// not got.
    pub fn new(alloc: Global, input: BytesMut, output: Rope, now: Instant) -> Browser {
        let config = WebSocketConfig::default()
            .max_message_size(Some(SAID))
            .max_frame_size(Some(SAID));
        Browser {
            context: WebSocketContext::new(alloc, Role::Server, config),
            input,
            output,
            seen: 0,
            reported: None,
            heard: now,
            asked: now,
        }
    }

    // Takes the frames that have come whole. What they say does not matter.
    fn take_frames(&mut self) -> Result<(), Error> {
        for _ in 0..FRAMES {
            let input = self.input.as_mut_slice();
            match self.context.read(input, &mut self.output, &mut NoMask)? {
                FrameStatus::Partial(_) => return Ok(()),
                FrameStatus::Complete(step) => {
                    let count = step.consumed.min(self.input.len());
                    self.input.advance(count);
                }
            }
        }
        Ok(())
    }

    // Reads once, if not too much waits. Returns whether something came, or none if the other side has ended.
    fn read(&mut self, stream: &mut TcpStream, now: Instant) -> io::Result<Option<bool>> {
        if self.output.remaining() > PENDING {
            return Ok(Some(false));
        }
        self.input.reserve(SAID)?;
        match moved(self.input.read_from(stream))? {
            Some(0) => Ok(None),
            Some(_) => {
                self.heard = now;
                Ok(Some(true))
            }
            None => Ok(Some(false)),
        }
    }

    // Writes what waits, as far as that does not wait. Returns whether something went.
    fn write(&mut self, stream: &mut TcpStream) -> io::Result<bool> {
        if self.output.is_empty() {
            return Ok(false);
        }
        match moved(stream.write(self.output.chunk()))? {
            Some(count) => {
                let count = count.min(self.output.remaining());
                self.output.advance(count);
                Ok(count > 0)
            }
            None => Ok(false),
        }
    }

    fn say(&mut self, text: &ByteStr) -> Result<(), Error> {
        let Ok(shared) = text.as_bytes().clone() else {
            return Err(Error::OutOfMemory);
        };
        let message = Message::Text(text.as_str());
        self.context
            .write_vectored(message, &mut self.output, &mut NoMask)?;
        match self.output.push(shared) {
            Ok(()) => Ok(()),
            Err(_) => Err(Error::OutOfMemory),
        }
    }

    // Sends all that has changed since it was sent changes last, and at the end how far the feed is.
    fn tell(&mut self, market_view: &MarketView) -> Result<(), Error> {
        for sheet in &market_view.sheets {
            if sheet.change > self.seen {
                self.say(&sheet.text)?;
            }
        }
        if market_view.feed_change > self.seen {
            self.say(&market_view.feed)?;
        }
        self.seen = market_view.changes;
        Ok(())
    }

    // Whether changes may be sent now: all that was sent before has gone out, and that was long enough ago.
    fn is_due(&self, market_view: &MarketView, now: Instant) -> bool {
        self.context.can_write()
            && self.output.is_empty()
            && market_view.changes > self.seen
            && match &self.reported {
                Some(reported) => {
                    now.saturating_duration_since(*reported) >= Duration::from_millis(PACE)
                }
                None => true,
            }
    }

    // Asks whether it is there, if it was not heard for long.
    fn ask(&mut self, now: Instant) -> Result<(), Error> {
        let quiet = Duration::from_secs(QUIET);
        let is_quiet = now.saturating_duration_since(self.heard) >= quiet
            && now.saturating_duration_since(self.asked) >= quiet;
        if is_quiet && self.output.is_empty() && self.context.can_write() {
            self.asked = now;
            self.context
                .write(Message::Ping(&[]), &mut self.output, &mut NoMask)?;
        }
        Ok(())
    }

    // Says what there is to say.
    fn speak(&mut self, market_view: &MarketView, now: Instant) -> Result<(), Error> {
        if self.is_due(market_view, now) {
            self.tell(market_view)?;
            self.reported = Some(now);
        }
        self.ask(now)
    }

    /// Sends it all that has changed, and then that nothing more comes.
    pub fn end(&mut self, market_view: &MarketView) {
        if self.context.can_write() && self.tell(market_view).is_ok() {
            let _ = self.context.close(None, &mut self.output, &mut NoMask);
        }
    }

    /// Whether all that it was sent has gone out.
    pub fn is_reported(&self) -> bool {
        self.output.is_empty()
    }

    /// Reads, sends and writes, as far as that does not wait. Returns whether it is still there.
    pub fn attend(
        &mut self,
        stream: &mut TcpStream,
        market_view: &MarketView,
        now: Instant,
    ) -> bool {
        for _ in 0..TURNS {
            let Ok(Some(came)) = self.read(stream, now) else {
                return false;
            };
            let has_failed = self.take_frames().is_err() || self.speak(market_view, now).is_err();
            let Ok(went) = self.write(stream) else {
                return false;
            };
            if has_failed {
                return false;
            }
            if !came && !went {
                break;
            }
        }
        now.saturating_duration_since(self.heard) < Duration::from_secs(GONE)
    }
}
