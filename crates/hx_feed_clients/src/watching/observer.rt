//! The observer of a feed that is watched: none, or the web page.

use crate::watching::fault::WatchError;
use hx_itch::{Feed, decode};
use hx_market_view::{Post, Recorder, Status};
use hx_reader::{FeedBook, Screen};
use std::sync::Wait;
use std::time::{Clock, Instant};

/// How far a feed is that is watched.
#[derive(Clone, Copy)]
pub struct Progress {
    /// Its session.
    pub session: [u8; 10],
    /// How many messages were asked for so far.
    pub asked: u64,
    /// Whether nothing more comes.
    pub is_over: bool,
}

/// An observer.
pub trait Observer {
    /// Looks at the screen before it takes its next step.
    fn look(&mut self, screen: &Screen);

    /// Hears of the message that the step has handed out, applied to the book.
    fn note(&mut self, message: &Feed, book: &FeedBook) -> Result<(), WatchError>;

    /// Hears how far the feed is.
    fn hear(&mut self, screen: &Screen, progress: Progress, now: Instant) -> Result<(), WatchError>;
}

/// Nobody looks on.
#[derive(Clone, Copy)]
pub struct Nobody;

impl Observer for Nobody {
    fn look(&mut self, _screen: &Screen) {}

    fn note(&mut self, _message: &Feed, _book: &FeedBook) -> Result<(), WatchError> {
        Ok(())
    }

    fn hear(
        &mut self,
        _screen: &Screen,
        _progress: Progress,
        _now: Instant,
    ) -> Result<(), WatchError> {
        Ok(())
    }
}

/// The web page observes.
#[derive(Drop)]
pub struct WebObserver<'a, R> {
    /// The runtime.
    pub rt: &'a R,
    /// The post by which the web page gets its news.
    pub post: &'a Post,
    /// What was seen.
    pub recorder: Recorder,
}

// How far a feed is, for the web page, which knows the hours and the time itself.
fn status_of(screen: &Screen, progress: Progress) -> Status {
    let (next, reported) = screen.reader.progress();
    let session = progress.session;
    Status {
        session,
        hours: None,
        time: 0,
        messages: next.saturating_sub(1),
        missing: reported.saturating_sub(next),
        asked: progress.asked,
        is_over: progress.is_over,
    }
}

impl<'a, R: Wait + Clock> Observer for WebObserver<'a, R> {
    fn look(&mut self, screen: &Screen) {
        if let Some(bytes) = screen.reader.peek() {
            if let Some(message) = decode(bytes.as_slice()) {
                self.recorder.look(&message, &screen.book);
            }
        }
    }

    fn note(&mut self, message: &Feed, book: &FeedBook) -> Result<(), WatchError> {
        Ok(self.recorder.note(message, book)?)
    }

    fn hear(
        &mut self,
        screen: &Screen,
        progress: Progress,
        now: Instant,
    ) -> Result<(), WatchError> {
        let status = status_of(screen, progress);
        Ok(
            self.recorder
                .tell(self.rt, self.post, status, &screen.book, now)?,
        )
    }
}
