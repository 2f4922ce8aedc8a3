//! The heartbeat of the active writer: how it is written, and how a standby reads it, and the operator's word.

use crate::leaving::is_named;
use hx_day_log::{News, Watch};
use hx_etcd_log::{Heartbeats, Nodes, TcpNodes};
use std::net::{Net, TcpStream};
use std::rt::Clock;
use std::sync::atomic::{AtomicBool, Ordering};
use std::thread;
use std::time::{Duration, Instant};

// The interval, in milliseconds, at which a heartbeat is written.
const SHOW_AGAIN: u64 = 200;

// The interval, in milliseconds, at which a standby reads the log and the heartbeat.
const LOOK_AGAIN: u64 = 20;

/// The heartbeat of the active writer.
#[derive(Drop)]
pub struct Heartbeat<'x, N> {
    /// The keys of the heartbeat and of the operator's word.
    pub heartbeats: Heartbeats<N>,
    /// Its number.
    pub writer: u64,
    /// Whether this writer has resigned.
    pub has_left: &'x AtomicBool,
}

impl<'x, N: Nodes + Drop> Heartbeat<'x, N> {
    /// Writes heartbeats until the day is over, or until the operator has the writer resign.
    pub fn run<R: AllocGlobal + Clock>(self, rt: &R, is_over: &AtomicBool) {
        let Heartbeat {
            mut heartbeats,
            writer,
            has_left,
        } = self;
        for beat in 0..u64::MAX {
            if is_over.load(Ordering::SeqCst) {
                return;
            }
            if is_named(rt.alloc(), &mut heartbeats, writer) {
                has_left.store(true, Ordering::SeqCst);
                return;
            }
            if let Ok(heartbeat) = format!(in rt.alloc(); "{beat}") {
                heartbeats.show(writer, heartbeat.as_bytes());
            }
            thread::sleep(rt, Duration::from_millis(SHOW_AGAIN));
        }
    }
}

/// A standby's watch on the heartbeat of the active writer, and on what the operator says of that writer.
#[derive(Drop)]
pub struct HeartbeatWatch<'x, R> {
    rt: &'x R,
    heartbeats: Heartbeats<TcpNodes<'x, R>>,
    patience: Duration,
    // The heartbeat that was seen last.
    heartbeat: Option<Vec<u8>>,
    // Since when nothing new was seen.
    since: Option<Instant>,
    // The writer whom the operator has had resign.
    leaver: Option<u64>,
}

impl<'x, R: Net<Stream = TcpStream>> HeartbeatWatch<'x, R> {
    /// Nothing is seen yet. A writer without a new heartbeat for this long is gone.
    pub fn new(
        rt: &'x R,
        heartbeats: Heartbeats<TcpNodes<'x, R>>,
        patience: Duration,
    ) -> HeartbeatWatch<'x, R> {
        HeartbeatWatch {
            rt,
            heartbeats,
            patience,
            heartbeat: None,
            since: None,
            leaver: None,
        }
    }
}

impl<'x, R: AllocGlobal + Net<Stream = TcpStream> + Clock> HeartbeatWatch<'x, R> {
    // Whether the operator has this writer resign. Once that is known, no node is asked again.
    fn is_leaving(&mut self, writer: u64) -> bool {
        if self.leaver != Some(writer) && is_named(self.rt.alloc(), &mut self.heartbeats, writer) {
            self.leaver = Some(writer);
        }
        self.leaver == Some(writer)
    }

    // Reads a writer's heartbeat, and returns whether it is the one that was seen last. It is not if no node answers.
    fn is_same(&mut self, writer: u64) -> bool {
        let Ok(heartbeat) = self.heartbeats.seen(writer) else {
            return false;
        };
        let is_same = heartbeat.as_deref() == self.heartbeat.as_deref();
        self.heartbeat = heartbeat;
        is_same
    }

    // Whether nothing new was seen for too long.
    fn is_late(&self) -> bool {
        match &self.since {
            Some(since) => match since.elapsed(self.rt) {
                Ok(time) => time >= self.patience,
                Err(_) => false,
            },
            None => false,
        }
    }
}

impl<'x, R: AllocGlobal + Net<Stream = TcpStream> + Clock> Watch for HeartbeatWatch<'x, R> {
    fn is_gone(&mut self, news: News, holder: u64) -> bool {
        if self.is_leaving(holder) {
            return true;
        }
        if news == News::Some {
            self.since = None;
            return false;
        }
        let is_quiet = self.is_same(holder) && news == News::None;
        if !is_quiet || self.since.is_none() {
            self.since = Instant::now(self.rt).ok();
        } else if self.is_late() {
            self.since = None;
            return true;
        }
        thread::sleep(self.rt, Duration::from_millis(LOOK_AGAIN));
        false
    }
}
