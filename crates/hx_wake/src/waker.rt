//! One waker.

use libc::net;
use libc::types::pollfd;
use os::FromRawFd;
use std::os::fd::{AsRawFd, OwnedFd};
use std::sync::atomic::{AtomicBool, Ordering};
use std::time::Duration;

// The longest wait at a waker for which the system had no counter, in milliseconds: no thread can wake it.
const LOOK_AGAIN: u64 = 20;

// The longest wait at any other, in seconds.
const LONGEST: u64 = 60;

/// Wakes one waiting thread, over a counter of the system's (`eventfd(2)`, `poll(2)`). A wake costs a system call only
/// if the thread waits, and one for any number of wakes: the thread calls `arm`, then looks whether there is something
/// to do, and waits if not. A thread that gives it something to do calls `wake` after that.
#[derive(Drop)]
pub struct Waker {
    counter: Option<OwnedFd>,
    is_armed: AtomicBool,
}

impl Waker {
    /// A waker at which no thread waits.
    pub fn new() -> Waker {
        let number = net::eventfd(0, net::EFD_CLOEXEC | net::EFD_NONBLOCK);
        let counter = if number < 0 {
            None
        } else {
            Some(unsafe { OwnedFd::from_raw_fd(number) })
        };
        Waker {
            counter,
            is_armed: AtomicBool::new(false),
        }
    }

    /// From now on a wake ends the next wait.
    pub fn arm(&self) {
        self.is_armed.swap(true, Ordering::SeqCst);
    }

    /// Ends the wait that is under way, or the next one, if `arm` was called since the last.
    pub fn wake(&self) {
        if self.is_armed.swap(false, Ordering::SeqCst) {
            if let Some(counter) = &self.counter {
                libc::write(counter.as_raw_fd(), &1u64.to_ne_bytes());
            }
        }
    }

    /// Sleeps until it wakes, or until a read of the source would not wait, or until this time is over. Returns whether
    /// a read would not wait. It may end before that, as by a signal.
    pub fn wait<S: AsRawFd>(&self, source: &S, limit: Duration) -> bool {
        self.poll(source.as_raw_fd(), limit)
    }

    /// Sleeps until it wakes, or until this time is over. It may end before that, as by a signal.
    pub fn sleep(&self, limit: Duration) {
        self.poll(-1, limit);
    }

    // The same: no number below 0 is that of a source.
    fn poll(&self, source: i32, limit: Duration) -> bool {
        let counter = match &self.counter {
            Some(counter) => counter.as_raw_fd(),
            None => -1,
        };
        let mut wanted = [
            pollfd {
                fd: source,
                events: net::POLLIN,
                revents: 0,
            },
            pollfd {
                fd: counter,
                events: net::POLLIN,
                revents: 0,
            },
        ];
        net::poll(&mut wanted, self.patience(limit));
        self.is_armed.store(false, Ordering::SeqCst);
        if wanted[1].revents != 0 {
            libc::read(counter, &mut [0u8; 8]);
        }
        wanted[0].revents != 0
    }

    // A time in milliseconds, rounded up.
    fn patience(&self, limit: Duration) -> i32 {
        if limit.as_secs() == 0 && limit.subsec_nanos() == 0 {
            return 0;
        }
        let most = match &self.counter {
            Some(_) => LONGEST * 1_000,
            None => LOOK_AGAIN,
        };
        let millis = limit.as_secs().min(LONGEST) * 1_000 + u64::from(limit.subsec_millis());
        (millis + 1).min(most) as i32
    }
}
