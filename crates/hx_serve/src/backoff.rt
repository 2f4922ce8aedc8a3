//! How a worker with nothing to do rests.
ghost use Rattle.std.specs.Prelude.{◌≤◌, ◌≡◌};

use std::thread;
use std::time::{Clock, Duration};

// In microseconds. The system adds some fifty.
const LEAST: u64 = 20;

const MOST: u64 = 160;

/// The next rest: short after there was something to do, and twice as long each time after, up to a limit.
#[derive(Clone, Copy, Drop)]
pub struct Rest {
    micros: u64,
    ghost short: { micros ≤ 160 },
}

impl Rest {
    /// The shortest.
    pub fn new() -> Rest {
        Rest { micros: LEAST }
    }

    /// Sleeps, and longer the next time.
    pub fn sleep<T: Clock>(&mut self, rt: &T) {
        thread::sleep(rt, Duration::from_micros(self.micros));
        self.micros = (2 * self.micros).min(MOST);
    }
}
