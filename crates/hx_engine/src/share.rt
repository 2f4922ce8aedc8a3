//! The part of the lock's time that one session may take by orders that the market passes over for it.
ghost use Rattle.std.specs.Prelude.{◌*◌, ◌≡◌, min};

use crate::exchange::Exchange;
use crate::venue::Venue;
use hx_journal::Journal;

// The time that the market takes to pass over one order that is far from the one before it in memory, in nanoseconds.
const PASSING: u64 = 40;

impl<V: Venue, J: Journal + Drop> Exchange<V, J> {
    /// The same, but the market passes over orders for one session for this part of the time at most, in percent, 1 to
    /// 100: a session whose messages took more rests until its part is down to it. Of a new exchange it is 100.
    pub fn with_share(self, percent: u64) -> Self {
        let percent = percent.clamp(1, 100);
        let mut exchange = self;
        exchange.rest = PASSING * (100 - percent) / percent;
        exchange
    }

    /// For how many nanoseconds a session rests if the market has passed over `passed` orders for its messages.
    pub fn rest_for(&self, passed: u64) -> u64 {
        passed.saturating_mul(self.rest)
    }
}
