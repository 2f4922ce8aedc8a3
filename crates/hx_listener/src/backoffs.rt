//! Failed logins: the next one of the same address waits.
ghost use Rattle.std.specs.Prelude.{◌≡◌};
ghost use Rattle.hx_listener.specs.Backoffs.{backoff_after};

use std::alloc::{AllocError, Global};
use std::net::IpAddr;

// The failed logins of 1,024 addresses are known. Those of one more, and those of the address that failed the longest
// time ago are forgotten.
const ROOM: usize = 1_024;

// After this number of milliseconds without another one the failed logins of an address are forgotten.
const FORGOTTEN: u64 = 300_000;

// Milliseconds of a second.
const SECOND: u64 = 1_000;

/// How long the next login of an address waits after n failed ones, in seconds.
pub fn backoff_after(failures: u32) -> u64
    ensures { result ≡ backoff_after failures }
{
    match failures {
        0 => 0,
        1 => 1,
        2 => 2,
        3 => 4,
        4 => 8,
        5 => 16,
        _ => 30,
    }
}

// The failed logins of an address, and when the last one was.
#[derive(Clone, Copy, Drop)]
struct Failed {
    source: IpAddr,
    logins: u32,
    last: u64,
}

/// The failed logins of each address since its last good one. Times are in milliseconds from one beginning.
#[derive(Drop)]
pub struct Backoffs {
    // The address that failed the longest time ago is the first.
    failed: Vec<Failed>,
}

impl Backoffs {
    /// No login has failed.
    pub fn new(alloc: Global) -> Result<Backoffs, AllocError> {
        Ok(Backoffs {
            failed: Vec::with_capacity(alloc, ROOM)?,
        })
    }

    // Where the failed logins of an address are.
    fn slot_of(&self, source: IpAddr) -> Option<usize> {
        self.failed
            .iter()
            .position(|failed| failed.source == source)
    }

    /// From when on the next login of an address is looked up.
    pub fn end(&self, source: IpAddr) -> u64 {
        let Some(failed) = self.slot_of(source).and_then(|slot| self.failed.get(slot)) else {
            return 0;
        };
        failed
            .last
            .saturating_add(backoff_after(failed.logins) * SECOND)
    }

    /// A login of this address has failed now.
    pub fn fail(&mut self, source: IpAddr, now: u64) {
        self.failed
            .retain(|failed| now.saturating_sub(failed.last) < FORGOTTEN);
        let before = self.take(source);
        if self.failed.len() >= ROOM {
            self.failed.remove(0);
        }
        let _ = self.failed.push(Failed {
            source,
            logins: before.saturating_add(1),
            last: now,
        });
    }

    /// A login of this address was good.
    pub fn forget(&mut self, source: IpAddr) {
        let _ = self.take(source);
    }

    // Takes the failed logins of an address out, and returns how many there were.
    fn take(&mut self, source: IpAddr) -> u32 {
        match self.slot_of(source) {
            Some(slot) if slot < self.failed.len() => self.failed.remove(slot).logins,
            _ => 0,
        }
    }
}
