//! How often requests are answered: the address of a datagram's sender can be forged, so that answers without a limit
//! could flood somebody else.
ghost use Rattle.std.specs.Prelude.{◌≤◌};

use std::net::SocketAddr;

// The number of sources that have a limit of their own in one second; the sources after them share what is left in all.
const SOURCES: usize = 64;

// The limit of all answers, as a multiple of the limit for one source.
const ALL: u64 = 8;

const SECOND: u64 = 1_000_000_000;

// What one source was answered within the second.
#[derive(Clone, Copy, Drop)]
struct Source {
    from: SocketAddr,
    answers: u64,
}

/// The answers of the present second, in all and to each source.
#[derive(Drop)]
pub struct Rate {
    // The most answers a second to one source.
    each: u32,
    second: u64,
    answers: u64,
    sources: [Option<Source>; SOURCES],
    // Whether a request was refused within the second.
    refused: bool,
}

impl Rate {
    /// At most `each` answers a second to each source, and eight times that number in all.
    pub fn of(each: u32) -> Rate {
        Rate {
            each,
            second: 0,
            answers: 0,
            sources: [None; SOURCES],
            refused: false,
        }
    }

    // The slot of a source, or else a free one.
    fn slot_of(&self, from: SocketAddr) -> Option<usize> {
        let mut free = None;
        for i in 0..SOURCES {
            let source = self.sources[i];
            match source {
                Some(source) if source.from == from => return Some(i),
                Some(_) => {}
                None => {
                    if free.is_none() {
                        free = Some(i);
                    }
                }
            }
        }
        free
    }

    // Begins anew in another second.
    fn turn(&mut self, now: u64) {
        let second = now / SECOND;
        if second != self.second {
            self.second = second;
            self.answers = 0;
            self.sources = [None; SOURCES];
            self.refused = false;
        }
    }

    /// Counts an answer to a source at the time of day, in nanoseconds, and returns whether it may go out.
    pub fn allows(&mut self, from: SocketAddr, now: u64) -> bool {
        self.turn(now);
        let each = u64::from(self.each);
        if self.answers >= ALL * each {
            return false;
        }
        if let Some(slot) = self.slot_of(from)
            && slot < SOURCES
        {
            let source = self.sources[slot];
            let answers = match source {
                Some(source) => source.answers,
                None => 0,
            };
            if answers >= each {
                return false;
            }
            self.sources[slot] = Some(Source {
                from,
                answers: answers.saturating_add(1),
            });
        }
        self.answers = self.answers.saturating_add(1);
        true
    }

    /// Whether this is the first request that is refused within the second.
    pub fn is_first_refused(&mut self) -> bool {
        let first = !self.refused;
        self.refused = true;
        first
    }
}
