//! What was measured.

use std::io;
use std::rt::Clock;
use std::time::Instant;

/// Prints what was done since `begun`, and on standard error how long it took, in nanoseconds.
pub fn report<R: Print + Eprint + Clock>(
    rt: &R,
    begun: Instant,
    what: &str,
    count: u64,
    unit: &str,
) -> io::Result<()> {
    let took = begun.elapsed(rt)?.as_nanos();
    println!(rt; "{what}: {count} {unit}")?;
    eprintln!(rt; "{took}")
}
