//! Heartbeats, by which the other end knows that nothing was lost while nothing is sent.
ghost use Rattle.std.specs.Prelude.{◌≡◌};
ghost use Rattle.hx_units.specs.Heartbeats.{is_due};

// A heartbeat is due after this time without a packet, in nanoseconds.
const SILENCE: u64 = 1_000_000_000;

/// Whether a heartbeat is due at the time `now`, if the last packet went out at the time `last`, both in nanoseconds:
/// after a second, or when the clock went back (MoldUDP64 1.00, Heartbeats; SoupBinTCP 3.00, Heartbeats).
pub fn is_heartbeat_due(last: u64, now: u64) -> bool
    ensures { result ≡ is_due last now }
{
    now < last || now - last >= SILENCE
}
