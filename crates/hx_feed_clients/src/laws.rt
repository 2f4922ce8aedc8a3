//! The law of a relay, over its definitions alone. The function is a proved statement, and does nothing.
ghost use Rattle.hx_feed_clients.specs.Relays.{KeepsTheFeed};

/// If each packet of the session says what is so of one feed, then the messages that a relay answers from are a beginning
/// of that feed, under their numbers, whatever is lost, repeated, reordered, malformed or of another session; all of them
/// once it is whole.
pub fn keeps_the_feed()
    ensures { KeepsTheFeed }
{}
