//! Laws of messages in the log, over the definitions alone. Each function is a proved statement, and does nothing.
ghost use Rattle.hx_retransmit.specs.Looks.{SeesTheFeed};

/// After a look the messages of a log that can be asked for are the feed of what its reader knows: so what a turn of a
/// publisher sends, and what a server answers, are messages of that feed, under their numbers.
pub fn sees_the_feed<E>()
    ensures { SeesTheFeed E }
{}
