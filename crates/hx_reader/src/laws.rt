//! The laws of a reader, over its definitions alone: whatever datagrams come. Each function is a
//! proved statement, and does nothing.
ghost use Rattle.hx_reader.specs.Runs.{InOrder, Whole, NothingNew};

/// If each packet of the session says what is so of one feed, then what was handed out is a beginning
/// of that feed, in order and each message once, whatever is lost, repeated, reordered, malformed or
/// of another session.
pub fn in_order()
    ensures { InOrder }
{}

/// And if the reader says that it is whole, it is the whole feed.
pub fn whole()
    ensures { Whole }
{}

/// Bytes that are no packet, packets of other sessions, and packets that bring nothing new change
/// nothing.
pub fn nothing_new()
    ensures { NothingNew }
{}
