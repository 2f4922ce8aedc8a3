//! The laws that join the venue and a reader of its feed. Each function is a proved statement, and
//! does nothing.
ghost use Rattle.hx_reader_laws.specs.Screens.{AtAnEvent, WithinAnEvent, HasNoFault, IsTheBook, IsAllOfIt};
ghost use Rattle.hx_reader_laws.specs.Venues.{PacketsCarry, StaysPublisher};
ghost use Rattle.hx_reader_laws.specs.Calls.{RunsSo, ShowsTheBook};

/// A reader that has applied the feed of a beginning of the venue's history, and nothing else, shows
/// the shown live orders after that beginning; and the feed of a beginning is a beginning of the feed.
pub fn at_an_event()
    ensures { AtAnEvent }
{}

/// A reader that has applied any beginning of the feed shows the shown live orders after some beginning of the history,
/// with a beginning of the next event's messages applied to them.
pub fn within_an_event()
    ensures { WithinAnEvent }
{}

/// What a screen shows is the venue's book. Whatever datagrams come, lost, repeated, reordered, malformed or of another
/// session, as long as those of the session carry the venue's feed: the messages that a reader hands out can be read
/// and are a beginning of the feed; if that ends with an event, their book is the venue's shown orders then, and no
/// shown buy of a stock has a price at or above a shown sell of it.
pub fn is_the_book()
    ensures { IsTheBook }
{}

/// And if the reader says that it is whole, they are all of the feed, and their book is the venue's shown orders in the
/// end.
pub fn is_all_of_it()
    ensures { IsAllOfIt }
{}

/// What a venue sends says what is so of its feed: each packet that a turn of its publisher gives, each answer to a
/// request, and the packet that ends the session once all is sent. A publisher of a feed stays one.
pub fn packets_carry<M>()
    ensures packets { PacketsCarry M }
    ensures stays { StaysPublisher M }
{}

/// After any calls of a screen its reader is that of its steps, and its book that of the messages that it has handed
/// out.
pub fn runs_so()
    ensures { RunsSo }
{}

/// No message of a history's feed has a fault: each is one of a feed with the book of those before it. It holds of
/// every list of events, also of those that a market would refuse.
pub fn has_no_fault()
    ensures { HasNoFault }
{}

/// What a screen shows is the venue's book: after any calls of a new screen that receives of its session what the
/// venue sends of a recorded history's feed, whatever is lost, repeated, reordered or of another session, and whichever
/// steps found no memory.
pub fn shows_the_book<M>()
    ensures { ShowsTheBook M }
{}
