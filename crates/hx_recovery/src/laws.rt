//! The laws that join an exchange, its journal, the exchange that resumes after a crash, and a replay of the day. Each
//! function is a proved statement, and does nothing.
ghost use Rattle.hx_recovery.specs.Recovery.{SentIsReadBack, ReadIsResumed, PublishedIsPublishedAgain, PublishedAgainAtOnce, AtAnyMoment, VouchedIsCovered, LeftIsOfTheHistory, QuietStaysQuiet, NothingAcross};
ghost use Rattle.hx_recovery.specs.Served.{ReplayIsSuch, ServedDayReplays, NoLineStops};

/// An event that can be sent is read back from its record. From events that were read from records, one from each, an
/// exchange may resume, with a journal that holds these records; and such events are read from their records.
pub fn records_are_read_back()
    ensures sent { SentIsReadBack }
    ensures resumed { ReadIsResumed }
{}

/// What was published is published again. Whatever anybody knew when a crash came, and whatever records the crash left
/// after those of what was known: an exchange that resumes from the events of the records publishes all of it again, in
/// the same order and so under the same numbers, and only then more. It does so at once, and whatever is recorded from
/// then on.
pub fn published_is_published_again()
    ensures at_once { PublishedAgainAtOnce }
    ensures later { PublishedIsPublishedAgain }
{}

/// What a crash leaves begins with the records of all that anybody knows: at any moment, also while a batch is written,
/// since what is published is durable; and if a receipt vouches for what a reader knows, the same holds of the reader.
pub fn known_is_left()
    ensures at_any_moment { AtAnyMoment }
    ensures vouched { VouchedIsCovered }
{}

/// A crash adds nothing: the events that an exchange resumes from are a beginning of the history whose records were
/// written, so that the market accepts them, and what the exchange publishes of them is a beginning of what that
/// history publishes.
pub fn left_is_of_the_history()
    ensures { LeftIsOfTheHistory }
{}

/// Quiet orders leave no trace in what is published after a crash, of events from before it and of those recorded
/// since; nor in what was published before it, for any choice of whole chains that are quiet in the end.
pub fn quiet_stays_quiet()
    ensures since { QuietStaysQuiet }
    ensures across { NothingAcross }
{}

/// A day that was served is replayed as it was published. The tape of the records of a history that the market accepts,
/// of events that are read back, is taken by `replay` whole, and whatever a replay of it writes is the output of the
/// history: its lines of the feed are the feed, and its lines to each member the replies to that member, numbers
/// included. What `replay` does if it answers Ok is, by its contract, such a replay of what its reader had; and it
/// stops at none of these lines.
pub fn served_day_replays()
    ensures contract { ReplayIsSuch }
    ensures same { ServedDayReplays }
    ensures no_line { NoLineStops }
{}
