//! Laws of a log and of its readers and writers. Each function is a proved statement, and does nothing.
ghost use Rattle.hx_fenced_log.specs.TermLaws.{TakenGrows, DeposedDoNotCount, OneIsAhead, OneWriterATerm, NextCounts, TakeoverCounts, TakeoverAddsNothing};
ghost use Rattle.hx_fenced_log.specs.LogLaws.{NoneIsReportedOtherwise, OneTakesFirst, WhatIsReadStands};
ghost use Rattle.hx_fenced_log.specs.JournalLaws.{NothingDurableIsLost, TheNextReadsWhatIsLeft};

/// What is taken of a shorter log is a beginning of what is taken of a longer one.
pub fn what_is_taken_grows()
    ensures { TakenGrows }
{}

/// After a record that counts, none of an earlier term counts, whatever stands between.
pub fn the_deposed_do_not_count()
    ensures { DeposedDoNotCount }
{}

/// Of two readers of one log, what one has taken is a beginning of what the other has taken, however far each has read.
pub fn of_two_readers_one_is_ahead()
    ensures { OneIsAhead }
{}

/// All records of one term that count are by one writer.
pub fn a_term_has_one_writer()
    ensures { OneWriterATerm }
{}

/// The next record of the writer whose term stands counts. So does a takeover, which adds no line, and after it the
/// next record is its writer's.
pub fn who_stands_goes_on()
    ensures next { NextCounts }
    ensures takeover { TakeoverCounts }
    ensures nothing { TakeoverAddsNothing }
{}

/// For whatever two processes reported of one log, one is a beginning of the other: whichever of them was the active
/// writer when, whatever calls failed, and whatever of their records came late.
pub fn none_is_reported_otherwise()
    ensures { NoneIsReportedOtherwise }
{}

/// Of the lines that are taken of two beginnings of one log, one list is a beginning of the other.
pub fn of_two_one_is_ahead()
    ensures { OneTakesFirst }
{}

/// What is read of a log is read of it however it grows.
pub fn what_is_read_stands()
    ensures { WhatIsReadStands }
{}

/// The active writer of a later term publishes all that was durable in an earlier one, whatever calls failed.
pub fn nothing_durable_is_lost()
    ensures { NothingDurableIsLost }
{}

/// What the next active writer has read before it takes over is what is left if the writer before it stops.
pub fn the_next_reads_what_is_left()
    ensures { TheNextReadsWhatIsLeft }
{}
